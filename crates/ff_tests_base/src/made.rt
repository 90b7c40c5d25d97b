// What tests make of lists of numbers: polynomials in x, and in x and y.
ghost use Rattle.std.specs.Prelude.{◌≡◌, length, vec_len, IfOk};
ghost use Rattle.std.specs.List.{All};
ghost use Rattle.ff_theory.specs.Ring.{IsElement};
ghost use Rattle.ff_theory.specs.PrimeTable.{prime_elements};
ghost use Rattle.ff_theory.specs.Values.{IsPoly, IsPlane};

use ff_alg::FiniteField;
use ff_poly::{Plane, Poly};
use ff_prime::Prime;
use std::alloc::Global;
use std::test::Fail;

/// The prime field of `n` elements.
pub fn field(n: u64) -> Result<Prime, Fail> {
    let k = Prime::of(n).ok_or("a prime of the table")?;
    Ok(k)
}

/// The elements with these indices.
pub fn elements(alloc: Global, k: &Prime, indices: &[u64]) -> Result<Vec<u32>, Fail>
    ensures len { IfOk result (λ v. vec_len v ≡ length indices.now) }
    ensures each { let F = prime_elements k.now.number in
        IfOk result (λ v. All (IsElement F) v.items) }
{
    let mut items = Vec::new(alloc);
    for i in indices {
        if *i >= k.count() {
            return Err(Fail::from("an index of an element"));
        }
        items.push(k.nth(*i))?;
    }
    Ok(items)
}

/// The polynomial with these coefficients, by rising power.
pub fn poly(alloc: Global, k: &Prime, c: &[u64]) -> Result<Poly, Fail>
    ensures { IfOk result (IsPoly (prime_elements k.now.number)) }
{
    let items = elements(alloc, k, c)?;
    let p = Poly::from_coeffs(alloc, k, &items)?;
    Ok(p)
}

/// Whether a polynomial has the coefficients `want`, by rising power.
pub fn is(k: &Prime, p: &Poly, want: &[u64]) -> bool
    requires { IsPoly (prime_elements k.now.number) p.now }
{
    let c = p.coeffs();
    if c.len() != want.len() {
        return false;
    }
    for i in 0..c.len() {
        if k.index(c[i]) != want[i] {
            return false;
        }
    }
    true
}

/// The polynomial `rows[0] + rows[1] * y + rows[2] * y^2`.
pub fn plane(alloc: Global, k: &Prime, rows: [&[u64]; 3]) -> Result<Plane, Fail>
    ensures { IfOk result (IsPlane (prime_elements k.now.number)) }
{
    let rows = [
        poly(alloc, k, rows[0])?,
        poly(alloc, k, rows[1])?,
        poly(alloc, k, rows[2])?,
    ];
    let f = Plane::from_rows(alloc, k, &rows)?;
    Ok(f)
}
