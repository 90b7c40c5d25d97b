// Polynomials in z at alpha * z + beta, and quotients of coordinates.
ghost use Rattle.std.specs.Prelude.{◌≡◌, ◌<◌, [], ◌∷◌, length, IfOk, IfSome, IfNone};
ghost use Rattle.std.specs.List.{All};
ghost use Rattle.ff_theory.specs.Ring.{IsElement};
ghost use Rattle.ff_theory.specs.Divides.{Divides};
ghost use Rattle.ff_theory.specs.Poly.{poly};
ghost use Rattle.ff_theory.specs.Values.{poly_of, IsPoly, ArePolys, polys_over};
ghost use Rattle.ff_ring.specs.Entries.{entry_at, AreEntries};
ghost use Rattle.ff_ring.specs.Affine.{affine_at, value_of_list, AreQuotients, DividesEach};

use ff_alg::{FiniteField, NoMemory};
use ff_elem::PolyList;
use ff_poly::Poly;
use std::alloc::Global;

/// The sum `c + line * value`.
fn step<K: FiniteField<E = u32>>(
    alloc: Global,
    k: &K,
    c: u32,
    line: &Poly,
    value: &Poly,
) -> Result<Poly, NoMemory>
    requires c { IsElement (K.elements k.now) c }
    requires line { IsPoly (K.elements k.now) line.now }
    requires old { IsPoly (K.elements k.now) value.now }
    ensures poly { IfOk result (IsPoly (K.elements k.now)) }
    ensures value { let F = K.elements k.now in let P = polys_over F in
        IfOk result (λ r. poly_of F r ≡
        P.add (poly_of F (c ∷ [])) (P.mul (poly_of F line.now) (poly_of F value.now))) }
{
    let product = line.mul(alloc, k, value)?;
    let constant = Poly::from_coeffs(alloc, k, &[c])?;
    constant.add(alloc, k, &product)
}

/// The polynomial with the coefficients c at a polynomial.
fn value_at_line<K: FiniteField<E = u32>>(
    alloc: Global,
    k: &K,
    c: &[u32],
    line: &Poly,
) -> Result<Poly, NoMemory>
    requires c { All (IsElement (K.elements k.now)) c.now }
    requires line { IsPoly (K.elements k.now) line.now }
    ensures poly { IfOk result (IsPoly (K.elements k.now)) }
    ensures value { let F = K.elements k.now in
        IfOk result (λ r. poly_of F r ≡ value_of_list F (poly_of F line.now) c.now) }
{
    let mut value = Poly::zero(alloc);
    let mut i = c.len();
    while i > 0 {
        i -= 1;
        value = step(alloc, k, c[i], line, &value)?;
    }
    Ok(value)
}

/// The polynomial p at `alpha * z + beta`. `NoMemory` is the only error.
pub fn affine<K: FiniteField<E = u32>>(
    alloc: Global,
    k: &K,
    p: &Poly,
    alpha: u32,
    beta: u32,
) -> Result<Poly, NoMemory>
    requires p { IsPoly (K.elements k.now) p.now }
    requires alpha { IsElement (K.elements k.now) alpha }
    requires beta { IsElement (K.elements k.now) beta }
    ensures poly { IfOk result (IsPoly (K.elements k.now)) }
    ensures value { let F = K.elements k.now in
        IfOk result (λ r. poly_of F r ≡ affine_at F alpha beta (poly_of F p.now)) }
{
    let line = Poly::from_coeffs(alloc, k, &[beta, alpha])?;
    value_at_line(alloc, k, p.coeffs(), &line)
}

/// The polynomials at `alpha * z + beta`. `NoMemory` is the only error.
pub fn affine_each<K: FiniteField<E = u32>>(
    alloc: Global,
    k: &K,
    list: &[Poly],
    alpha: u32,
    beta: u32,
) -> Result<PolyList, NoMemory>
    requires list { ArePolys (K.elements k.now) list.now }
    requires alpha { IsElement (K.elements k.now) alpha }
    requires beta { IsElement (K.elements k.now) beta }
    ensures { let F = K.elements k.now in
        IfOk result (AreEntries F (length list.now)
        (λ i. affine_at F alpha beta (entry_at F list.now i))) }
{
    let mut items = Vec::with_capacity(alloc, list.len())?;
    for i in 0..list.len() {
        items.push(affine(alloc, k, &list[i], alpha, beta)?)?;
    }
    Ok(PolyList { items })
}

/// The quotient by q; None where there is a remainder.
fn quotient<K: FiniteField<E = u32>>(
    alloc: Global,
    k: &K,
    p: &Poly,
    q: &Poly,
) -> Result<Option<Poly>, NoMemory>
    requires p { IsPoly (K.elements k.now) p.now }
    requires q { IsPoly (K.elements k.now) q.now }
    requires nonzero { 0 < length q.now }
    ensures poly { IfOk result (λ o. IfSome o (IsPoly (K.elements k.now))) }
    ensures value { let F = K.elements k.now in let P = polys_over F in
        IfOk result (λ o. IfSome o (λ r.
        poly_of F p.now ≡ P.mul (poly_of F r) (poly_of F q.now))) }
    ensures none { let F = K.elements k.now in let P = polys_over F in
        IfOk result (λ o. IfNone o (¬ Divides P (poly_of F q.now) (poly_of F p.now))) }
{
    let (quotient, remainder) = p.divide(alloc, k, q)?;
    if remainder.is_zero() {
        return Ok(Some(quotient));
    }
    Ok(None)
}

/// The quotient of each polynomial by q, which is not 0; None exactly where q does not divide all
/// of them. `NoMemory` is the only error.
pub fn divide_each<K: FiniteField<E = u32>>(
    alloc: Global,
    k: &K,
    a: &[Poly],
    q: &Poly,
) -> Result<Option<PolyList>, NoMemory>
    requires a { ArePolys (K.elements k.now) a.now }
    requires q { IsPoly (K.elements k.now) q.now }
    requires nonzero { 0 < length q.now }
    ensures some { let F = K.elements k.now in
        IfOk result (λ o. IfSome o (AreQuotients F a.now q.now (length a.now))) }
    ensures none { let F = K.elements k.now in
        IfOk result (λ o. IfNone o (¬ DividesEach F a.now q.now)) }
{
    let mut items = Vec::with_capacity(alloc, a.len())?;
    for i in 0..a.len() {
        match quotient(alloc, k, &a[i], q)? {
            Some(quotient) => items.push(quotient)?,
            None => return Ok(None),
        }
    }
    Ok(Some(PolyList { items }))
}
