// Polynomials from the terms of sums.
ghost use Rattle.std.specs.Prelude.{◌≡◌, ◌+◌, ◌<◌, ◌≤◌, ◌^◌, ℕ, List, [], length, IfOk};
ghost use Rattle.std.specs.Prelude.{replicate, false, slice_index, slice_index_or};
ghost use Rattle.std.specs.List.{All};
ghost use Rattle.ff_prime.specs.Number.{number_of};
ghost use Rattle.ff_theory.specs.PrimeTable.{prime_elements};
ghost use Rattle.ff_theory.specs.Values.{IsPoly, IsPlane};
ghost use Rattle.ff_text.specs.declared.reader.Monomial.{Monomial};
ghost use Rattle.ff_text.specs.Limits.{exceeds};
ghost use Rattle.ff_text.specs.Sums.{total, IsCollected, IsSum, IsSumInX, write_all};

use crate::reader::Monomial;
use ff_alg::NoMemory;
use ff_poly::{Plane, Poly};
use ff_prime::Prime;
use std::alloc::Global;

/// Writes the coefficients of the terms with the power y^j into a row.
fn write_row(row: &mut [u32], terms: &[Monomial], j: u64)
    requires { All (λ m. m.x < length row.old) terms.now }
    ensures { row.new ≡ write_all j row.old terms.now }
{
    for m in terms {
        if m.y == j {
            row[m.x as usize] = m.coefficient;
        }
    }
}

/// The coefficients of the terms with the power y^j, by rising power of x.
fn coefficients(
    alloc: Global,
    terms: &[Monomial],
    j: u64,
    width: usize,
) -> Result<Vec<u32>, NoMemory>
    requires { All (λ m. m.x < width) terms.now }
    ensures { IfOk result (λ r. r.items ≡ write_all j (replicate width 0) terms.now) }
{
    let mut row = vec![in alloc; 0; width]?;
    write_row(&mut row, terms, j);
    Ok(row)
}

/// The row of the power y^j of the sum of the terms: a polynomial in x.
fn row(alloc: Global, k: &Prime, terms: &[Monomial], j: u64, width: usize) -> Result<Poly, NoMemory>
    requires each { All (λ m. m.coefficient < number_of k.now) terms.now }
    requires width { All (λ m. m.x < width) terms.now }
    ensures poly { let F = prime_elements (number_of k.now) in
        IfOk result (IsPoly F) }
    ensures same { let row = write_all j (replicate width 0) terms.now in
        IfOk result (λ r. (i : ℕ) → slice_index r i ≡ slice_index row i) }
{
    let row = coefficients(alloc, terms, j, width)?;
    Poly::from_coeffs(alloc, k, &row)
}

/// The sum of the terms, whose powers of x and y are below the width and the height.
pub fn plane(
    alloc: Global,
    k: &Prime,
    terms: &[Monomial],
    width: usize,
    height: u64,
) -> Result<Plane, NoMemory>
    requires each { All (λ m. m.coefficient < number_of k.now) terms.now }
    requires width { All (λ m. m.x < width) terms.now }
    requires height { All (λ m. m.y < height) terms.now }
    ensures { let p = number_of k.now in
        IfOk result (λ r. (ms : List Monomial) → IsCollected p ms terms.now → IsSum p ms r) }
{
    let mut rows = Vec::new(alloc);
    for j in 0..height {
        rows.push(row(alloc, k, terms, j, width)?)?;
    }
    Plane::from_rows(alloc, k, &rows)
}

/// The sum of the terms without y, whose powers of x are below the width: a polynomial in x.
pub fn polynomial(
    alloc: Global,
    k: &Prime,
    terms: &[Monomial],
    width: usize,
) -> Result<Poly, NoMemory>
    requires each { All (λ m. m.coefficient < number_of k.now) terms.now }
    requires width { All (λ m. m.x < width) terms.now }
    ensures { let p = number_of k.now in
        IfOk result (λ r. (ms : List Monomial) → IsCollected p ms terms.now → IsSumInX p ms r) }
{
    row(alloc, k, terms, 0, width)
}
