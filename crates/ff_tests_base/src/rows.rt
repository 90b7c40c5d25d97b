// Lists of polynomials in x, which are the rows of polynomials in x and y.
ghost use Rattle.ff_theory.specs.PrimeTable.{prime_elements};
ghost use Rattle.ff_theory.specs.Values.{ArePolys};

use crate::made::{field, plane, poly};
use ff_poly::{Plane, Poly, rows};
use ff_prime::Prime;
use std::alloc::Global;
use std::test::Fail;

// The rows of a polynomial, by rising power of y: their coefficients by rising power of x.
type Rows = [&'static [u64]; 3];

// y + x, y - x, 2 * y + 2 * x and y^2 - x^2 over three elements.
const PLUS: Rows = [&[0, 1], &[1], &[]];

const MINUS: Rows = [&[0, 2], &[1], &[]];

const NEGATIVE: Rows = [&[0, 2], &[2], &[]];

const SQUARES: Rows = [&[0, 0, 2], &[], &[1]];

/// Whether the list has these rows, but for zero rows at its end.
fn rows_are(alloc: Global, k: &Prime, list: Vec<Poly>, want: Rows) -> Result<bool, Fail>
    requires { ArePolys (prime_elements k.now.number) list.items }
{
    let want = plane(alloc, k, want)?;
    let f = Plane::from_vec(k, list);
    Ok(f.same(k, &want))
}

/// Whether the sums have these rows.
fn sums_are(alloc: Global, k: &Prime, a: Rows, b: Rows, want: Rows) -> Result<bool, Fail> {
    let a = plane(alloc, k, a)?;
    let b = plane(alloc, k, b)?;
    rows_are(alloc, k, rows::sums(alloc, k, a.rows(), b.rows())?, want)
}

/// Whether the rows of the product are these.
fn products_are(alloc: Global, k: &Prime, a: Rows, b: Rows, want: Rows) -> Result<bool, Fail> {
    let a = plane(alloc, k, a)?;
    let b = plane(alloc, k, b)?;
    rows_are(
        alloc,
        k,
        rows::products(alloc, k, a.rows(), b.rows())?,
        want,
    )
}

/// Whether the negatives have these rows.
fn negatives_are(alloc: Global, k: &Prime, a: Rows, want: Rows) -> Result<bool, Fail> {
    let a = plane(alloc, k, a)?;
    rows_are(alloc, k, rows::negatives(alloc, k, a.rows())?, want)
}

/// Whether the products by a polynomial have these rows.
fn multiples_are(alloc: Global, k: &Prime, c: &[u64], a: Rows, want: Rows) -> Result<bool, Fail> {
    let c = poly(alloc, k, c)?;
    let a = plane(alloc, k, a)?;
    rows_are(alloc, k, rows::multiples(alloc, k, &c, a.rows())?, want)
}

/// Whether `c * a + c * y * a` has these rows.
fn combination_is(alloc: Global, k: &Prime, c: &[u64], a: Rows, want: Rows) -> Result<bool, Fail> {
    let c = poly(alloc, k, c)?;
    let a = plane(alloc, k, a)?;
    let list = rows::combination(alloc, k, &c, a.rows(), &c, 1, a.rows())?;
    rows_are(alloc, k, list, want)
}

/// Whether copies are the same rows, and a list of one row has that row.
fn copies_are(alloc: Global, k: &Prime, a: Rows, width: usize) -> Result<bool, Fail> {
    let a = plane(alloc, k, a)?.into_rows();
    let copies = rows::copies(alloc, &a)?;
    Ok(rows::same_rows(k, &copies, &a) && rows::width(&copies) == width)
}

/// Whether a list of one row has this row, and none after it.
fn single_is(alloc: Global, k: &Prime, p: &[u64]) -> Result<bool, Fail> {
    let p = poly(alloc, k, p)?;
    let one = rows::single(alloc, p.copy(alloc)?)?;
    Ok(rows::row(&one, 0) == p.coeffs() && rows::row(&one, 1).is_empty())
}

#[test]
fn sums(rt: HostRuntime) -> Result<(), Fail> {
    let k = field(3)?;
    assert!(rt; sums_are(rt.alloc(), &k, PLUS, NEGATIVE, [&[], &[], &[]])?);
    assert!(rt; negatives_are(rt.alloc(), &k, PLUS, NEGATIVE)?);
    Ok(())
}

#[test]
fn products(rt: HostRuntime) -> Result<(), Fail> {
    let k = field(3)?;
    assert!(rt; products_are(rt.alloc(), &k, PLUS, MINUS, SQUARES)?);
    assert!(rt; multiples_are(rt.alloc(), &k, &[2], PLUS, NEGATIVE)?);
    assert!(rt; combination_is(rt.alloc(), &k, &[1], PLUS, [&[0, 1], &[1, 1], &[1]])?);
    Ok(())
}

#[test]
fn copies(rt: HostRuntime) -> Result<(), Fail> {
    let k = field(3)?;
    assert!(rt; copies_are(rt.alloc(), &k, SQUARES, 3)?);
    assert!(rt; single_is(rt.alloc(), &k, &[1, 2])?);
    Ok(())
}
