// Bivariate polynomials.
ghost use Rattle.std.specs.Prelude.{◌≡◌};
ghost use Rattle.ff_theory.specs.PrimeTable.{prime_elements};
ghost use Rattle.ff_theory.specs.Values.{IsPlane};

use crate::made::{field, is, plane, poly};
use ff_alg::NoMemory;
use ff_poly::{FormFault, MAX_MONIC_DEGREE, MAX_X_DEGREE, MAX_Y_DEGREE, Plane, multipliers};
use ff_prime::Prime;
use std::alloc::Global;
use std::test::Fail;

// The rows of a polynomial, by rising power of y: their coefficients by rising power of x.
type Rows = [&'static [u64]; 3];

// y + x, y - x, 2 * y + 2 * x and y^2 - x^2 over three elements.
const PLUS: Rows = [&[0, 1], &[1], &[]];

const MINUS: Rows = [&[0, 2], &[1], &[]];

const NEGATIVE: Rows = [&[0, 2], &[2], &[]];

const SQUARES: Rows = [&[0, 0, 2], &[], &[1]];

/// Whether the polynomial has these rows.
fn plane_is(alloc: Global, k: &Prime, f: &Plane, want: Rows) -> Result<bool, Fail>
    requires { IsPlane (prime_elements k.now.number) f.now }
{
    let want = plane(alloc, k, want)?;
    Ok(f.same(k, &want))
}

/// Whether the sum has these rows.
fn sum_is(alloc: Global, k: &Prime, a: Rows, b: Rows, want: Rows) -> Result<bool, Fail> {
    let b = plane(alloc, k, b)?;
    let sum = plane(alloc, k, a)?.add(alloc, k, &b)?;
    plane_is(alloc, k, &sum, want)
}

/// Whether the negative has these rows.
fn negative_is(alloc: Global, k: &Prime, a: Rows, want: Rows) -> Result<bool, Fail> {
    let negative = plane(alloc, k, a)?.neg(alloc, k)?;
    plane_is(alloc, k, &negative, want)
}

/// Whether a copy has these rows.
fn copy_is(alloc: Global, k: &Prime, a: Rows, want: Rows) -> Result<bool, Fail> {
    let copy = plane(alloc, k, a)?.copy(alloc)?;
    plane_is(alloc, k, &copy, want)
}

/// Whether the product has these rows.
fn product_is(alloc: Global, k: &Prime, a: Rows, b: Rows, want: Rows) -> Result<bool, Fail> {
    let b = plane(alloc, k, b)?;
    let product = plane(alloc, k, a)?.mul(alloc, k, &b)?;
    plane_is(alloc, k, &product, want)
}

/// Whether the product by a polynomial in x has these rows.
fn multiple_is(alloc: Global, k: &Prime, a: Rows, c: &[u64], want: Rows) -> Result<bool, Fail> {
    let c = poly(alloc, k, c)?;
    let multiple = plane(alloc, k, a)?.scale(alloc, k, &c)?;
    plane_is(alloc, k, &multiple, want)
}

/// Whether a pseudo-division has this factor and this remainder.
fn remainder_is(
    alloc: Global,
    k: &Prime,
    a: Rows,
    b: Rows,
    factor: &[u64],
    want: Rows,
) -> Result<bool, Fail> {
    let b = plane(alloc, k, b)?;
    if b.y_degree().is_none() {
        return Ok(false);
    }
    let (by, remainder) = plane(alloc, k, a)?.reduce(alloc, k, &b)?;
    Ok(is(k, &by, factor) && plane_is(alloc, k, &remainder, want)?)
}

/// Whether the multipliers that cancel a leading coefficient have these coefficients.
fn multipliers_are(
    alloc: Global,
    k: &Prime,
    top: &[u64],
    lead: &[u64],
    want: [&[u64]; 2],
) -> Result<bool, Fail> {
    let lead = poly(alloc, k, lead)?;
    if lead.is_zero() {
        return Ok(false);
    }
    let top = poly(alloc, k, top)?;
    let (c, t) = multipliers(alloc, k, &top, &lead)?;
    Ok(is(k, &c, want[0]) && is(k, &t, want[1]))
}

/// Whether the derivative by y has these rows.
fn derivative_is(alloc: Global, k: &Prime, a: Rows, want: Rows) -> Result<bool, Fail> {
    let derivative = plane(alloc, k, a)?.dy(alloc, k)?;
    plane_is(alloc, k, &derivative, want)
}

/// Whether the equation at infinity has this slope and these rows.
fn at_infinity_is(alloc: Global, k: &Prime, a: Rows, e: u32, want: Rows) -> Result<bool, Fail> {
    let a = plane(alloc, k, a)?;
    if a.y_degree() != Some(2) || a.x_degree() != Some(5) {
        return Ok(false);
    }
    let (slope, f) = a.at_infinity(alloc, k)?;
    Ok(slope == e && plane_is(alloc, k, &f, want)?)
}

/// Whether the polynomial has these degrees in y and in x.
fn degrees_are(
    alloc: Global,
    k: &Prime,
    a: Rows,
    y: Option<usize>,
    x: Option<usize>,
) -> Result<bool, Fail> {
    let a = plane(alloc, k, a)?;
    Ok(a.y_degree() == y && a.x_degree() == x && a.rows().len() <= 3)
}

/// Whether the monic form has these rows.
fn form_is(alloc: Global, k: &Prime, f: Rows, want: Rows) -> Result<bool, Fail> {
    let f = plane(alloc, k, f)?;
    if f.y_degree() != Some(2) || f.x_degree() != Some(4) {
        return Ok(false);
    }
    match f.monic_form(alloc, k) {
        Ok(form) => plane_is(alloc, k, &form, want),
        Err(_) => Ok(false),
    }
}

/// Whether the monic form has too high a degree in x, and this.
fn form_is_wide(alloc: Global, k: &Prime, f: Rows, wide: usize) -> Result<bool, Fail> {
    let f = plane(alloc, k, f)?;
    if f.y_degree() != Some(2) || f.x_degree() != Some(13) {
        return Ok(false);
    }
    match f.monic_form(alloc, k) {
        Err(FormFault::Wide { deg }) => Ok(deg == wide),
        _ => Ok(false),
    }
}

#[test]
fn sums(rt: HostRuntime) -> Result<(), Fail> {
    let k = field(3)?;
    assert!(rt; sum_is(rt.alloc(), &k, PLUS, NEGATIVE, [&[], &[], &[]])?);
    assert!(rt; negative_is(rt.alloc(), &k, PLUS, NEGATIVE)?);
    assert!(rt; copy_is(rt.alloc(), &k, PLUS, PLUS)?);
    assert!(rt; !copy_is(rt.alloc(), &k, PLUS, MINUS)?);
    Ok(())
}

#[test]
fn products(rt: HostRuntime) -> Result<(), Fail> {
    let k = field(3)?;
    assert!(rt; product_is(rt.alloc(), &k, PLUS, MINUS, SQUARES)?);
    let multiple: Rows = [&[0, 2, 2], &[1, 1], &[]];
    assert!(rt; multiple_is(rt.alloc(), &k, MINUS, &[1, 1], multiple)?);
    Ok(())
}

#[test]
fn pseudo_remainders(rt: HostRuntime) -> Result<(), Fail> {
    let k = field(3)?;
    assert!(rt; remainder_is(rt.alloc(), &k, SQUARES, MINUS, &[1], [&[], &[], &[]])?);
    assert!(rt; multipliers_are(rt.alloc(), &k, &[0, 1], &[2], [&[1], &[0, 1]])?);
    assert!(rt; multipliers_are(rt.alloc(), &k, &[1], &[0, 1], [&[0, 1], &[2]])?);
    Ok(())
}

// The derivative of x * y^2 + x^2 * y, and y^2 + 2 * x^5 + 2 * x with 1 / t for x.
#[test]
fn derivatives_and_infinity(rt: HostRuntime) -> Result<(), Fail> {
    let k = field(3)?;
    let a: Rows = [&[], &[0, 0, 1], &[0, 1]];
    assert!(rt; derivative_is(rt.alloc(), &k, a, [&[0, 0, 1], &[0, 2], &[]])?);
    let f: Rows = [&[0, 2, 0, 0, 0, 2], &[], &[1]];
    assert!(rt; at_infinity_is(rt.alloc(), &k, f, 3, [&[0, 2, 0, 0, 0, 2], &[], &[1]])?);
    Ok(())
}

#[test]
fn degrees(rt: HostRuntime) -> Result<(), Fail> {
    let k = field(3)?;
    assert!(rt; degrees_are(rt.alloc(), &k, PLUS, Some(1), Some(1))?);
    assert!(rt; degrees_are(rt.alloc(), &k, SQUARES, Some(2), Some(2))?);
    assert!(rt; degrees_are(rt.alloc(), &k, [&[], &[], &[]], None, None)?);
    Ok(())
}

// The monic form of x^12 * y^2 + x^13 is y^2 + x^25.
#[test]
fn monic_forms(rt: HostRuntime) -> Result<(), Fail> {
    const LOW: &[u64] = &[0, 0, 0, 0, 0, 0, 0, 0, 0, 0, 0, 0, 0, 1];
    const TOP: &[u64] = &[0, 0, 0, 0, 0, 0, 0, 0, 0, 0, 0, 0, 1];
    let k = field(3)?;
    let form: Rows = [&[0, 2, 0, 0, 0, 2], &[], &[1]];
    assert!(rt; form_is(rt.alloc(), &k, [&[2, 0, 0, 0, 2], &[], &[0, 1]], form)?);
    assert!(rt; form_is_wide(rt.alloc(), &k, [LOW, &[], TOP], 25)?);
    Ok(())
}

#[test]
fn limits(rt: HostRuntime) {
    assert_eq!(rt; (MAX_X_DEGREE, MAX_Y_DEGREE, MAX_MONIC_DEGREE), (12, 6, 24));
}

#[test]
fn out_of_memory(rt: HostRuntime) {
    assert!(rt; matches!(FormFault::from(NoMemory), FormFault::NoMemory));
}
