// Polynomials in x.
ghost use Rattle.std.specs.Prelude.{◌<◌};

use crate::made::{field, is, poly};
use ff_alg::FiniteField;
use ff_poly::Poly;
use ff_prime::Prime;
use std::alloc::Global;
use std::test::Fail;

/// Whether the polynomial with the coefficients `a` has the coefficients `want`.
fn poly_is(alloc: Global, k: &Prime, a: &[u64], want: &[u64]) -> Result<bool, Fail> {
    let p = poly(alloc, k, a)?;
    Ok(is(k, &p, want))
}

/// Whether the sum has these coefficients.
fn sum_is(alloc: Global, k: &Prime, a: &[u64], b: &[u64], want: &[u64]) -> Result<bool, Fail> {
    let b = poly(alloc, k, b)?;
    let sum = poly(alloc, k, a)?.add(alloc, k, &b)?;
    Ok(is(k, &sum, want))
}

/// Whether the negative has these coefficients.
fn negative_is(alloc: Global, k: &Prime, a: &[u64], want: &[u64]) -> Result<bool, Fail> {
    let negative = poly(alloc, k, a)?.neg(alloc, k)?;
    Ok(is(k, &negative, want))
}

/// Whether the product has these coefficients.
fn product_is(alloc: Global, k: &Prime, a: &[u64], b: &[u64], want: &[u64]) -> Result<bool, Fail> {
    let b = poly(alloc, k, b)?;
    let product = poly(alloc, k, a)?.mul(alloc, k, &b)?;
    Ok(is(k, &product, want))
}

/// Whether the product by a power of x has these coefficients.
fn shift_is(alloc: Global, k: &Prime, a: &[u64], i: usize, want: &[u64]) -> Result<bool, Fail>
    requires { i < 10 }
{
    let a = poly(alloc, k, a)?;
    if a.coeffs().len() > 10 {
        return Ok(false);
    }
    let shift = a.shift(alloc, k, i)?;
    Ok(is(k, &shift, want))
}

/// Whether a copy is the same, and has this degree and this leading coefficient.
fn copy_is(alloc: Global, k: &Prime, a: &[u64], degree: usize, lead: u64) -> Result<bool, Fail> {
    let a = poly(alloc, k, a)?;
    let copy = a.copy(alloc)?;
    let same = copy.same(k, &a);
    Ok(same && copy.degree() == Some(degree) && k.index(copy.coeff(k, degree)) == lead)
}

#[test]
fn sums(rt: HostRuntime) -> Result<(), Fail> {
    let k = field(3)?;
    assert!(rt; poly_is(rt.alloc(), &k, &[1, 2, 0], &[1, 2])?);
    assert!(rt; negative_is(rt.alloc(), &k, &[1, 2], &[2, 1])?);
    assert!(rt; sum_is(rt.alloc(), &k, &[1, 2], &[1, 1], &[2])?);
    Ok(())
}

#[test]
fn products(rt: HostRuntime) -> Result<(), Fail> {
    let k = field(3)?;
    assert!(rt; product_is(rt.alloc(), &k, &[1, 1], &[2, 1], &[2, 0, 1])?);
    assert!(rt; product_is(rt.alloc(), &k, &[1, 1], &[1, 1], &[1, 2, 1])?);
    assert!(rt; shift_is(rt.alloc(), &k, &[0, 1], 2, &[0, 0, 0, 1])?);
    Ok(())
}

#[test]
fn copies(rt: HostRuntime) -> Result<(), Fail> {
    let k = field(3)?;
    assert!(rt; copy_is(rt.alloc(), &k, &[1, 2], 1, 2)?);
    Ok(())
}

#[test]
fn zero(rt: HostRuntime) {
    let zero = Poly::zero(rt.alloc());
    assert!(rt; zero.is_zero());
    assert_eq!(rt; zero.degree(), None);
}

#[test]
fn one(rt: HostRuntime) -> Result<(), Fail> {
    let k = field(3)?;
    let one = Poly::one(rt.alloc(), &k)?;
    assert!(rt; is(&k, &one, &[1]));
    assert!(rt; one.is_one(&k));
    assert!(rt; !one.same(&k, &Poly::zero(rt.alloc())));
    Ok(())
}
