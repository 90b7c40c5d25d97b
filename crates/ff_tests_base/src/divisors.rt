// Division of polynomials in x, their common divisors, and parts by p-th powers.
ghost use Rattle.ff_theory.specs.PrimeTable.{prime_elements};
ghost use Rattle.ff_theory.specs.Values.{IsPoly};

use crate::made::{field, is, poly};
use ff_poly::Poly;
use ff_prime::Prime;
use std::alloc::Global;
use std::test::Fail;

/// Whether a quotient and its remainder have these coefficients.
fn quotient_is(
    alloc: Global,
    k: &Prime,
    a: &Poly,
    b: &Poly,
    want: [&[u64]; 2],
) -> Result<bool, Fail>
    requires a { IsPoly (prime_elements k.now.number) a.now }
    requires b { IsPoly (prime_elements k.now.number) b.now }
{
    if b.is_zero() {
        return Ok(false);
    }
    let (quotient, remainder) = a.divide(alloc, k, b)?;
    Ok(is(k, &quotient, want[0]) && is(k, &remainder, want[1]))
}

/// Whether a quotient and its remainder have these coefficients.
fn division_is(
    alloc: Global,
    k: &Prime,
    a: &[u64],
    b: &[u64],
    want: [&[u64]; 2],
) -> Result<bool, Fail> {
    let a = poly(alloc, k, a)?;
    let b = poly(alloc, k, b)?;
    quotient_is(alloc, k, &a, &b, want)
}

/// Whether a remainder has these coefficients.
fn remainder_is(
    alloc: Global,
    k: &Prime,
    a: &[u64],
    b: &[u64],
    want: &[u64],
) -> Result<bool, Fail> {
    let b = poly(alloc, k, b)?;
    if b.is_zero() {
        return Ok(false);
    }
    let remainder = poly(alloc, k, a)?.remainder(alloc, k, &b)?;
    Ok(is(k, &remainder, want))
}

/// Whether the greatest common divisor has these coefficients.
fn gcd_is(alloc: Global, k: &Prime, a: &[u64], b: &[u64], want: &[u64]) -> Result<bool, Fail> {
    let b = poly(alloc, k, b)?;
    let divisor = poly(alloc, k, a)?.gcd(alloc, k, &b)?;
    Ok(is(k, &divisor, want))
}

/// Whether the monic multiple has these coefficients.
fn monic_is(alloc: Global, k: &Prime, a: &[u64], want: &[u64]) -> Result<bool, Fail> {
    let monic = poly(alloc, k, a)?.monic(alloc, k)?;
    Ok(is(k, &monic, want))
}

/// Whether the third power has these coefficients.
fn cube_is(alloc: Global, k: &Prime, a: &[u64], want: &[u64]) -> Result<bool, Fail> {
    let cube = poly(alloc, k, a)?.power(alloc, k, 3)?;
    Ok(is(k, &cube, want))
}

/// Whether the polynomials whose third powers give this one over three elements are these.
fn parts_are(alloc: Global, k: &Prime, a: &[u64], want: [&[u64]; 3]) -> Result<bool, Fail> {
    let parts = poly(alloc, k, a)?.split_p(alloc, k)?;
    if parts.len() != 3 {
        return Ok(false);
    }
    Ok(is(k, &parts[0], want[0]) && is(k, &parts[1], want[1]) && is(k, &parts[2], want[2]))
}

/// Whether a fraction has these coefficients in lowest terms, those of the denominator first.
fn lowest_is(
    alloc: Global,
    k: &Prime,
    den: &Poly,
    num: Poly,
    want: [&[u64]; 2],
) -> Result<bool, Fail>
    requires den { IsPoly (prime_elements k.now.number) den.now }
    requires num { IsPoly (prime_elements k.now.number) num }
{
    if den.is_zero() {
        return Ok(false);
    }
    let nums = [num];
    let (den, nums) = Poly::lowest(alloc, k, den, &nums)?;
    Ok(is(k, &den, want[0]) && nums.len() == 1 && is(k, &nums[0], want[1]))
}

/// Whether a fraction has these coefficients in lowest terms, those of the denominator first.
fn fraction_is(
    alloc: Global,
    k: &Prime,
    den: &[u64],
    num: &[u64],
    want: [&[u64]; 2],
) -> Result<bool, Fail> {
    let den = poly(alloc, k, den)?;
    lowest_is(alloc, k, &den, poly(alloc, k, num)?, want)
}

#[test]
fn divisions(rt: HostRuntime) -> Result<(), Fail> {
    let k = field(3)?;
    assert!(rt; division_is(rt.alloc(), &k, &[2, 0, 1], &[1, 1], [&[2, 1], &[]])?);
    assert!(rt; remainder_is(rt.alloc(), &k, &[0, 0, 1], &[1, 1], &[1])?);
    Ok(())
}

#[test]
fn common_divisors(rt: HostRuntime) -> Result<(), Fail> {
    let k = field(3)?;
    assert!(rt; gcd_is(rt.alloc(), &k, &[2, 0, 1], &[2, 2], &[1, 1])?);
    assert!(rt; monic_is(rt.alloc(), &k, &[2, 2], &[1, 1])?);
    assert!(rt; cube_is(rt.alloc(), &k, &[1, 1], &[1, 0, 0, 1])?);
    Ok(())
}

#[test]
fn lowest_terms_and_parts(rt: HostRuntime) -> Result<(), Fail> {
    let k = field(3)?;
    assert!(rt; fraction_is(rt.alloc(), &k, &[0, 2], &[0, 1], [&[1], &[2]])?);
    assert!(rt; parts_are(rt.alloc(), &k, &[1, 0, 0, 2, 1], [&[1, 2], &[0, 1], &[]])?);
    Ok(())
}
