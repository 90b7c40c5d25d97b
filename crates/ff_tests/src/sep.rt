// Separability of equations.
use crate::pairs::{Parts, element};
use ff_elem::Alg;
use ff_prime::Prime;
use ff_sep::{SepFault, separate};
use ff_tests_base::algebras::{algebra, quintic};
use ff_tests_base::made::{field, is, plane};
use std::alloc::Global;
use std::test::Fail;

/// Whether the equation is separable, with this d and this b.
fn has_parts(alloc: Global, a: &Alg<Prime>, d: &[u64], b: Parts) -> Result<bool, Fail> {
    let want = element(alloc, a, b)?;
    match separate(alloc, a) {
        Ok(sep) => Ok(is(&a.k, &sep.d, d) && a.same(&sep.b, &want)),
        Err(_) => Ok(false),
    }
}

/// Whether the equation has a square, with these factors.
fn has_square(alloc: Global, a: &Alg<Prime>, rows: [[&[u64]; 3]; 2]) -> Result<bool, Fail> {
    let first = plane(alloc, &a.k, rows[0])?;
    let second = plane(alloc, &a.k, rows[1])?;
    match separate(alloc, a) {
        Err(SepFault::Square { g, h }) => Ok(g.same(&a.k, &first) && h.same(&a.k, &second)),
        _ => Ok(false),
    }
}

/// Whether the derivative of the equation in y is 0.
fn is_inseparable(alloc: Global, a: &Alg<Prime>) -> bool {
    match separate(alloc, a) {
        Err(SepFault::Inseparable) => true,
        _ => false,
    }
}

#[test]
fn separable_equations(rt: HostRuntime) -> Result<(), Fail> {
    let a = quintic(rt.alloc())?;
    assert!(rt; has_parts(rt.alloc(), &a, &[1, 0, 0, 0, 0, 1], [&[1], &[], &[2]])?);
    Ok(())
}

#[test]
fn separable_equations_that_are_not_monic(rt: HostRuntime) -> Result<(), Fail> {
    let a = algebra(rt.alloc(), field(5)?, [&[1], &[], &[0, 1]])?;
    assert!(rt; has_parts(rt.alloc(), &a, &[0, 1], [&[1], &[], &[0, 2]])?);
    Ok(())
}

#[test]
fn common_factors_in_x_alone(rt: HostRuntime) -> Result<(), Fail> {
    let a = algebra(rt.alloc(), field(5)?, [&[0, 1], &[0, 1], &[]])?;
    assert!(rt; has_parts(rt.alloc(), &a, &[1], [&[1], &[1], &[]])?);
    Ok(())
}

#[test]
fn squares(rt: HostRuntime) -> Result<(), Fail> {
    let a = algebra(rt.alloc(), field(7)?, [&[0, 0, 1], &[0, 5], &[1]])?;
    let line: [&[u64]; 3] = [&[0, 6], &[1], &[]];
    assert!(rt; has_square(rt.alloc(), &a, [line, line])?);
    Ok(())
}

#[test]
fn inseparable_equations(rt: HostRuntime) -> Result<(), Fail> {
    let a = algebra(rt.alloc(), field(2)?, [&[0, 1], &[], &[1]])?;
    assert!(rt; is_inseparable(rt.alloc(), &a));
    Ok(())
}
