// The constants of fields, and the factors of reducible equations.
ghost use Rattle.std.specs.Prelude.{◌≡◌, IfOk};
ghost use Rattle.ff_data.specs.Orders.{IsMaximal};

use ff_alg::Ring;
use ff_const::{SplitFault, constants, split};
use ff_data::{Chart, Order};
use ff_elem::Alg;
use ff_order::maximal;
use ff_poly::Plane;
use ff_prime::Prime;
use ff_sep::separate;
use ff_tests_base::algebras::{algebra, quintic, two_fields};
use ff_tests_base::made::field;
use ff_text::print_poly;
use std::alloc::Global;
use std::test::Fail;

/// The maximal order of a chart.
pub(crate) fn order(alloc: Global, a: &Alg<Prime>, chart: Chart) -> Result<Order, Fail>
    ensures chart { IfOk result (λ o. o.chart ≡ chart) }
    ensures exact { let L = ⟦<Prime as Ring>⟧.lawful a.now.k in
        IfOk result (IsMaximal L a.now.f) }
{
    match separate(alloc, a) {
        Ok(sep) => {
            let order = maximal(alloc, a, &sep, chart)?;
            Ok(order)
        },
        Err(_) => Err(Fail::from("an equation that is separable")),
    }
}

/// The number of constants that are independent over the field.
fn dimension(alloc: Global, a: &Alg<Prime>) -> Result<usize, Fail> {
    let finite = order(alloc, a, Chart::Finite)?;
    let infinite = order(alloc, a, Chart::Infinite)?;
    let list = constants(alloc, a, &finite, &infinite)?;
    Ok(list.len())
}

/// The factors of an equation, none where it is irreducible.
fn factors(alloc: Global, a: &Alg<Prime>) -> Result<Option<(Plane, Plane)>, Fail> {
    let finite = order(alloc, a, Chart::Finite)?;
    let infinite = order(alloc, a, Chart::Infinite)?;
    match split(alloc, a, &finite, &infinite) {
        Ok(()) => Ok(None),
        Err(SplitFault::Reducible { g, h }) => Ok(Some((g, h))),
        Err(SplitFault::NoMemory) => Err(Fail::from("memory")),
    }
}

/// Whether a polynomial has this text.
fn has_text(alloc: Global, f: &Plane, want: &[u8]) -> Result<bool, Fail> {
    let text = print_poly(alloc, f)?;
    Ok(text.as_slice() == want)
}

/// Whether an equation has factors with these texts.
fn has_factors(alloc: Global, a: &Alg<Prime>, first: &[u8], second: &[u8]) -> Result<bool, Fail> {
    match factors(alloc, a)? {
        None => Ok(false),
        Some((g, h)) => Ok(has_text(alloc, &g, first)? && has_text(alloc, &h, second)?),
    }
}

#[test]
fn constants_of_fields(rt: HostRuntime) -> Result<(), Fail> {
    assert!(rt; dimension(rt.alloc(), &quintic(rt.alloc())?)? == 1);
    assert!(rt; dimension(rt.alloc(), &two_fields(rt.alloc())?)? == 2);
    Ok(())
}

#[test]
fn constants_that_are_not_in_the_prime_field(rt: HostRuntime) -> Result<(), Fail> {
    let a = algebra(rt.alloc(), field(3)?, [&[1], &[], &[1]])?;
    assert!(rt; dimension(rt.alloc(), &a)? == 2);
    assert!(rt; factors(rt.alloc(), &a)?.is_none());
    Ok(())
}

#[test]
fn factors_of_equations(rt: HostRuntime) -> Result<(), Fail> {
    let a = two_fields(rt.alloc())?;
    assert!(rt; has_factors(rt.alloc(), &a, b"y+x", b"y+6*x")?);
    Ok(())
}
