// Values of elements at points of worked curves, by hand.
ghost use Rattle.ff_elem.specs.Elem.{IsElem};
ghost use Rattle.ff_data.specs.Orders.{IsMaximal};

use crate::constants::order;
use crate::pairs::{Parts, element};
use ff_alg::Ring;
use ff_data::{Chart, Order};
use ff_elem::{Alg, Elem};
use ff_points::points;
use ff_prime::Prime;
use ff_tests_base::algebras::{algebra, quintic};
use ff_tests_base::made::field;
use ff_value::value;
use std::alloc::Global;
use std::test::Fail;

/// The value of the element at the point with this index.
fn value_at(
    alloc: Global,
    a: &Alg<Prime>,
    order: &Order,
    i: usize,
    w: &Elem,
) -> Result<Option<u32>, Fail>
    requires order { IsMaximal (⟦<Prime as Ring>⟧.lawful a.now.k) a.now.f order.now }
    requires w { IsElem (⟦<Prime as Ring>⟧.lawful a.now.k) a.now.f w.now }
{
    let list = points(alloc, a, order)?;
    if i < list.items.len() {
        let answer = value(alloc, a, order, &list.items[i], w)?;
        return Ok(answer);
    }
    Err(Fail::from("a point"))
}

/// Whether the value of the fraction at a point of the maximal order of the chart is this.
fn has_value(
    alloc: Global,
    a: &Alg<Prime>,
    chart: Chart,
    i: usize,
    w: Parts,
    want: Option<u32>,
) -> Result<bool, Fail> {
    let order = order(alloc, a, chart)?;
    let w = element(alloc, a, w)?;
    Ok(value_at(alloc, a, &order, i, &w)? == want)
}

/// The algebra of y^2 - x^7 - x^2 over three elements, a curve with a node at the origin.
fn nodal(alloc: Global) -> Result<Alg<Prime>, Fail> {
    algebra(alloc, field(3)?, [&[0, 0, 2, 0, 0, 0, 0, 2], &[], &[1]])
}

#[test]
fn values_at_infinity(rt: HostRuntime) -> Result<(), Fail> {
    let a = quintic(rt.alloc())?;
    let there = Chart::Infinite;
    // 1/x, x, (x^2+1)/(2*x^2+x)
    assert!(rt; has_value(rt.alloc(), &a, there, 0, [&[0, 1], &[1], &[]], Some(0))?);
    assert!(rt; has_value(rt.alloc(), &a, there, 0, [&[1], &[0, 1], &[]], None)?);
    assert!(rt;
        has_value(
            rt.alloc(),
            &a,
            there,
            0,
            [&[0, 1, 2], &[1, 0, 1], &[]],
            Some(2)
        )?
    );
    Ok(())
}

#[test]
fn values_over_a_node(rt: HostRuntime) -> Result<(), Fail> {
    let a = nodal(rt.alloc())?;
    let here = Chart::Finite;
    // y/x + x + 1 at both points, y/x^2
    assert!(rt;
        has_value(
            rt.alloc(),
            &a,
            here,
            0,
            [&[0, 1], &[0, 1, 1], &[1]],
            Some(2)
        )?
    );
    assert!(rt;
        has_value(
            rt.alloc(),
            &a,
            here,
            1,
            [&[0, 1], &[0, 1, 1], &[1]],
            Some(0)
        )?
    );
    assert!(rt; has_value(rt.alloc(), &a, here, 0, [&[0, 0, 1], &[], &[1]], None)?);
    Ok(())
}
