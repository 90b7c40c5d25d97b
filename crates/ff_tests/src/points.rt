// The points of maximal orders of worked curves, by hand.
use crate::constants::order;
use ff_data::Chart;
use ff_elem::Alg;
use ff_points::{PointList, points};
use ff_prime::Prime;
use ff_tests_base::algebras::algebra;
use ff_tests_base::made::field;
use std::alloc::Global;
use std::test::Fail;

/// The points of the maximal order of a chart.
fn list(alloc: Global, a: &Alg<Prime>, chart: Chart) -> Result<PointList, Fail> {
    let order = order(alloc, a, chart)?;
    let list = points(alloc, a, &order)?;
    Ok(list)
}

/// Whether the maximal orders have as many points.
fn has_counts(alloc: Global, a: &Alg<Prime>, finite: usize, infinite: usize) -> Result<bool, Fail> {
    let here = list(alloc, a, Chart::Finite)?.items.len();
    let there = list(alloc, a, Chart::Infinite)?.items.len();
    Ok(here == finite && there == infinite)
}

/// Whether the points of the finite order have these values of u, of theta and of the basis.
fn has_points(alloc: Global, a: &Alg<Prime>, want: &[[u32; 3]]) -> Result<bool, Fail> {
    let list = list(alloc, a, Chart::Finite)?;
    if list.items.len() != want.len() {
        return Ok(false);
    }
    for i in 0..want.len() {
        let p = &list.items[i];
        if p.a != want[i][0]
            || p.theta != want[i][1]
            || p.values.items.as_slice() != &want[i][2..]
        {
            return Ok(false);
        }
    }
    Ok(true)
}

#[test]
fn points_over_a_node(rt: HostRuntime) -> Result<(), Fail> {
    let a = algebra(
        rt.alloc(),
        field(3)?,
        [&[0, 0, 2, 0, 0, 0, 0, 2], &[], &[1]],
    )?;
    // y/x is 1 and 2 at the node, and 0 at (2, 0)
    assert!(rt; has_points(rt.alloc(), &a, &[[0, 0, 1], [0, 0, 2], [2, 0, 0]])?);
    assert!(rt; has_counts(rt.alloc(), &a, 3, 1)?);
    Ok(())
}

#[test]
fn no_points(rt: HostRuntime) -> Result<(), Fail> {
    let a = algebra(rt.alloc(), field(3)?, [&[1, 0, 2, 0, 0, 0, 1], &[], &[1]])?;
    assert!(rt; has_counts(rt.alloc(), &a, 0, 0)?);
    Ok(())
}
