// Narrower spaces that hold the integral elements, by the linear test, until one is closed under
// products.
ghost use Rattle.std.specs.Prelude.{◌≡◌, ◌<◌, length, IfOk, IsTrue};
ghost use Rattle.ff_order.specs.Rows.{IsChartRows};
ghost use Rattle.ff_order.specs.Steps.{IsResidueSpace, HoldsIntegral};
ghost use Rattle.ff_order.specs.Closing.{IsClosedSpace};
ghost use Rattle.ff_order.specs.Level.{AreTestPlanes};

use crate::chart::ChartRows;
use crate::closure::is_closed;
use crate::different::test_planes;
use crate::level::pass_row;
use ff_alg::{FiniteField, NoMemory};
use ff_data::Chart;
use ff_elem::Alg;
use ff_lin::Space;
use ff_poly::Plane;
use std::alloc::Global;

/// The residues of the space that pass the tests of the rows, and whether the lattice was found to
/// be closed under products, in which case tests may be left out.
fn pass_rows<K: FiniteField<E = u32>>(
    alloc: Global,
    alg: &Alg<K>,
    chart: Chart,
    rows: &ChartRows,
    first: Space,
    planes: &[Plane],
) -> Result<(Space, bool), NoMemory>
    requires rows { let L = K.lawful alg.now.k in IsChartRows L alg.now.f chart rows.now }
    requires space { let L = K.lawful alg.now.k in
        IsResidueSpace L alg.now.f chart rows.now.d first }
    requires holds { let L = K.lawful alg.now.k in
        HoldsIntegral L alg.now.f chart rows.now.d first }
    requires planes { let L = K.lawful alg.now.k in
        AreTestPlanes L alg.now.f chart planes.now }
    ensures space { let L = K.lawful alg.now.k in
        IfOk result (λ r. IsResidueSpace L alg.now.f chart rows.now.d r.0) }
    ensures holds { let L = K.lawful alg.now.k in
        IfOk result (λ r. HoldsIntegral L alg.now.f chart rows.now.d r.0) }
    ensures closed { let L = K.lawful alg.now.k in IfOk result (λ r. IsTrue r.1 →
        IsClosedSpace L alg.now.f chart rows.now.d r.0) }
{
    let mut space = first;
    for j in 0..planes.len() {
        space = pass_row(alloc, alg, chart, rows, space, planes, j)?;
        if is_closed(alloc, alg, chart, rows, &space)? {
            return Ok((space, true));
        }
    }
    Ok((space, false))
}

/// Residues of the space that have those of the integral elements, and whether the lattice was
/// found to be closed under products.
pub(crate) fn narrow<K: FiniteField<E = u32>>(
    alloc: Global,
    alg: &Alg<K>,
    chart: Chart,
    rows: &ChartRows,
    first: Space,
) -> Result<(Space, bool), NoMemory>
    requires rows { let L = K.lawful alg.now.k in IsChartRows L alg.now.f chart rows.now }
    requires space { let L = K.lawful alg.now.k in
        IsResidueSpace L alg.now.f chart rows.now.d first }
    requires holds { let L = K.lawful alg.now.k in
        HoldsIntegral L alg.now.f chart rows.now.d first }
    ensures space { let L = K.lawful alg.now.k in
        IfOk result (λ r. IsResidueSpace L alg.now.f chart rows.now.d r.0) }
    ensures holds { let L = K.lawful alg.now.k in
        IfOk result (λ r. HoldsIntegral L alg.now.f chart rows.now.d r.0) }
    ensures closed { let L = K.lawful alg.now.k in IfOk result (λ r. IsTrue r.1 →
        IsClosedSpace L alg.now.f chart rows.now.d r.0) }
{
    if first.dim() == 0 {
        let closed = is_closed(alloc, alg, chart, rows, &first)?;
        return Ok((first, closed));
    }
    let planes = test_planes(alloc, alg, chart, rows)?;
    pass_rows(alloc, alg, chart, rows, first, &planes)
}
