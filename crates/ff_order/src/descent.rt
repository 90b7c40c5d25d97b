// The maximal orders of E(f), by the descent.
ghost use Rattle.std.specs.Prelude.{◌≡◌, ◌*◌, pred, length, IfOk};
ghost use Rattle.ff_data.specs.declared.order.Chart.TheVariants.{Finite};
ghost use Rattle.ff_data.specs.Orders.{IsSep, IsMaximal, y_degree};
ghost use Rattle.ff_order.specs.Rows.{IsChartRows};
ghost use Rattle.ff_order.specs.Steps.{ArePowerImages, IsResidueSpace, HoldsIntegral, IsExact};

use crate::chart::{ChartRows, chart_rows, theta};
use crate::images::{PowerImages, powers, vector_len};
use crate::narrowing::narrow;
use crate::start::start;
use crate::turn::turn;
use ff_alg::{FiniteField, NoMemory};
use ff_data::{Chart, Order, Sep};
use ff_elem::Alg;
use ff_lin::Space;
use std::alloc::Global;

/// Turns of the descent, until the dimension stands still.
fn turns<K: FiniteField<E = u32>>(
    alloc: Global,
    alg: &Alg<K>,
    chart: Chart,
    rows: &ChartRows,
    powers: &PowerImages,
    first: Space,
) -> Result<Space, NoMemory>
    requires rows { let L = K.lawful alg.now.k in IsChartRows L alg.now.f chart rows.now }
    requires powers { let L = K.lawful alg.now.k in
        ArePowerImages L alg.now.f chart rows.now.d powers.now }
    requires space { let L = K.lawful alg.now.k in
        IsResidueSpace L alg.now.f chart rows.now.d first }
    requires holds { let L = K.lawful alg.now.k in
        HoldsIntegral L alg.now.f chart rows.now.d first }
    ensures space { let L = K.lawful alg.now.k in
        IfOk result (IsResidueSpace L alg.now.f chart rows.now.d) }
    ensures exact { let L = K.lawful alg.now.k in
        IfOk result (IsExact L alg.now.f chart rows.now.d) }
{
    let mut space = first;
    let mut next = turn(alloc, alg, chart, rows, powers, &space)?;
    'turns: while next.dim() < space.dim() {
        space = next;
        next = turn(alloc, alg, chart, rows, powers, &space)?;
    }
    Ok(space)
}

/// The descent from a space whose lattice has all integral elements to the space whose lattice has
/// them alone.
fn descend<K: FiniteField<E = u32>>(
    alloc: Global,
    alg: &Alg<K>,
    chart: Chart,
    rows: &ChartRows,
    first: Space,
    count: usize,
) -> Result<Space, NoMemory>
    requires rows { let L = K.lawful alg.now.k in IsChartRows L alg.now.f chart rows.now }
    requires space { let L = K.lawful alg.now.k in
        IsResidueSpace L alg.now.f chart rows.now.d first }
    requires holds { let L = K.lawful alg.now.k in
        HoldsIntegral L alg.now.f chart rows.now.d first }
    requires count { let L = K.lawful alg.now.k in
        count ≡ y_degree L alg.now.f * pred (length rows.now.d) }
    ensures space { let L = K.lawful alg.now.k in
        IfOk result (IsResidueSpace L alg.now.f chart rows.now.d) }
    ensures exact { let L = K.lawful alg.now.k in
        IfOk result (IsExact L alg.now.f chart rows.now.d) }
{
    let powers = powers(alloc, alg, chart, rows, count)?;
    turns(alloc, alg, chart, rows, &powers, first)
}

/// The space of the residues modulo d of the integral elements, each times d.
fn integral_space<K: FiniteField<E = u32>>(
    alloc: Global,
    alg: &Alg<K>,
    chart: Chart,
    rows: &ChartRows,
) -> Result<Space, NoMemory>
    requires { let L = K.lawful alg.now.k in IsChartRows L alg.now.f chart rows.now }
    ensures space { let L = K.lawful alg.now.k in
        IfOk result (IsResidueSpace L alg.now.f chart rows.now.d) }
    ensures exact { let L = K.lawful alg.now.k in
        IfOk result (IsExact L alg.now.f chart rows.now.d) }
{
    let count = vector_len(alg, &rows.d)?;
    let first = start(alloc, alg, chart, rows, count)?;
    let (space, closed) = narrow(alloc, alg, chart, rows, first)?;
    if closed {
        return Ok(space);
    }
    descend(alloc, alg, chart, rows, space, count)
}

/// The order of the chart whose elements are exactly the finite-integral, or the infinity-integral,
/// elements (Stichtenoth, *Algebraic Function Fields and Codes*, section 3.2); in the finite chart
/// its d is that of `sep`. `NoMemory` comes where memory runs out or a length passes usize. The
/// descent by p-th powers is this project's own.
pub fn maximal<K: FiniteField<E = u32>>(
    alloc: Global,
    alg: &Alg<K>,
    sep: &Sep,
    chart: Chart,
) -> Result<Order, NoMemory>
    requires { IsSep (K.lawful alg.now.k) alg.now.f sep.now }
    ensures chart { IfOk result (λ r. r.chart ≡ chart) }
    ensures d { chart ≡ Finite → IfOk result (λ r. r.d ≡ sep.now.d) }
    ensures exact { IfOk result (IsMaximal (K.lawful alg.now.k) alg.now.f) }
{
    let theta = theta(alloc, alg, chart)?;
    let rows = chart_rows(alloc, alg, sep, chart)?;
    let space = integral_space(alloc, alg, chart, &rows)?;
    Ok(Order {
        chart,
        theta,
        d: rows.d,
        space,
    })
}
