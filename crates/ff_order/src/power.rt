// Residues of products and powers of elements of a chart.
ghost use Rattle.std.specs.Prelude.{◌≡◌, IfOk};
ghost use Rattle.ff_theory.specs.Values.{poly_of, IsPoly, plane_of, IsPlane};
ghost use Rattle.ff_charts.specs.Chart.{at_theta};
ghost use Rattle.ff_elem.specs.Elem.{algebra_in};
ghost use Rattle.ff_data.specs.Orders.{chart_of};
ghost use Rattle.ff_order.specs.Rows.{IsChartRows};
ghost use Rattle.ff_order.specs.Steps.{KeepsResidues, times_power};

use crate::chart::ChartRows;
use ff_alg::{FiniteField, NoMemory};
use ff_data::Chart;
use ff_elem::Alg;
use ff_lattice::{product, residues};
use ff_poly::{Plane, Poly};
use std::alloc::Global;

/// The residue modulo `m` of the product of an element with the residue `a` and of `b`.
pub(crate) fn residue_product<K: FiniteField<E = u32>>(
    alloc: Global,
    alg: &Alg<K>,
    chart: Chart,
    rows: &ChartRows,
    m: &Poly,
    a: &Plane,
    b: &Plane,
) -> Result<Plane, NoMemory>
    requires rows { let L = K.lawful alg.now.k in IsChartRows L alg.now.f chart rows.now }
    requires m { IsPoly (K.elements alg.now.k) m.now }
    requires modulus { let F = K.elements alg.now.k in let L = K.lawful alg.now.k in
        (chart_of L alg.now.f chart).IsModulus (poly_of F m.now) }
    requires a { IsPlane (K.elements alg.now.k) a.now }
    requires b { IsPlane (K.elements alg.now.k) b.now }
    ensures plane { IfOk result (IsPlane (K.elements alg.now.k)) }
    ensures value { let F = K.elements alg.now.k in let L = K.lawful alg.now.k in
        let f = alg.now.f in IfOk result (λ r. KeepsResidues L f chart m.now a.now r
        (λ v. (algebra_in L f).mul v (at_theta (chart_of L f chart) (plane_of F b.now)))) }
{
    let _chart = chart;
    let product = product(alloc, &alg.k, a, b, &rows.equation)?;
    residues(alloc, &alg.k, &product, m)
}

/// The residue modulo `m` of the product of an element with the residue `a` and of the power of
/// `b` by `n`.
pub(crate) fn residue_times_power<K: FiniteField<E = u32>>(
    alloc: Global,
    alg: &Alg<K>,
    chart: Chart,
    rows: &ChartRows,
    m: &Poly,
    a: &Plane,
    b: &Plane,
    n: u64,
) -> Result<Plane, NoMemory>
    requires rows { let L = K.lawful alg.now.k in IsChartRows L alg.now.f chart rows.now }
    requires m { IsPoly (K.elements alg.now.k) m.now }
    requires modulus { let F = K.elements alg.now.k in let L = K.lawful alg.now.k in
        (chart_of L alg.now.f chart).IsModulus (poly_of F m.now) }
    requires a { IsPlane (K.elements alg.now.k) a.now }
    requires b { IsPlane (K.elements alg.now.k) b.now }
    ensures plane { IfOk result (IsPlane (K.elements alg.now.k)) }
    ensures value { let L = K.lawful alg.now.k in let f = alg.now.f in
        IfOk result (λ r. KeepsResidues L f chart m.now a.now r
        (times_power L f chart b.now n)) }
{
    let mut power = a.copy(alloc)?;
    for _i in 0..n {
        power = residue_product(alloc, alg, chart, rows, m, &power, b)?;
    }
    Ok(power)
}
