// The space that the descent starts with.
ghost use Rattle.std.specs.Prelude.{◌≡◌, ◌*◌, ◌<◌, pred, length, IfOk};
ghost use Rattle.ff_theory.specs.Values.{plane_of, IsPlane};
ghost use Rattle.ff_theory.specs.Vector.{vector_of, IsVector};
ghost use Rattle.ff_charts.specs.Chart.{at_theta};
ghost use Rattle.ff_lin.specs.Space.{rows_of, AreVectors};
ghost use Rattle.ff_elem.specs.Elem.{algebra_in};
ghost use Rattle.ff_data.specs.Orders.{chart_of, y_degree};
ghost use Rattle.ff_order.specs.Rows.{IsChartRows};
ghost use Rattle.ff_order.specs.Steps.{AreMultiples, IsMultipleRow, IsResidueSpace, IsStart};
ghost use Rattle.ff_order.specs.Steps.{KeepsRows};

use crate::chart::ChartRows;
use crate::power::residue_product;
use crate::vectors::{residue_plane, residue_vector};
use ff_alg::{FiniteField, NoMemory};
use ff_data::Chart;
use ff_elem::Alg;
use ff_lin::Space;
use ff_poly::rows::single;
use ff_poly::{Plane, Poly};
use std::alloc::Global;

/// The planes u and theta.
pub(crate) fn variables<K: FiniteField<E = u32>>(
    alloc: Global,
    alg: &Alg<K>,
    chart: Chart,
) -> Result<(Plane, Plane), NoMemory>
    ensures u { IfOk result (λ r. IsPlane (K.elements alg.now.k) r.0) }
    ensures u_is { let F = K.elements alg.now.k in let L = K.lawful alg.now.k in
        let c = chart_of L alg.now.f chart in
        IfOk result (λ r. at_theta c (plane_of F r.0) ≡ c.u) }
    ensures theta { IfOk result (λ r. IsPlane (K.elements alg.now.k) r.1) }
    ensures theta_is { let F = K.elements alg.now.k in let L = K.lawful alg.now.k in
        let c = chart_of L alg.now.f chart in
        IfOk result (λ r. at_theta c (plane_of F r.1) ≡ c.theta) }
{
    let _chart = chart;
    let k = &alg.k;
    let x = Poly::from_coeffs(alloc, k, &[k.zero(), k.one()])?;
    let u = Plane::from_vec(k, single(alloc, x)?);
    let mut rows = single(alloc, Poly::zero(alloc))?;
    rows.push(Poly::one(alloc, k)?)?;
    Ok((u, Plane::from_vec(k, rows)))
}

/// The vector of the residue modulo d of the product of an element, whose residue has the vector
/// `before`, and of `by`.
fn next_multiple<K: FiniteField<E = u32>>(
    alloc: Global,
    alg: &Alg<K>,
    chart: Chart,
    rows: &ChartRows,
    before: &[u32],
    by: &Plane,
) -> Result<Vec<u32>, NoMemory>
    requires rows { let L = K.lawful alg.now.k in IsChartRows L alg.now.f chart rows.now }
    requires before { let F = K.elements alg.now.k in let L = K.lawful alg.now.k in
        IsVector F (y_degree L alg.now.f * pred (length rows.now.d)) before.now }
    requires by { IsPlane (K.elements alg.now.k) by.now }
    ensures vector { let F = K.elements alg.now.k in let L = K.lawful alg.now.k in
        let n = y_degree L alg.now.f * pred (length rows.now.d) in
        IfOk result (λ v. IsVector F n v.items) }
    ensures value { let F = K.elements alg.now.k in let L = K.lawful alg.now.k in
        let f = alg.now.f in let b = at_theta (chart_of L f chart) (plane_of F by.now) in
        IfOk result (λ v. KeepsRows L f chart rows.now.d (vector_of F before.now)
        (vector_of F v.items) (λ w. (algebra_in L f).mul w b)) }
{
    let plane = residue_plane(alloc, alg, chart, rows, before)?;
    let product = residue_product(alloc, alg, chart, rows, &rows.d, &plane, by)?;
    residue_vector(alloc, alg, chart, rows, &product)
}

/// The vector of the residue modulo d of the product of the element of the rows with the
/// `u^j * theta^i` that follows those of the list.
fn multiple_row<K: FiniteField<E = u32>>(
    alloc: Global,
    alg: &Alg<K>,
    chart: Chart,
    rows: &ChartRows,
    variables: &(Plane, Plane),
    list: &[Vec<u32>],
) -> Result<Vec<u32>, NoMemory>
    requires rows { let L = K.lawful alg.now.k in IsChartRows L alg.now.f chart rows.now }
    requires u { IsPlane (K.elements alg.now.k) variables.now.0 }
    requires u_is { let F = K.elements alg.now.k in let L = K.lawful alg.now.k in
        let c = chart_of L alg.now.f chart in at_theta c (plane_of F variables.now.0) ≡ c.u }
    requires theta { IsPlane (K.elements alg.now.k) variables.now.1 }
    requires theta_is { let F = K.elements alg.now.k in let L = K.lawful alg.now.k in
        let c = chart_of L alg.now.f chart in at_theta c (plane_of F variables.now.1) ≡ c.theta }
    requires index { let L = K.lawful alg.now.k in
        length list.now < y_degree L alg.now.f * pred (length rows.now.d) }
    requires vectors { let F = K.elements alg.now.k in let L = K.lawful alg.now.k in
        AreVectors F (y_degree L alg.now.f * pred (length rows.now.d)) list.now }
    requires multiples { let L = K.lawful alg.now.k in let f = alg.now.f in
        AreMultiples L f chart rows.now.d rows.now.multiple (rows_of list.now) (length list.now) }
    ensures vector { let F = K.elements alg.now.k in let L = K.lawful alg.now.k in
        let n = y_degree L alg.now.f * pred (length rows.now.d) in
        IfOk result (λ v. IsVector F n v.items) }
    ensures value { let F = K.elements alg.now.k in let L = K.lawful alg.now.k in
        let f = alg.now.f in IfOk result (λ v. IsMultipleRow L f chart rows.now.d rows.now.multiple
        (length list.now) (vector_of F v.items)) }
{
    let s = list.len();
    let l = rows.d.coeffs().len() - 1;
    if s == 0 {
        return residue_vector(alloc, alg, chart, rows, &rows.multiple);
    }
    if s % l == 0 {
        return next_multiple(alloc, alg, chart, rows, &list[s - l], &variables.1);
    }
    next_multiple(alloc, alg, chart, rows, &list[s - 1], &variables.0)
}

/// The vectors of the residues modulo d of the products of the element of the rows with
/// `u^j * theta^i`, `count` of them.
fn multiple_rows<K: FiniteField<E = u32>>(
    alloc: Global,
    alg: &Alg<K>,
    chart: Chart,
    rows: &ChartRows,
    count: usize,
) -> Result<Vec<Vec<u32>>, NoMemory>
    requires rows { let L = K.lawful alg.now.k in IsChartRows L alg.now.f chart rows.now }
    requires count { let L = K.lawful alg.now.k in
        count ≡ y_degree L alg.now.f * pred (length rows.now.d) }
    ensures len { IfOk result (λ r. length r.items ≡ count) }
    ensures vectors { IfOk result (λ r. AreVectors (K.elements alg.now.k) count r.items) }
    ensures value { let L = K.lawful alg.now.k in let f = alg.now.f in
        IfOk result (λ r. AreMultiples L f chart rows.now.d rows.now.multiple (rows_of r.items)
        count) }
{
    let variables = variables(alloc, alg, chart)?;
    let mut list = Vec::with_capacity(alloc, count)?;
    for _s in 0..count {
        let row = multiple_row(alloc, alg, chart, rows, &variables, &list)?;
        list.push(row)?;
    }
    Ok(list)
}

/// The space of the residues modulo d of the elements that the different carries into the power
/// order, each times d.
pub(crate) fn start<K: FiniteField<E = u32>>(
    alloc: Global,
    alg: &Alg<K>,
    chart: Chart,
    rows: &ChartRows,
    count: usize,
) -> Result<Space, NoMemory>
    requires rows { let L = K.lawful alg.now.k in IsChartRows L alg.now.f chart rows.now }
    requires count { let L = K.lawful alg.now.k in
        count ≡ y_degree L alg.now.f * pred (length rows.now.d) }
    ensures space { let L = K.lawful alg.now.k in
        IfOk result (IsResidueSpace L alg.now.f chart rows.now.d) }
    ensures exact { let L = K.lawful alg.now.k in
        IfOk result (IsStart L alg.now.f chart rows.now.d) }
{
    let list = multiple_rows(alloc, alg, chart, rows, count)?;
    Space::span(alloc, &alg.k, count, &list)
}
