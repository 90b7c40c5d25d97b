// The different times the p-th powers of the theta^i, and the parts of their rows.
ghost use Rattle.std.specs.Prelude.{◌≡◌, ℕ, ◌<◌, ◌≤◌, ◌+◌, ◌^◌, length, IfOk};
ghost use Rattle.std.specs.List.{All};
ghost use Rattle.ff_theory.specs.Ring.{power};
ghost use Rattle.ff_theory.specs.Poly.{coeff};
ghost use Rattle.ff_theory.specs.Parts.{sum_of_parts};
ghost use Rattle.ff_theory.specs.Values.{polys_over, polys_of, ArePolys, plane_of, IsPlane};
ghost use Rattle.ff_charts.specs.Chart.{at_theta};
ghost use Rattle.ff_elem.specs.Elem.{algebra_in};
ghost use Rattle.ff_data.specs.Orders.{chart_of, y_degree};
ghost use Rattle.ff_order.specs.Rows.{IsChartRows};
ghost use Rattle.ff_order.specs.Level.{lists_of, IsTestPlane, AreTestPlanes, AreRowParts};

use crate::chart::ChartRows;
use crate::start::variables;
use ff_alg::{FiniteField, NoMemory};
use ff_data::Chart;
use ff_elem::Alg;
use ff_lattice::product;
use ff_poly::{Plane, Poly};
use std::alloc::Global;

/// The product of an element and the power of another, as planes.
fn times_power<K: FiniteField<E = u32>>(
    alloc: Global,
    alg: &Alg<K>,
    chart: Chart,
    rows: &ChartRows,
    a: &Plane,
    b: &Plane,
    n: u64,
) -> Result<Plane, NoMemory>
    requires rows { let L = K.lawful alg.now.k in IsChartRows L alg.now.f chart rows.now }
    requires a { IsPlane (K.elements alg.now.k) a.now }
    requires few { let L = K.lawful alg.now.k in length a.now ≤ y_degree L alg.now.f }
    requires b { IsPlane (K.elements alg.now.k) b.now }
    ensures plane { IfOk result (IsPlane (K.elements alg.now.k)) }
    ensures few { let L = K.lawful alg.now.k in
        IfOk result (λ r. length r ≤ y_degree L alg.now.f) }
    ensures value { let F = K.elements alg.now.k in let L = K.lawful alg.now.k in
        let f = alg.now.f in let c = chart_of L f chart in let A = algebra_in L f in
        IfOk result (λ r. at_theta c (plane_of F r) ≡ A.mul (at_theta c (plane_of F a.now))
        (power A (at_theta c (plane_of F b.now)) n)) }
{
    let _chart = chart;
    let mut power = a.copy(alloc)?;
    for _i in 0..n {
        power = product(alloc, &alg.k, &power, b, &rows.equation)?;
    }
    Ok(power)
}

/// The next plane: the plane times the p-th power of theta.
fn next_plane<K: FiniteField<E = u32>>(
    alloc: Global,
    alg: &Alg<K>,
    chart: Chart,
    rows: &ChartRows,
    theta: &Plane,
    a: &Plane,
    i: usize,
) -> Result<Plane, NoMemory>
    requires rows { let L = K.lawful alg.now.k in IsChartRows L alg.now.f chart rows.now }
    requires theta { IsPlane (K.elements alg.now.k) theta.now }
    requires theta_is { let F = K.elements alg.now.k in let L = K.lawful alg.now.k in
        let c = chart_of L alg.now.f chart in at_theta c (plane_of F theta.now) ≡ c.theta }
    requires a { let L = K.lawful alg.now.k in IsTestPlane L alg.now.f chart i a.now }
    requires room { i + 1 < 2 ^ 64 }
    ensures { let L = K.lawful alg.now.k in
        IfOk result (IsTestPlane L alg.now.f chart (i + 1)) }
{
    let _i = i;
    times_power(alloc, alg, chart, rows, a, theta, alg.k.characteristic())
}

/// The different, as a plane.
fn first_plane<K: FiniteField<E = u32>>(
    alloc: Global,
    alg: &Alg<K>,
    chart: Chart,
    rows: &ChartRows,
) -> Result<Plane, NoMemory>
    requires { let L = K.lawful alg.now.k in IsChartRows L alg.now.f chart rows.now }
    ensures { let L = K.lawful alg.now.k in IfOk result (IsTestPlane L alg.now.f chart 0) }
{
    let _chart = chart;
    rows.equation.dy(alloc, &alg.k)
}

/// The planes of the different times the p-th powers of the theta^i, from the plane theta.
fn planes_by_theta<K: FiniteField<E = u32>>(
    alloc: Global,
    alg: &Alg<K>,
    chart: Chart,
    rows: &ChartRows,
    theta: &Plane,
) -> Result<Vec<Plane>, NoMemory>
    requires rows { let L = K.lawful alg.now.k in IsChartRows L alg.now.f chart rows.now }
    requires theta { IsPlane (K.elements alg.now.k) theta.now }
    requires theta_is { let F = K.elements alg.now.k in let L = K.lawful alg.now.k in
        let c = chart_of L alg.now.f chart in at_theta c (plane_of F theta.now) ≡ c.theta }
    ensures { let L = K.lawful alg.now.k in IfOk result (λ r.
        AreTestPlanes L alg.now.f chart r.items) }
{
    let n = alg.f.rows().len() - 1;
    let mut planes = Vec::with_capacity(alloc, n)?;
    planes.push(first_plane(alloc, alg, chart, rows)?)?;
    for i in 1..n {
        planes.push(next_plane(alloc, alg, chart, rows, theta, &planes[i - 1], i - 1)?)?;
    }
    Ok(planes)
}

/// The planes of the different times the p-th powers of the theta^i, for all i below the y-degree.
pub(crate) fn test_planes<K: FiniteField<E = u32>>(
    alloc: Global,
    alg: &Alg<K>,
    chart: Chart,
    rows: &ChartRows,
) -> Result<Vec<Plane>, NoMemory>
    requires { let L = K.lawful alg.now.k in IsChartRows L alg.now.f chart rows.now }
    ensures { let L = K.lawful alg.now.k in IfOk result (λ r.
        AreTestPlanes L alg.now.f chart r.items) }
{
    let (_u, theta) = variables(alloc, alg, chart)?;
    planes_by_theta(alloc, alg, chart, rows, &theta)
}

/// The parts of row `j`, by the p-th powers of which it is a sum.
fn parts<K: FiniteField<E = u32>>(
    alloc: Global,
    k: &K,
    rows: &[Poly],
    j: usize,
) -> Result<Vec<Poly>, NoMemory>
    requires { ArePolys (K.elements k.now) rows.now }
    ensures each { IfOk result (λ r. ArePolys (K.elements k.now) r.items) }
    ensures len { let F = K.elements k.now in IfOk result (λ r. length r.items ≡ F.characteristic) }
    ensures sum { let F = K.elements k.now in let P = polys_over F in
        IfOk result (λ r. coeff P (plane_of F rows.now).coeffs j ≡
        sum_of_parts F.ring F.characteristic (coeff P (polys_of F r.items))) }
{
    if j < rows.len() {
        rows[j].split_p(alloc, k)
    } else {
        Poly::zero(alloc).split_p(alloc, k)
    }
}

/// The parts of row `j` of each plane.
pub(crate) fn row_parts<K: FiniteField<E = u32>>(
    alloc: Global,
    alg: &Alg<K>,
    chart: Chart,
    planes: &[Plane],
    j: usize,
) -> Result<Vec<Vec<Poly>>, NoMemory>
    requires { let L = K.lawful alg.now.k in AreTestPlanes L alg.now.f chart planes.now }
    ensures { let L = K.lawful alg.now.k in IfOk result (λ r.
        AreRowParts L alg.now.f chart j (lists_of r.items)) }
{
    let _chart = chart;
    let mut lists = Vec::with_capacity(alloc, planes.len())?;
    for plane in planes {
        lists.push(parts(alloc, &alg.k, plane.rows(), j)?)?;
    }
    Ok(lists)
}
