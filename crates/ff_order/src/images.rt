// The p-th powers of the u^j * theta^i, modulo the p-th power of d.
ghost use Rattle.std.specs.Prelude.{◌≡◌, ℕ, ◌*◌, ◌<◌, pred, length, IfOk};
ghost use Rattle.ff_theory.specs.Ring.{IsElement, power};
ghost use Rattle.ff_theory.specs.Span.{unit_at};
ghost use Rattle.ff_theory.specs.Values.{poly_of, IsPoly, polys_over, plane_of, IsPlane};
ghost use Rattle.ff_theory.specs.Vector.{vector_of, IsVector};
ghost use Rattle.ff_charts.specs.Chart.{at_theta};
ghost use Rattle.ff_lin.specs.Space.{rows_of, AreVectors};
ghost use Rattle.ff_data.specs.Orders.{chart_of, y_degree};
ghost use Rattle.ff_order.specs.Rows.{IsChartRows};
ghost use Rattle.ff_order.specs.Steps.{KeepsRows, times_power};
ghost use Rattle.ff_order.specs.Steps.{ArePowers, IsPowerRow, ArePowerImages};

use crate::chart::ChartRows;
use crate::power::residue_times_power;
use crate::start::variables;
use ff_alg::{FiniteField, NoMemory};
use ff_data::Chart;
use ff_elem::Alg;
use ff_lattice::{plane_of_vector, vector_of_plane};
use ff_poly::{Plane, Poly};
use std::alloc::Global;

/// The powers of d by p - 1 and by p, and the vectors of the residues modulo the greater one of the
/// p-th powers of the `u^j * theta^i`.
#[derive(Drop)]
pub(crate) struct PowerImages {
    pub(crate) below: Poly,
    pub(crate) top: Poly,
    pub(crate) images: Vec<Vec<u32>>,
}

/// The power of a polynomial.
fn poly_power<K: FiniteField<E = u32>>(
    alloc: Global,
    k: &K,
    d: &Poly,
    n: u64,
) -> Result<Poly, NoMemory>
    requires { IsPoly (K.elements k.now) d.now }
    ensures poly { IfOk result (IsPoly (K.elements k.now)) }
    ensures value { let F = K.elements k.now in
        IfOk result (λ r. poly_of F r ≡ power (polys_over F) (poly_of F d.now) n) }
{
    let mut power = Poly::one(alloc, k)?;
    for _i in 0..n {
        power = d.mul(alloc, k, &power)?;
    }
    Ok(power)
}

/// The powers of a polynomial by p - 1 and by p.
fn last_powers<K: FiniteField<E = u32>>(
    alloc: Global,
    k: &K,
    d: &Poly,
) -> Result<(Poly, Poly), NoMemory>
    requires { IsPoly (K.elements k.now) d.now }
    ensures below { IfOk result (λ r. IsPoly (K.elements k.now) r.0) }
    ensures below_is { let F = K.elements k.now in let P = polys_over F in
        IfOk result (λ r. poly_of F r.0 ≡ power P (poly_of F d.now) (pred F.characteristic)) }
    ensures top { IfOk result (λ r. IsPoly (K.elements k.now) r.1) }
    ensures top_is { let F = K.elements k.now in let P = polys_over F in
        IfOk result (λ r. poly_of F r.1 ≡ power P (poly_of F d.now) F.characteristic) }
{
    let below = poly_power(alloc, k, d, k.characteristic() - 1)?;
    let top = d.mul(alloc, k, &below)?;
    Ok((below, top))
}

/// The length of the vectors of residues modulo `m`.
pub(crate) fn vector_len<K: FiniteField<E = u32>>(alg: &Alg<K>, m: &Poly) -> Result<usize, NoMemory>
    ensures { let L = K.lawful alg.now.k in
        IfOk result (λ n. n ≡ y_degree L alg.now.f * pred (length m.now)) }
{
    let rows = alg.f.rows().len() - 1;
    rows.checked_mul(m.coeffs().len().saturating_sub(1))
        .ok_or(NoMemory)
}

/// The entry at index `j` of the vector with one at index `s` alone.
fn unit_entry<K: FiniteField<E = u32>>(k: &K, s: usize, j: usize) -> u32
    ensures element { IsElement (K.elements k.now) result }
    ensures value { let F = K.elements k.now in F.value result ≡ unit_at F.ring s j }
{
    if j == s { k.one() } else { k.zero() }
}

/// The vector of length `n` with one at index `s` alone.
fn unit<K: FiniteField<E = u32>>(
    alloc: Global,
    k: &K,
    n: usize,
    s: usize,
) -> Result<Vec<u32>, NoMemory>
    requires { s < n }
    ensures vector { IfOk result (λ v. IsVector (K.elements k.now) n v.items) }
    ensures value { let F = K.elements k.now in
        IfOk result (λ v. (j : ℕ) → vector_of F v.items j ≡ unit_at F.ring s j) }
{
    let mut unit = Vec::with_capacity(alloc, n)?;
    for j in 0..n {
        unit.push(unit_entry(k, s, j))?;
    }
    Ok(unit)
}

/// The vector of the residue modulo `top` of the p-th power of 1.
fn first_row<K: FiniteField<E = u32>>(
    alloc: Global,
    alg: &Alg<K>,
    top: &Poly,
) -> Result<Vec<u32>, NoMemory>
    requires { 1 < length top.now }
    ensures vector { let F = K.elements alg.now.k in let L = K.lawful alg.now.k in
        let n = y_degree L alg.now.f * pred (length top.now) in
        IfOk result (λ v. IsVector F n v.items) }
    ensures value { let F = K.elements alg.now.k in
        IfOk result (λ v. (j : ℕ) → vector_of F v.items j ≡ unit_at F.ring 0 j) }
{
    let width = vector_len(alg, top)?;
    unit(alloc, &alg.k, width, 0)
}

/// The vector of the residue modulo `top` of the product of an element, whose residue has the
/// vector `before`, and of the p-th power of `by`.
fn next_row<K: FiniteField<E = u32>>(
    alloc: Global,
    alg: &Alg<K>,
    chart: Chart,
    rows: &ChartRows,
    top: &Poly,
    before: &[u32],
    by: &Plane,
) -> Result<Vec<u32>, NoMemory>
    requires rows { let L = K.lawful alg.now.k in IsChartRows L alg.now.f chart rows.now }
    requires top { IsPoly (K.elements alg.now.k) top.now }
    requires modulus { let F = K.elements alg.now.k in let L = K.lawful alg.now.k in
        (chart_of L alg.now.f chart).IsModulus (poly_of F top.now) }
    requires before { let F = K.elements alg.now.k in let L = K.lawful alg.now.k in
        IsVector F (y_degree L alg.now.f * pred (length top.now)) before.now }
    requires by { IsPlane (K.elements alg.now.k) by.now }
    ensures vector { let F = K.elements alg.now.k in let L = K.lawful alg.now.k in
        let n = y_degree L alg.now.f * pred (length top.now) in
        IfOk result (λ v. IsVector F n v.items) }
    ensures value { let F = K.elements alg.now.k in let L = K.lawful alg.now.k in
        let f = alg.now.f in IfOk result (λ v. KeepsRows L f chart top.now (vector_of F before.now)
        (vector_of F v.items) (times_power L f chart by.now F.characteristic)) }
{
    let k = &alg.k;
    let n = alg.f.rows().len() - 1;
    let plane = plane_of_vector(alloc, k, before, n, top.coeffs().len() - 1)?;
    let p = k.characteristic();
    let product = residue_times_power(alloc, alg, chart, rows, top, &plane, by, p)?;
    vector_of_plane(alloc, k, &product, n, top.coeffs().len() - 1)
}

/// The vector of the residue modulo `top` of the p-th power of the `u^j * theta^i` that follows
/// those of the list.
fn power_row<K: FiniteField<E = u32>>(
    alloc: Global,
    alg: &Alg<K>,
    chart: Chart,
    rows: &ChartRows,
    top: &Poly,
    variables: &(Plane, Plane),
    list: &[Vec<u32>],
) -> Result<Vec<u32>, NoMemory>
    requires rows { let L = K.lawful alg.now.k in IsChartRows L alg.now.f chart rows.now }
    requires top { IsPoly (K.elements alg.now.k) top.now }
    requires top_is { let F = K.elements alg.now.k in
        poly_of F top.now ≡ power (polys_over F) (poly_of F rows.now.d) F.characteristic }
    requires u { IsPlane (K.elements alg.now.k) variables.now.0 }
    requires u_is { let F = K.elements alg.now.k in let L = K.lawful alg.now.k in
        let c = chart_of L alg.now.f chart in at_theta c (plane_of F variables.now.0) ≡ c.u }
    requires theta { IsPlane (K.elements alg.now.k) variables.now.1 }
    requires theta_is { let F = K.elements alg.now.k in let L = K.lawful alg.now.k in
        let c = chart_of L alg.now.f chart in at_theta c (plane_of F variables.now.1) ≡ c.theta }
    requires index { let L = K.lawful alg.now.k in
        length list.now < y_degree L alg.now.f * pred (length rows.now.d) }
    requires vectors { let F = K.elements alg.now.k in let L = K.lawful alg.now.k in
        AreVectors F (y_degree L alg.now.f * pred (length top.now)) list.now }
    requires powers { let L = K.lawful alg.now.k in
        ArePowers L alg.now.f chart rows.now.d top.now (rows_of list.now) (length list.now) }
    ensures vector { let F = K.elements alg.now.k in let L = K.lawful alg.now.k in
        let n = y_degree L alg.now.f * pred (length top.now) in
        IfOk result (λ v. IsVector F n v.items) }
    ensures value { let F = K.elements alg.now.k in let L = K.lawful alg.now.k in
        let f = alg.now.f in IfOk result (λ v. IsPowerRow L f chart rows.now.d top.now
        (length list.now) (vector_of F v.items)) }
{
    let s = list.len();
    let l = rows.d.coeffs().len() - 1;
    if s == 0 {
        return first_row(alloc, alg, top);
    }
    if s % l == 0 {
        next_row(alloc, alg, chart, rows, top, &list[s - l], &variables.1)
    } else {
        next_row(alloc, alg, chart, rows, top, &list[s - 1], &variables.0)
    }
}

/// The vectors of the residues modulo `top` of the p-th powers of the `u^j * theta^i`, for the
/// planes u and theta.
fn power_rows<K: FiniteField<E = u32>>(
    alloc: Global,
    alg: &Alg<K>,
    chart: Chart,
    rows: &ChartRows,
    top: &Poly,
    variables: &(Plane, Plane),
    count: usize,
) -> Result<Vec<Vec<u32>>, NoMemory>
    requires rows { let L = K.lawful alg.now.k in IsChartRows L alg.now.f chart rows.now }
    requires count { let L = K.lawful alg.now.k in
        count ≡ y_degree L alg.now.f * pred (length rows.now.d) }
    requires top { IsPoly (K.elements alg.now.k) top.now }
    requires top_is { let F = K.elements alg.now.k in
        poly_of F top.now ≡ power (polys_over F) (poly_of F rows.now.d) F.characteristic }
    requires u { IsPlane (K.elements alg.now.k) variables.now.0 }
    requires u_is { let F = K.elements alg.now.k in let L = K.lawful alg.now.k in
        let c = chart_of L alg.now.f chart in at_theta c (plane_of F variables.now.0) ≡ c.u }
    requires theta { IsPlane (K.elements alg.now.k) variables.now.1 }
    requires theta_is { let F = K.elements alg.now.k in let L = K.lawful alg.now.k in
        let c = chart_of L alg.now.f chart in at_theta c (plane_of F variables.now.1) ≡ c.theta }
    ensures len { IfOk result (λ r. length r.items ≡ count) }
    ensures vectors { let F = K.elements alg.now.k in let L = K.lawful alg.now.k in
        let n = y_degree L alg.now.f * pred (length top.now) in
        IfOk result (λ r. AreVectors F n r.items) }
    ensures value { let L = K.lawful alg.now.k in let f = alg.now.f in
        IfOk result (λ r. ArePowers L f chart rows.now.d top.now (rows_of r.items) count) }
{
    let mut list = Vec::with_capacity(alloc, count)?;
    for _s in 0..count {
        list.push(power_row(alloc, alg, chart, rows, top, variables, &list)?)?;
    }
    Ok(list)
}

/// The vectors of the residues modulo `top` of the p-th powers of the `u^j * theta^i`.
fn image_rows<K: FiniteField<E = u32>>(
    alloc: Global,
    alg: &Alg<K>,
    chart: Chart,
    rows: &ChartRows,
    top: &Poly,
    count: usize,
) -> Result<Vec<Vec<u32>>, NoMemory>
    requires rows { let L = K.lawful alg.now.k in IsChartRows L alg.now.f chart rows.now }
    requires count { let L = K.lawful alg.now.k in
        count ≡ y_degree L alg.now.f * pred (length rows.now.d) }
    requires top { IsPoly (K.elements alg.now.k) top.now }
    requires top_is { let F = K.elements alg.now.k in
        poly_of F top.now ≡ power (polys_over F) (poly_of F rows.now.d) F.characteristic }
    ensures len { IfOk result (λ r. length r.items ≡ count) }
    ensures vectors { let F = K.elements alg.now.k in let L = K.lawful alg.now.k in
        let n = y_degree L alg.now.f * pred (length top.now) in
        IfOk result (λ r. AreVectors F n r.items) }
    ensures value { let L = K.lawful alg.now.k in let f = alg.now.f in
        IfOk result (λ r. ArePowers L f chart rows.now.d top.now (rows_of r.items) count) }
{
    let variables = variables(alloc, alg, chart)?;
    power_rows(alloc, alg, chart, rows, top, &variables, count)
}

/// The powers of d and the images, `count` of them.
pub(crate) fn powers<K: FiniteField<E = u32>>(
    alloc: Global,
    alg: &Alg<K>,
    chart: Chart,
    rows: &ChartRows,
    count: usize,
) -> Result<PowerImages, NoMemory>
    requires rows { let L = K.lawful alg.now.k in IsChartRows L alg.now.f chart rows.now }
    requires count { let L = K.lawful alg.now.k in
        count ≡ y_degree L alg.now.f * pred (length rows.now.d) }
    ensures { let L = K.lawful alg.now.k in
        IfOk result (ArePowerImages L alg.now.f chart rows.now.d) }
{
    let (below, top) = last_powers(alloc, &alg.k, &rows.d)?;
    let images = image_rows(alloc, alg, chart, rows, &top, count)?;
    Ok(PowerImages { below, top, images })
}
