// Whether the lattice of a space of residues is closed under products.
ghost use Rattle.std.specs.Prelude.{◌≡◌, ℕ, ◌+◌, ◌*◌, ◌<◌, pred, length, get_or, [], IfOk, IfSome};
ghost use Rattle.std.specs.Prelude.{IsTrue, ◌↔◌};
ghost use Rattle.ff_theory.specs.Poly.{coeff};
ghost use Rattle.ff_theory.specs.Values.{poly_of, IsPoly, polys_over, polys_of, ArePolys};
ghost use Rattle.ff_theory.specs.Values.{plane_of, IsPlane};
ghost use Rattle.ff_charts.specs.Chart.{at_theta};
ghost use Rattle.ff_lattice.specs.Residues.{IsMultiple};
ghost use Rattle.ff_lin.specs.Space.{rows_of, AreVectors};
ghost use Rattle.ff_elem.specs.Elem.{algebra_in};
ghost use Rattle.ff_data.specs.Orders.{chart_of, y_degree, InResidues};
ghost use Rattle.ff_order.specs.Rows.{IsChartRows};
ghost use Rattle.ff_order.specs.Steps.{HasResidueShape, IsResidueSpace};
ghost use Rattle.ff_order.specs.Closing.{ArePlanesOf, HasResidueIn, HasQuotientIn, HasMultiples};
ghost use Rattle.ff_order.specs.Closing.{HasProducts, IsClosedSpace};

use crate::chart::ChartRows;
use crate::power::residue_product;
use crate::start::variables;
use crate::vectors::{residue_plane, residue_vector};
use ff_alg::{FiniteField, NoMemory};
use ff_data::Chart;
use ff_elem::Alg;
use ff_lattice::{product, residues};
use ff_lin::Space;
use ff_poly::{Plane, Poly};
use std::alloc::Global;

/// The planes of vectors of residues modulo d.
fn planes_of<K: FiniteField<E = u32>>(
    alloc: Global,
    alg: &Alg<K>,
    chart: Chart,
    rows: &ChartRows,
    vectors: &[Vec<u32>],
) -> Result<Vec<Plane>, NoMemory>
    requires rows { let L = K.lawful alg.now.k in IsChartRows L alg.now.f chart rows.now }
    requires vectors { let F = K.elements alg.now.k in let L = K.lawful alg.now.k in
        AreVectors F (y_degree L alg.now.f * pred (length rows.now.d)) vectors.now }
    ensures { let L = K.lawful alg.now.k in IfOk result (λ r.
        ArePlanesOf L alg.now.f chart rows.now.d (rows_of vectors.now) r.items) }
{
    let mut planes = Vec::with_capacity(alloc, vectors.len())?;
    for v in vectors {
        planes.push(residue_plane(alloc, alg, chart, rows, v)?)?;
    }
    Ok(planes)
}

/// Whether the vector of a residue modulo d is in the space.
fn holds<K: FiniteField<E = u32>>(
    alloc: Global,
    alg: &Alg<K>,
    chart: Chart,
    rows: &ChartRows,
    space: &Space,
    residue: &Plane,
) -> Result<bool, NoMemory>
    requires rows { let L = K.lawful alg.now.k in IsChartRows L alg.now.f chart rows.now }
    requires space { let L = K.lawful alg.now.k in
        IsResidueSpace L alg.now.f chart rows.now.d space.now }
    requires plane { IsPlane (K.elements alg.now.k) residue.now }
    requires shape { let F = K.elements alg.now.k in let L = K.lawful alg.now.k in
        HasResidueShape L alg.now.f chart rows.now.d (plane_of F residue.now) }
    ensures { let F = K.elements alg.now.k in IfOk result (λ b.
        IsTrue b ↔ InResidues F (pred (length rows.now.d)) space.now (plane_of F residue.now)) }
{
    let v = residue_vector(alloc, alg, chart, rows, residue)?;
    Ok(space.contains(&alg.k, &v))
}

/// Whether the residue modulo d of the product with a plane is in the space.
fn holds_multiple<K: FiniteField<E = u32>>(
    alloc: Global,
    alg: &Alg<K>,
    chart: Chart,
    rows: &ChartRows,
    space: &Space,
    a: &Plane,
    by: &Plane,
) -> Result<bool, NoMemory>
    requires rows { let L = K.lawful alg.now.k in IsChartRows L alg.now.f chart rows.now }
    requires space { let L = K.lawful alg.now.k in
        IsResidueSpace L alg.now.f chart rows.now.d space.now }
    requires plane { IsPlane (K.elements alg.now.k) a.now }
    requires shape { let F = K.elements alg.now.k in let L = K.lawful alg.now.k in
        HasResidueShape L alg.now.f chart rows.now.d (plane_of F a.now) }
    requires by { IsPlane (K.elements alg.now.k) by.now }
    ensures { let F = K.elements alg.now.k in let L = K.lawful alg.now.k in let f = alg.now.f in
        let c = chart_of L f chart in IfOk result (λ b. IsTrue b →
        HasResidueIn L f chart rows.now.d space.now ((algebra_in L f).mul
        (at_theta c (plane_of F a.now)) (at_theta c (plane_of F by.now)))) }
{
    let residue = residue_product(alloc, alg, chart, rows, &rows.d, a, by)?;
    holds(alloc, alg, chart, rows, space, &residue)
}

/// Whether the residues modulo d of the products of all planes with one are in the space.
fn holds_multiples<K: FiniteField<E = u32>>(
    alloc: Global,
    alg: &Alg<K>,
    chart: Chart,
    rows: &ChartRows,
    space: &Space,
    planes: &[Plane],
    by: &Plane,
) -> Result<bool, NoMemory>
    requires rows { let L = K.lawful alg.now.k in IsChartRows L alg.now.f chart rows.now }
    requires space { let L = K.lawful alg.now.k in
        IsResidueSpace L alg.now.f chart rows.now.d space.now }
    requires planes { let L = K.lawful alg.now.k in
        ArePlanesOf L alg.now.f chart rows.now.d space.now.basis planes.now }
    requires by { IsPlane (K.elements alg.now.k) by.now }
    ensures { let F = K.elements alg.now.k in let L = K.lawful alg.now.k in let f = alg.now.f in
        IfOk result (λ b. IsTrue b → HasMultiples L f chart rows.now.d space.now planes.now
        (length planes.now) (at_theta (chart_of L f chart) (plane_of F by.now))) }
{
    for i in 0..planes.len() {
        if !holds_multiple(alloc, alg, chart, rows, space, &planes[i], by)? {
            return Ok(false);
        }
    }
    Ok(true)
}

/// The quotients of the rows by `d`, or None where a remainder is not 0.
fn quotients<K: FiniteField<E = u32>>(
    alloc: Global,
    k: &K,
    rows: &[Poly],
    d: &Poly,
) -> Result<Option<Vec<Poly>>, NoMemory>
    requires rows { ArePolys (K.elements k.now) rows.now }
    requires d { IsPoly (K.elements k.now) d.now }
    requires nonzero { 0 < length d.now }
    ensures len { IfOk result (λ o. IfSome o (λ r. length r.items ≡ length rows.now)) }
    ensures each { IfOk result (λ o. IfSome o (λ r. ArePolys (K.elements k.now) r.items)) }
    ensures value { let F = K.elements k.now in let P = polys_over F in
        IfOk result (λ o. IfSome o (λ r. (i : ℕ) → i < length rows.now →
        coeff P (polys_of F rows.now) i ≡
        P.mul (poly_of F d.now) (coeff P (polys_of F r.items) i))) }
{
    let mut quotients = Vec::with_capacity(alloc, rows.len())?;
    for p in rows {
        let (quotient, remainder) = p.divide(alloc, k, d)?;
        if !remainder.is_zero() {
            return Ok(None);
        }
        quotients.push(quotient)?;
    }
    Ok(Some(quotients))
}

/// The quotient of each row by `d`, or None where a remainder is not 0.
fn quotient<K: FiniteField<E = u32>>(
    alloc: Global,
    k: &K,
    a: &Plane,
    d: &Poly,
) -> Result<Option<Plane>, NoMemory>
    requires a { IsPlane (K.elements k.now) a.now }
    requires d { IsPoly (K.elements k.now) d.now }
    requires nonzero { 0 < length d.now }
    ensures plane { IfOk result (λ o. IfSome o (IsPlane (K.elements k.now))) }
    ensures rows { IfOk result (λ o. IfSome o (λ r. length r < length a.now + 1)) }
    ensures value { let F = K.elements k.now in IfOk result (λ o. IfSome o (λ r.
        IsMultiple F.ring (poly_of F d.now) (plane_of F a.now) (plane_of F r))) }
{
    match quotients(alloc, k, a.rows(), d)? {
        Some(rows) => Ok(Some(Plane::from_vec(k, rows))),
        None => Ok(None),
    }
}

/// Whether the product of two planes is d times an element whose residue modulo d is in the space.
fn holds_product<K: FiniteField<E = u32>>(
    alloc: Global,
    alg: &Alg<K>,
    chart: Chart,
    rows: &ChartRows,
    space: &Space,
    a: &Plane,
    b: &Plane,
) -> Result<bool, NoMemory>
    requires rows { let L = K.lawful alg.now.k in IsChartRows L alg.now.f chart rows.now }
    requires space { let L = K.lawful alg.now.k in
        IsResidueSpace L alg.now.f chart rows.now.d space.now }
    requires a { IsPlane (K.elements alg.now.k) a.now }
    requires b { IsPlane (K.elements alg.now.k) b.now }
    ensures { let F = K.elements alg.now.k in let L = K.lawful alg.now.k in let f = alg.now.f in
        let c = chart_of L f chart in IfOk result (λ r. IsTrue r →
        HasQuotientIn L f chart rows.now.d space.now ((algebra_in L f).mul
        (at_theta c (plane_of F a.now)) (at_theta c (plane_of F b.now)))) }
{
    let product = product(alloc, &alg.k, a, b, &rows.equation)?;
    match quotient(alloc, &alg.k, &product, &rows.d)? {
        Some(q) => {
            let residue = residues(alloc, &alg.k, &q, &rows.d)?;
            holds(alloc, alg, chart, rows, space, &residue)
        },
        None => Ok(false),
    }
}

/// Whether the products of plane `i` with those up to it are d times elements whose residues modulo
/// d are in the space.
fn holds_products<K: FiniteField<E = u32>>(
    alloc: Global,
    alg: &Alg<K>,
    chart: Chart,
    rows: &ChartRows,
    space: &Space,
    planes: &[Plane],
    i: usize,
) -> Result<bool, NoMemory>
    requires rows { let L = K.lawful alg.now.k in IsChartRows L alg.now.f chart rows.now }
    requires space { let L = K.lawful alg.now.k in
        IsResidueSpace L alg.now.f chart rows.now.d space.now }
    requires planes { let L = K.lawful alg.now.k in
        ArePlanesOf L alg.now.f chart rows.now.d space.now.basis planes.now }
    requires index { i < length planes.now }
    ensures { let L = K.lawful alg.now.k in IfOk result (λ b. IsTrue b →
        HasProducts L alg.now.f chart rows.now.d space.now planes.now i (i + 1)) }
{
    for j in 0..i + 1 {
        if !holds_product(alloc, alg, chart, rows, space, &planes[i], &planes[j])? {
            return Ok(false);
        }
    }
    Ok(true)
}

/// Whether the products of all planes are d times elements whose residues modulo d are in the
/// space.
fn holds_all_products<K: FiniteField<E = u32>>(
    alloc: Global,
    alg: &Alg<K>,
    chart: Chart,
    rows: &ChartRows,
    space: &Space,
    planes: &[Plane],
) -> Result<bool, NoMemory>
    requires rows { let L = K.lawful alg.now.k in IsChartRows L alg.now.f chart rows.now }
    requires space { let L = K.lawful alg.now.k in
        IsResidueSpace L alg.now.f chart rows.now.d space.now }
    requires planes { let L = K.lawful alg.now.k in
        ArePlanesOf L alg.now.f chart rows.now.d space.now.basis planes.now }
    ensures { let L = K.lawful alg.now.k in IfOk result (λ b. IsTrue b →
        (i : ℕ) → i < length planes.now →
        HasProducts L alg.now.f chart rows.now.d space.now planes.now i (i + 1)) }
{
    for i in 0..planes.len() {
        if !holds_products(alloc, alg, chart, rows, space, planes, i)? {
            return Ok(false);
        }
    }
    Ok(true)
}

/// Whether u and theta carry the space into itself.
fn holds_variables<K: FiniteField<E = u32>>(
    alloc: Global,
    alg: &Alg<K>,
    chart: Chart,
    rows: &ChartRows,
    space: &Space,
    planes: &[Plane],
) -> Result<bool, NoMemory>
    requires rows { let L = K.lawful alg.now.k in IsChartRows L alg.now.f chart rows.now }
    requires space { let L = K.lawful alg.now.k in
        IsResidueSpace L alg.now.f chart rows.now.d space.now }
    requires planes { let L = K.lawful alg.now.k in
        ArePlanesOf L alg.now.f chart rows.now.d space.now.basis planes.now }
    ensures u { let L = K.lawful alg.now.k in let f = alg.now.f in IfOk result (λ b. IsTrue b →
        HasMultiples L f chart rows.now.d space.now planes.now (length planes.now)
        (chart_of L f chart).u) }
    ensures theta { let L = K.lawful alg.now.k in let f = alg.now.f in IfOk result (λ b. IsTrue b →
        HasMultiples L f chart rows.now.d space.now planes.now (length planes.now)
        (chart_of L f chart).theta) }
{
    let (u, theta) = variables(alloc, alg, chart)?;
    if !holds_multiples(alloc, alg, chart, rows, space, planes, &u)? {
        return Ok(false);
    }
    holds_multiples(alloc, alg, chart, rows, space, planes, &theta)
}

/// Whether the lattice of the space was found to be closed under products.
pub(crate) fn is_closed<K: FiniteField<E = u32>>(
    alloc: Global,
    alg: &Alg<K>,
    chart: Chart,
    rows: &ChartRows,
    space: &Space,
) -> Result<bool, NoMemory>
    requires rows { let L = K.lawful alg.now.k in IsChartRows L alg.now.f chart rows.now }
    requires space { let L = K.lawful alg.now.k in
        IsResidueSpace L alg.now.f chart rows.now.d space.now }
    ensures { let L = K.lawful alg.now.k in IfOk result (λ b. IsTrue b →
        IsClosedSpace L alg.now.f chart rows.now.d space.now) }
{
    let planes = planes_of(alloc, alg, chart, rows, space.basis())?;
    if !holds_variables(alloc, alg, chart, rows, space, &planes)? {
        return Ok(false);
    }
    holds_all_products(alloc, alg, chart, rows, space, &planes)
}
