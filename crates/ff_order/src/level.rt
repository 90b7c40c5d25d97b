// The linear test: the residues modulo d of the elements whose p-th power the different carries
// into the power order, by relations of vectors modulo d.
ghost use Rattle.std.specs.Prelude.{◌≡◌, ℕ, ◌*◌, ◌<◌, ◌≤◌, pred, length, get_or, [], IfOk};
ghost use Rattle.std.specs.List.{All};
ghost use Rattle.ff_theory.specs.Ring.{IsElement};
ghost use Rattle.ff_theory.specs.Poly.{coeff};
ghost use Rattle.ff_theory.specs.Vector.{vector_of, IsVector, combination_of};
ghost use Rattle.ff_theory.specs.Values.{poly_of, IsPoly, polys_over, polys_of, ArePolys};
ghost use Rattle.ff_theory.specs.Values.{plane_of};
ghost use Rattle.ff_lin.specs.Space.{rows_of, AreVectors, SameSpace, SpansFamily};
ghost use Rattle.ff_lin.specs.Space.{combinations_of, IsSpaceOf};
ghost use Rattle.ff_data.specs.Orders.{y_degree};
ghost use Rattle.ff_order.specs.Rows.{IsChartRows};
ghost use Rattle.ff_order.specs.Steps.{IsResidueSpace, HoldsIntegral};
ghost use Rattle.ff_order.specs.Level.{lists_of, part_at, test_sum, AreRowParts, AreTestPlanes};
ghost use Rattle.ff_order.specs.Level.{IsImage, AreImages, HoldsPassed, HaveParts};

use crate::chart::ChartRows;
use crate::different::row_parts;
use crate::vectors::residue_plane;
use ff_alg::{FiniteField, NoMemory};
use ff_data::{Chart, combinations};
use ff_elem::Alg;
use ff_lin::Space;
use ff_poly::{Plane, Poly};
use std::alloc::Global;

/// The coefficients of a polynomial that has at most `l`.
fn coefficients<K: FiniteField<E = u32>>(
    alloc: Global,
    k: &K,
    p: &Poly,
    l: usize,
) -> Result<Vec<u32>, NoMemory>
    requires p { IsPoly (K.elements k.now) p.now }
    requires few { length p.now ≤ l }
    ensures vector { IfOk result (λ v. IsVector (K.elements k.now) l v.items) }
    ensures value { let F = K.elements k.now in IfOk result (λ v. (j : ℕ) →
        vector_of F v.items j ≡ coeff F.ring (poly_of F p.now).coeffs j) }
{
    let mut v = Vec::with_capacity(alloc, l)?;
    for j in 0..l {
        v.push(p.coeff(k, j))?;
    }
    Ok(v)
}

/// The sum of the products of the rows and of the polynomials `s` of the lists.
fn sum_of_products<K: FiniteField<E = u32>>(
    alloc: Global,
    k: &K,
    rows: &[Poly],
    lists: &[Vec<Poly>],
    s: usize,
) -> Result<Poly, NoMemory>
    requires rows { ArePolys (K.elements k.now) rows.now }
    requires lists { HaveParts (K.elements k.now) (lists_of lists.now) }
    requires few { length rows.now ≤ length lists.now }
    requires index { let F = K.elements k.now in s < F.characteristic }
    ensures poly { IfOk result (IsPoly (K.elements k.now)) }
    ensures value { let F = K.elements k.now in IfOk result (λ r. poly_of F r ≡
        test_sum F (lists_of lists.now) s (length rows.now) (plane_of F rows.now)) }
{
    let mut sum = Poly::zero(alloc);
    for i in 0..rows.len() {
        sum = sum.add(alloc, k, &rows[i].mul(alloc, k, &lists[i][s])?)?;
    }
    Ok(sum)
}

/// The vector of the remainder modulo d of the sum of products for the plane of a vector.
fn image<K: FiniteField<E = u32>>(
    alloc: Global,
    alg: &Alg<K>,
    chart: Chart,
    rows: &ChartRows,
    v: &[u32],
    lists: &[Vec<Poly>],
    s: usize,
) -> Result<Vec<u32>, NoMemory>
    requires rows { let L = K.lawful alg.now.k in IsChartRows L alg.now.f chart rows.now }
    requires v { let F = K.elements alg.now.k in let L = K.lawful alg.now.k in
        IsVector F (y_degree L alg.now.f * pred (length rows.now.d)) v.now }
    requires lists { HaveParts (K.elements alg.now.k) (lists_of lists.now) }
    requires count { let L = K.lawful alg.now.k in length lists.now ≡ y_degree L alg.now.f }
    requires index { let F = K.elements alg.now.k in s < F.characteristic }
    ensures vector { let F = K.elements alg.now.k in
        IfOk result (λ r. IsVector F (pred (length rows.now.d)) r.items) }
    ensures value { let F = K.elements alg.now.k in let L = K.lawful alg.now.k in
        IfOk result (λ r. IsImage L alg.now.f chart rows.now.d (lists_of lists.now) s
        (vector_of F v.now) (vector_of F r.items)) }
{
    let k = &alg.k;
    let plane = residue_plane(alloc, alg, chart, rows, v)?;
    let sum = sum_of_products(alloc, k, plane.rows(), lists, s)?;
    let rest = sum.remainder(alloc, k, &rows.d)?;
    coefficients(alloc, k, &rest, rows.d.coeffs().len() - 1)
}

/// The images of vectors.
fn images<K: FiniteField<E = u32>>(
    alloc: Global,
    alg: &Alg<K>,
    chart: Chart,
    rows: &ChartRows,
    basis: &[Vec<u32>],
    lists: &[Vec<Poly>],
    s: usize,
) -> Result<Vec<Vec<u32>>, NoMemory>
    requires rows { let L = K.lawful alg.now.k in IsChartRows L alg.now.f chart rows.now }
    requires basis { let F = K.elements alg.now.k in let L = K.lawful alg.now.k in
        AreVectors F (y_degree L alg.now.f * pred (length rows.now.d)) basis.now }
    requires lists { HaveParts (K.elements alg.now.k) (lists_of lists.now) }
    requires count { let L = K.lawful alg.now.k in length lists.now ≡ y_degree L alg.now.f }
    requires index { let F = K.elements alg.now.k in s < F.characteristic }
    ensures len { IfOk result (λ r. length r.items ≡ length basis.now) }
    ensures vectors { let F = K.elements alg.now.k in
        IfOk result (λ r. AreVectors F (pred (length rows.now.d)) r.items) }
    ensures value { let L = K.lawful alg.now.k in IfOk result (λ r.
        AreImages L alg.now.f chart rows.now.d (lists_of lists.now) s (rows_of basis.now)
        (rows_of r.items) (length basis.now)) }
{
    let mut images = Vec::with_capacity(alloc, basis.len())?;
    for v in basis {
        images.push(image(alloc, alg, chart, rows, v, lists, s)?)?;
    }
    Ok(images)
}

/// The residues of the space whose sum of products d divides.
fn pass<K: FiniteField<E = u32>>(
    alloc: Global,
    alg: &Alg<K>,
    chart: Chart,
    rows: &ChartRows,
    space: Space,
    lists: &[Vec<Poly>],
    s: usize,
) -> Result<Space, NoMemory>
    requires rows { let L = K.lawful alg.now.k in IsChartRows L alg.now.f chart rows.now }
    requires space { let L = K.lawful alg.now.k in
        IsResidueSpace L alg.now.f chart rows.now.d space }
    requires lists { HaveParts (K.elements alg.now.k) (lists_of lists.now) }
    requires count { let L = K.lawful alg.now.k in length lists.now ≡ y_degree L alg.now.f }
    requires index { let F = K.elements alg.now.k in s < F.characteristic }
    ensures space { let L = K.lawful alg.now.k in
        IfOk result (IsResidueSpace L alg.now.f chart rows.now.d) }
    ensures holds { let L = K.lawful alg.now.k in IfOk result (λ r.
        HoldsPassed L alg.now.f chart rows.now.d (lists_of lists.now) s space r) }
{
    let k = &alg.k;
    let images = images(alloc, alg, chart, rows, space.basis(), lists, s)?;
    let relations = Space::relations(alloc, k, rows.d.coeffs().len() - 1, &images)?;
    if relations.dim() == space.dim() {
        return Ok(space);
    }
    combinations(alloc, k, space.len(), relations.basis(), space.basis())
}

/// The residues of the space that pass the tests of row `j`.
pub(crate) fn pass_row<K: FiniteField<E = u32>>(
    alloc: Global,
    alg: &Alg<K>,
    chart: Chart,
    rows: &ChartRows,
    first: Space,
    planes: &[Plane],
    j: usize,
) -> Result<Space, NoMemory>
    requires rows { let L = K.lawful alg.now.k in IsChartRows L alg.now.f chart rows.now }
    requires space { let L = K.lawful alg.now.k in
        IsResidueSpace L alg.now.f chart rows.now.d first }
    requires holds { let L = K.lawful alg.now.k in
        HoldsIntegral L alg.now.f chart rows.now.d first }
    requires planes { let L = K.lawful alg.now.k in
        AreTestPlanes L alg.now.f chart planes.now }
    requires index { let L = K.lawful alg.now.k in j < y_degree L alg.now.f }
    ensures space { let L = K.lawful alg.now.k in
        IfOk result (IsResidueSpace L alg.now.f chart rows.now.d) }
    ensures holds { let L = K.lawful alg.now.k in
        IfOk result (HoldsIntegral L alg.now.f chart rows.now.d) }
{
    let lists = row_parts(alloc, alg, chart, planes, j)?;
    let mut space = first;
    for s in 0..alg.k.characteristic() {
        space = pass(alloc, alg, chart, rows, space, &lists, s as usize)?;
    }
    Ok(space)
}
