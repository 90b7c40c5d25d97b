// Elements that are read back from vectors.
ghost use Rattle.std.specs.Prelude.{◌≡◌, ℕ, ◌+◌, ◌*◌, ◌<◌, ◌≤◌, pred, length, get_or, IfOk};
ghost use Rattle.std.specs.List.{All};
ghost use Rattle.ff_theory.specs.Ring.{IsElement};
ghost use Rattle.ff_theory.specs.Lawful.{lawful_field};
ghost use Rattle.ff_theory.specs.Vector.{vector_of, vectors_of, IsVector};
ghost use Rattle.ff_theory.specs.Values.{poly_of, IsPoly, plane_of};
ghost use Rattle.ff_theory.specs.Planes.{row_of};
ghost use Rattle.ff_theory.specs.Algebra.{value_of};
ghost use Rattle.ff_lin.specs.Space.{rows_of, AreVectors};
ghost use Rattle.ff_elem.specs.declared.elem.Elem.{Elem};
ghost use Rattle.ff_elem.specs.Elem.{algebra_in, elem_of, ElemIs, IsElem};
ghost use Rattle.ff_data.specs.Orders.{chart_of, y_degree};
ghost use Rattle.ff_basis.specs.Blocks.{block_value, sum_of_blocks, IsFactor};
ghost use Rattle.ff_basis.specs.OrderList.{IsFraction};

use crate::blocks::block;
use ff_alg::{FiniteField, NoMemory};
use ff_data::Chart;
use ff_elem::{Alg, Elem};
use ff_poly::rows::single;
use ff_poly::{Plane, Poly};
use std::alloc::Global;

/// A polynomial in x as an element.
fn row_element<K: FiniteField<E = u32>>(
    alloc: Global,
    alg: &Alg<K>,
    row: Poly,
) -> Result<Elem, NoMemory>
    requires { IsPoly (K.elements alg.now.k) row }
    ensures { let F = K.elements alg.now.k in let L = K.lawful alg.now.k in let f = alg.now.f in
        let D = lawful_field L in
        IfOk result (ElemIs L f (value_of D (plane_of F f) (row_of F.ring (poly_of F row)))) }
{
    let num = Plane::from_vec(&alg.k, single(alloc, row)?);
    let one = Poly::one(alloc, &alg.k)?;
    alg.from_parts(alloc, &num, &one)
}

/// The sum `row + theta * sum`.
fn step<K: FiniteField<E = u32>>(
    alloc: Global,
    alg: &Alg<K>,
    theta: &Elem,
    sum: &Elem,
    row: Poly,
) -> Result<Elem, NoMemory>
    requires theta { IsElem (K.lawful alg.now.k) alg.now.f theta.now }
    requires sum { IsElem (K.lawful alg.now.k) alg.now.f sum.now }
    requires row { IsPoly (K.elements alg.now.k) row }
    ensures { let F = K.elements alg.now.k in let L = K.lawful alg.now.k in let f = alg.now.f in
        let A = algebra_in L f in let D = lawful_field L in
        IfOk result (ElemIs L f (A.add
        (value_of D (plane_of F f) (row_of F.ring (poly_of F row)))
        (A.mul (elem_of L f theta.now) (elem_of L f sum.now)))) }
{
    let raised = alg.mul(alloc, theta, sum)?;
    let row = row_element(alloc, alg, row)?;
    alg.add(alloc, &row, &raised)
}

/// The sum `row + theta * sum` with block `b` of a vector as the row.
fn next_sum<K: FiniteField<E = u32>>(
    alloc: Global,
    alg: &Alg<K>,
    chart: Chart,
    theta: &Elem,
    sum: &Elem,
    v: &[u32],
    l: usize,
    b: usize,
) -> Result<Elem, NoMemory>
    requires theta { IsElem (K.lawful alg.now.k) alg.now.f theta.now }
    requires sum { IsElem (K.lawful alg.now.k) alg.now.f sum.now }
    requires v { All (IsElement (K.elements alg.now.k)) v.now }
    requires room { b * l + l ≤ length v.now }
    ensures { let F = K.elements alg.now.k in let L = K.lawful alg.now.k in let f = alg.now.f in
        let A = algebra_in L f in
        IfOk result (ElemIs L f (A.add (block_value L f chart (vector_of F v.now) l b)
        (A.mul (elem_of L f theta.now) (elem_of L f sum.now)))) }
{
    let row = block(alloc, &alg.k, chart, v, l, b)?;
    step(alloc, alg, theta, sum, row)
}

/// The sum of the `n` blocks of `l` entries of a vector times the powers of theta, the highest
/// power first.
fn block_sum<K: FiniteField<E = u32>>(
    alloc: Global,
    alg: &Alg<K>,
    chart: Chart,
    theta: &Elem,
    v: &[u32],
    l: usize,
    n: usize,
) -> Result<Elem, NoMemory>
    requires theta { IsElem (K.lawful alg.now.k) alg.now.f theta.now }
    requires v { IsVector (K.elements alg.now.k) (n * l) v.now }
    ensures { let F = K.elements alg.now.k in let L = K.lawful alg.now.k in let f = alg.now.f in
        IfOk result (ElemIs L f
        (sum_of_blocks L f chart (elem_of L f theta.now) (vector_of F v.now) l n)) }
{
    let mut sum = alg.zero(alloc)?;
    for b in 0..n {
        sum = next_sum(alloc, alg, chart, theta, &sum, v, l, b)?;
    }
    Ok(sum)
}

/// The element 1 over a polynomial in x that is not 0.
fn inverse<K: FiniteField<E = u32>>(
    alloc: Global,
    alg: &Alg<K>,
    den: &Poly,
) -> Result<Elem, NoMemory>
    requires den { IsPoly (K.elements alg.now.k) den.now }
    requires nonzero { 0 < length den.now }
    ensures element { IfOk result (IsElem (K.lawful alg.now.k) alg.now.f) }
    ensures value { let F = K.elements alg.now.k in let L = K.lawful alg.now.k in
        let f = alg.now.f in let A = algebra_in L f in
        IfOk result (λ r. A.mul
        (value_of (lawful_field L) (plane_of F f) (row_of F.ring (poly_of F den.now)))
        (elem_of L f r) ≡ A.one) }
{
    let one = Poly::one(alloc, &alg.k)?;
    let num = Plane::from_vec(&alg.k, single(alloc, one)?);
    alg.from_parts(alloc, &num, den)
}

/// What a sum of blocks is multiplied by: the inverse of `den`, and in the infinite chart x.
fn factor<K: FiniteField<E = u32>>(
    alloc: Global,
    alg: &Alg<K>,
    chart: Chart,
    den: &Poly,
) -> Result<Elem, NoMemory>
    requires den { IsPoly (K.elements alg.now.k) den.now }
    requires nonzero { 0 < length den.now }
    ensures element { IfOk result (IsElem (K.lawful alg.now.k) alg.now.f) }
    ensures value { let F = K.elements alg.now.k in let L = K.lawful alg.now.k in
        let f = alg.now.f in
        IfOk result (λ r. IsFactor L f chart (poly_of F den.now) (elem_of L f r)) }
{
    match chart {
        Chart::Finite => inverse(alloc, alg, den),
        Chart::Infinite => alg.x(alloc),
    }
}

/// The element of a vector over `den`, a modulus of the chart.
fn element<K: FiniteField<E = u32>>(
    alloc: Global,
    alg: &Alg<K>,
    chart: Chart,
    theta: &Elem,
    den: &Poly,
    factor: &Elem,
    v: &[u32],
) -> Result<Elem, NoMemory>
    requires theta { let L = K.lawful alg.now.k in let f = alg.now.f in
        ElemIs L f (chart_of L f chart).theta theta.now }
    requires den { IsPoly (K.elements alg.now.k) den.now }
    requires modulus { let F = K.elements alg.now.k in let L = K.lawful alg.now.k in
        (chart_of L alg.now.f chart).IsModulus (poly_of F den.now) }
    requires factor { IsElem (K.lawful alg.now.k) alg.now.f factor.now }
    requires factor_is { let F = K.elements alg.now.k in let L = K.lawful alg.now.k in
        let f = alg.now.f in IsFactor L f chart (poly_of F den.now) (elem_of L f factor.now) }
    requires v { let F = K.elements alg.now.k in let L = K.lawful alg.now.k in
        IsVector F (y_degree L alg.now.f * pred (length den.now)) v.now }
    ensures element { IfOk result (IsElem (K.lawful alg.now.k) alg.now.f) }
    ensures value { let F = K.elements alg.now.k in let L = K.lawful alg.now.k in
        let f = alg.now.f in IfOk result (λ r.
        IsFraction L f chart (poly_of F den.now) (vector_of F v.now) (elem_of L f r)) }
{
    let l = den.coeffs().len() - 1;
    let n = alg.f.rows().len() - 1;
    let sum = block_sum(alloc, alg, chart, theta, v, l, n)?;
    alg.mul(alloc, factor, &sum)
}

/// The elements of vectors over `den`, a modulus of the chart, by the factor of the chart.
fn read_all<K: FiniteField<E = u32>>(
    alloc: Global,
    alg: &Alg<K>,
    chart: Chart,
    theta: &Elem,
    den: &Poly,
    factor: &Elem,
    basis: &[Vec<u32>],
) -> Result<Vec<Elem>, NoMemory>
    requires theta { let L = K.lawful alg.now.k in let f = alg.now.f in
        ElemIs L f (chart_of L f chart).theta theta.now }
    requires den { IsPoly (K.elements alg.now.k) den.now }
    requires modulus { let F = K.elements alg.now.k in let L = K.lawful alg.now.k in
        (chart_of L alg.now.f chart).IsModulus (poly_of F den.now) }
    requires factor { IsElem (K.lawful alg.now.k) alg.now.f factor.now }
    requires factor_is { let F = K.elements alg.now.k in let L = K.lawful alg.now.k in
        let f = alg.now.f in IsFactor L f chart (poly_of F den.now) (elem_of L f factor.now) }
    requires basis { let F = K.elements alg.now.k in let L = K.lawful alg.now.k in
        AreVectors F (y_degree L alg.now.f * pred (length den.now)) basis.now }
    ensures len { IfOk result (λ r. length r.items ≡ length basis.now) }
    ensures each { IfOk result (λ r. All (IsElem (K.lawful alg.now.k) alg.now.f) r.items) }
    ensures value { let F = K.elements alg.now.k in let L = K.lawful alg.now.k in
        let f = alg.now.f in IfOk result (λ r. (i : ℕ) (e : Elem) → i < length r.items →
        IsFraction L f chart (poly_of F den.now) (vectors_of F (rows_of basis.now) i)
        (elem_of L f (get_or r.items i e))) }
{
    let mut list = Vec::with_capacity(alloc, basis.len())?;
    for v in basis {
        list.push(element(alloc, alg, chart, theta, den, factor, v)?)?;
    }
    Ok(list)
}

/// The elements of vectors over `den`, a modulus of the chart.
pub(crate) fn elements<K: FiniteField<E = u32>>(
    alloc: Global,
    alg: &Alg<K>,
    chart: Chart,
    theta: &Elem,
    den: &Poly,
    basis: &[Vec<u32>],
) -> Result<Vec<Elem>, NoMemory>
    requires theta { let L = K.lawful alg.now.k in let f = alg.now.f in
        ElemIs L f (chart_of L f chart).theta theta.now }
    requires den { IsPoly (K.elements alg.now.k) den.now }
    requires nonzero { 0 < length den.now }
    requires modulus { let F = K.elements alg.now.k in let L = K.lawful alg.now.k in
        (chart_of L alg.now.f chart).IsModulus (poly_of F den.now) }
    requires basis { let F = K.elements alg.now.k in let L = K.lawful alg.now.k in
        AreVectors F (y_degree L alg.now.f * pred (length den.now)) basis.now }
    ensures len { IfOk result (λ r. length r.items ≡ length basis.now) }
    ensures each { IfOk result (λ r. All (IsElem (K.lawful alg.now.k) alg.now.f) r.items) }
    ensures value { let F = K.elements alg.now.k in let L = K.lawful alg.now.k in
        let f = alg.now.f in IfOk result (λ r. (i : ℕ) (e : Elem) → i < length r.items →
        IsFraction L f chart (poly_of F den.now) (vectors_of F (rows_of basis.now) i)
        (elem_of L f (get_or r.items i e))) }
{
    let factor = factor(alloc, alg, chart, den)?;
    read_all(alloc, alg, chart, theta, den, &factor, basis)
}
