// Orders by smaller denominators.
ghost use Rattle.std.specs.Prelude.{◌≡◌, ℕ, ◌*◌, ◌<◌, pred, length, IfOk};
ghost use Rattle.std.specs.List.{All};
ghost use Rattle.ff_theory.specs.Vector.{vector_of, IsVector};
ghost use Rattle.ff_theory.specs.Divides.{Divides};
ghost use Rattle.ff_theory.specs.Values.{poly_of, IsPoly, polys_over, plane_of};
ghost use Rattle.ff_theory.specs.Values.{ArePolys};
ghost use Rattle.ff_lin.specs.Space.{rows_of, AreVectors, IsSpaceOf};
ghost use Rattle.ff_data.specs.Orders.{chart_of, y_degree, IsOrder};
ghost use Rattle.ff_data.specs.Lattices.{IsLattice};
ghost use Rattle.ff_data.specs.Vectors.{IsPlaneWithin};
ghost use Rattle.ff_frac.specs.Places.{IsOrderLattice};
ghost use Rattle.ff_frac.specs.Shrinking.{DividesRows, DividesPlanes, HavePlanes, AreBasisPlanes};
ghost use Rattle.ff_frac.specs.Shrinking.{IsQuotientVector, HasMultiple, HaveMultiples};
ghost use Rattle.ff_frac.specs.Shrinking.{AreQuotientVectors, IsQuotientSpace, IsSameOrder};

use crate::module::span_of;
use ff_alg::{FiniteField, NoMemory};
use ff_data::{Chart, Order, quotients_by, variable_power};
use ff_elem::Alg;
use ff_lattice::{plane_of_vector, residues, vector_of_plane};
use ff_lin::Space;
use ff_poly::{Plane, Poly};
use std::alloc::Global;

/// The planes with the vectors, whose rows have `l` coefficients.
fn planes_of<K: FiniteField<E = u32>>(
    alloc: Global,
    alg: &Alg<K>,
    l: usize,
    vectors: &[Vec<u32>],
) -> Result<Vec<Plane>, NoMemory>
    requires { let L = K.lawful alg.now.k in
        AreVectors (K.elements alg.now.k) (y_degree L alg.now.f * l) vectors.now }
    ensures len { IfOk result (λ r. length r.items ≡ length vectors.now) }
    ensures planes { let F = K.elements alg.now.k in let L = K.lawful alg.now.k in
        IfOk result (λ r. All (IsPlaneWithin F (y_degree L alg.now.f)) r.items) }
    ensures value { let F = K.elements alg.now.k in let L = K.lawful alg.now.k in
        IfOk result (λ r. HavePlanes F (y_degree L alg.now.f) l (rows_of vectors.now) r.items) }
{
    let n = alg.f.rows().len() - 1;
    let mut planes = Vec::new(alloc);
    for v in vectors {
        planes.push(plane_of_vector(alloc, &alg.k, v, n, l)?)?;
    }
    Ok(planes)
}

/// The planes of the basis of an order's space.
fn planes<K: FiniteField<E = u32>>(
    alloc: Global,
    alg: &Alg<K>,
    order: &Order,
) -> Result<Vec<Plane>, NoMemory>
    requires order { IsOrder (K.lawful alg.now.k) alg.now.f order.now }
    ensures planes { let F = K.elements alg.now.k in let L = K.lawful alg.now.k in
        IfOk result (λ r. All (IsPlaneWithin F (y_degree L alg.now.f)) r.items) }
    ensures value { let F = K.elements alg.now.k in let L = K.lawful alg.now.k in
        let l = pred (length order.now.d) in IfOk result (λ r. AreBasisPlanes F
        (y_degree L alg.now.f) l order.now.space.basis r.items) }
{
    let l = order.d.coeffs().len() - 1;
    planes_of(alloc, alg, l, order.space.basis())
}

/// The greatest common divisor of a polynomial that is not 0 and of rows.
fn divisor<K: FiniteField<E = u32>>(
    alloc: Global,
    k: &K,
    d: Poly,
    rows: &[Poly],
) -> Result<Poly, NoMemory>
    requires d { IsPoly (K.elements k.now) d }
    requires nonzero { 0 < length d }
    requires rows { ArePolys (K.elements k.now) rows.now }
    ensures poly { IfOk result (IsPoly (K.elements k.now)) }
    ensures nonzero { IfOk result (λ r. 0 < length r) }
    ensures divides { let F = K.elements k.now in
        IfOk result (λ r. Divides (polys_over F) (poly_of F r) (poly_of F d)) }
    ensures each { let F = K.elements k.now in
        IfOk result (λ r. DividesRows F (poly_of F r) rows.now) }
{
    let mut divisor = d;
    for row in rows {
        divisor = divisor.gcd(alloc, k, row)?;
    }
    Ok(divisor)
}

/// The greatest common divisor of d, which is not 0, and of all rows.
fn common_divisor<K: FiniteField<E = u32>>(
    alloc: Global,
    alg: &Alg<K>,
    d: &Poly,
    planes: &[Plane],
) -> Result<Poly, NoMemory>
    requires d { IsPoly (K.elements alg.now.k) d.now }
    requires nonzero { 0 < length d.now }
    requires planes { let F = K.elements alg.now.k in let L = K.lawful alg.now.k in
        All (IsPlaneWithin F (y_degree L alg.now.f)) planes.now }
    ensures poly { IfOk result (IsPoly (K.elements alg.now.k)) }
    ensures nonzero { IfOk result (λ r. 0 < length r) }
    ensures divides { let F = K.elements alg.now.k in
        IfOk result (λ r. Divides (polys_over F) (poly_of F r) (poly_of F d.now)) }
    ensures each { let F = K.elements alg.now.k in
        IfOk result (λ r. DividesPlanes F (poly_of F r) planes.now) }
{
    let mut common = d.copy(alloc)?;
    for plane in planes {
        common = divisor(alloc, &alg.k, common, plane.rows())?;
    }
    Ok(common)
}

/// A modulus of the chart that divides a divisor of one: in the infinite chart a power of t.
fn chart_divisor<K: FiniteField<E = u32>>(
    alloc: Global,
    alg: &Alg<K>,
    chart: Chart,
    d: &Poly,
    by: &Poly,
) -> Result<Poly, NoMemory>
    requires d { let F = K.elements alg.now.k in let L = K.lawful alg.now.k in
        (chart_of L alg.now.f chart).IsModulus (poly_of F d.now) }
    requires by { IsPoly (K.elements alg.now.k) by.now }
    requires by_nonzero { 0 < length by.now }
    requires divides { let F = K.elements alg.now.k in
        Divides (polys_over F) (poly_of F by.now) (poly_of F d.now) }
    ensures poly { IfOk result (IsPoly (K.elements alg.now.k)) }
    ensures nonzero { IfOk result (λ r. 0 < length r) }
    ensures modulus { let F = K.elements alg.now.k in let L = K.lawful alg.now.k in
        IfOk result (λ r. (chart_of L alg.now.f chart).IsModulus (poly_of F r)) }
    ensures divides { let F = K.elements alg.now.k in
        IfOk result (λ r. Divides (polys_over F) (poly_of F r) (poly_of F by.now)) }
{
    let _of = d;
    match chart {
        Chart::Finite => by.copy(alloc),
        Chart::Infinite => {
            let m = by.coeffs().len() - 1;
            variable_power(alloc, &alg.k, m)
        },
    }
}

/// The quotient of a modulus of the chart by another one.
fn modulus<K: FiniteField<E = u32>>(
    alloc: Global,
    alg: &Alg<K>,
    chart: Chart,
    d: &Poly,
    by: &Poly,
) -> Result<Poly, NoMemory>
    requires d { IsPoly (K.elements alg.now.k) d.now }
    requires nonzero { 0 < length d.now }
    requires by { IsPoly (K.elements alg.now.k) by.now }
    requires by_nonzero { 0 < length by.now }
    requires divides { let F = K.elements alg.now.k in
        Divides (polys_over F) (poly_of F by.now) (poly_of F d.now) }
    requires modulus { let F = K.elements alg.now.k in let L = K.lawful alg.now.k in
        (chart_of L alg.now.f chart).IsModulus (poly_of F d.now) }
    requires by_modulus { let F = K.elements alg.now.k in let L = K.lawful alg.now.k in
        (chart_of L alg.now.f chart).IsModulus (poly_of F by.now) }
    ensures poly { IfOk result (IsPoly (K.elements alg.now.k)) }
    ensures modulus { let F = K.elements alg.now.k in let L = K.lawful alg.now.k in
        IfOk result (λ r. (chart_of L alg.now.f chart).IsModulus (poly_of F r)) }
    ensures product { let F = K.elements alg.now.k in let P = polys_over F in
        IfOk result (λ r. poly_of F d.now ≡ P.mul (poly_of F by.now) (poly_of F r)) }
{
    let (quotient, _zero) = d.divide(alloc, &alg.k, by)?;
    match chart {
        Chart::Finite => Ok(quotient),
        Chart::Infinite => {
            let m = quotient.coeffs().len() - 1;
            variable_power(alloc, &alg.k, m)
        },
    }
}

/// The vector of the residues modulo m of the quotients of a plane by a polynomial.
fn quotient_vector<K: FiniteField<E = u32>>(
    alloc: Global,
    alg: &Alg<K>,
    plane: &Plane,
    by: &Poly,
    m: &Poly,
) -> Result<Vec<u32>, NoMemory>
    requires plane { let F = K.elements alg.now.k in let L = K.lawful alg.now.k in
        IsPlaneWithin F (y_degree L alg.now.f) plane.now }
    requires by { IsPoly (K.elements alg.now.k) by.now }
    requires by_nonzero { 0 < length by.now }
    requires m { IsPoly (K.elements alg.now.k) m.now }
    requires nonzero { 0 < length m.now }
    ensures vector { let L = K.lawful alg.now.k in let n = y_degree L alg.now.f in
        IfOk result (λ r. IsVector (K.elements alg.now.k) (n * pred (length m.now)) r.items) }
    ensures value { let F = K.elements alg.now.k in let L = K.lawful alg.now.k in
        let n = y_degree L alg.now.f in let g = poly_of F by.now in
        HasMultiple F n by.now m.now plane.now → IfOk result (λ r.
        IsQuotientVector F n (pred (length m.now)) g (plane_of F plane.now) (vector_of F r.items)) }
{
    let l = m.coeffs().len() - 1;
    let quotient = quotients_by(alloc, &alg.k, plane, by)?;
    let low = residues(alloc, &alg.k, &quotient, m)?;
    vector_of_plane(alloc, &alg.k, &low, alg.f.rows().len() - 1, l)
}

/// The vectors of the residues modulo m of the quotients of planes by a polynomial.
fn quotient_vectors<K: FiniteField<E = u32>>(
    alloc: Global,
    alg: &Alg<K>,
    planes: &[Plane],
    by: &Poly,
    m: &Poly,
) -> Result<Vec<Vec<u32>>, NoMemory>
    requires planes { let F = K.elements alg.now.k in let L = K.lawful alg.now.k in
        All (IsPlaneWithin F (y_degree L alg.now.f)) planes.now }
    requires by { IsPoly (K.elements alg.now.k) by.now }
    requires by_nonzero { 0 < length by.now }
    requires m { IsPoly (K.elements alg.now.k) m.now }
    requires nonzero { 0 < length m.now }
    ensures len { IfOk result (λ r. length r.items ≡ length planes.now) }
    ensures vectors { let L = K.lawful alg.now.k in let n = y_degree L alg.now.f in
        IfOk result (λ r. AreVectors (K.elements alg.now.k) (n * pred (length m.now)) r.items) }
    ensures value { let F = K.elements alg.now.k in let L = K.lawful alg.now.k in
        let n = y_degree L alg.now.f in HaveMultiples F n by.now m.now planes.now →
        IfOk result (λ r. AreQuotientVectors F n by.now m.now planes.now r.items) }
{
    let mut list = Vec::with_capacity(alloc, planes.len())?;
    for plane in planes {
        list.push(quotient_vector(alloc, alg, plane, by, m)?)?;
    }
    Ok(list)
}

/// The span of the residues modulo m of the quotients of planes by a polynomial.
fn quotient_space<K: FiniteField<E = u32>>(
    alloc: Global,
    alg: &Alg<K>,
    planes: &[Plane],
    by: &Poly,
    m: &Poly,
) -> Result<Space, NoMemory>
    requires planes { let F = K.elements alg.now.k in let L = K.lawful alg.now.k in
        All (IsPlaneWithin F (y_degree L alg.now.f)) planes.now }
    requires by { IsPoly (K.elements alg.now.k) by.now }
    requires by_nonzero { 0 < length by.now }
    requires m { IsPoly (K.elements alg.now.k) m.now }
    requires nonzero { 0 < length m.now }
    ensures space { let L = K.lawful alg.now.k in let n = y_degree L alg.now.f in
        IfOk result (IsSpaceOf (K.elements alg.now.k) (n * pred (length m.now))) }
    ensures value { let F = K.elements alg.now.k in let L = K.lawful alg.now.k in
        let n = y_degree L alg.now.f in HaveMultiples F n by.now m.now planes.now →
        IfOk result (IsQuotientSpace F n by.now m.now planes.now) }
{
    let l = m.coeffs().len() - 1;
    let vectors = quotient_vectors(alloc, alg, planes, by, m)?;
    let space = span_of(alloc, alg, l, &vectors)?;
    Ok(space)
}

/// The modulus and the space of an order over d divided by a polynomial.
fn divided<K: FiniteField<E = u32>>(
    alloc: Global,
    alg: &Alg<K>,
    order: &Order,
    planes: &[Plane],
) -> Result<(Poly, Space), NoMemory>
    requires order { IsOrder (K.lawful alg.now.k) alg.now.f order.now }
    requires planes { let F = K.elements alg.now.k in let L = K.lawful alg.now.k in
        All (IsPlaneWithin F (y_degree L alg.now.f)) planes.now }
    requires basis { let F = K.elements alg.now.k in let L = K.lawful alg.now.k in
        let l = pred (length order.now.d) in
        AreBasisPlanes F (y_degree L alg.now.f) l order.now.space.basis planes.now }
    ensures lattice { let L = K.lawful alg.now.k in
        IfOk result (λ r. IsLattice L alg.now.f order.now.chart r.0 r.1) }
    ensures same { let L = K.lawful alg.now.k in
        IfOk result (λ r. IsOrderLattice L alg.now.f order.now r.0 r.1) }
{
    let common = common_divisor(alloc, alg, &order.d, planes)?;
    let by = chart_divisor(alloc, alg, order.chart, &order.d, &common)?;
    let d = modulus(alloc, alg, order.chart, &order.d, &by)?;
    let space = quotient_space(alloc, alg, planes, &by, &d)?;
    Ok((d, space))
}

/// The same order over the least divisor of d over which it can be read: d and the rows of the
/// space are divided by their greatest common divisor. `NoMemory` is the only error.
pub fn shrunk<K: FiniteField<E = u32>>(
    alloc: Global,
    alg: &Alg<K>,
    order: &Order,
) -> Result<Order, NoMemory>
    requires order { IsOrder (K.lawful alg.now.k) alg.now.f order.now }
    ensures chart { IfOk result (λ r. r.chart ≡ order.now.chart) }
    ensures form { IfOk result (IsOrder (K.lawful alg.now.k) alg.now.f) }
    ensures same { let L = K.lawful alg.now.k in
        IfOk result (IsSameOrder L alg.now.f order.now) }
{
    let planes = planes(alloc, alg, order)?;
    let (d, space) = divided(alloc, alg, order, &planes)?;
    let theta = order.theta.copy(alloc)?;
    Ok(Order {
        chart: order.chart,
        theta,
        d,
        space,
    })
}
