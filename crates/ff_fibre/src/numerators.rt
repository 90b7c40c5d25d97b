// Numerators over d of the powers of theta and of the elements that the basis of the space of an
// order stands for.
ghost use Rattle.std.specs.Prelude.{◌≡◌, ℕ, ◌*◌, ◌<◌, pred, length, IfOk};
ghost use Rattle.ff_theory.specs.Ring.{IsElement};
ghost use Rattle.ff_theory.specs.Monomial.{monomial};
ghost use Rattle.ff_theory.specs.Values.{poly_of, IsPoly, polys_over, plane_of, IsPlane};
ghost use Rattle.ff_theory.specs.Vector.{vector_of, IsVector};
ghost use Rattle.ff_charts.specs.Lattice.{flat};
ghost use Rattle.ff_lin.specs.Space.{rows_of, AreVectors};
ghost use Rattle.ff_local.specs.ChartOrder.{root_at};
ghost use Rattle.ff_data.specs.Orders.{y_degree, IsOrder};
ghost use Rattle.ff_fibre.specs.Fibres.{IsWidened, AreCoefficientsOf, ArePowerVectors};
ghost use Rattle.ff_fibre.specs.Fibres.{AreSpanning};

use ff_alg::{FiniteField, NoMemory};
use ff_data::Order;
use ff_elem::Alg;
use ff_lattice::{plane_of_vector, vector_of_plane};
use ff_poly::{Plane, Poly};
use std::alloc::Global;

/// The polynomial u - a. `NoMemory` is the only error.
pub fn linear<K: FiniteField<E = u32>>(alloc: Global, k: &K, a: u32) -> Result<Poly, NoMemory>
    requires { IsElement (K.elements k.now) a }
    ensures poly { IfOk result (IsPoly (K.elements k.now)) }
    ensures len { IfOk result (λ r. length r ≡ 2) }
    ensures value { let F = K.elements k.now in
        IfOk result (λ r. poly_of F r ≡ root_at F.ring (F.value a)) }
{
    let mut coeffs = Vec::with_capacity(alloc, 2)?;
    coeffs.push(k.neg(a))?;
    coeffs.push(k.one())?;
    Poly::from_coeffs(alloc, k, &coeffs)
}

/// The numerator over d of the power of theta with exponent i: d alone, in row i. `NoMemory` is the
/// only error.
pub fn power_numerator<K: FiniteField<E = u32>>(
    alloc: Global,
    k: &K,
    d: &Poly,
    i: usize,
) -> Result<Plane, NoMemory>
    requires { IsPoly (K.elements k.now) d.now }
    ensures plane { IfOk result (IsPlane (K.elements k.now)) }
    ensures value { let F = K.elements k.now in let P = polys_over F in
        IfOk result (λ r. plane_of F r ≡ monomial P (poly_of F d.now) i) }
{
    let mut rows = Vec::new(alloc);
    for _j in 0..i {
        rows.push(Poly::zero(alloc))?;
    }
    rows.push(d.copy(alloc)?)?;
    Ok(Plane::from_vec(k, rows))
}

/// The numerator over d that a vector of the space of an order stands for. `NoMemory` is the only
/// error.
pub fn basis_numerator<K: FiniteField<E = u32>>(
    alloc: Global,
    alg: &Alg<K>,
    order: &Order,
    v: &[u32],
) -> Result<Plane, NoMemory>
    requires order { IsOrder (K.lawful alg.now.k) alg.now.f order.now }
    requires vector { let L = K.lawful alg.now.k in
        IsVector (K.elements alg.now.k) (y_degree L alg.now.f * pred (length order.now.d)) v.now }
    ensures plane { IfOk result (IsPlane (K.elements alg.now.k)) }
    ensures value { let F = K.elements alg.now.k in let L = K.lawful alg.now.k in
        let n = y_degree L alg.now.f in let l = pred (length order.now.d) in
        IfOk result (AreCoefficientsOf F n l (vector_of F v.now)) }
{
    let n = alg.f.rows().len() - 1;
    plane_of_vector(alloc, &alg.k, v, n, order.d.coeffs().len() - 1)
}

/// The vector of n rows, with as many coefficients in a row as d has, of the numerator of the power
/// of theta with exponent i.
fn power_vector<K: FiniteField<E = u32>>(
    alloc: Global,
    alg: &Alg<K>,
    order: &Order,
    n: usize,
    i: usize,
) -> Result<Vec<u32>, NoMemory>
    requires order { IsOrder (K.lawful alg.now.k) alg.now.f order.now }
    requires index { i < n }
    ensures vector { let F = K.elements alg.now.k in
        IfOk result (λ r. IsVector F (n * length order.now.d) r.items) }
    ensures value { let F = K.elements alg.now.k in let P = polys_over F in
        IfOk result (λ r. (j : ℕ) → vector_of F r.items j ≡ flat F.ring (length order.now.d)
        (monomial P (poly_of F order.now.d) i) j) }
{
    let plane = power_numerator(alloc, &alg.k, &order.d, i)?;
    vector_of_plane(alloc, &alg.k, &plane, n, order.d.coeffs().len())
}

/// The vectors, with as many coefficients in a row as d has, of the numerators of the powers of
/// theta below the degree of its equation.
fn power_vectors<K: FiniteField<E = u32>>(
    alloc: Global,
    alg: &Alg<K>,
    order: &Order,
) -> Result<Vec<Vec<u32>>, NoMemory>
    requires order { IsOrder (K.lawful alg.now.k) alg.now.f order.now }
    ensures vectors { let L = K.lawful alg.now.k in let n = y_degree L alg.now.f in
        IfOk result (λ r. AreVectors (K.elements alg.now.k) (n * length order.now.d) r.items) }
    ensures count { let L = K.lawful alg.now.k in
        IfOk result (λ r. length r.items ≡ y_degree L alg.now.f) }
    ensures value { let L = K.lawful alg.now.k in
        IfOk result (λ r. ArePowerVectors L alg.now.f order.now (rows_of r.items)) }
{
    let n = alg.f.rows().len() - 1;
    let mut list = Vec::with_capacity(alloc, n)?;
    for i in 0..n {
        list.push(power_vector(alloc, alg, order, n, i)?)?;
    }
    Ok(list)
}

/// The vector, with one coefficient more in a row, of the numerator that a vector of the space of
/// an order stands for.
fn widened<K: FiniteField<E = u32>>(
    alloc: Global,
    alg: &Alg<K>,
    order: &Order,
    v: &[u32],
) -> Result<Vec<u32>, NoMemory>
    requires order { IsOrder (K.lawful alg.now.k) alg.now.f order.now }
    requires vector { let L = K.lawful alg.now.k in
        IsVector (K.elements alg.now.k) (y_degree L alg.now.f * pred (length order.now.d)) v.now }
    ensures vector { let L = K.lawful alg.now.k in let n = y_degree L alg.now.f in
        IfOk result (λ r. IsVector (K.elements alg.now.k) (n * length order.now.d) r.items) }
    ensures value { let F = K.elements alg.now.k in let L = K.lawful alg.now.k in
        let n = y_degree L alg.now.f in IfOk result (λ r. IsWidened F n (length order.now.d)
        (vector_of F v.now) (vector_of F r.items)) }
{
    let plane = basis_numerator(alloc, alg, order, v)?;
    let n = alg.f.rows().len() - 1;
    vector_of_plane(alloc, &alg.k, &plane, n, order.d.coeffs().len())
}

/// The vectors of numerators that span those of the order modulo u - a: of the powers of theta, and
/// of the elements that the basis of the order's space stands for.
pub(crate) fn spanning_vectors<K: FiniteField<E = u32>>(
    alloc: Global,
    alg: &Alg<K>,
    order: &Order,
) -> Result<Vec<Vec<u32>>, NoMemory>
    requires order { IsOrder (K.lawful alg.now.k) alg.now.f order.now }
    ensures vectors { let L = K.lawful alg.now.k in let n = y_degree L alg.now.f in
        IfOk result (λ r. AreVectors (K.elements alg.now.k) (n * length order.now.d) r.items) }
    ensures spanning { let L = K.lawful alg.now.k in
        IfOk result (λ r. AreSpanning L alg.now.f order.now (rows_of r.items)) }
{
    let mut list = power_vectors(alloc, alg, order)?;
    for v in order.space.basis() {
        list.push(widened(alloc, alg, order, v)?)?;
    }
    Ok(list)
}
