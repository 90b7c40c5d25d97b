// The products of a polynomial in x and of the planes of a space, as longer vectors.
ghost use Rattle.std.specs.Prelude.{◌≡◌, ℕ, ◌+◌, ◌*◌, ◌-◌, ◌<◌, ◌≤◌, length, IfOk};
ghost use Rattle.ff_theory.specs.Ring.{power};
ghost use Rattle.ff_theory.specs.Monomial.{variable};
ghost use Rattle.ff_theory.specs.Values.{poly_of, IsPoly, polys_over};
ghost use Rattle.ff_theory.specs.Vector.{vector_of, vectors_of, IsVector};
ghost use Rattle.ff_lin.specs.Space.{rows_of, AreVectors, IsSpaceOf};
ghost use Rattle.ff_data.specs.Orders.{y_degree};
ghost use Rattle.ff_common.specs.Common.{IsTimesVector, IsTimesSpace};

use ff_alg::{FiniteField, NoMemory};
use ff_data::variable_power;
use ff_elem::Alg;
use ff_lattice::{plane_of_vector, vector_of_plane};
use ff_lin::Space;
use ff_poly::Poly;
use std::alloc::Global;

/// The vector, with rows of h coefficients, of the product of the factor and of the plane with the
/// vector v, which has rows of m. `NoMemory` is the only error.
pub fn times_vector<K: FiniteField<E = u32>>(
    alloc: Global,
    alg: &Alg<K>,
    factor: &Poly,
    m: usize,
    h: usize,
    v: &[u32],
) -> Result<Vec<u32>, NoMemory>
    requires factor { IsPoly (K.elements alg.now.k) factor.now }
    requires room { length factor.now + m ≤ h + 1 }
    requires vector { let L = K.lawful alg.now.k in
        IsVector (K.elements alg.now.k) (y_degree L alg.now.f * m) v.now }
    ensures vector { let L = K.lawful alg.now.k in
        IfOk result (λ r. IsVector (K.elements alg.now.k) (y_degree L alg.now.f * h) r.items) }
    ensures value { let F = K.elements alg.now.k in let L = K.lawful alg.now.k in
        let f = alg.now.f in let g = poly_of F factor.now in
        IfOk result (λ r. IsTimesVector L f g m h (vector_of F v.now) (vector_of F r.items)) }
{
    let n = alg.f.rows().len() - 1;
    let plane = plane_of_vector(alloc, &alg.k, v, n, m)?;
    let product = plane.scale(alloc, &alg.k, factor)?;
    vector_of_plane(alloc, &alg.k, &product, n, h)
}

/// The vectors of the products of the factor and of the planes with the vectors. `NoMemory` is the
/// only error.
pub fn times_vectors<K: FiniteField<E = u32>>(
    alloc: Global,
    alg: &Alg<K>,
    factor: &Poly,
    m: usize,
    h: usize,
    vectors: &[Vec<u32>],
) -> Result<Vec<Vec<u32>>, NoMemory>
    requires factor { IsPoly (K.elements alg.now.k) factor.now }
    requires room { length factor.now + m ≤ h + 1 }
    requires vectors { let L = K.lawful alg.now.k in
        AreVectors (K.elements alg.now.k) (y_degree L alg.now.f * m) vectors.now }
    ensures len { IfOk result (λ r. length r.items ≡ length vectors.now) }
    ensures vectors { let L = K.lawful alg.now.k in
        IfOk result (λ r. AreVectors (K.elements alg.now.k) (y_degree L alg.now.f * h) r.items) }
    ensures value { let F = K.elements alg.now.k in let L = K.lawful alg.now.k in
        let f = alg.now.f in let g = poly_of F factor.now in
        IfOk result (λ r. (i : ℕ) → i < length vectors.now → IsTimesVector L f g m h
        (vectors_of F (rows_of vectors.now) i) (vectors_of F (rows_of r.items) i)) }
{
    let mut list = Vec::with_capacity(alloc, vectors.len())?;
    for v in vectors {
        list.push(times_vector(alloc, alg, factor, m, h, v)?)?;
    }
    Ok(list)
}

/// The space of the products of the factor and of the planes of a space with rows of m
/// coefficients, with rows of h. `NoMemory` is the only error.
pub fn times_space<K: FiniteField<E = u32>>(
    alloc: Global,
    alg: &Alg<K>,
    factor: &Poly,
    m: usize,
    space: &Space,
    h: usize,
) -> Result<Space, NoMemory>
    requires factor { IsPoly (K.elements alg.now.k) factor.now }
    requires room { length factor.now + m ≤ h + 1 }
    requires space { let L = K.lawful alg.now.k in
        IsSpaceOf (K.elements alg.now.k) (y_degree L alg.now.f * m) space.now }
    ensures space { let L = K.lawful alg.now.k in let f = alg.now.f in
        IfOk result (IsSpaceOf (K.elements alg.now.k) (y_degree L f * h)) }
    ensures times { let F = K.elements alg.now.k in let L = K.lawful alg.now.k in
        let f = alg.now.f in
        IfOk result (IsTimesSpace L f (poly_of F factor.now) m h space.now) }
{
    let list = times_vectors(alloc, alg, factor, m, h, space.basis())?;
    match (alg.f.rows().len() - 1).checked_mul(h) {
        Some(len) => Space::span(alloc, &alg.k, len, &list),
        None => Err(NoMemory),
    }
}

/// The residues modulo t^h that are t^(h - m) times those of a space modulo t^m. `NoMemory` is the
/// only error.
pub fn power_times_space<K: FiniteField<E = u32>>(
    alloc: Global,
    alg: &Alg<K>,
    m: usize,
    space: &Space,
    h: usize,
) -> Result<Space, NoMemory>
    requires room { m ≤ h }
    requires space { let L = K.lawful alg.now.k in
        IsSpaceOf (K.elements alg.now.k) (y_degree L alg.now.f * m) space.now }
    ensures space { let L = K.lawful alg.now.k in let f = alg.now.f in
        IfOk result (IsSpaceOf (K.elements alg.now.k) (y_degree L f * h)) }
    ensures times { let F = K.elements alg.now.k in let L = K.lawful alg.now.k in
        let f = alg.now.f in let P = polys_over F in
        IfOk result (IsTimesSpace L f (power P (variable F.ring) (h - m)) m h space.now) }
{
    let factor = variable_power(alloc, &alg.k, h - m)?;
    times_space(alloc, alg, &factor, m, space, h)
}
