// Coordinates of elements of an order modulo u - a.
ghost use Rattle.std.specs.Prelude.{◌≡◌, ◌*◌, ◌<◌, ◌≤◌, pred, length, IfOk};
ghost use Rattle.ff_theory.specs.Values.{IsPoly, plane_of, IsPlane};
ghost use Rattle.ff_theory.specs.Vector.{vector_of, IsVector};
ghost use Rattle.ff_data.specs.Orders.{y_degree};
ghost use Rattle.ff_fibre.specs.Fibres.{IsResidueVector, HasBasisForm, AreCoordinatesOf};

use crate::parts::Fibre;
use ff_alg::{FiniteField, NoMemory};
use ff_elem::Alg;
use ff_lattice::{residues, vector_of_plane};
use ff_modulo::solve_modulo;
use ff_poly::{Plane, Poly};
use std::alloc::Global;

/// The vector of the residues modulo m of a plane with fewer rows than the equation.
fn residue_vector<K: FiniteField<E = u32>>(
    alloc: Global,
    alg: &Alg<K>,
    m: &Poly,
    plane: &Plane,
) -> Result<Vec<u32>, NoMemory>
    requires m { IsPoly (K.elements alg.now.k) m.now }
    requires nonzero { 0 < length m.now }
    requires plane { IsPlane (K.elements alg.now.k) plane.now }
    requires few { length plane.now ≤ y_degree (K.lawful alg.now.k) alg.now.f }
    ensures vector { let L = K.lawful alg.now.k in let n = y_degree L alg.now.f in
        IfOk result (λ r. IsVector (K.elements alg.now.k) (n * pred (length m.now)) r.items) }
    ensures value { let F = K.elements alg.now.k in let L = K.lawful alg.now.k in
        let n = y_degree L alg.now.f in IfOk result (λ r.
        IsResidueVector F n m.now (plane_of F plane.now) (vector_of F r.items)) }
{
    let low = residues(alloc, &alg.k, plane, m)?;
    let n = alg.f.rows().len() - 1;
    vector_of_plane(alloc, &alg.k, &low, n, m.coeffs().len() - 1)
}

/// A list of n zeros.
fn zeros<K: FiniteField<E = u32>>(alloc: Global, k: &K, n: usize) -> Result<Vec<u32>, NoMemory>
    ensures { IfOk result (λ r. IsVector (K.elements k.now) n r.items) }
{
    let mut zeros = Vec::with_capacity(alloc, n)?;
    for _j in 0..n {
        zeros.push(k.zero())?;
    }
    Ok(zeros)
}

/// The coordinates, by the basis of an order modulo u - a, of the element with the numerator
/// `plane` over d, by rows in powers of theta, fewer than the equation has; zeros where it is not
/// an element of the order. `NoMemory` is the only error. This project's own.
pub fn coordinates<K: FiniteField<E = u32>>(
    alloc: Global,
    alg: &Alg<K>,
    fibre: &Fibre,
    plane: &Plane,
) -> Result<Vec<u32>, NoMemory>
    requires fibre { HasBasisForm (K.lawful alg.now.k) alg.now.f fibre.now }
    requires plane { IsPlane (K.elements alg.now.k) plane.now }
    requires few { length plane.now ≤ y_degree (K.lawful alg.now.k) alg.now.f }
    ensures vector { let F = K.elements alg.now.k in
        IfOk result (λ r. IsVector F (length fibre.now.planes.items) r.items) }
    ensures value { let F = K.elements alg.now.k in let L = K.lawful alg.now.k in
        IfOk result (λ r. AreCoordinatesOf L alg.now.f fibre.now (plane_of F plane.now)
        (vector_of F r.items)) }
{
    let vector = residue_vector(alloc, alg, &fibre.modulus, plane)?;
    match solve_modulo(alloc, &alg.k, &fibre.space, &fibre.rows, vector)? {
        Some(c) => Ok(c),
        None => zeros(alloc, &alg.k, fibre.rows.len()),
    }
}
