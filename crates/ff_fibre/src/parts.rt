// A basis of an order modulo u - a.
ghost use Rattle.std.specs.Prelude.{◌≡◌, ℕ, ◌+◌, ◌*◌, ◌<◌, pred, List, [], length, get_or, IfOk};
ghost use Rattle.std.specs.List.{All};
ghost use Rattle.ff_theory.specs.Ring.{IsElement};
ghost use Rattle.ff_theory.specs.Values.{poly_of, IsPoly, polys_over};
ghost use Rattle.ff_theory.specs.Vector.{vectors_of};
ghost use Rattle.ff_lin.specs.Space.{rows_of, AreVectors, IsSpaceOf};
ghost use Rattle.ff_local.specs.ChartOrder.{root_at};
ghost use Rattle.ff_modulo.specs.Modulo.{IsBasisModulo};
ghost use Rattle.ff_common.specs.Common.{IsTimesSpace};
ghost use Rattle.ff_data.specs.Orders.{y_degree, IsOrder};
ghost use Rattle.ff_data.specs.Vectors.{IsPlaneWithin};
ghost use Rattle.ff_fibre.specs.Fibres.{AreSpanning, AreCoefficientsOf, IsBasisAt};

use crate::numerators::{linear, spanning_vectors};
use ff_alg::{FiniteField, NoMemory};
use ff_common::times_space;
use ff_data::Order;
use ff_elem::Alg;
use ff_lattice::plane_of_vector;
use ff_lin::Space;
use ff_modulo::basis_modulo;
use ff_poly::{Plane, Poly};
use std::alloc::Global;

/// The algebra O/(u-a)O of an order O: the modulus d*(u-a), the space of the numerators over d of
/// the elements of (u-a)O modulo it, numerators that are a basis of those of O modulo that space,
/// their vectors, and, in row j of matrix i, the coordinates of the product of the elements i and j
/// of that basis. The vectors have as many coefficients in a row as d has.
#[derive(Drop)]
pub struct Fibre {
    pub modulus: Poly,
    pub space: Space,
    pub planes: Vec<Plane>,
    pub rows: Vec<Vec<u32>>,
    pub table: Vec<Vec<Vec<u32>>>,
}

/// The modulus d*(u-a), and the numerators over d of the elements of (u-a)O modulo it.
fn modulus_and_space<K: FiniteField<E = u32>>(
    alloc: Global,
    alg: &Alg<K>,
    order: &Order,
    a: u32,
) -> Result<(Poly, Space), NoMemory>
    requires order { IsOrder (K.lawful alg.now.k) alg.now.f order.now }
    requires a { IsElement (K.elements alg.now.k) a }
    ensures modulus { IfOk result (λ r. IsPoly (K.elements alg.now.k) r.0) }
    ensures len { IfOk result (λ r. length r.0 ≡ length order.now.d + 1) }
    ensures space { let L = K.lawful alg.now.k in let n = y_degree L alg.now.f in
        IfOk result (λ r. IsSpaceOf (K.elements alg.now.k) (n * length order.now.d) r.1) }
    ensures value { let F = K.elements alg.now.k in let P = polys_over F in
        IfOk result (λ r. poly_of F r.0 ≡
        P.mul (root_at F.ring (F.value a)) (poly_of F order.now.d)) }
    ensures times { let F = K.elements alg.now.k in let L = K.lawful alg.now.k in
        let l = length order.now.d in IfOk result (λ r. IsTimesSpace L alg.now.f
        (root_at F.ring (F.value a)) (pred l) l order.now.space r.1) }
{
    let factor = linear(alloc, &alg.k, a)?;
    let modulus = factor.mul(alloc, &alg.k, &order.d)?;
    let l = order.d.coeffs().len();
    let space = times_space(alloc, alg, &factor, l - 1, &order.space, l)?;
    Ok((modulus, space))
}

/// Vectors of numerators that are a basis of those of the order modulo a space.
fn basis_rows<K: FiniteField<E = u32>>(
    alloc: Global,
    alg: &Alg<K>,
    order: &Order,
    space: &Space,
) -> Result<Vec<Vec<u32>>, NoMemory>
    requires order { IsOrder (K.lawful alg.now.k) alg.now.f order.now }
    requires space { let L = K.lawful alg.now.k in let n = y_degree L alg.now.f in
        IsSpaceOf (K.elements alg.now.k) (n * length order.now.d) space.now }
    ensures vectors { let L = K.lawful alg.now.k in let n = y_degree L alg.now.f in
        IfOk result (λ r. AreVectors (K.elements alg.now.k) (n * length order.now.d) r.items) }
    ensures basis { let F = K.elements alg.now.k in let L = K.lawful alg.now.k in
        IfOk result (λ r. (vs : List (List ℕ)) × (AreSpanning L alg.now.f order.now vs
        × IsBasisModulo F space.now vs (rows_of r.items))) }
{
    let vectors = spanning_vectors(alloc, alg, order)?;
    basis_modulo(alloc, &alg.k, space, &vectors)
}

/// The planes with these vectors, l coefficients in a row.
fn planes_of<K: FiniteField<E = u32>>(
    alloc: Global,
    alg: &Alg<K>,
    rows: &[Vec<u32>],
    l: usize,
) -> Result<Vec<Plane>, NoMemory>
    requires { let L = K.lawful alg.now.k in
        AreVectors (K.elements alg.now.k) (y_degree L alg.now.f * l) rows.now }
    ensures len { IfOk result (λ r. length r.items ≡ length rows.now) }
    ensures planes { let F = K.elements alg.now.k in let L = K.lawful alg.now.k in
        IfOk result (λ r. All (IsPlaneWithin F (y_degree L alg.now.f)) r.items) }
    ensures value { let F = K.elements alg.now.k in let L = K.lawful alg.now.k in
        IfOk result (λ r. (i : ℕ) → i < length rows.now → AreCoefficientsOf F
        (y_degree L alg.now.f) l (vectors_of F (rows_of rows.now) i) (get_or r.items i [])) }
{
    let n = alg.f.rows().len() - 1;
    let mut planes = Vec::with_capacity(alloc, rows.len())?;
    for v in rows {
        planes.push(plane_of_vector(alloc, &alg.k, v, n, l)?)?;
    }
    Ok(planes)
}

/// The algebra without its table.
pub(crate) fn basis_at<K: FiniteField<E = u32>>(
    alloc: Global,
    alg: &Alg<K>,
    order: &Order,
    a: u32,
) -> Result<Fibre, NoMemory>
    requires order { IsOrder (K.lawful alg.now.k) alg.now.f order.now }
    requires a { IsElement (K.elements alg.now.k) a }
    ensures { let F = K.elements alg.now.k in let L = K.lawful alg.now.k in
        IfOk result (IsBasisAt L alg.now.f order.now (F.value a)) }
{
    let (modulus, space) = modulus_and_space(alloc, alg, order, a)?;
    let rows = basis_rows(alloc, alg, order, &space)?;
    let planes = planes_of(alloc, alg, &rows, order.d.coeffs().len())?;
    Ok(Fibre {
        modulus,
        space,
        planes,
        rows,
        table: Vec::new(alloc),
    })
}
