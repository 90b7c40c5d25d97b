// The images of the basis elements of the first system for a root in the second one.
ghost use Rattle.std.specs.Prelude.{◌≡◌, ◌<◌, length, IfOk, IfSome};
ghost use Rattle.std.specs.List.{All};
ghost use Rattle.ff_theory.specs.Ring.{IsElement};
ghost use Rattle.ff_theory.specs.Values.{IsPoly};
ghost use Rattle.ff_data.specs.Systems.{AreCoords, AreOverMonic};
ghost use Rattle.ff_ring.specs.Ring.{HasTable, AreCoordsList};
ghost use Rattle.ff_match.specs.Candidates.{AreParts};

use ff_alg::{FiniteField, NoMemory};
use ff_data::{Coords, Relation, System};
use ff_elem::PolyList;
use ff_poly::Poly;
use ff_relation::powers;
use ff_ring::{affine, divide_each, sum_at};
use std::alloc::Global;

/// The quotient by q of the sum with the coefficients c; None where it is not in the ring.
fn image_over<K: FiniteField<E = u32>>(
    alloc: Global,
    k: &K,
    s1: &System,
    s2: &System,
    r: &Relation,
    alpha: u32,
    beta: u32,
    powers: &[PolyList],
    c: &[Poly],
    q: &Poly,
) -> Result<Option<PolyList>, NoMemory>
    requires parts { AreParts (K.elements k.now) s1.now s2.now r.now alpha beta }
    requires powers { AreCoordsList (K.elements k.now) s2.now s2.now.e powers.now }
    requires c { AreCoords (K.elements k.now) s1.now c.now }
    requires q { IsPoly (K.elements k.now) q.now }
    requires nonzero { 0 < length q.now }
    ensures { IfOk result (λ o. IfSome o (AreCoords (K.elements k.now) s2.now)) }
{
    let _first = s1;
    let _relation = r;
    let sum = sum_at(alloc, k, s2.e as usize, c, alpha, beta, powers)?;
    divide_each(alloc, k, &sum, q)
}

/// The image of the element that coordinates over powers write: their sum with `alpha*z + beta`
/// for z and the powers of the root, divided by q there; None where it is not in the ring.
fn image<K: FiniteField<E = u32>>(
    alloc: Global,
    k: &K,
    s1: &System,
    s2: &System,
    r: &Relation,
    alpha: u32,
    beta: u32,
    powers: &[PolyList],
    c: &Coords,
) -> Result<Option<PolyList>, NoMemory>
    requires parts { AreParts (K.elements k.now) s1.now s2.now r.now alpha beta }
    requires powers { AreCoordsList (K.elements k.now) s2.now s2.now.e powers.now }
    requires c { AreOverMonic (K.elements k.now) s1.now c.now }
    ensures { IfOk result (λ o. IfSome o (AreCoords (K.elements k.now) s2.now)) }
{
    let q = affine(alloc, k, &c.q, alpha, beta)?;
    if q.is_zero() {
        return Ok(None);
    }
    image_over(alloc, k, s1, s2, r, alpha, beta, powers, c.c.rows(), &q)
}

/// The images of the basis elements, from the powers of the root; None where one of them is not in
/// the ring.
fn images_by_powers<K: FiniteField<E = u32>>(
    alloc: Global,
    k: &K,
    s1: &System,
    s2: &System,
    r: &Relation,
    alpha: u32,
    beta: u32,
    powers: &[PolyList],
) -> Result<Option<Vec<PolyList>>, NoMemory>
    requires parts { AreParts (K.elements k.now) s1.now s2.now r.now alpha beta }
    requires powers { AreCoordsList (K.elements k.now) s2.now s2.now.e powers.now }
    ensures { IfOk result (λ o. IfSome o (λ v.
        AreCoordsList (K.elements k.now) s2.now s2.now.e v.items)) }
{
    let list = r.back.items.as_slice();
    let mut items = Vec::with_capacity(alloc, list.len())?;
    for i in 0..list.len() {
        match image(alloc, k, s1, s2, r, alpha, beta, powers, &list[i])? {
            Some(image) => items.push(image)?,
            None => return Ok(None),
        }
    }
    Ok(Some(items))
}

/// The images of the basis elements for a root; None where one of them is not in the ring.
pub fn images<K: FiniteField<E = u32>>(
    alloc: Global,
    k: &K,
    s1: &System,
    s2: &System,
    r: &Relation,
    alpha: u32,
    beta: u32,
    root: &[Poly],
) -> Result<Option<Vec<PolyList>>, NoMemory>
    requires parts { AreParts (K.elements k.now) s1.now s2.now r.now alpha beta }
    requires root { AreCoords (K.elements k.now) s2.now root.now }
    ensures { IfOk result (λ o. IfSome o (λ v.
        AreCoordsList (K.elements k.now) s2.now s2.now.e v.items)) }
{
    let powers = powers(alloc, k, s2, root, s2.e as usize - 1)?;
    images_by_powers(alloc, k, s1, s2, r, alpha, beta, &powers)
}
