// An element over a polynomial in z, by coordinates within a weight.
ghost use Rattle.std.specs.Prelude.{◌≡◌, ℕ, suc, ◌+◌, ◌<◌, ◌≤◌, length, IfOk, IfSome, IfNone};
ghost use Rattle.std.specs.List.{All};
ghost use Rattle.ff_theory.specs.Ring.{IsElement};
ghost use Rattle.ff_theory.specs.Vector.{vector_of, vectors_of};
ghost use Rattle.ff_lin.specs.Space.{IsSpace};
ghost use Rattle.ff_elem.specs.Elem.{IsElem, elem_of};
ghost use Rattle.ff_data.specs.declared.system.Coords.{Coords};
ghost use Rattle.ff_data.specs.Combinations.{AreElems};
ghost use Rattle.ff_data.specs.Systems.{IsExpression};
ghost use Rattle.ff_systems.specs.Places.{frame};
ghost use Rattle.ff_describe.specs.Levels.{offset, AreDescending};
ghost use Rattle.ff_describe.specs.Readings.{IsLed, AreZero, IsWrittenBy, IsWrittenIn};

use crate::coordinates::{are_zero, coordinates, relations_of, reversed_poly};
use crate::levels::{level_counts, push_levels};
use ff_alg::{FiniteField, NoMemory};
use ff_data::Coords;
use ff_elem::{Alg, Elem, PolyList};
use ff_lin::Space;
use std::alloc::Global;

/// The elements z^m*w, .., z*w, w.
fn descending_powers<K: FiniteField<E = u32>>(
    alloc: Global,
    alg: &Alg<K>,
    z: &Elem,
    w: &Elem,
    m: u32,
) -> Result<Vec<Elem>, NoMemory>
    requires z { IsElem (K.lawful alg.now.k) alg.now.f z.now }
    requires w { IsElem (K.lawful alg.now.k) alg.now.f w.now }
    ensures { let L = K.lawful alg.now.k in let f = alg.now.f in
        IfOk result (λ r. AreDescending L f z.now w.now m r.items) }
{
    let mut list = Vec::with_capacity(alloc, 1)?;
    list.push(w.copy(alloc)?)?;
    for _d in 0..m {
        let next = alg.mul(alloc, z, &list[0])?;
        list.insert(0, next)?;
    }
    Ok(list)
}

/// The index of the last vector of the space with an entry that is not zero among the first n.
fn last_led<K: FiniteField<E = u32>>(k: &K, space: &Space, n: usize) -> Option<usize>
    requires space { IsSpace (K.elements k.now) space.now }
    requires room { n ≤ space.now.len }
    ensures some { let F = K.elements k.now in IfSome result (λ i. i < length space.now.basis) }
    ensures led { let F = K.elements k.now in
        IfSome result (λ i. IsLed F n (vectors_of F space.now.basis i)) }
    ensures none { let F = K.elements k.now in IfNone result ((i : ℕ) →
        i < length space.now.basis → AreZero F n (vectors_of F space.now.basis i)) }
{
    let rows = space.basis();
    let mut i = rows.len();
    while i > 0 {
        i -= 1;
        if !are_zero(k, &rows[i], 0, n) {
            return Some(i);
        }
    }
    None
}

/// What a row writes: the polynomial of its first n entries, from the last to the first, and the
/// coordinates of the others.
fn coords_of_row<K: FiniteField<E = u32>>(
    alloc: Global,
    k: &K,
    n: usize,
    counts: &[usize],
    row: &[u32],
) -> Result<Coords, NoMemory>
    requires row { All (IsElement (K.elements k.now)) row.now }
    requires room { length row.now ≡ n + offset counts.now (length counts.now) }
    ensures { let F = K.elements k.now in
        IfOk result (IsWrittenBy F n counts.now (vector_of F row.now)) }
{
    let q = reversed_poly(alloc, k, row, n)?;
    let items = coordinates(alloc, k, counts, row, n)?;
    Ok(Coords {
        q,
        c: PolyList { items },
    })
}

/// What the last vector with one of the first n entries writes.
fn coords_of_space<K: FiniteField<E = u32>>(
    alloc: Global,
    k: &K,
    n: usize,
    counts: &[usize],
    space: &Space,
) -> Result<Option<Coords>, NoMemory>
    requires space { IsSpace (K.elements k.now) space.now }
    requires room { space.now.len ≡ n + offset counts.now (length counts.now) }
    ensures some { let F = K.elements k.now in IfOk result (λ o. IfSome o
        (IsWrittenIn F n counts.now space.now)) }
    ensures none { let F = K.elements k.now in IfOk result (λ o. IfNone o ((i : ℕ) →
        i < length space.now.basis → AreZero F n (vectors_of F space.now.basis i))) }
{
    match last_led(k, space, n) {
        None => Ok(None),
        Some(i) => {
            let coords = coords_of_row(alloc, k, n, counts, &space.basis()[i])?;
            Ok(Some(coords))
        },
    }
}

/// A monic polynomial q of degree at most `q_deg`, and coordinates of `q(z)*w` without a term of a
/// weight above `weight`, by z, the e elements b and their weights. None comes exactly where there
/// are none. The degree of q is the least. `NoMemory` is the only error. This project's own.
pub fn express_within<K: FiniteField<E = u32>>(
    alloc: Global,
    alg: &Alg<K>,
    e: u32,
    z: &Elem,
    b: &[Elem],
    weights: &[u32],
    w: &Elem,
    q_deg: u32,
    weight: u32,
) -> Result<Option<Coords>, NoMemory>
    requires positive { 0 < e }
    requires z { IsElem (K.lawful alg.now.k) alg.now.f z.now }
    requires b { AreElems (K.lawful alg.now.k) alg.now.f b.now }
    requires count { length b.now ≡ e }
    requires weights { length weights.now ≡ e }
    requires w { IsElem (K.lawful alg.now.k) alg.now.f w.now }
    ensures some { let L = K.lawful alg.now.k in let f = alg.now.f in IfOk result (λ o. IfSome o
        (IsExpression L f (frame e z.now b.now weights.now) (elem_of L f w.now) q_deg weight)) }
    ensures none { let L = K.lawful alg.now.k in let f = alg.now.f in IfOk result (λ o. IfNone o
        ((c : Coords) → ¬ IsExpression L f (frame e z.now b.now weights.now)
        (elem_of L f w.now) q_deg weight c)) }
{
    let counts = level_counts(alloc, e, weights, weight)?;
    let powers = descending_powers(alloc, alg, z, w, q_deg)?;
    let n = powers.len();
    let list = push_levels(alloc, alg, z, b, &counts, powers)?;
    let relations = relations_of(alloc, alg, &list)?;
    coords_of_space(alloc, &alg.k, n, &counts, &relations)
}
