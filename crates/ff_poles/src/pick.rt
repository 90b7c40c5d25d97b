// A function with a pole of a given order.
ghost use Rattle.ff_lin.specs.Space.{rows_of};
ghost use Rattle.ff_poles.specs.Spaces.{IsFirstOutside, IsPicked};
ghost use Rattle.std.specs.Prelude.{◌≡◌, ◌+◌, ◌<◌, ◌≤◌, ◌++◌, length, IfOk, IfSome};
ghost use Rattle.ff_lin.specs.Space.{AreVectors};
ghost use Rattle.ff_elem.specs.Elem.{IsElem};
ghost use Rattle.ff_data.specs.Combinations.{AreElems};

use ff_alg::{FiniteField, NoMemory};
use ff_data::flatten;
use ff_elem::{Alg, Elem};
use ff_lin::Space;
use std::alloc::Global;

/// The elements of both lists.
fn joined(alloc: Global, first: &[Elem], second: &[Elem]) -> Result<Vec<Elem>, NoMemory>
    ensures { IfOk result (λ r. r.items ≡ first.now ++ second.now) }
{
    let mut list = Vec::with_capacity(alloc, first.len())?;
    for w in first {
        list.push(w.copy(alloc)?)?;
    }
    for w in second {
        list.push(w.copy(alloc)?)?;
    }
    Ok(list)
}

/// The index from n on of the first vector that is not in the span of the first n vectors; the
/// number of the vectors where there is none.
fn first_outside<K: FiniteField<E = u32>>(
    alloc: Global,
    k: &K,
    len: usize,
    vectors: &[Vec<u32>],
    n: usize,
) -> Result<usize, NoMemory>
    requires vectors { AreVectors (K.elements k.now) len vectors.now }
    requires within { n ≤ length vectors.now }
    ensures outside { let F = K.elements k.now in
        IfOk result (IsFirstOutside F (rows_of vectors.now) n) }
{
    let space = Space::span(alloc, k, len, &vectors[0..n])?;
    for i in n..vectors.len() {
        if !space.contains(k, &vectors[i]) {
            return Ok(i);
        }
    }
    Ok(vectors.len())
}

/// An element of the second list that is no combination of the first; None where there is none.
pub fn pick<K: FiniteField<E = u32>>(
    alloc: Global,
    alg: &Alg<K>,
    lower: &[Elem],
    upper: &[Elem],
) -> Result<Option<Elem>, NoMemory>
    requires lower { AreElems (K.lawful alg.now.k) alg.now.f lower.now }
    requires upper { AreElems (K.lawful alg.now.k) alg.now.f upper.now }
    ensures elem { let L = K.lawful alg.now.k in
        IfOk result (λ o. IfSome o (IsElem L alg.now.f)) }
    ensures picked { let L = K.lawful alg.now.k in
        IfOk result (IsPicked L alg.now.f lower.now upper.now) }
{
    let list = joined(alloc, lower, upper)?;
    let (len, vectors) = flatten(alloc, alg, &list)?;
    let i = first_outside(alloc, &alg.k, len, &vectors, lower.len())?;
    if i >= list.len() {
        return Ok(None);
    }
    let picked = list[i].copy(alloc)?;
    Ok(Some(picked))
}
