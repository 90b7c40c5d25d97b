// Relations of elements, and what rows of them write.
ghost use Rattle.std.specs.Prelude.{◌≡◌, ℕ, ◌+◌, ◌-◌, ◌<◌, ◌≤◌, ◌↔◌, length, IfOk, IsTrue};
ghost use Rattle.std.specs.List.{All};
ghost use Rattle.ff_theory.specs.Ring.{IsElement};
ghost use Rattle.ff_theory.specs.Values.{IsPoly};
ghost use Rattle.ff_theory.specs.Vector.{vector_of, IsVector};
ghost use Rattle.ff_lin.specs.Space.{IsSpaceOf, HasExactly};
ghost use Rattle.ff_data.specs.Combinations.{AreElems, IsRelationOf};
ghost use Rattle.ff_describe.specs.Levels.{offset};
ghost use Rattle.ff_describe.specs.Readings.{AreCut};

use ff_alg::{FiniteField, NoMemory, is_zero};
use ff_data::flatten;
use ff_elem::{Alg, Elem};
use ff_lin::Space;
use ff_poly::Poly;
use std::alloc::Global;

/// All relations over the field of the elements.
pub fn relations_of<K: FiniteField<E = u32>>(
    alloc: Global,
    alg: &Alg<K>,
    list: &[Elem],
) -> Result<Space, NoMemory>
    requires { AreElems (K.lawful alg.now.k) alg.now.f list.now }
    ensures space { IfOk result (IsSpaceOf (K.elements alg.now.k) (length list.now)) }
    ensures exact { let F = K.elements alg.now.k in let L = K.lawful alg.now.k in
        IfOk result (λ s. HasExactly F s (IsRelationOf L alg.now.f list.now)) }
{
    let (len, vectors) = flatten(alloc, alg, list)?;
    Space::relations(alloc, &alg.k, len, &vectors)
}

/// The negatives of `count` entries from `at` on.
fn negatives<K: FiniteField<E = u32>>(
    alloc: Global,
    k: &K,
    row: &[u32],
    at: usize,
    count: usize,
) -> Result<Vec<u32>, NoMemory>
    requires row { All (IsElement (K.elements k.now)) row.now }
    requires room { at + count ≤ length row.now }
    ensures vector { IfOk result (λ r. IsVector (K.elements k.now) count r.items) }
    ensures value { let F = K.elements k.now in IfOk result (λ r. (a : ℕ) → a < count →
        vector_of F r.items a ≡ F.neg (vector_of F row.now (at + a))) }
{
    let mut list = Vec::with_capacity(alloc, count)?;
    for a in 0..count {
        list.push(k.neg(row[at + a]))?;
    }
    Ok(list)
}

/// The polynomial whose coefficients are the negatives of `count` entries from `at` on.
fn negative_poly<K: FiniteField<E = u32>>(
    alloc: Global,
    k: &K,
    row: &[u32],
    at: usize,
    count: usize,
) -> Result<Poly, NoMemory>
    requires row { All (IsElement (K.elements k.now)) row.now }
    requires room { at + count ≤ length row.now }
    ensures poly { IfOk result (IsPoly (K.elements k.now)) }
    ensures short { IfOk result (λ r. length r ≤ count) }
    ensures value { let F = K.elements k.now in IfOk result (λ r. (a : ℕ) → a < count →
        vector_of F r a ≡ F.neg (vector_of F row.now (at + a))) }
{
    let list = negatives(alloc, k, row, at, count)?;
    Poly::from_coeffs(alloc, k, &list)
}

/// The entries from `start` on, cut into parts of the given lengths, as polynomials with their
/// negatives.
pub fn coordinates<K: FiniteField<E = u32>>(
    alloc: Global,
    k: &K,
    counts: &[usize],
    row: &[u32],
    start: usize,
) -> Result<Vec<Poly>, NoMemory>
    requires row { All (IsElement (K.elements k.now)) row.now }
    requires room { length row.now ≡ start + offset counts.now (length counts.now) }
    ensures { let F = K.elements k.now in IfOk result
        (λ r. AreCut F counts.now start (vector_of F row.now) r.items) }
{
    let _end = row.len();
    let mut list = Vec::with_capacity(alloc, counts.len())?;
    let mut at = start;
    for l in 0..counts.len() {
        list.push(negative_poly(alloc, k, row, at, counts[l])?)?;
        at += counts[l];
    }
    Ok(list)
}

/// The first n entries from the last to the first.
fn reversed<K: FiniteField<E = u32>>(
    alloc: Global,
    k: &K,
    row: &[u32],
    n: usize,
) -> Result<Vec<u32>, NoMemory>
    requires row { All (IsElement (K.elements k.now)) row.now }
    requires room { n ≤ length row.now }
    ensures vector { IfOk result (λ r. IsVector (K.elements k.now) n r.items) }
    ensures value { let F = K.elements k.now in IfOk result (λ r. (a : ℕ) → a < n →
        vector_of F r.items a ≡ vector_of F row.now (n - 1 - a)) }
{
    let _field = k;
    let mut list = Vec::with_capacity(alloc, n)?;
    for a in 0..n {
        list.push(row[n - 1 - a])?;
    }
    Ok(list)
}

/// The polynomial whose coefficients are the first n entries from the last to the first.
pub fn reversed_poly<K: FiniteField<E = u32>>(
    alloc: Global,
    k: &K,
    row: &[u32],
    n: usize,
) -> Result<Poly, NoMemory>
    requires row { All (IsElement (K.elements k.now)) row.now }
    requires room { n ≤ length row.now }
    ensures poly { IfOk result (IsPoly (K.elements k.now)) }
    ensures short { IfOk result (λ r. length r ≤ n) }
    ensures value { let F = K.elements k.now in IfOk result (λ r. (a : ℕ) → a < n →
        vector_of F r a ≡ vector_of F row.now (n - 1 - a)) }
{
    let list = reversed(alloc, k, row, n)?;
    Poly::from_coeffs(alloc, k, &list)
}

/// Whether the entries from `from` on are zero, up to `to`.
pub fn are_zero<K: FiniteField<E = u32>>(k: &K, row: &[u32], from: usize, to: usize) -> bool
    requires row { All (IsElement (K.elements k.now)) row.now }
    requires room { to ≤ length row.now }
    ensures { let F = K.elements k.now in IsTrue result ↔ ((j : ℕ) → from ≤ j → j < to →
        vector_of F row.now j ≡ F.zero) }
{
    for j in from..to {
        if !is_zero(k, row[j]) {
            return false;
        }
    }
    true
}
