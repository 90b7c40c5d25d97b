// The products of each two elements of a list, and what rows of relations write of them.
ghost use Rattle.std.specs.Prelude.{◌≡◌, ℕ, ◌+◌, ◌<◌, ◌≤◌, ◌↔◌, length, IfOk, IfSome, IfNone};
ghost use Rattle.std.specs.Prelude.{IsTrue};
ghost use Rattle.std.specs.Prelude.{get_or, ◌*◌, ◌-◌};
ghost use Rattle.std.specs.List.{All};
ghost use Rattle.ff_theory.specs.Ring.{IsElement};
ghost use Rattle.ff_theory.specs.Vector.{vector_of, vectors_of};
ghost use Rattle.ff_lin.specs.Space.{rows_of, AreVectors};
ghost use Rattle.ff_data.specs.Combinations.{AreElems};
ghost use Rattle.ff_describe.specs.Levels.{offset, Extends, AreProducts, product_of};
ghost use Rattle.ff_describe.specs.Readings.{IsUnit, AreLight, IsReading, IsReadable};

use crate::coordinates::{are_zero, coordinates};
use ff_alg::{FiniteField, NoMemory, same};
use ff_elem::{Alg, Elem, PolyList};
use ff_poly::Poly;
use std::alloc::Global;

/// The list with the products b_0*b_j, .., b_j*b_j after it.
fn push_products<K: FiniteField<E = u32>>(
    alloc: Global,
    alg: &Alg<K>,
    b: &[Elem],
    j: usize,
    list: Vec<Elem>,
) -> Result<Vec<Elem>, NoMemory>
    requires b { AreElems (K.lawful alg.now.k) alg.now.f b.now }
    requires index { j < length b.now }
    requires list { AreElems (K.lawful alg.now.k) alg.now.f list.items }
    ensures { let L = K.lawful alg.now.k in let f = alg.now.f in IfOk result (λ r.
        Extends L f list.items (j + 1) (λ i. product_of L f b.now i j) r.items) }
{
    let mut longer = list;
    for i in 0..j + 1 {
        let next = alg.mul(alloc, &b[i], &b[j])?;
        longer.push(next)?;
    }
    Ok(longer)
}

/// The products b_i*b_j for i up to j, by rising j and then by rising i.
pub fn products<K: FiniteField<E = u32>>(
    alloc: Global,
    alg: &Alg<K>,
    b: &[Elem],
) -> Result<Vec<Elem>, NoMemory>
    requires { AreElems (K.lawful alg.now.k) alg.now.f b.now }
    ensures { let L = K.lawful alg.now.k in let f = alg.now.f in
        IfOk result (λ r. AreProducts L f b.now (length b.now) r.items) }
{
    let mut list = Vec::new(alloc);
    for j in 0..b.len() {
        list = push_products(alloc, alg, b, j, list)?;
    }
    Ok(list)
}

/// Whether the first n entries are zero but for a one at r.
fn is_unit<K: FiniteField<E = u32>>(k: &K, row: &[u32], n: usize, r: usize) -> bool
    requires row { All (IsElement (K.elements k.now)) row.now }
    requires room { n ≤ length row.now }
    requires index { r < n }
    ensures unit { let F = K.elements k.now in IsTrue result → IsUnit F n r (vector_of F row.now) }
    ensures all { let F = K.elements k.now in IsUnit F n r (vector_of F row.now) → IsTrue result }
{
    if !are_zero(k, row, 0, r) {
        return false;
    }
    if !same(k, row[r], k.one()) {
        return false;
    }
    are_zero(k, row, r + 1, n)
}

/// Whether a polynomial at an index is 0, or its weight is at most the bound.
fn is_light(e: u32, m: u32, p: &Poly, bound: u32) -> bool
    ensures light { IsTrue result → 0 < length p.now → e * (length p.now - 1) + m ≤ bound }
    ensures all { (0 < length p.now → e * (length p.now - 1) + m ≤ bound) → IsTrue result }
{
    if p.is_zero() {
        return true;
    }
    let degree = p.coeffs().len() - 1;
    let weight = e as u128 * degree as u128 + m as u128;
    weight <= bound as u128
}

/// Whether no term of the coordinates has a weight above the bound.
fn are_light(e: u32, weights: &[u32], c: &[Poly], bound: u32) -> bool
    requires count { length c.now ≡ length weights.now }
    ensures light { IsTrue result → AreLight e weights.now bound c.now }
    ensures all { AreLight e weights.now bound c.now → IsTrue result }
{
    for l in 0..c.len() {
        if !is_light(e, weights[l], &c[l], bound) {
            return false;
        }
    }
    true
}

/// The coordinates that row r writes of the element with this index among n; None exactly where it
/// writes none, or with a term of a weight above the bound.
pub fn reading<K: FiniteField<E = u32>>(
    alloc: Global,
    k: &K,
    e: u32,
    weights: &[u32],
    counts: &[usize],
    rows: &[Vec<u32>],
    n: usize,
    r: usize,
    bound: u32,
) -> Result<Option<PolyList>, NoMemory>
    requires count { length counts.now ≡ length weights.now }
    requires rows { let F = K.elements k.now in
        AreVectors F (n + offset counts.now (length counts.now)) rows.now }
    requires row { r < length rows.now }
    requires index { r < n }
    ensures some { let F = K.elements k.now in IfOk result (λ o. IfSome o (IsReading F e weights.now
        counts.now (vectors_of F (rows_of rows.now)) n r bound)) }
    ensures none { let F = K.elements k.now in IfOk result (λ o. IfNone o (¬ IsReadable F e
        weights.now counts.now (vectors_of F (rows_of rows.now)) n r bound)) }
{
    let row = &rows[r];
    if !is_unit(k, row, n, r) {
        return Ok(None);
    }
    let items = coordinates(alloc, k, counts, row, n)?;
    if !are_light(e, weights, &items, bound) {
        return Ok(None);
    }
    Ok(Some(PolyList { items }))
}
