// The table of the products of the b_i.
ghost use Rattle.std.specs.Prelude.{◌≡◌, ℕ, ◌+◌, ◌^◌, ◌<◌, ◌≤◌, length, IfOk, IfSome, get_or, []};
ghost use Rattle.std.specs.Prelude.{IfNone};
ghost use Rattle.std.specs.List.{All};
ghost use Rattle.ff_theory.specs.Vector.{vectors_of};
ghost use Rattle.ff_lin.specs.Space.{rows_of, AreVectors};
ghost use Rattle.ff_describe.specs.Levels.{offset, triangle};
ghost use Rattle.ff_describe.specs.Readings.{IsTriangleRow, IsTriangle, IsSide, AreSides};
ghost use Rattle.ff_describe.specs.Readings.{HasTriangleShape, IsReadableRow, AreReadable};
ghost use Rattle.ff_systems.specs.Places.{WritesProducts};
ghost use Rattle.ff_describe.specs.Described.{frame_of, AreFunctionsWithin, IsTableOf};
ghost use Rattle.ff_describe.specs.Described.{IsTriangleOf};

use crate::coordinates::relations_of;
use crate::levels::{level_counts, push_levels};
use crate::products::{products, reading};
use ff_alg::{FiniteField, NoMemory};
use ff_data::{PolyLists, Table};
use ff_elem::{Alg, PolyList};
use ff_forms::Functions;
use std::alloc::Global;

/// The greatest of the weights, and 0 where there is none.
fn greatest(weights: &[u32]) -> u32
    ensures least { (M : ℕ) → All (λ m. m ≤ M) weights.now → result ≤ M }
    ensures above { All (λ m. m ≤ result) weights.now }
{
    let mut greatest = 0;
    for m in weights {
        greatest = greatest.max(*m);
    }
    greatest
}

/// The readings of b_0*b_j, .., b_j*b_j, by the rows from index `start` on.
fn triangle_row<K: FiniteField<E = u32>>(
    alloc: Global,
    k: &K,
    e: u32,
    weights: &[u32],
    counts: &[usize],
    rows: &[Vec<u32>],
    n: usize,
    start: usize,
    j: usize,
) -> Result<Option<PolyLists>, NoMemory>
    requires small { All (λ m. m < 2 ^ 31) weights.now }
    requires count { length counts.now ≡ length weights.now }
    requires rows { let F = K.elements k.now in
        AreVectors F (n + offset counts.now (length counts.now)) rows.now }
    requires all { n ≤ length rows.now }
    requires index { j < length weights.now }
    requires start { start ≡ triangle j }
    requires room { start + j < n }
    ensures some { let F = K.elements k.now in IfOk result (λ o. IfSome o (IsTriangleRow F e
        weights.now counts.now (vectors_of F (rows_of rows.now)) n j (j + 1))) }
    ensures none { let F = K.elements k.now in IfOk result (λ o. IfNone o (¬ IsReadableRow F e
        weights.now counts.now (vectors_of F (rows_of rows.now)) n j)) }
{
    let mut items = Vec::with_capacity(alloc, j + 1)?;
    for i in 0..j + 1 {
        let bound = weights[i] + weights[j];
        match reading(alloc, k, e, weights, counts, rows, n, start + i, bound)? {
            None => return Ok(None),
            Some(c) => items.push(c)?,
        }
    }
    Ok(Some(PolyLists { items }))
}

/// The readings of the b_i*b_j for i up to j, a list for each j.
fn triangle_rows<K: FiniteField<E = u32>>(
    alloc: Global,
    k: &K,
    e: u32,
    weights: &[u32],
    counts: &[usize],
    rows: &[Vec<u32>],
    n: usize,
) -> Result<Option<Vec<PolyLists>>, NoMemory>
    requires small { All (λ m. m < 2 ^ 31) weights.now }
    requires count { length counts.now ≡ length weights.now }
    requires rows { let F = K.elements k.now in
        AreVectors F (n + offset counts.now (length counts.now)) rows.now }
    requires all { n ≤ length rows.now }
    requires products { n ≡ triangle (length weights.now) }
    ensures some { let F = K.elements k.now in IfOk result (λ o. IfSome o (λ v. IsTriangle F e
        weights.now counts.now (vectors_of F (rows_of rows.now)) n (length weights.now)
        v.items)) }
    ensures none { let F = K.elements k.now in IfOk result (λ o. IfNone o (¬ AreReadable F e
        weights.now counts.now (vectors_of F (rows_of rows.now)) n)) }
{
    let mut lists = Vec::with_capacity(alloc, weights.len())?;
    let mut start = 0;
    for j in 0..weights.len() {
        match triangle_row(alloc, k, e, weights, counts, rows, n, start, j)? {
            None => return Ok(None),
            Some(list) => lists.push(list)?,
        }
        start += j + 1;
    }
    Ok(Some(lists))
}

/// The entry for b_i and b_j.
fn side_entry(alloc: Global, lists: &[PolyLists], i: usize, j: usize) -> Result<PolyList, NoMemory>
    requires shape { HasTriangleShape lists.now }
    requires row { i < length lists.now }
    requires index { j < length lists.now }
    ensures lower { IfOk result (λ r. i ≤ j → r ≡ get_or (get_or lists.now j []) i []) }
    ensures upper { IfOk result (λ r. j ≤ i → r ≡ get_or (get_or lists.now i []) j []) }
{
    if i <= j {
        let row = &lists[j];
        return row.items[i].copy(alloc);
    }
    let row = &lists[i];
    row.items[j].copy(alloc)
}

/// The entries for b_i and each other element.
fn side(alloc: Global, lists: &[PolyLists], i: usize) -> Result<PolyLists, NoMemory>
    requires shape { HasTriangleShape lists.now }
    requires row { i < length lists.now }
    ensures { IfOk result (IsSide lists.now i (length lists.now)) }
{
    let mut items = Vec::with_capacity(alloc, lists.len())?;
    for j in 0..lists.len() {
        items.push(side_entry(alloc, lists, i, j)?)?;
    }
    Ok(PolyLists { items })
}

/// The table with the entries of a triangle on both sides of its diagonal.
fn sides(alloc: Global, lists: &[PolyLists]) -> Result<Table, NoMemory>
    requires { HasTriangleShape lists.now }
    ensures { IfOk result (AreSides lists.now (length lists.now)) }
{
    let mut rows = Vec::with_capacity(alloc, lists.len())?;
    for i in 0..lists.len() {
        rows.push(side(alloc, lists, i)?)?;
    }
    Ok(Table { rows })
}

/// The coordinates of the products of the b_i, by the relations of them and of the levels up to
/// twice the greatest weight.
fn triangle_of<K: FiniteField<E = u32>>(
    alloc: Global,
    alg: &Alg<K>,
    functions: &Functions,
    limit: u32,
) -> Result<Option<Vec<PolyLists>>, NoMemory>
    requires { AreFunctionsWithin (K.lawful alg.now.k) alg.now.f limit functions.now }
    ensures some { let L = K.lawful alg.now.k in let f = alg.now.f in IfOk result (λ o. IfSome o
        (λ v. IsTriangleOf L f (frame_of functions.now) v.items)) }
    ensures none { let L = K.lawful alg.now.k in let f = alg.now.f in IfOk result (λ o. IfNone o
        (¬ WritesProducts L f (frame_of functions.now))) }
{
    let _limit = limit;
    let weights = functions.weights.items.as_slice();
    let b = functions.b.items.as_slice();
    let counts = level_counts(alloc, functions.e, weights, 2 * greatest(weights))?;
    let list = products(alloc, alg, b)?;
    let n = list.len();
    let list = push_levels(alloc, alg, &functions.z, b, &counts, list)?;
    let relations = relations_of(alloc, alg, &list)?;
    let rows = relations.basis();
    if rows.len() < n {
        return Ok(None);
    }
    triangle_rows(alloc, &alg.k, functions.e, weights, &counts, rows, n)
}

/// The table of the products of the b_i; None where one is no combination of the levels up to its
/// weight, or the levels are dependent.
pub fn table_of<K: FiniteField<E = u32>>(
    alloc: Global,
    alg: &Alg<K>,
    functions: &Functions,
    limit: u32,
) -> Result<Option<Table>, NoMemory>
    requires { AreFunctionsWithin (K.lawful alg.now.k) alg.now.f limit functions.now }
    ensures some { let L = K.lawful alg.now.k in let f = alg.now.f in IfOk result
        (λ o. IfSome o (IsTableOf L f (frame_of functions.now))) }
    ensures none { let L = K.lawful alg.now.k in let f = alg.now.f in IfOk result (λ o. IfNone o
        (¬ WritesProducts L f (frame_of functions.now))) }
{
    match triangle_of(alloc, alg, functions, limit)? {
        None => Ok(None),
        Some(lists) => {
            let table = sides(alloc, &lists)?;
            Ok(Some(table))
        },
    }
}
