// The functionals on a finite algebra that keep 1 and products.
ghost use Rattle.std.specs.Prelude.{◌≡◌, ℕ, ◌<◌, ◌≤◌, length, IfOk, OnOk};
ghost use Rattle.std.specs.Prelude.{IsTrue, ◌↔◌, get_or, []};
ghost use Rattle.std.specs.List.{All};
ghost use Rattle.ff_theory.specs.Ring.{IsElement};
ghost use Rattle.ff_theory.specs.Span.{product};
ghost use Rattle.ff_theory.specs.Vector.{vector_of, vectors_of, IsVector};
ghost use Rattle.ff_lin.specs.Space.{rows_of, AreVectors, IsSpaceOf, InSpace};
ghost use Rattle.ff_characters.specs.Characters.{tables_of, IsMatrix, IsTable, IsEigenvector};
ghost use Rattle.ff_characters.specs.Characters.{AreScaled, IsSettled, IsCharacter, AreCharacters};
ghost use Rattle.ff_characters.specs.Characters.{HasVector};

use crate::eigenspaces::{dot, eigenspace};
use ff_alg::{FiniteField, NoMemory, same};
use ff_lin::Space;
use std::alloc::Global;

/// Whether the matrix carries a vector to `c` times itself.
fn is_eigenvector<K: FiniteField<E = u32>>(k: &K, matrix: &[Vec<u32>], c: u32, v: &[u32]) -> bool
    requires matrix { AreVectors (K.elements k.now) (length matrix.now) matrix.now }
    requires c { IsElement (K.elements k.now) c }
    requires v { IsVector (K.elements k.now) (length matrix.now) v.now }
    ensures { let F = K.elements k.now in IsTrue result ↔ IsEigenvector F (length matrix.now)
        (rows_of matrix.now) (F.value c) (vector_of F v.now) }
{
    for j in 0..matrix.len() {
        if !same(k, dot(k, &matrix[j], v), k.mul(c, v[j])) {
            return false;
        }
    }
    true
}

/// Whether the products of the entries are as the table says.
fn keeps_products<K: FiniteField<E = u32>>(k: &K, table: &[Vec<Vec<u32>>], chi: &[u32]) -> bool
    requires table { IsTable (K.elements k.now) (length chi.now) table.now }
    requires chi { All (IsElement (K.elements k.now)) chi.now }
    ensures { let F = K.elements k.now in IsTrue result ↔ ((i : ℕ) → i < length chi.now →
        IsEigenvector F (length chi.now) (get_or (tables_of table.now) i [])
        (vector_of F chi.now i) (vector_of F chi.now)) }
{
    for i in 0..chi.len() {
        if !is_eigenvector(k, &table[i], chi[i], chi) {
            return false;
        }
    }
    true
}

/// Whether the functional with these values is 1 at 1 and keeps products.
fn is_character<K: FiniteField<E = u32>>(
    k: &K,
    table: &[Vec<Vec<u32>>],
    one: &[u32],
    chi: &[u32],
) -> bool
    requires table { IsTable (K.elements k.now) (length chi.now) table.now }
    requires one { IsVector (K.elements k.now) (length chi.now) one.now }
    requires chi { All (IsElement (K.elements k.now)) chi.now }
    ensures { let F = K.elements k.now in IsTrue result ↔ IsCharacter F (length chi.now)
        (tables_of table.now) one.now (vector_of F chi.now) }
{
    if !same(k, dot(k, one, chi), k.one()) {
        return false;
    }
    keeps_products(k, table, chi)
}

/// The index of the first entry that is not zero, and the length where there is none.
fn leading_index<K: FiniteField<E = u32>>(k: &K, v: &[u32]) -> usize
    requires { All (IsElement (K.elements k.now)) v.now }
    ensures bound { result ≤ length v.now }
    ensures zeros { let F = K.elements k.now in
        (j : ℕ) → j < result → vector_of F v.now j ≡ F.zero }
    ensures nonzero { let F = K.elements k.now in
        result < length v.now → ¬ (vector_of F v.now result ≡ F.zero) }
{
    for j in 0..v.len() {
        if !same(k, v[j], k.zero()) {
            return j;
        }
    }
    v.len()
}

/// The multiples of itself to which the matrices carry a common eigenvector, whose entry at `p` is
/// not zero.
fn eigenvalues<K: FiniteField<E = u32>>(
    alloc: Global,
    k: &K,
    table: &[Vec<Vec<u32>>],
    v: &[u32],
    p: usize,
) -> Result<Vec<u32>, NoMemory>
    requires table { IsTable (K.elements k.now) (length v.now) table.now }
    requires v { All (IsElement (K.elements k.now)) v.now }
    requires index { p < length v.now }
    requires nonzero { let F = K.elements k.now in ¬ (vector_of F v.now p ≡ F.zero) }
    ensures vector { IfOk result (λ r. IsVector (K.elements k.now) (length v.now) r.items) }
    ensures value { let F = K.elements k.now in IfOk result (λ r. (i : ℕ) (c : F.carrier) →
        i < length v.now → IsEigenvector F (length v.now) (get_or (tables_of table.now) i []) c
        (vector_of F v.now) → vector_of F r.items i ≡ c) }
{
    let factor = k.inv(v[p]);
    let mut values = Vec::with_capacity(alloc, v.len())?;
    for i in 0..v.len() {
        values.push(k.mul(factor, dot(k, &table[i][p], v)))?;
    }
    Ok(values)
}

/// Adds the character in a space of common eigenvectors, where there is one.
fn push_character<K: FiniteField<E = u32>>(
    alloc: Global,
    k: &K,
    table: &[Vec<Vec<u32>>],
    one: &[u32],
    space: &Space,
    list: &mut Vec<Vec<u32>>,
) -> Result<(), NoMemory>
    requires table { IsTable (K.elements k.now) (length one.now) table.now }
    requires one { All (IsElement (K.elements k.now)) one.now }
    requires space { IsSpaceOf (K.elements k.now) (length one.now) space.now }
    requires nonzero { 0 < length space.now.basis }
    requires settled { let F = K.elements k.now in
        IsSettled F (length one.now) (tables_of table.now) space.now }
    requires list { let F = K.elements k.now in
        AreCharacters F (length one.now) (tables_of table.now) one.now list.old.items }
    ensures each { let F = K.elements k.now in OnOk result
        (AreCharacters F (length one.now) (tables_of table.now) one.now list.new.items) }
    ensures kept { let F = K.elements k.now in OnOk result ((v : ℕ → F.carrier) →
        HasVector F list.old.items v → HasVector F list.new.items v) }
    ensures all { let F = K.elements k.now in let n = length one.now in OnOk result
        ((chi : ℕ → F.carrier) → InSpace F space.now chi
        → IsCharacter F n (tables_of table.now) one.now chi → HasVector F list.new.items chi) }
{
    let v = &space.basis()[0];
    let chi = eigenvalues(alloc, k, table, v, leading_index(k, v))?;
    if is_character(k, table, one, &chi) {
        list.push(chi)?;
    }
    Ok(())
}

/// Adds the characters in a space that each of the first `i` matrices scales.
fn push_characters<K: FiniteField<E = u32>>(
    alloc: Global,
    k: &K,
    table: &[Vec<Vec<u32>>],
    one: &[u32],
    space: &Space,
    i: usize,
    list: &mut Vec<Vec<u32>>,
) -> Result<(), NoMemory>
    requires table { IsTable (K.elements k.now) (length one.now) table.now }
    requires one { All (IsElement (K.elements k.now)) one.now }
    requires space { IsSpaceOf (K.elements k.now) (length one.now) space.now }
    requires index { i ≤ length one.now }
    requires scaled { let F = K.elements k.now in
        AreScaled F (length one.now) (tables_of table.now) i space.now }
    requires list { let F = K.elements k.now in
        AreCharacters F (length one.now) (tables_of table.now) one.now list.old.items }
    ensures each { let F = K.elements k.now in OnOk result
        (AreCharacters F (length one.now) (tables_of table.now) one.now list.new.items) }
    ensures kept { let F = K.elements k.now in OnOk result ((v : ℕ → F.carrier) →
        HasVector F list.old.items v → HasVector F list.new.items v) }
    ensures all { let F = K.elements k.now in let n = length one.now in OnOk result
        ((chi : ℕ → F.carrier) → InSpace F space.now chi
        → IsCharacter F n (tables_of table.now) one.now chi → HasVector F list.new.items chi) }
{
    if space.dim() == 0 {
        return Ok(());
    }
    if space.dim() == 1 || i == one.len() {
        return push_character(alloc, k, table, one, space, list);
    }
    for j in 0..k.count() {
        let part = eigenspace(alloc, k, space, &table[i], k.nth(j))?;
        push_characters(alloc, k, table, one, &part, i + 1, list)?;
        if part.is_same(k, space) {
            return Ok(());
        }
    }
    Ok(())
}

/// The characters in the space: the vectors chi of it that are 1 at the element with the
/// coordinates `one`, and at the product of two elements of the basis, of which `table[i][j]` has
/// the coordinates, the product of their entries. `NoMemory` is the only error. This project's own.
pub fn characters<K: FiniteField<E = u32>>(
    alloc: Global,
    k: &K,
    table: &[Vec<Vec<u32>>],
    one: &[u32],
    space: &Space,
) -> Result<Vec<Vec<u32>>, NoMemory>
    requires table { IsTable (K.elements k.now) (length one.now) table.now }
    requires one { All (IsElement (K.elements k.now)) one.now }
    requires space { IsSpaceOf (K.elements k.now) (length one.now) space.now }
    ensures each { let F = K.elements k.now in IfOk result (λ r.
        AreCharacters F (length one.now) (tables_of table.now) one.now r.items) }
    ensures all { let F = K.elements k.now in let n = length one.now in IfOk result (λ r.
        (chi : ℕ → F.carrier) → InSpace F space.now chi
        → IsCharacter F n (tables_of table.now) one.now chi → HasVector F r.items chi) }
{
    let mut list = Vec::new(alloc);
    push_characters(alloc, k, table, one, space, 0, &mut list)?;
    Ok(list)
}
