// Operations on rows of elements.
ghost use Rattle.std.specs.Prelude.{◌≡◌, ℕ, ◌<◌, ◌≤◌, ◌-◌, IfOk, IsTrue, ◌↔◌, [], length, reverse};
ghost use Rattle.std.specs.Prelude.{get_or};
ghost use Rattle.std.specs.List.{All};
ghost use Rattle.ff_theory.specs.Ring.{IsElement};
ghost use Rattle.ff_theory.specs.Span.{less};
ghost use Rattle.ff_theory.specs.Vector.{vector_of, vectors_of, IsVector, combination_of};
ghost use Rattle.ff_lin.specs.Space.{rows_of, AreVectors, AreRoots, frobenius};

use ff_alg::{FiniteField, NoMemory, is_zero, same};
use std::alloc::Global;

/// `v` less `c` times `w`, which is as long as `v` and zero below `start`.
pub fn subtract<K: FiniteField<E = u32>>(k: &K, v: &mut [u32], c: u32, w: &[u32], start: usize)
    requires v { All (IsElement (K.elements k.now)) v.old }
    requires c { IsElement (K.elements k.now) c }
    requires w { IsVector (K.elements k.now) (length v.old) w.now }
    requires zeros { let F = K.elements k.now in
        (j : ℕ) → j < start → vector_of F w.now j ≡ F.zero }
    ensures vector { IsVector (K.elements k.now) (length v.old) v.new }
    ensures value { let F = K.elements k.now in
        (j : ℕ) → vector_of F v.new j
        ≡ less F.ring (vector_of F v.old) (F.value c) (vector_of F w.now) j }
{
    if is_zero(k, c) {
        return;
    }
    let factor = k.neg(c);
    for j in start..v.len() {
        v[j] = k.add(v[j], k.mul(factor, w[j]));
    }
}

/// `c` times `v`.
pub fn scale<K: FiniteField<E = u32>>(k: &K, v: &mut [u32], c: u32)
    requires v { All (IsElement (K.elements k.now)) v.old }
    requires c { IsElement (K.elements k.now) c }
    ensures vector { IsVector (K.elements k.now) (length v.old) v.new }
    ensures value { let F = K.elements k.now in
        (j : ℕ) → vector_of F v.new j ≡ F.mul (F.value c) (vector_of F v.old j) }
{
    for j in 0..v.len() {
        v[j] = k.mul(c, v[j]);
    }
}

/// The multiple of `v` with one at `p`.
pub fn normalize<K: FiniteField<E = u32>>(k: &K, p: usize, v: Vec<u32>) -> Vec<u32>
    requires v { All (IsElement (K.elements k.now)) v.items }
    requires index { p < length v.items }
    requires nonzero { let F = K.elements k.now in ¬ (vector_of F v.items p ≡ F.zero) }
    ensures vector { IsVector (K.elements k.now) (length v.items) result.items }
    ensures value { let F = K.elements k.now in
        (j : ℕ) → vector_of F result.items j
        ≡ F.mul (F.inverse (vector_of F v.items p)) (vector_of F v.items j) }
{
    let mut multiple = v;
    let c = k.inv(multiple[p]);
    scale(k, &mut multiple, c);
    multiple
}

/// The negatives of the entries.
pub fn negative<K: FiniteField<E = u32>>(
    alloc: Global,
    k: &K,
    v: &[u32],
) -> Result<Vec<u32>, NoMemory>
    requires v { All (IsElement (K.elements k.now)) v.now }
    ensures vector { IfOk result (λ w. IsVector (K.elements k.now) (length v.now) w.items) }
    ensures value { let F = K.elements k.now in
        IfOk result (λ w. (j : ℕ) → vector_of F w.items j ≡ F.neg (vector_of F v.now j)) }
{
    let mut negatives = Vec::from_slice(alloc, v)?;
    scale(k, &mut negatives, k.neg(k.one()));
    Ok(negatives)
}

/// The index of the first entry that is not zero, and the length where there is none.
pub fn leading_index<K: FiniteField<E = u32>>(k: &K, v: &[u32]) -> usize
    requires v { All (IsElement (K.elements k.now)) v.now }
    ensures within { result ≤ length v.now }
    ensures zeros { let F = K.elements k.now in
        (j : ℕ) → j < result → vector_of F v.now j ≡ F.zero }
    ensures nonzero { let F = K.elements k.now in
        result < length v.now → ¬ (vector_of F v.now result ≡ F.zero) }
{
    for j in 0..v.len() {
        if !is_zero(k, v[j]) {
            return j;
        }
    }
    v.len()
}

/// Whether two rows of one length have the same entries.
pub fn same_row<K: FiniteField<E = u32>>(k: &K, v: &[u32], w: &[u32]) -> bool
    requires v { All (IsElement (K.elements k.now)) v.now }
    requires w { IsVector (K.elements k.now) (length v.now) w.now }
    ensures { let F = K.elements k.now in
        IsTrue result ↔ ((j : ℕ) → vector_of F v.now j ≡ vector_of F w.now j) }
{
    for j in 0..v.len() {
        if !same(k, v[j], w[j]) {
            return false;
        }
    }
    true
}

/// Whether two lists of as many rows of length `n` have the same rows.
pub fn same_rows<K: FiniteField<E = u32>>(k: &K, n: usize, a: &[Vec<u32>], b: &[Vec<u32>]) -> bool
    requires a { AreVectors (K.elements k.now) n a.now }
    requires b { AreVectors (K.elements k.now) n b.now }
    requires count { length a.now ≡ length b.now }
    ensures { let F = K.elements k.now in
        IsTrue result ↔ ((i j : ℕ) → i < length a.now →
        vectors_of F (rows_of a.now) i j ≡ vectors_of F (rows_of b.now) i j) }
{
    for i in 0..a.len() {
        if !same_row(k, &a[i], &b[i]) {
            return false;
        }
    }
    true
}

/// How many of the rising indices are below `p`, which is none of them.
pub fn count_below(indices: &[usize], p: usize) -> usize
    requires rises { (i l : ℕ) → i < l → l < length indices.now →
        get_or indices.now i 0 < get_or indices.now l 0 }
    requires other { (i : ℕ) → i < length indices.now → ¬ (get_or indices.now i 0 ≡ p) }
    ensures within { result ≤ length indices.now }
    ensures lower { (i : ℕ) → i < result → get_or indices.now i 0 < p }
    ensures upper { (i : ℕ) → result ≤ i → i < length indices.now → p < get_or indices.now i 0 }
{
    for i in 0..indices.len() {
        if indices[i] > p {
            return i;
        }
    }
    indices.len()
}

/// Each row less its entry at `p` times `w`, which is zero below `p`.
pub fn clear_rows<K: FiniteField<E = u32>>(k: &K, rows: &mut [Vec<u32>], p: usize, w: &[u32])
    requires rows { AreVectors (K.elements k.now) (length w.now) rows.old }
    requires w { All (IsElement (K.elements k.now)) w.now }
    requires index { p < length w.now }
    requires zeros { let F = K.elements k.now in (j : ℕ) → j < p → vector_of F w.now j ≡ F.zero }
    ensures len { length rows.new ≡ length rows.old }
    ensures rows { AreVectors (K.elements k.now) (length w.now) rows.new }
    ensures value { let F = K.elements k.now in
        (i j : ℕ) → i < length rows.old → vectors_of F (rows_of rows.new) i j
        ≡ less F.ring (vectors_of F (rows_of rows.old) i)
        (vectors_of F (rows_of rows.old) i p) (vector_of F w.now) j }
{
    for i in 0..rows.len() {
        let c = rows[i][p];
        subtract(k, &mut rows[i], c, w, p);
    }
}

/// `n` zeros.
pub fn zeros<K: FiniteField<E = u32>>(alloc: Global, k: &K, n: usize) -> Result<Vec<u32>, NoMemory>
    ensures vector { IfOk result (λ v. IsVector (K.elements k.now) n v.items) }
    ensures value { let F = K.elements k.now in
        IfOk result (λ v. (j : ℕ) → vector_of F v.items j ≡ F.zero) }
{
    let mut zeros = Vec::with_capacity(alloc, n)?;
    for _j in 0..n {
        zeros.push(k.zero())?;
    }
    Ok(zeros)
}

/// The combination of the rows of length `n` with the coefficients `c`.
pub fn combine<K: FiniteField<E = u32>>(
    alloc: Global,
    k: &K,
    n: usize,
    c: &[u32],
    rows: &[Vec<u32>],
) -> Result<Vec<u32>, NoMemory>
    requires c { IsVector (K.elements k.now) (length rows.now) c.now }
    requires rows { AreVectors (K.elements k.now) n rows.now }
    ensures vector { IfOk result (λ v. IsVector (K.elements k.now) n v.items) }
    ensures value { let F = K.elements k.now in
        IfOk result (λ v. (j : ℕ) → vector_of F v.items j
        ≡ combination_of F (rows_of rows.now) (vector_of F c.now) j) }
{
    let mut sum = zeros(alloc, k, n)?;
    k.add_combination(&mut sum, c, rows);
    Ok(sum)
}

/// The entries from the last to the first.
pub fn reversal(alloc: Global, v: &[u32]) -> Result<Vec<u32>, NoMemory>
    ensures { IfOk result (λ w. w.items ≡ reverse v.now) }
{
    Ok(v.iter().rev().copied().collect(alloc)?)
}

/// Each entry to its root by the characteristic.
pub fn take_roots<K: FiniteField<E = u32>>(k: &K, v: &mut [u32])
    requires v { All (IsElement (K.elements k.now)) v.old }
    ensures vector { IsVector (K.elements k.now) (length v.old) v.new }
    ensures value { let F = K.elements k.now in
        (j : ℕ) → frobenius F (vector_of F v.new) j ≡ vector_of F v.old j }
{
    for j in 0..v.len() {
        v[j] = k.root(v[j]);
    }
}

/// Entry `j` of each row, from the last row to the first.
pub fn column(alloc: Global, rows: &[Vec<u32>], j: usize) -> Result<Vec<u32>, NoMemory>
    requires { All (λ v. j < length v.items) rows.now }
    ensures len { IfOk result (λ w. length w.items ≡ length rows.now) }
    ensures value { IfOk result (λ w. (i d : ℕ) → i < length rows.now → get_or w.items i d
        ≡ get_or (get_or (rows_of rows.now) (length rows.now - 1 - i) []) j d) }
{
    let mut column = Vec::with_capacity(alloc, rows.len())?;
    for i in 0..rows.len() {
        column.push(rows[rows.len() - 1 - i][j])?;
    }
    Ok(column)
}

/// The row of the roots of the entries by the characteristic.
pub fn root_row<K: FiniteField<E = u32>>(
    alloc: Global,
    k: &K,
    v: &[u32],
) -> Result<Vec<u32>, NoMemory>
    requires { All (IsElement (K.elements k.now)) v.now }
    ensures vector { IfOk result (λ w. IsVector (K.elements k.now) (length v.now) w.items) }
    ensures value { let F = K.elements k.now in
        IfOk result (λ w. (j : ℕ) → frobenius F (vector_of F w.items) j ≡ vector_of F v.now j) }
{
    let mut roots = Vec::from_slice(alloc, v)?;
    take_roots(k, &mut roots);
    Ok(roots)
}

/// The rows of the roots of the entries by the characteristic.
pub fn root_rows<K: FiniteField<E = u32>>(
    alloc: Global,
    k: &K,
    rows: &[Vec<u32>],
) -> Result<Vec<Vec<u32>>, NoMemory>
    requires { All (λ v. All (IsElement (K.elements k.now)) v.items) rows.now }
    ensures len { IfOk result (λ r. length r.items ≡ length rows.now) }
    ensures value { let F = K.elements k.now in
        IfOk result (λ r. AreRoots F (rows_of rows.now) (length rows.now) (rows_of r.items)) }
{
    let mut roots = Vec::with_capacity(alloc, rows.len())?;
    for row in rows {
        roots.push(root_row(alloc, k, row)?)?;
    }
    Ok(roots)
}
