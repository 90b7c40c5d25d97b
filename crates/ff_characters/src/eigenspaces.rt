// The vectors that a matrix carries to a multiple.
ghost use Rattle.std.specs.Prelude.{◌≡◌, ℕ, ◌<◌, length, IfOk, ◌↔◌};
ghost use Rattle.std.specs.List.{All};
ghost use Rattle.ff_theory.specs.Ring.{IsElement};
ghost use Rattle.ff_theory.specs.Span.{product};
ghost use Rattle.ff_theory.specs.Vector.{vector_of, vectors_of, IsVector};
ghost use Rattle.ff_lin.specs.Space.{rows_of, AreVectors, IsSpaceOf, InSpace};
ghost use Rattle.ff_characters.specs.Characters.{IsEigenvector};

use ff_alg::{FiniteField, NoMemory, sub};
use ff_lin::Space;
use std::alloc::Global;

/// The sum of the products of the entries of two vectors of one length.
pub fn dot<K: FiniteField<E = u32>>(k: &K, v: &[u32], w: &[u32]) -> u32
    requires v { All (IsElement (K.elements k.now)) v.now }
    requires w { IsVector (K.elements k.now) (length v.now) w.now }
    ensures element { IsElement (K.elements k.now) result }
    ensures value { let F = K.elements k.now in
        F.value result ≡ product F.ring (length v.now) (vector_of F v.now) (vector_of F w.now) }
{
    let mut sum = k.zero();
    for i in 0..v.len() {
        sum = k.add(sum, k.mul(v[i], w[i]));
    }
    sum
}

/// Row i of a matrix less `c` times the unit matrix.
fn shifted_row<K: FiniteField<E = u32>>(
    alloc: Global,
    k: &K,
    row: &[u32],
    i: usize,
    c: u32,
) -> Result<Vec<u32>, NoMemory>
    requires row { All (IsElement (K.elements k.now)) row.now }
    requires index { i < length row.now }
    requires c { IsElement (K.elements k.now) c }
    ensures vector { IfOk result (λ r. IsVector (K.elements k.now) (length row.now) r.items) }
    ensures value { let F = K.elements k.now in let n = length row.now in
        IfOk result (λ r. (v : ℕ → F.carrier) → product F.ring n v (vector_of F r.items)
        ≡ F.add (product F.ring n (vector_of F row.now) v) (F.neg (F.mul (F.value c) (v i)))) }
{
    let mut shifted = Vec::from_slice(alloc, row)?;
    shifted[i] = sub(k, row[i], c);
    Ok(shifted)
}

/// A matrix less `c` times the unit matrix.
fn shifted<K: FiniteField<E = u32>>(
    alloc: Global,
    k: &K,
    matrix: &[Vec<u32>],
    c: u32,
) -> Result<Vec<Vec<u32>>, NoMemory>
    requires matrix { AreVectors (K.elements k.now) (length matrix.now) matrix.now }
    requires c { IsElement (K.elements k.now) c }
    ensures len { IfOk result (λ r. length r.items ≡ length matrix.now) }
    ensures vectors { let F = K.elements k.now in
        IfOk result (λ r. AreVectors F (length matrix.now) r.items) }
    ensures value { let F = K.elements k.now in let n = length matrix.now in
        IfOk result (λ r. (v : ℕ → F.carrier) (i : ℕ) → i < n →
        product F.ring n v (vectors_of F (rows_of r.items) i) ≡ F.add
        (product F.ring n (vectors_of F (rows_of matrix.now) i) v)
        (F.neg (F.mul (F.value c) (v i)))) }
{
    let mut rows = Vec::with_capacity(alloc, matrix.len())?;
    for i in 0..matrix.len() {
        rows.push(shifted_row(alloc, k, &matrix[i], i, c)?)?;
    }
    Ok(rows)
}

/// The vectors of the space that a square matrix carries to `c` times themselves. `NoMemory` is the
/// only error.
pub fn eigenspace<K: FiniteField<E = u32>>(
    alloc: Global,
    k: &K,
    space: &Space,
    matrix: &[Vec<u32>],
    c: u32,
) -> Result<Space, NoMemory>
    requires matrix { AreVectors (K.elements k.now) (length matrix.now) matrix.now }
    requires space { IsSpaceOf (K.elements k.now) (length matrix.now) space.now }
    requires c { IsElement (K.elements k.now) c }
    ensures space { IfOk result (IsSpaceOf (K.elements k.now) (length matrix.now)) }
    ensures exact { let F = K.elements k.now in
        IfOk result (λ s. (v : ℕ → F.carrier) → InSpace F s v ↔ (InSpace F space.now v
        × IsEigenvector F (length matrix.now) (rows_of matrix.now) (F.value c) v)) }
{
    let equations = shifted(alloc, k, matrix, c)?;
    let whole = Space::kernel(alloc, k, matrix.len(), &equations)?;
    space.meet(alloc, k, &whole)
}
