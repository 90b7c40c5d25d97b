// Combinations of rows with powers of elements.
ghost use Rattle.std.specs.Prelude.{◌≡◌, ℕ, ◌<◌, length, IfOk};
ghost use Rattle.std.specs.List.{All};
ghost use Rattle.ff_theory.specs.Ring.{IsElement};
ghost use Rattle.ff_theory.specs.Vector.{vector_of, vectors_of, IsVector, combination_of};
ghost use Rattle.ff_lin.specs.Space.{rows_of, AreVectors, frobenius};

use ff_alg::{FiniteField, NoMemory};
use ff_data::combination;
use std::alloc::Global;

/// The row with each entry to the power of the characteristic.
fn frobenius_row<K: FiniteField<E = u32>>(
    alloc: Global,
    k: &K,
    v: &[u32],
) -> Result<Vec<u32>, NoMemory>
    requires { All (IsElement (K.elements k.now)) v.now }
    ensures vector { IfOk result (λ w. IsVector (K.elements k.now) (length v.now) w.items) }
    ensures value { let F = K.elements k.now in
        IfOk result (λ w. (j : ℕ) → vector_of F w.items j ≡ frobenius F (vector_of F v.now) j) }
{
    let mut powers = Vec::with_capacity(alloc, v.len())?;
    for j in 0..v.len() {
        powers.push(k.frob(v[j]))?;
    }
    Ok(powers)
}

/// The combinations of the rows of length `n` with the entries of each list to the power of the
/// characteristic.
pub(crate) fn semi_combinations<K: FiniteField<E = u32>>(
    alloc: Global,
    k: &K,
    n: usize,
    rows: &[Vec<u32>],
    lists: &[Vec<u32>],
) -> Result<Vec<Vec<u32>>, NoMemory>
    requires rows { AreVectors (K.elements k.now) n rows.now }
    requires lists { AreVectors (K.elements k.now) (length rows.now) lists.now }
    ensures len { IfOk result (λ r. length r.items ≡ length lists.now) }
    ensures vectors { IfOk result (λ r. AreVectors (K.elements k.now) n r.items) }
    ensures value { let F = K.elements k.now in
        let c = vectors_of F (rows_of lists.now) in IfOk result (λ r. (i j : ℕ)
        → i < length lists.now → vectors_of F (rows_of r.items) i j
        ≡ combination_of F (rows_of rows.now) (frobenius F (c i)) j) }
{
    let mut list = Vec::with_capacity(alloc, lists.len())?;
    for v in lists {
        let c = frobenius_row(alloc, k, v)?;
        list.push(combination(alloc, k, n, &c, rows)?)?;
    }
    Ok(list)
}
