// Linear equations.
ghost use Rattle.std.specs.Prelude.{◌≡◌, ℕ, suc, ◌<◌, length, IfOk, IfSome, MatchOption};
ghost use Rattle.std.specs.List.{All};
ghost use Rattle.ff_theory.specs.Vector.{vector_of, vectors_of, IsVector};
ghost use Rattle.ff_lin.specs.Space.{rows_of, AreVectors, IsSolution};
ghost use Rattle.ff_lin.specs.Kernel.{BeginsLater, IsTailOfFirst, augmented_of};

use super::Space;
use crate::rows::negative;
use ff_alg::{FiniteField, NoMemory};
use std::alloc::Global;

/// The negative of the right side of length `m`, and then the columns.
fn augmented_columns<K: FiniteField<E = u32>>(
    alloc: Global,
    k: &K,
    m: usize,
    cols: &[Vec<u32>],
    rhs: &[u32],
) -> Result<Vec<Vec<u32>>, NoMemory>
    requires cols { AreVectors (K.elements k.now) m cols.now }
    requires rhs { IsVector (K.elements k.now) m rhs.now }
    ensures len { IfOk result (λ r. length r.items ≡ suc (length cols.now)) }
    ensures vectors { IfOk result (λ r. AreVectors (K.elements k.now) m r.items) }
    ensures value { let F = K.elements k.now in
        IfOk result (λ r. (i j : ℕ) → i < suc (length cols.now) →
        vectors_of F (rows_of r.items) i j ≡ augmented_of F (rows_of cols.now) rhs.now i j) }
{
    let mut images = Vec::new(alloc);
    images.push(negative(alloc, k, rhs)?)?;
    for col in cols {
        images.push(Vec::from_slice(alloc, col)?)?;
    }
    Ok(images)
}

impl Space {
    /// The basis vector with pivot 0, without its first entry, and None where there is none.
    fn tail_of_first(&self, alloc: Global) -> Result<Option<Vec<u32>>, NoMemory>
        requires count { length self.now.pivots ≡ length self.now.basis }
        requires long { All (λ v. 0 < length v) self.now.basis }
        ensures { IfOk result (λ o. MatchOption o
            (BeginsLater self.now) (λ v. IsTailOfFirst self.now v.items)) }
    {
        if self.basis.len() == 0 {
            return Ok(None);
        }
        if self.pivots[0] > 0 {
            return Ok(None);
        }
        Ok(Some(Vec::from_slice(alloc, &self.basis[0][1..])?))
    }
}

/// A vector `v`, as long as there are columns, with the sum of `v_i*cols[i]` equal to `rhs`, and
/// None exactly where there is none. The columns and `rhs` have length `m`. `NoMemory` comes where
/// memory runs out. This project's own.
pub fn solve<K: FiniteField<E = u32>>(
    alloc: Global,
    k: &K,
    m: usize,
    cols: &[Vec<u32>],
    rhs: &[u32],
) -> Result<Option<Vec<u32>>, NoMemory>
    requires cols { AreVectors (K.elements k.now) m cols.now }
    requires rhs { IsVector (K.elements k.now) m rhs.now }
    ensures vector { let F = K.elements k.now in
        IfOk result (λ o. IfSome o (λ v. IsVector F (length cols.now) v.items)) }
    ensures answer { let F = K.elements k.now in
        IfOk result (λ o. MatchOption o
        ((v : ℕ → F.carrier) → ¬ (IsSolution F (rows_of cols.now) rhs.now v))
        (λ v. IsSolution F (rows_of cols.now) rhs.now (vector_of F v.items))) }
{
    let images = augmented_columns(alloc, k, m, cols, rhs)?;
    let relations = Space::relations(alloc, k, m, &images)?;
    relations.tail_of_first(alloc)
}
