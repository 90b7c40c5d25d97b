// Bases of vectors modulo a space, and coordinates by them.
ghost use Rattle.std.specs.Prelude.{◌≡◌, ℕ, ◌<◌, ◌-◌, suc, ◌∷◌, length, IfOk, IfSome, IfNone};
ghost use Rattle.std.specs.List.{All};
ghost use Rattle.ff_theory.specs.Ring.{IsElement};
ghost use Rattle.ff_theory.specs.Vector.{vector_of, IsVector};
ghost use Rattle.ff_lin.specs.Space.{rows_of, AreVectors, IsSpace};
ghost use Rattle.ff_modulo.specs.Modulo.{IsBasisModulo, IsSpannedModulo, IsIndependentModulo};
ghost use Rattle.ff_modulo.specs.Modulo.{IsCombinationModulo, IsTailOfOne, BeginsWithZero};
ghost use Rattle.ff_modulo.specs.Modulo.{IsNegativeTail};

use ff_alg::{FiniteField, NoMemory, is_zero};
use ff_lin::Space;
use std::alloc::Global;

/// Those of the vectors that are no combination of the ones before them modulo the space: a basis
/// of all modulo it. The vectors have the space's length. `NoMemory` is the only error.
pub fn basis_modulo<K: FiniteField<E = u32>>(
    alloc: Global,
    k: &K,
    space: &Space,
    vectors: &[Vec<u32>],
) -> Result<Vec<Vec<u32>>, NoMemory>
    requires space { IsSpace (K.elements k.now) space.now }
    requires vectors { AreVectors (K.elements k.now) space.now.len vectors.now }
    ensures vectors { IfOk result (λ r. AreVectors (K.elements k.now) space.now.len r.items) }
    ensures basis { let F = K.elements k.now in IfOk result (λ r.
        IsBasisModulo F space.now (rows_of vectors.now) (rows_of r.items)) }
{
    let mut sum = Space::span(alloc, k, space.len(), space.basis())?;
    let mut basis = Vec::new(alloc);
    for v in vectors {
        if !sum.contains(k, v) {
            sum = sum.insert(alloc, k, Vec::from_slice(alloc, v)?)?;
            basis.push(Vec::from_slice(alloc, v)?)?;
        }
    }
    Ok(basis)
}

/// A vector and then others.
fn with_others(
    alloc: Global,
    first: Vec<u32>,
    others: &[Vec<u32>],
) -> Result<Vec<Vec<u32>>, NoMemory>
    ensures len { IfOk result (λ r. length r.items ≡ suc (length others.now)) }
    ensures value { IfOk result (λ r. rows_of r.items ≡ first.items ∷ rows_of others.now) }
{
    let mut list = Vec::with_capacity(alloc, 1)?;
    list.push(first)?;
    for v in others {
        list.push(Vec::from_slice(alloc, v)?)?;
    }
    Ok(list)
}

/// The negatives of the entries after the first.
fn negative_tail<K: FiniteField<E = u32>>(
    alloc: Global,
    k: &K,
    v: &[u32],
) -> Result<Vec<u32>, NoMemory>
    requires each { All (IsElement (K.elements k.now)) v.now }
    requires nonempty { 0 < length v.now }
    ensures len { IfOk result (λ r. length r.items ≡ length v.now - 1) }
    ensures each { IfOk result (λ r. All (IsElement (K.elements k.now)) r.items) }
    ensures value { let F = K.elements k.now in IfOk result (λ r. (i : ℕ) →
        i < length v.now - 1 → vector_of F r.items i ≡ F.neg (vector_of F v.now (suc i))) }
{
    let mut tail = Vec::with_capacity(alloc, v.len())?;
    for i in 0..v.len() - 1 {
        tail.push(k.neg(v[i + 1]))?;
    }
    Ok(tail)
}

/// The coefficients of the combination of independent rows that a vector is modulo the space. The
/// vectors have the space's length. `NoMemory` is the only error.
pub fn coordinates_modulo<K: FiniteField<E = u32>>(
    alloc: Global,
    k: &K,
    space: &Space,
    rows: &[Vec<u32>],
    v: Vec<u32>,
) -> Result<Vec<u32>, NoMemory>
    requires space { IsSpace (K.elements k.now) space.now }
    requires rows { AreVectors (K.elements k.now) space.now.len rows.now }
    requires v { IsVector (K.elements k.now) space.now.len v.items }
    requires independent { IsIndependentModulo (K.elements k.now) space.now (rows_of rows.now) }
    requires spanned { let F = K.elements k.now in
        IsSpannedModulo F space.now (rows_of rows.now) (vector_of F v.items) }
    ensures vector { IfOk result (λ r. IsVector (K.elements k.now) (length rows.now) r.items) }
    ensures value { let F = K.elements k.now in IfOk result (λ r. IsCombinationModulo F space.now
        (rows_of rows.now) (vector_of F r.items) (vector_of F v.items)) }
{
    let images = with_others(alloc, v, rows)?;
    let relations = space.preimage(alloc, k, &images)?;
    negative_tail(alloc, k, &relations.basis()[0])
}

/// The negatives of the entries after the first, where that is not 0.
fn tail_after_unit<K: FiniteField<E = u32>>(
    alloc: Global,
    k: &K,
    v: &[u32],
) -> Result<Option<Vec<u32>>, NoMemory>
    requires each { All (IsElement (K.elements k.now)) v.now }
    requires nonempty { 0 < length v.now }
    ensures vector { let F = K.elements k.now in
        IfOk result (λ o. IfSome o (λ r. IsVector F (length v.now - 1) r.items)) }
    ensures some { let F = K.elements k.now in
        IfOk result (λ o. IfSome o (λ r. IsNegativeTail F v.now (vector_of F r.items))) }
    ensures none { let F = K.elements k.now in
        IfOk result (λ o. IfNone o (vector_of F v.now 0 ≡ F.zero)) }
{
    if is_zero(k, v[0]) {
        return Ok(None);
    }
    Ok(Some(negative_tail(alloc, k, v)?))
}

/// The coefficients that the first of the relations of a vector and rows gives, where the vector
/// takes part in it.
fn first_tail<K: FiniteField<E = u32>>(
    alloc: Global,
    k: &K,
    relations: &Space,
) -> Result<Option<Vec<u32>>, NoMemory>
    requires space { IsSpace (K.elements k.now) relations.now }
    requires nonempty { 0 < relations.now.len }
    ensures vector { let F = K.elements k.now in
        IfOk result (λ o. IfSome o (λ r. IsVector F (relations.now.len - 1) r.items)) }
    ensures some { let F = K.elements k.now in IfOk result
        (λ o. IfSome o (λ r. IsTailOfOne F relations.now (vector_of F r.items))) }
    ensures none { let F = K.elements k.now in
        IfOk result (λ o. IfNone o (BeginsWithZero F relations.now)) }
{
    let basis = relations.basis();
    if basis.len() == 0 {
        return Ok(None);
    }
    tail_after_unit(alloc, k, &basis[0])
}

/// The coefficients of a combination of the rows that a vector is modulo the space, and None
/// exactly where it is no combination. The vectors have the space's length. `NoMemory` is the only
/// error.
pub fn solve_modulo<K: FiniteField<E = u32>>(
    alloc: Global,
    k: &K,
    space: &Space,
    rows: &[Vec<u32>],
    v: Vec<u32>,
) -> Result<Option<Vec<u32>>, NoMemory>
    requires space { IsSpace (K.elements k.now) space.now }
    requires rows { AreVectors (K.elements k.now) space.now.len rows.now }
    requires v { IsVector (K.elements k.now) space.now.len v.items }
    ensures vector { let F = K.elements k.now in
        IfOk result (λ o. IfSome o (λ r. IsVector F (length rows.now) r.items)) }
    ensures some { let F = K.elements k.now in IfOk result (λ o. IfSome o
        (λ r. IsCombinationModulo F space.now (rows_of rows.now) (vector_of F r.items)
        (vector_of F v.items))) }
    ensures none { let F = K.elements k.now in IfOk result (λ o. IfNone o
        (¬ IsSpannedModulo F space.now (rows_of rows.now) (vector_of F v.items))) }
{
    let images = with_others(alloc, v, rows)?;
    let relations = space.preimage(alloc, k, &images)?;
    first_tail(alloc, k, &relations)
}
