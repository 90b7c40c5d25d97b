// Combinations of rows of elements.
ghost use Rattle.std.specs.Prelude.{◌≡◌, ℕ, length, IfOk};
ghost use Rattle.ff_theory.specs.Vector.{vector_of, IsVector, combination_of};
ghost use Rattle.ff_lin.specs.Space.{rows_of, AreVectors, IsSpaceOf, SpansFamily};
ghost use Rattle.ff_lin.specs.Space.{combinations_of};

use ff_alg::{FiniteField, NoMemory};
use ff_lin::Space;
use std::alloc::Global;

/// `n` zeros.
fn zeros<K: FiniteField<E = u32>>(alloc: Global, k: &K, n: usize) -> Result<Vec<u32>, NoMemory>
    ensures vector { IfOk result (λ v. IsVector (K.elements k.now) n v.items) }
    ensures value { let F = K.elements k.now in
        IfOk result (λ v. (j : ℕ) → vector_of F v.items j ≡ F.zero) }
{
    let mut zeros = Vec::with_capacity(alloc, n)?;
    for _j in 0..n {
        zeros.push(k.zero())?;
    }
    Ok(zeros)
}

/// The combination of vectors of length `n`. `NoMemory` is the only error.
pub fn combination<K: FiniteField<E = u32>>(
    alloc: Global,
    k: &K,
    n: usize,
    coefficients: &[u32],
    vectors: &[Vec<u32>],
) -> Result<Vec<u32>, NoMemory>
    requires coefficients { IsVector (K.elements k.now) (length vectors.now) coefficients.now }
    requires vectors { AreVectors (K.elements k.now) n vectors.now }
    ensures vector { IfOk result (λ v. IsVector (K.elements k.now) n v.items) }
    ensures value { let F = K.elements k.now in IfOk result (λ v. (j : ℕ) →
        vector_of F v.items j ≡ combination_of F (rows_of vectors.now)
        (vector_of F coefficients.now) j) }
{
    let mut sum = zeros(alloc, k, n)?;
    k.add_combination(&mut sum, coefficients, vectors);
    Ok(sum)
}

/// The span of the combinations of vectors of length `n` with the given rows of coefficients.
/// `NoMemory` is the only error.
pub fn combinations<K: FiniteField<E = u32>>(
    alloc: Global,
    k: &K,
    n: usize,
    coefficients: &[Vec<u32>],
    vectors: &[Vec<u32>],
) -> Result<Space, NoMemory>
    requires coefficients { AreVectors (K.elements k.now) (length vectors.now) coefficients.now }
    requires vectors { AreVectors (K.elements k.now) n vectors.now }
    ensures space { IfOk result (IsSpaceOf (K.elements k.now) n) }
    ensures same { let F = K.elements k.now in IfOk result (λ s.
        SpansFamily F s.basis (length coefficients.now)
        (combinations_of F (rows_of vectors.now) (rows_of coefficients.now))) }
{
    let mut space = Space::zero(alloc, n);
    for c in coefficients {
        space = space.insert(alloc, k, combination(alloc, k, n, c, vectors)?)?;
    }
    Ok(space)
}
