// Blocks of vectors as polynomials in x.
ghost use Rattle.std.specs.Prelude.{◌≡◌, ℕ, ◌+◌, ◌*◌, ◌<◌, ◌≤◌, ◌^◌, length, reverse, IfOk};
ghost use Rattle.std.specs.List.{All};
ghost use Rattle.ff_theory.specs.Ring.{IsElement};
ghost use Rattle.ff_theory.specs.Vector.{vector_of};
ghost use Rattle.ff_theory.specs.Values.{poly_of, IsPoly};
ghost use Rattle.ff_basis.specs.Blocks.{piece, piece_back, block};

use ff_alg::{FiniteField, NoMemory};
use ff_data::Chart;
use ff_poly::Poly;
use std::alloc::Global;

/// The polynomial with the `l` coefficients from index `at` on.
pub(crate) fn piece<K: FiniteField<E = u32>>(
    alloc: Global,
    k: &K,
    v: &[u32],
    at: usize,
    l: usize,
) -> Result<Poly, NoMemory>
    requires v { All (IsElement (K.elements k.now)) v.now }
    requires room { at + l ≤ length v.now }
    ensures poly { IfOk result (IsPoly (K.elements k.now)) }
    ensures value { let F = K.elements k.now in
        IfOk result (λ r. poly_of F r ≡ piece F.ring (vector_of F v.now) at l) }
{
    Poly::from_coeffs(alloc, k, &v[at..at + l])
}

/// The entries from the last to the first.
fn reversal(alloc: Global, v: &[u32]) -> Result<Vec<u32>, NoMemory>
    ensures { IfOk result (λ w. w.items ≡ reverse v.now) }
{
    Ok(v.iter().rev().copied().collect(alloc)?)
}

/// The polynomial with the `l` coefficients from index `at` on, the last one as that of `x^0`.
fn piece_back<K: FiniteField<E = u32>>(
    alloc: Global,
    k: &K,
    v: &[u32],
    at: usize,
    l: usize,
) -> Result<Poly, NoMemory>
    requires v { All (IsElement (K.elements k.now)) v.now }
    requires room { at + l ≤ length v.now }
    ensures poly { IfOk result (IsPoly (K.elements k.now)) }
    ensures value { let F = K.elements k.now in
        IfOk result (λ r. poly_of F r ≡ piece_back F.ring (vector_of F v.now) at l) }
{
    let list = reversal(alloc, &v[at..at + l])?;
    Poly::from_coeffs(alloc, k, &list)
}

/// Block `b` of a vector, of `l` entries.
pub(crate) fn block<K: FiniteField<E = u32>>(
    alloc: Global,
    k: &K,
    chart: Chart,
    v: &[u32],
    l: usize,
    b: usize,
) -> Result<Poly, NoMemory>
    requires v { All (IsElement (K.elements k.now)) v.now }
    requires room { b * l + l ≤ length v.now }
    ensures poly { IfOk result (IsPoly (K.elements k.now)) }
    ensures value { let F = K.elements k.now in
        IfOk result (λ r. poly_of F r ≡ block F.ring chart (vector_of F v.now) l b) }
{
    match chart {
        Chart::Finite => piece_back(alloc, k, v, b * l, l),
        Chart::Infinite => piece(alloc, k, v, b * l, l),
    }
}
