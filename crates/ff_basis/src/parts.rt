// The vectors of an order over its least denominator.
ghost use Rattle.std.specs.Prelude.{◌≡◌, ℕ, ◌+◌, ◌-◌, ◌*◌, ◌<◌, ◌≤◌, ◌^◌, pred, length, IfOk};
ghost use Rattle.ff_theory.specs.Lawful.{lawful_field};
ghost use Rattle.ff_theory.specs.Poly.{coeff};
ghost use Rattle.ff_theory.specs.LowestTerms.{IsLowest};
ghost use Rattle.ff_theory.specs.Vector.{vector_of, vectors_of, IsVector};
ghost use Rattle.ff_theory.specs.Values.{poly_of, IsPoly, polys_over, polys_of, ArePolys};
ghost use Rattle.ff_lin.specs.Space.{rows_of, AreVectors};
ghost use Rattle.ff_basis.specs.Blocks.{row_in, entry_in};

use crate::blocks::piece;
use ff_alg::{FiniteField, NoMemory};
use ff_poly::Poly;
use std::alloc::Global;

/// The rows of the planes of vectors, `count` of them: `n` of each vector, of `l` coefficients.
pub(crate) fn basis_rows<K: FiniteField<E = u32>>(
    alloc: Global,
    k: &K,
    basis: &[Vec<u32>],
    n: usize,
    l: usize,
    count: usize,
) -> Result<Vec<Poly>, NoMemory>
    requires basis { AreVectors (K.elements k.now) (n * l) basis.now }
    requires count { count ≡ length basis.now * n }
    ensures len { IfOk result (λ r. length r.items ≡ count) }
    ensures each { IfOk result (λ r. ArePolys (K.elements k.now) r.items) }
    ensures value { let F = K.elements k.now in let P = polys_over F in
        IfOk result (λ r. (s : ℕ) → s < count → coeff P (polys_of F r.items) s ≡
        row_in F.ring (vectors_of F (rows_of basis.now)) n l s) }
{
    let mut rows = Vec::with_capacity(alloc, count)?;
    for s in 0..count {
        rows.push(piece(alloc, k, &basis[s / n], s % n * l, l)?)?;
    }
    Ok(rows)
}

/// The coefficients of `n` rows from row `from` on, `l` of each, from the last row and the highest
/// power down.
fn reversed_vector<K: FiniteField<E = u32>>(
    alloc: Global,
    k: &K,
    rows: &[Poly],
    from: usize,
    n: usize,
    l: usize,
    len: usize,
) -> Result<Vec<u32>, NoMemory>
    requires rows { ArePolys (K.elements k.now) rows.now }
    requires room { from + n ≤ length rows.now }
    requires len { len ≡ n * l }
    ensures vector { IfOk result (λ r. IsVector (K.elements k.now) len r.items) }
    ensures value { let F = K.elements k.now in
        IfOk result (λ r. (j : ℕ) → j < len → vector_of F r.items j ≡
        entry_in F.ring (polys_of F rows.now) from l (len - 1 - j)) }
{
    let mut v = Vec::with_capacity(alloc, len)?;
    for j in 0..len {
        let i = len - 1 - j;
        v.push(rows[from + i / l].coeff(k, i % l))?;
    }
    Ok(v)
}

/// The reversed vectors of `count` planes of `n` rows.
pub(crate) fn reversed_vectors<K: FiniteField<E = u32>>(
    alloc: Global,
    k: &K,
    rows: &[Poly],
    count: usize,
    n: usize,
    l: usize,
    len: usize,
) -> Result<Vec<Vec<u32>>, NoMemory>
    requires rows { ArePolys (K.elements k.now) rows.now }
    requires room { length rows.now ≡ count * n }
    requires len { len ≡ n * l }
    ensures len { IfOk result (λ r. length r.items ≡ count) }
    ensures vectors { IfOk result (λ r. AreVectors (K.elements k.now) len r.items) }
    ensures value { let F = K.elements k.now in
        IfOk result (λ r. (a j : ℕ) → a < count → j < len → vectors_of F (rows_of r.items) a j ≡
        entry_in F.ring (polys_of F rows.now) (a * n) l (len - 1 - j)) }
{
    let mut list = Vec::with_capacity(alloc, count)?;
    for a in 0..count {
        list.push(reversed_vector(alloc, k, rows, a * n, n, l, len)?)?;
    }
    Ok(list)
}
