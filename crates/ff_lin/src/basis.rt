// Spaces by their vectors: span, membership, dimension.
ghost use Rattle.std.specs.Prelude.{◌≡◌, ℕ, ◌<◌, [], ◌∷◌, ◌++◌, length, IfOk, ◌↔◌, IsTrue};
ghost use Rattle.ff_theory.specs.Ring.{IsElement};
ghost use Rattle.ff_theory.specs.Span.{combination};
ghost use Rattle.ff_theory.specs.Vector.{vector_of, vectors_of, IsVector};
ghost use Rattle.ff_lin.specs.Space.{rows_of, AreVectors, IsIn, IsSpace, IsSpaceOf, SameSpace};
ghost use Rattle.ff_lin.specs.Space.{SameVectors, remainder_of, pivot};

use super::Space;
use crate::rows::{clear_rows, count_below, leading_index, normalize, same_rows};
use ff_alg::{FiniteField, NoMemory, same};
use std::alloc::Global;

impl Space {
    /// The negatives of the entries of `v` at the pivots.
    fn factors<K: FiniteField<E = u32>>(
        &self,
        alloc: Global,
        k: &K,
        v: &[u32],
    ) -> Result<Vec<u32>, NoMemory>
        requires space { IsSpace (K.elements k.now) self.now }
        requires v { IsVector (K.elements k.now) self.now.len v.now }
        ensures vector { let F = K.elements k.now in
            IfOk result (λ f. IsVector F (length self.now.basis) f.items) }
        ensures value { let F = K.elements k.now in
            IfOk result (λ f. (i : ℕ) → i < length self.now.basis →
            vector_of F f.items i ≡ F.neg (vector_of F v.now (pivot self.now i))) }
    {
        let mut factors = Vec::with_capacity(alloc, self.pivots.len())?;
        for i in 0..self.pivots.len() {
            factors.push(k.neg(v[self.pivots[i]]))?;
        }
        Ok(factors)
    }

    /// The vector less the combination of the basis that has its entries at the pivots.
    pub(crate) fn remainder<K: FiniteField<E = u32>>(
        &self,
        alloc: Global,
        k: &K,
        v: Vec<u32>,
    ) -> Result<Vec<u32>, NoMemory>
        requires space { IsSpace (K.elements k.now) self.now }
        requires v { IsVector (K.elements k.now) self.now.len v.items }
        ensures vector { IfOk result (λ r. IsVector (K.elements k.now) self.now.len r.items) }
        ensures value { let F = K.elements k.now in
            IfOk result (λ r. (j : ℕ) →
            vector_of F r.items j ≡ remainder_of F self.now (vector_of F v.items) j) }
    {
        let factors = self.factors(alloc, k, &v)?;
        let mut remainder = v;
        k.add_combination(&mut remainder, &factors, &self.basis);
        Ok(remainder)
    }

    /// An entry of the combination of the basis that has the entries of `v` at the pivots.
    fn combination_entry<K: FiniteField<E = u32>>(&self, k: &K, v: &[u32], j: usize) -> u32
        requires space { IsSpace (K.elements k.now) self.now }
        requires v { IsVector (K.elements k.now) self.now.len v.now }
        requires index { j < self.now.len }
        ensures element { IsElement (K.elements k.now) result }
        ensures value { let F = K.elements k.now in
            F.value result ≡ combination F.ring (length self.now.basis)
            (λ i. vector_of F v.now (pivot self.now i)) (vectors_of F self.now.basis) j }
    {
        let mut sum = k.zero();
        for i in 0..self.basis.len() {
            sum = k.add(sum, k.mul(v[self.pivots[i]], self.basis[i][j]));
        }
        sum
    }

    /// Whether the vector, of the space's length, is in the space. Takes no memory.
    pub fn contains<K: FiniteField<E = u32>>(&self, k: &K, v: &[u32]) -> bool
        requires space { IsSpace (K.elements k.now) self.now }
        requires v { IsVector (K.elements k.now) self.now.len v.now }
        ensures { IsTrue result ↔ IsIn (K.elements k.now) self.now.basis v.now }
    {
        for j in 0..self.len {
            if !same(k, v[j], self.combination_entry(k, v, j)) {
                return false;
            }
        }
        true
    }

    /// The space with a vector more, which has one at `p`, and zeros before it and at the pivots.
    fn insert_at<K: FiniteField<E = u32>>(
        self,
        k: &K,
        p: usize,
        w: Vec<u32>,
    ) -> Result<Space, NoMemory>
        requires space { IsSpace (K.elements k.now) self }
        requires w { IsVector (K.elements k.now) self.len w.items }
        requires index { p < self.len }
        requires one { let F = K.elements k.now in vector_of F w.items p ≡ F.one }
        requires begins { let F = K.elements k.now in
            (j : ℕ) → j < p → vector_of F w.items j ≡ F.zero }
        requires zeros { let F = K.elements k.now in
            (i : ℕ) → i < length self.basis → vector_of F w.items (pivot self i) ≡ F.zero }
        ensures space { IfOk result (IsSpaceOf (K.elements k.now) self.len) }
        ensures same { let F = K.elements k.now in
            IfOk result (λ s. SameSpace F s.basis (w.items ∷ self.basis)) }
    {
        let len = self.len;
        let mut basis = self.basis;
        let mut pivots = self.pivots;
        let q = count_below(&pivots, p);
        clear_rows(k, &mut basis, p, &w);
        basis.insert(q, w)?;
        pivots.insert(q, p)?;
        Ok(Space { len, basis, pivots })
    }

    /// The combinations of the space's vectors and one more, of its length.
    pub fn insert<K: FiniteField<E = u32>>(
        self,
        alloc: Global,
        k: &K,
        v: Vec<u32>,
    ) -> Result<Space, NoMemory>
        requires space { IsSpace (K.elements k.now) self }
        requires v { IsVector (K.elements k.now) self.len v.items }
        ensures space { IfOk result (IsSpaceOf (K.elements k.now) self.len) }
        ensures same { let F = K.elements k.now in
            IfOk result (λ s. SameSpace F s.basis (v.items ∷ self.basis)) }
    {
        let remainder = self.remainder(alloc, k, v)?;
        let p = leading_index(k, &remainder);
        if p == self.len {
            return Ok(self);
        }
        self.insert_at(k, p, normalize(k, p, remainder))
    }

    /// The space of length `n` whose one vector is zero. Takes no memory.
    pub fn zero(alloc: Global, n: usize) -> Space
        ensures len { result.len ≡ n }
        ensures basis { result.basis ≡ [] }
        ensures pivots { result.pivots ≡ [] }
    {
        Space {
            len: n,
            basis: Vec::new(alloc),
            pivots: Vec::new(alloc),
        }
    }

    /// All combinations of the space's vectors and the rows, of its length.
    pub(crate) fn extend<K: FiniteField<E = u32>>(
        self,
        alloc: Global,
        k: &K,
        rows: &[Vec<u32>],
    ) -> Result<Space, NoMemory>
        requires space { IsSpace (K.elements k.now) self }
        requires rows { AreVectors (K.elements k.now) self.len rows.now }
        ensures space { IfOk result (IsSpaceOf (K.elements k.now) self.len) }
        ensures same { let F = K.elements k.now in
            IfOk result (λ s. SameSpace F s.basis (self.basis ++ rows_of rows.now)) }
    {
        let mut space = self;
        for row in rows {
            space = space.insert(alloc, k, Vec::from_slice(alloc, row)?)?;
        }
        Ok(space)
    }

    /// All combinations of the rows, each of length `n`.
    pub fn span<K: FiniteField<E = u32>>(
        alloc: Global,
        k: &K,
        n: usize,
        rows: &[Vec<u32>],
    ) -> Result<Space, NoMemory>
        requires rows { AreVectors (K.elements k.now) n rows.now }
        ensures space { IfOk result (IsSpaceOf (K.elements k.now) n) }
        ensures same { let F = K.elements k.now in
            IfOk result (λ s. SameSpace F s.basis (rows_of rows.now)) }
    {
        Space::zero(alloc, n).extend(alloc, k, rows)
    }

    /// Whether two spaces of one length have the same vectors, which is exactly where their data
    /// are the same. Takes no memory.
    pub fn is_same<K: FiniteField<E = u32>>(&self, k: &K, other: &Space) -> bool
        requires space { IsSpace (K.elements k.now) self.now }
        requires other { IsSpace (K.elements k.now) other.now }
        requires len { self.now.len ≡ other.now.len }
        ensures vectors { IsTrue result ↔ SameVectors (K.elements k.now) self.now other.now }
        ensures data { IsTrue result ↔ (self.now ≡ other.now) }
    {
        if self.basis.len() != other.basis.len() {
            return false;
        }
        same_rows(k, self.len, &self.basis, &other.basis)
    }

    /// The dimension: the number of basis vectors.
    pub fn dim(&self) -> usize
        ensures { result ≡ length self.now.basis }
    {
        self.basis.len()
    }

    /// The length of the vectors.
    pub fn len(&self) -> usize
        ensures { result ≡ self.now.len }
    {
        self.len
    }

    /// The row-reduced echelon basis, by rising pivots; each vector has the space's length.
    pub fn basis(&self) -> &[Vec<u32>]
        ensures { rows_of result.now ≡ self.now.basis }
    {
        self.basis.as_slice()
    }
}
