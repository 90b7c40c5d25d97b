// Kernels, and linear relations of vectors.
ghost use Rattle.std.specs.Prelude.{◌≡◌, ℕ, ◌<◌, length, IfOk, ◌↔◌};
ghost use Rattle.ff_theory.specs.Vector.{vector_of, vectors_of, IsVector, combination_of};
ghost use Rattle.ff_lin.specs.Space.{rows_of, AreVectors, IsSpace, IsSpaceOf, InSpace};
ghost use Rattle.ff_lin.specs.Space.{SpansFamily, HasExactly, IsOrthogonal, IsRelation, IsSum};
ghost use Rattle.ff_lin.specs.Space.{combinations_of, remainder_of, frobenius};
ghost use Rattle.ff_lin.specs.Kernel.{IsSolvedBy, mirrored_rows, mirrored_columns, null_of};

use super::Space;
use crate::rows::{column, combine, reversal, root_rows, zeros};
use ff_alg::{FiniteField, NoMemory, sub};
use std::alloc::Global;

impl Space {
    /// Makes zeros into the null vector of index `f` for the mirrored basis.
    fn fill_null<K: FiniteField<E = u32>>(&self, k: &K, v: &mut [u32], f: usize)
        requires space { IsSpace (K.elements k.now) self.now }
        requires v { IsVector (K.elements k.now) self.now.len v.old }
        requires zeros { let F = K.elements k.now in (j : ℕ) → vector_of F v.old j ≡ F.zero }
        requires index { f < self.now.len }
        ensures vector { IsVector (K.elements k.now) self.now.len v.new }
        ensures value { let F = K.elements k.now in
            (j : ℕ) → vector_of F v.new j ≡ null_of F self.now f j }
    {
        let last = self.len - 1;
        v[f] = k.one();
        for i in 0..self.basis.len() {
            let p = last - self.pivots[i];
            v[p] = sub(k, v[p], self.basis[i][last - f]);
        }
    }

    /// The null vector of index `f` for the mirrored basis.
    fn null_vector<K: FiniteField<E = u32>>(
        &self,
        alloc: Global,
        k: &K,
        f: usize,
    ) -> Result<Vec<u32>, NoMemory>
        requires space { IsSpace (K.elements k.now) self.now }
        requires index { f < self.now.len }
        ensures vector { IfOk result (λ v. IsVector (K.elements k.now) self.now.len v.items) }
        ensures value { let F = K.elements k.now in
            IfOk result (λ v. (j : ℕ) → vector_of F v.items j ≡ null_of F self.now f j) }
    {
        let mut v = zeros(alloc, k, self.len)?;
        self.fill_null(k, &mut v, f);
        Ok(v)
    }

    /// All vectors whose product with each vector of the mirrored basis is zero.
    fn solutions<K: FiniteField<E = u32>>(&self, alloc: Global, k: &K) -> Result<Space, NoMemory>
        requires { IsSpace (K.elements k.now) self.now }
        ensures space { IfOk result (IsSpaceOf (K.elements k.now) self.now.len) }
        ensures exact { IfOk result (IsSolvedBy (K.elements k.now) self.now) }
    {
        let mut space = Space::zero(alloc, self.len);
        for f in 0..self.len {
            space = space.insert(alloc, k, self.null_vector(alloc, k, f)?)?;
        }
        Ok(space)
    }

    /// All combinations of the rows of length `n`, read from the last entry to the first.
    fn mirrored_span<K: FiniteField<E = u32>>(
        alloc: Global,
        k: &K,
        n: usize,
        rows: &[Vec<u32>],
    ) -> Result<Space, NoMemory>
        requires rows { AreVectors (K.elements k.now) n rows.now }
        ensures space { IfOk result (IsSpaceOf (K.elements k.now) n) }
        ensures same { let F = K.elements k.now in
            IfOk result (λ s. SpansFamily F s.basis (length rows.now)
            (mirrored_rows F n (rows_of rows.now))) }
    {
        let mut space = Space::zero(alloc, n);
        for row in rows {
            space = space.insert(alloc, k, reversal(alloc, row)?)?;
        }
        Ok(space)
    }

    /// All vectors of length `n` whose product with each row, of length `n`, is zero.
    pub fn kernel<K: FiniteField<E = u32>>(
        alloc: Global,
        k: &K,
        n: usize,
        rows: &[Vec<u32>],
    ) -> Result<Space, NoMemory>
        requires rows { AreVectors (K.elements k.now) n rows.now }
        ensures space { IfOk result (IsSpaceOf (K.elements k.now) n) }
        ensures exact { let F = K.elements k.now in
            IfOk result (λ s. HasExactly F s (IsOrthogonal F n (rows_of rows.now))) }
    {
        let equations = Space::mirrored_span(alloc, k, n, rows)?;
        equations.solutions(alloc, k)
    }

    /// The span of the first `m` columns of the images, each read from the last image to the first.
    fn mirrored_columns<K: FiniteField<E = u32>>(
        alloc: Global,
        k: &K,
        m: usize,
        images: &[Vec<u32>],
    ) -> Result<Space, NoMemory>
        requires images { AreVectors (K.elements k.now) m images.now }
        ensures space { IfOk result (IsSpaceOf (K.elements k.now) (length images.now)) }
        ensures same { let F = K.elements k.now in
            IfOk result (λ s. SpansFamily F s.basis m (mirrored_columns F (rows_of images.now))) }
    {
        let mut space = Space::zero(alloc, images.len());
        for j in 0..m {
            space = space.insert(alloc, k, column(alloc, images, j)?)?;
        }
        Ok(space)
    }

    /// The linear relations of images of length `m`: all `v`, as long as there are images, with the
    /// sum of `v_i*images[i]` equal to zero.
    pub fn relations<K: FiniteField<E = u32>>(
        alloc: Global,
        k: &K,
        m: usize,
        images: &[Vec<u32>],
    ) -> Result<Space, NoMemory>
        requires images { AreVectors (K.elements k.now) m images.now }
        ensures space { IfOk result (IsSpaceOf (K.elements k.now) (length images.now)) }
        ensures exact { let F = K.elements k.now in
            IfOk result (λ s. HasExactly F s (IsRelation F (rows_of images.now))) }
    {
        let equations = Space::mirrored_columns(alloc, k, m, images)?;
        equations.solutions(alloc, k)
    }

    /// Each vector less the combination of the basis that has its entries at the pivots.
    fn remainders<K: FiniteField<E = u32>>(
        &self,
        alloc: Global,
        k: &K,
        images: &[Vec<u32>],
    ) -> Result<Vec<Vec<u32>>, NoMemory>
        requires space { IsSpace (K.elements k.now) self.now }
        requires images { AreVectors (K.elements k.now) self.now.len images.now }
        ensures len { IfOk result (λ r. length r.items ≡ length images.now) }
        ensures vectors { let F = K.elements k.now in
            IfOk result (λ r. AreVectors F self.now.len r.items) }
        ensures value { let F = K.elements k.now in
            IfOk result (λ r. (i j : ℕ) → i < length images.now → vectors_of F (rows_of r.items) i j
            ≡ remainder_of F self.now (vectors_of F (rows_of images.now) i) j) }
    {
        let mut remainders = Vec::new(alloc);
        for image in images {
            remainders.push(self.remainder(alloc, k, Vec::from_slice(alloc, image)?)?)?;
        }
        Ok(remainders)
    }

    /// All `v`, as long as there are images, with the sum of `v_i*images[i]` in the space: the
    /// linear relations of the images modulo the space. The images have the space's length.
    pub fn preimage<K: FiniteField<E = u32>>(
        &self,
        alloc: Global,
        k: &K,
        images: &[Vec<u32>],
    ) -> Result<Space, NoMemory>
        requires space { IsSpace (K.elements k.now) self.now }
        requires images { AreVectors (K.elements k.now) self.now.len images.now }
        ensures space { IfOk result (IsSpaceOf (K.elements k.now) (length images.now)) }
        ensures exact { let F = K.elements k.now in
            IfOk result (λ s. HasExactly F s (λ v.
            InSpace F self.now (combination_of F (rows_of images.now) v))) }
    {
        let remainders = self.remainders(alloc, k, images)?;
        Space::relations(alloc, k, self.len, &remainders)
    }

    /// All vectors of the space's length whose entries to the power of the characteristic make a
    /// vector of the space.
    pub fn roots<K: FiniteField<E = u32>>(&self, alloc: Global, k: &K) -> Result<Space, NoMemory>
        requires { IsSpace (K.elements k.now) self.now }
        ensures space { IfOk result (IsSpaceOf (K.elements k.now) self.now.len) }
        ensures exact { let F = K.elements k.now in
            IfOk result (λ s. (v : ℕ → F.carrier) →
            InSpace F s v ↔ InSpace F self.now (frobenius F v)) }
    {
        Ok(Space {
            len: self.len,
            basis: root_rows(alloc, k, &self.basis)?,
            pivots: Vec::from_slice(alloc, &self.pivots)?,
        })
    }

    /// All `v`, as long as there are images, with the sum of `frob(v_i)*images[i]` in the space.
    /// The images have the space's length.
    pub fn semi_preimage<K: FiniteField<E = u32>>(
        &self,
        alloc: Global,
        k: &K,
        images: &[Vec<u32>],
    ) -> Result<Space, NoMemory>
        requires space { IsSpace (K.elements k.now) self.now }
        requires images { AreVectors (K.elements k.now) self.now.len images.now }
        ensures space { IfOk result (IsSpaceOf (K.elements k.now) (length images.now)) }
        ensures exact { let F = K.elements k.now in
            IfOk result (λ s. HasExactly F s (λ v.
            InSpace F self.now (combination_of F (rows_of images.now) (frobenius F v)))) }
    {
        let preimage = self.preimage(alloc, k, images)?;
        preimage.roots(alloc, k)
    }

    /// All `v`, as long as there are images, with the sum of `frob(v_i)*images[i]` equal to zero.
    /// The images have length `m`.
    pub fn semi_kernel<K: FiniteField<E = u32>>(
        alloc: Global,
        k: &K,
        m: usize,
        images: &[Vec<u32>],
    ) -> Result<Space, NoMemory>
        requires images { AreVectors (K.elements k.now) m images.now }
        ensures space { IfOk result (IsSpaceOf (K.elements k.now) (length images.now)) }
        ensures exact { let F = K.elements k.now in
            IfOk result (λ s. HasExactly F s (λ v.
            IsRelation F (rows_of images.now) (frobenius F v))) }
    {
        let relations = Space::relations(alloc, k, m, images)?;
        relations.roots(alloc, k)
    }

    /// The span of the combinations of the basis with the given rows of coefficients, each as long
    /// as the basis.
    fn combinations<K: FiniteField<E = u32>>(
        &self,
        alloc: Global,
        k: &K,
        coefficients: &[Vec<u32>],
    ) -> Result<Space, NoMemory>
        requires space { IsSpace (K.elements k.now) self.now }
        requires coefficients { let F = K.elements k.now in
            AreVectors F (length self.now.basis) coefficients.now }
        ensures space { IfOk result (IsSpaceOf (K.elements k.now) self.now.len) }
        ensures same { let F = K.elements k.now in
            IfOk result (λ s. SpansFamily F s.basis (length coefficients.now)
            (combinations_of F self.now.basis (rows_of coefficients.now))) }
    {
        let mut space = Space::zero(alloc, self.len);
        for c in coefficients {
            space = space.insert(alloc, k, combine(alloc, k, self.len, c, &self.basis)?)?;
        }
        Ok(space)
    }

    /// The intersection of two spaces of one length.
    pub fn meet<K: FiniteField<E = u32>>(
        &self,
        alloc: Global,
        k: &K,
        b: &Space,
    ) -> Result<Space, NoMemory>
        requires space { IsSpace (K.elements k.now) self.now }
        requires other { IsSpace (K.elements k.now) b.now }
        requires len { self.now.len ≡ b.now.len }
        ensures space { IfOk result (IsSpaceOf (K.elements k.now) self.now.len) }
        ensures exact { let F = K.elements k.now in
            IfOk result (λ s. (v : ℕ → F.carrier) →
            InSpace F s v ↔ (InSpace F self.now v × InSpace F b.now v)) }
    {
        let coefficients = b.preimage(alloc, k, &self.basis)?;
        self.combinations(alloc, k, coefficients.basis())
    }

    /// All sums of vectors of two spaces of one length.
    pub fn sum<K: FiniteField<E = u32>>(
        &self,
        alloc: Global,
        k: &K,
        b: &Space,
    ) -> Result<Space, NoMemory>
        requires space { IsSpace (K.elements k.now) self.now }
        requires other { IsSpace (K.elements k.now) b.now }
        requires len { self.now.len ≡ b.now.len }
        ensures space { IfOk result (IsSpaceOf (K.elements k.now) self.now.len) }
        ensures exact { let F = K.elements k.now in
            IfOk result (λ s. (v : ℕ → F.carrier) →
            InSpace F s v ↔ IsSum F (InSpace F self.now) (InSpace F b.now) v) }
    {
        Space::span(alloc, k, self.len, &self.basis)?.extend(alloc, k, &b.basis)
    }
}
