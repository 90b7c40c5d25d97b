// Rows in echelon form that remember which vectors they came from.
ghost use Rattle.std.specs.Prelude.{◌≡◌, ℕ, ◌+◌, ◌<◌, ◌≤◌, [], length, IfOk, IfSome};
ghost use Rattle.std.specs.List.{All};
ghost use Rattle.ff_theory.specs.Ring.{IsElement};
ghost use Rattle.ff_theory.specs.Vector.{vector_of, IsVector};
ghost use Rattle.ff_functions.specs.Rows.{IsCleared, IsReduced, pivot_at, IsExtended, IsInserted};
ghost use Rattle.ff_functions.specs.Rows.{IsSpannedWith};

use ff_alg::{FiniteField, NoMemory, is_zero};
use std::alloc::Global;

/// A vector that is 0 before its pivot and 1 there, by its entries from the pivot on, and the
/// coefficients of a combination of the inserted vectors that it is, up to one of the first rows.
#[derive(Drop)]
pub struct Row {
    pub pivot: usize,
    pub tail: Vec<u32>,
    pub origin: Vec<u32>,
}

/// Rows, each of which is 0 at the pivots of the ones before it.
#[derive(Drop)]
pub struct Echelon {
    pub rows: Vec<Row>,
}

impl Row {
    ghost use Rattle.ff_functions.specs.Searches.{IsRow};

    /// Takes the multiple of the row from the vector that makes its entry at the pivot 0, and the
    /// same multiple of the origin from the coefficients.
    fn clear<K: FiniteField<E = u32>>(&self, k: &K, v: &mut [u32], c: &mut [u32])
        requires row { IsRow (K.elements k.now) (length v.old) (length c.old) self.now }
        requires v { All (IsElement (K.elements k.now)) v.old }
        requires c { All (IsElement (K.elements k.now)) c.old }
        ensures vector { IsVector (K.elements k.now) (length v.old) v.new }
        ensures coefficients { IsVector (K.elements k.now) (length c.old) c.new }
        ensures value { let F = K.elements k.now in let V = vector_of F in
            IsCleared F self.now (V v.old) (V c.old) (V v.new) (V c.new) }
    {
        let factor = k.neg(v[self.pivot]);
        if is_zero(k, factor) {
            return;
        }
        k.add_scaled(v, self.pivot, factor, &self.tail);
        k.add_scaled(c, 0, factor, &self.origin);
    }
}

/// The index of the first entry that is not 0, and the length where there is none.
fn leading_index<K: FiniteField<E = u32>>(k: &K, v: &[u32]) -> usize
    requires { All (IsElement (K.elements k.now)) v.now }
    ensures within { result ≤ length v.now }
    ensures nonzero { let F = K.elements k.now in
        result < length v.now → ¬ (vector_of F v.now result ≡ F.zero) }
    ensures before { let F = K.elements k.now in
        (j : ℕ) → j < result → vector_of F v.now j ≡ F.zero }
{
    for j in 0..v.len() {
        if !is_zero(k, v[j]) {
            return j;
        }
    }
    v.len()
}

/// The products with c of the entries from an index on.
fn scaled_tail<K: FiniteField<E = u32>>(
    alloc: Global,
    k: &K,
    v: &[u32],
    start: usize,
    c: u32,
) -> Result<Vec<u32>, NoMemory>
    requires v { All (IsElement (K.elements k.now)) v.now }
    requires c { IsElement (K.elements k.now) c }
    requires start { start ≤ length v.now }
    ensures len { IfOk result (λ r. start + length r.items ≡ length v.now) }
    ensures each { IfOk result (λ r. All (IsElement (K.elements k.now)) r.items) }
    ensures value { let F = K.elements k.now in IfOk result (λ r. (i : ℕ) →
        vector_of F r.items i ≡ F.mul (F.value c) (vector_of F v.now (start + i))) }
{
    let mut list = Vec::with_capacity(alloc, v.len())?;
    for j in start..v.len() {
        list.push(k.mul(c, v[j]))?;
    }
    Ok(list)
}

impl Echelon {
    ghost use Rattle.ff_functions.specs.Searches.{IsRow, AreRows};

    /// Without rows.
    pub(crate) fn new(alloc: Global) -> Echelon
        ensures { result.rows.items ≡ [] }
    {
        Echelon {
            rows: Vec::new(alloc),
        }
    }

    /// Clears the vector at the pivot of each row.
    fn reduce<K: FiniteField<E = u32>>(&self, k: &K, v: &mut [u32], c: &mut [u32])
        requires rows { AreRows (K.elements k.now) (length v.old) (length c.old)
            self.now.rows.items }
        requires v { All (IsElement (K.elements k.now)) v.old }
        requires c { All (IsElement (K.elements k.now)) c.old }
        ensures vector { IsVector (K.elements k.now) (length v.old) v.new }
        ensures coefficients { IsVector (K.elements k.now) (length c.old) c.new }
        ensures value { let F = K.elements k.now in let V = vector_of F in
            let rows = self.now.rows.items in
            IsReduced F rows (length rows) (V v.old) (V c.old) (V v.new) (V c.new) }
    {
        for row in &self.rows {
            row.clear(k, v, c);
        }
    }

    /// The vector and the coefficients, cleared at the pivot of each row.
    fn reduced<K: FiniteField<E = u32>>(
        &self,
        k: &K,
        v: Vec<u32>,
        c: Vec<u32>,
    ) -> (Vec<u32>, Vec<u32>)
        requires rows { AreRows (K.elements k.now) (length v.items) (length c.items)
            self.now.rows.items }
        requires v { All (IsElement (K.elements k.now)) v.items }
        requires c { All (IsElement (K.elements k.now)) c.items }
        ensures vector { IsVector (K.elements k.now) (length v.items) result.0.items }
        ensures coefficients { IsVector (K.elements k.now) (length c.items) result.1.items }
        ensures value { let F = K.elements k.now in let V = vector_of F in
            let rows = self.now.rows.items in IsReduced F rows (length rows) (V v.items)
            (V c.items) (V result.0.items) (V result.1.items) }
    {
        let mut v = v;
        let mut c = c;
        self.reduce(k, &mut v, &mut c);
        (v, c)
    }

    /// The rows with one for a vector that begins at the pivot, and has the origin c.
    fn with_row<K: FiniteField<E = u32>>(
        self,
        alloc: Global,
        k: &K,
        pivot: usize,
        v: &[u32],
        c: &[u32],
    ) -> Result<Echelon, NoMemory>
        requires rows { AreRows (K.elements k.now) (length v.now) (length c.now) self.rows.items }
        requires v { All (IsElement (K.elements k.now)) v.now }
        requires c { All (IsElement (K.elements k.now)) c.now }
        requires pivot { pivot < length v.now }
        requires nonzero { let F = K.elements k.now in ¬ (vector_of F v.now pivot ≡ F.zero) }
        requires before { let F = K.elements k.now in
            (j : ℕ) → j < pivot → vector_of F v.now j ≡ F.zero }
        requires cleared { let F = K.elements k.now in (i : ℕ) → i < length self.rows.items →
            vector_of F v.now (pivot_at F self.rows.items i) ≡ F.zero }
        ensures rows { IfOk result (λ r. AreRows (K.elements k.now) (length v.now) (length c.now)
            r.rows.items) }
        ensures value { let F = K.elements k.now in let V = vector_of F in IfOk result
            (λ r. IsExtended F self.rows.items (V v.now) (V c.now) r.rows.items) }
    {
        let factor = k.inv(v[pivot]);
        let tail = scaled_tail(alloc, k, v, pivot, factor)?;
        let origin = scaled_tail(alloc, k, c, 0, factor)?;
        let mut rows = self.rows;
        rows.push(Row {
            pivot,
            tail,
            origin,
        })?;
        Ok(Echelon { rows })
    }

    /// The rows with one for the vector, which has the origin c. Where it is a combination of the
    /// rows there is none more, and the coefficients of a relation come beside them.
    pub(crate) fn insert<K: FiniteField<E = u32>>(
        self,
        alloc: Global,
        k: &K,
        v: Vec<u32>,
        c: Vec<u32>,
    ) -> Result<(Echelon, Option<Vec<u32>>), NoMemory>
        requires rows { AreRows (K.elements k.now) (length v.items) (length c.items)
            self.rows.items }
        requires v { All (IsElement (K.elements k.now)) v.items }
        requires c { All (IsElement (K.elements k.now)) c.items }
        ensures rows { IfOk result (λ r. AreRows (K.elements k.now) (length v.items)
            (length c.items) r.0.rows.items) }
        ensures relation { IfOk result (λ r. IfSome r.1 (λ s.
            IsVector (K.elements k.now) (length c.items) s.items)) }
        ensures value { let F = K.elements k.now in let V = vector_of F in IfOk result
            (λ r. IsInserted F self.rows.items (V v.items) (V c.items) r.0.rows.items r.1) }
    {
        let (v, c) = self.reduced(k, v, c);
        let pivot = leading_index(k, &v);
        if pivot == v.len() {
            return Ok((self, Some(c)));
        }
        let echelon = self.with_row(alloc, k, pivot, &v, &c)?;
        Ok((echelon, None))
    }

    /// The rows with one for the vector, of rows that remember no origins.
    pub(crate) fn with_vector<K: FiniteField<E = u32>>(
        self,
        alloc: Global,
        k: &K,
        v: &[u32],
    ) -> Result<Echelon, NoMemory>
        requires rows { AreRows (K.elements k.now) (length v.now) 0 self.rows.items }
        requires v { All (IsElement (K.elements k.now)) v.now }
        ensures rows { IfOk result (λ r. AreRows (K.elements k.now) (length v.now) 0 r.rows.items) }
        ensures value { let F = K.elements k.now in IfOk result
            (λ r. IsSpannedWith F self.rows.items (vector_of F v.now) r.rows.items) }
    {
        let row = Vec::from_slice(alloc, v)?;
        let (echelon, _relation) = self.insert(alloc, k, row, Vec::new(alloc))?;
        Ok(echelon)
    }
}
