// How many homomorphisms of the ring of a pole system to the field carry z to given elements.
ghost use Rattle.std.specs.Prelude.{◌≡◌, ◌<◌, length, IfOk};
ghost use Rattle.std.specs.List.{All};
ghost use Rattle.ff_theory.specs.Ring.{IsElement};
ghost use Rattle.ff_theory.specs.Values.{ArePolys};
ghost use Rattle.ff_theory.specs.Vector.{IsVector};
ghost use Rattle.ff_lin.specs.Space.{AreVectors, IsSpaceOf};
ghost use Rattle.ff_data.specs.Systems.{AreCoords};
ghost use Rattle.ff_ring.specs.Ring.{HasTable};
ghost use Rattle.ff_characters.specs.Characters.{IsMatrix, IsTable};

use ff_alg::{FiniteField, NoMemory};
use ff_characters::characters;
use ff_data::{PolyLists, System};
use ff_lin::Space;
use ff_poly::Poly;
use std::alloc::Global;

/// The value of a polynomial at c.
fn value_at<K: FiniteField<E = u32>>(k: &K, p: &[u32], c: u32) -> u32
    requires p { All (IsElement (K.elements k.now)) p.now }
    requires c { IsElement (K.elements k.now) c }
    ensures { IsElement (K.elements k.now) result }
{
    let mut value = k.zero();
    let mut i = p.len();
    while i > 0 {
        i -= 1;
        value = k.add(p[i], k.mul(c, value));
    }
    value
}

/// The values of polynomials at c.
fn values_at<K: FiniteField<E = u32>>(
    alloc: Global,
    k: &K,
    list: &[Poly],
    c: u32,
) -> Result<Vec<u32>, NoMemory>
    requires list { ArePolys (K.elements k.now) list.now }
    requires c { IsElement (K.elements k.now) c }
    ensures { IfOk result (λ v. IsVector (K.elements k.now) (length list.now) v.items) }
{
    let mut values = Vec::with_capacity(alloc, list.len())?;
    for i in 0..list.len() {
        values.push(value_at(k, list[i].coeffs(), c))?;
    }
    Ok(values)
}

/// The values at c of the coordinates of products.
fn matrix_at<K: FiniteField<E = u32>>(
    alloc: Global,
    k: &K,
    s: &System,
    row: &PolyLists,
    c: u32,
) -> Result<Vec<Vec<u32>>, NoMemory>
    requires row { All (AreCoords (K.elements k.now) s.now) row.now }
    requires c { IsElement (K.elements k.now) c }
    ensures rows { IfOk result (λ m. AreVectors (K.elements k.now) s.now.e m.items) }
    ensures count { IfOk result (λ m. length m.items ≡ length row.now) }
{
    let _system = s;
    let mut rows = Vec::with_capacity(alloc, row.items.len())?;
    for i in 0..row.items.len() {
        rows.push(values_at(alloc, k, row.items[i].rows(), c)?)?;
    }
    Ok(rows)
}

/// The table of a system at c.
fn table_at<K: FiniteField<E = u32>>(
    alloc: Global,
    k: &K,
    s: &System,
    c: u32,
) -> Result<Vec<Vec<Vec<u32>>>, NoMemory>
    requires table { HasTable (K.elements k.now) s.now }
    requires c { IsElement (K.elements k.now) c }
    ensures { IfOk result (λ t. IsTable (K.elements k.now) s.now.e t.items) }
{
    let mut table = Vec::with_capacity(alloc, s.table.rows.len())?;
    for i in 0..s.table.rows.len() {
        table.push(matrix_at(alloc, k, s, &s.table.rows[i], c)?)?;
    }
    Ok(table)
}

/// 1 for the same index, and 0 for others.
fn unit_entry<K: FiniteField<E = u32>>(k: &K, i: usize, j: usize) -> u32
    ensures { IsElement (K.elements k.now) result }
{
    if i == j { k.one() } else { k.zero() }
}

/// The unit vector of length n with a 1 at the index i.
fn unit<K: FiniteField<E = u32>>(
    alloc: Global,
    k: &K,
    n: usize,
    i: usize,
) -> Result<Vec<u32>, NoMemory>
    ensures { IfOk result (λ v. IsVector (K.elements k.now) n v.items) }
{
    let mut vector = Vec::with_capacity(alloc, n)?;
    for j in 0..n {
        vector.push(unit_entry(k, i, j))?;
    }
    Ok(vector)
}

/// The unit vectors of length n.
fn units<K: FiniteField<E = u32>>(alloc: Global, k: &K, n: usize) -> Result<Vec<Vec<u32>>, NoMemory>
    ensures { IfOk result (λ r. AreVectors (K.elements k.now) n r.items) }
{
    let mut rows = Vec::with_capacity(alloc, n)?;
    for i in 0..n {
        rows.push(unit(alloc, k, n, i)?)?;
    }
    Ok(rows)
}

/// The space of all vectors of length n.
fn whole<K: FiniteField<E = u32>>(alloc: Global, k: &K, n: usize) -> Result<Space, NoMemory>
    ensures { IfOk result (IsSpaceOf (K.elements k.now) n) }
{
    let rows = units(alloc, k, n)?;
    Space::span(alloc, k, n, &rows)
}

/// How many characters an algebra of dimension n has, by its table; its first basis element is 1.
fn count<K: FiniteField<E = u32>>(
    alloc: Global,
    k: &K,
    n: usize,
    table: &[Vec<Vec<u32>>],
) -> Result<usize, NoMemory>
    requires { IsTable (K.elements k.now) n table.now }
{
    let one = unit(alloc, k, n, 0)?;
    let space = whole(alloc, k, n)?;
    let list = characters(alloc, k, table, &one, &space)?;
    Ok(list.len())
}

/// How many homomorphisms of the ring of a pole system to the field carry z to c and fix the
/// constants: the characters of the table at c.
fn count_at<K: FiniteField<E = u32>>(
    alloc: Global,
    k: &K,
    s: &System,
    c: u32,
) -> Result<usize, NoMemory>
    requires table { HasTable (K.elements k.now) s.now }
    requires c { IsElement (K.elements k.now) c }
{
    let table = table_at(alloc, k, s, c)?;
    count(alloc, k, s.e as usize, &table)
}

/// The numbers of homomorphisms of the ring of a pole system to the field by the value of z, where
/// they are known yet, by the index of the value.
#[derive(Drop)]
pub struct Profile {
    counts: Vec<Option<usize>>,
}

impl Profile {
    /// The profile of a system of which nothing is known yet.
    pub fn new<K: FiniteField<E = u32>>(alloc: Global, k: &K) -> Result<Profile, NoMemory> {
        let mut counts = Vec::new(alloc);
        for _i in 0..k.count() {
            counts.push(None)?;
        }
        Ok(Profile { counts })
    }

    /// The number that is known at an index.
    fn known(&self, i: usize) -> Option<usize> {
        if i < self.counts.len() {
            self.counts[i]
        } else {
            None
        }
    }

    /// Keeps the number at an index.
    fn keep(&mut self, i: usize, count: usize) {
        if i < self.counts.len() {
            self.counts[i] = Some(count);
        }
    }

    /// The number at c, which is kept.
    pub fn at<K: FiniteField<E = u32>>(
        &mut self,
        alloc: Global,
        k: &K,
        s: &System,
        c: u32,
    ) -> Result<usize, NoMemory>
        requires table { HasTable (K.elements k.now) s.now }
        requires c { IsElement (K.elements k.now) c }
    {
        let i = k.index(c) as usize;
        match self.known(i) {
            Some(count) => Ok(count),
            None => {
                let count = count_at(alloc, k, s, c)?;
                self.keep(i, count);
                Ok(count)
            },
        }
    }
}

/// Whether as many homomorphisms of the ring of s2 carry z to c as such of s1 carry z to
/// `alpha * c + beta`.
fn agrees<K: FiniteField<E = u32>>(
    alloc: Global,
    k: &K,
    s1: &System,
    s2: &System,
    alpha: u32,
    beta: u32,
    c: u32,
    first: &mut Profile,
    second: &mut Profile,
) -> Result<bool, NoMemory>
    requires first { HasTable (K.elements k.now) s1.now }
    requires second { HasTable (K.elements k.now) s2.now }
    requires alpha { IsElement (K.elements k.now) alpha }
    requires beta { IsElement (K.elements k.now) beta }
    requires c { IsElement (K.elements k.now) c }
{
    let there = first.at(alloc, k, s1, k.add(k.mul(alpha, c), beta))?;
    let here = second.at(alloc, k, s2, c)?;
    Ok(here == there)
}

/// Whether as many homomorphisms of the ring of s2 carry z to c as such of s1 carry z to
/// `alpha * c + beta`, for each c of the field.
pub fn fits<K: FiniteField<E = u32>>(
    alloc: Global,
    k: &K,
    s1: &System,
    s2: &System,
    alpha: u32,
    beta: u32,
    first: &mut Profile,
    second: &mut Profile,
) -> Result<bool, NoMemory>
    requires first { HasTable (K.elements k.now) s1.now }
    requires second { HasTable (K.elements k.now) s2.now }
    requires alpha { IsElement (K.elements k.now) alpha }
    requires beta { IsElement (K.elements k.now) beta }
{
    for i in 0..k.count() {
        let c = k.nth(i);
        if !agrees(alloc, k, s1, s2, alpha, beta, c, first, second)? {
            return Ok(false);
        }
    }
    Ok(true)
}
