// Reduction modulo the multiples of the powers of w, from the highest level down.
ghost use Rattle.std.specs.Prelude.{◌≡◌, ℕ, ◌+◌, ◌*◌, ◌<◌, ◌≤◌, suc, length, IfOk};
ghost use Rattle.std.specs.List.{All};
ghost use Rattle.ff_theory.specs.Monomial.{monomial};
ghost use Rattle.ff_theory.specs.Span.{unit_at};
ghost use Rattle.ff_theory.specs.Ring.{IsElement};
ghost use Rattle.ff_theory.specs.Vector.{IsVector, vector_of};
ghost use Rattle.ff_theory.specs.Values.{ArePolys, poly_of, polys_over, x_size};
ghost use Rattle.ff_lin.specs.Space.{AreVectors, rows_of};
ghost use Rattle.ff_data.specs.Systems.{AreCoords, IsWithinWeight, weight_at};
ghost use Rattle.ff_ring.specs.Entries.{entry_at};
ghost use Rattle.ff_ring.specs.Ring.{HasTable, ring_in, element_in};
ghost use Rattle.ff_relation.specs.Reduction.{IsPowerBasis, AreRows, AreTaken, IsReduced};
ghost use Rattle.ff_relation.specs.InRing.{PowersOf, IsSplit, IsSplitBy, SplitsDown};
ghost use Rattle.ff_relation.specs.InRing.{number_at, coefficient_in};

use crate::bases::PowerBasis;
use crate::choice::weight_of;
use ff_alg::{FiniteField, NoMemory, is_zero};
use ff_data::System;
use ff_elem::PolyList;
use ff_poly::Poly;
use ff_poly::rows::row;
use ff_ring::top;
use std::alloc::Global;

/// The coefficients of an element by class, and those of the factors of the powers whose multiples
/// were taken from it, by exponent.
#[derive(Drop)]
pub struct Rows {
    pub rest: Vec<Vec<u32>>,
    pub quotient: Vec<Vec<u32>>,
}

/// The factors of the powers in a sum of multiples, and what is left of an element without it.
#[derive(Drop)]
pub struct Reduced {
    pub quotient: PolyList,
    pub rest: PolyList,
}

/// The entry i of a list, and 0 past its end.
fn entry_or_zero<K: FiniteField<E = u32>>(k: &K, list: &[u32], i: usize) -> u32
    requires { All (IsElement (K.elements k.now)) list.now }
    ensures element { IsElement (K.elements k.now) result }
    ensures value { let F = K.elements k.now in F.value result ≡ vector_of F list.now i }
{
    if i < list.len() { list[i] } else { k.zero() }
}

/// A list, with zeros up to the length `n`.
fn padded<K: FiniteField<E = u32>>(
    alloc: Global,
    k: &K,
    list: &[u32],
    n: usize,
) -> Result<Vec<u32>, NoMemory>
    requires { All (IsElement (K.elements k.now)) list.now }
    ensures vector { IfOk result (λ r. IsVector (K.elements k.now) n r.items) }
    ensures value { let F = K.elements k.now in
        IfOk result (λ r. length list.now ≤ n → poly_of F r.items ≡ poly_of F list.now) }
{
    let mut padded = Vec::with_capacity(alloc, n)?;
    for i in 0..n {
        padded.push(entry_or_zero(k, list, i))?;
    }
    Ok(padded)
}

/// The coefficients of `e` polynomials, zero past the end, with zeros up to the length `n`.
fn padded_rows<K: FiniteField<E = u32>>(
    alloc: Global,
    k: &K,
    e: usize,
    list: &[Poly],
    n: usize,
) -> Result<Vec<Vec<u32>>, NoMemory>
    requires { ArePolys (K.elements k.now) list.now }
    ensures form { IfOk result (λ r. AreRows (K.elements k.now) e n r.items) }
    ensures value { let F = K.elements k.now in
        IfOk result (λ r. x_size list.now ≤ n → (l : ℕ) → l < e →
        entry_at F (rows_of r.items) l ≡ entry_at F list.now l) }
{
    let mut rows = Vec::with_capacity(alloc, e)?;
    for l in 0..e {
        rows.push(padded(alloc, k, row(list, l), n)?)?;
    }
    Ok(rows)
}

/// Adds `c * z^at` times the coordinates x, of which none has more than `n` coefficients.
fn add_multiple<K: FiniteField<E = u32>>(
    k: &K,
    rest: &mut [Vec<u32>],
    c: u32,
    at: usize,
    x: &[Poly],
    n: usize,
)
    requires rest { AreVectors (K.elements k.now) n rest.old }
    requires c { IsElement (K.elements k.now) c }
    requires x { ArePolys (K.elements k.now) x.now }
    requires room { at + x_size x.now ≤ n }
    ensures count { length rest.new ≡ length rest.old }
    ensures rest { AreVectors (K.elements k.now) n rest.new }
    ensures value { let F = K.elements k.now in let P = polys_over F in
        (l : ℕ) → l < length rest.old → entry_at F (rows_of rest.new) l ≡
        P.add (entry_at F (rows_of rest.old) l)
        (P.mul (monomial F.ring (F.value c) at) (entry_at F x.now l)) }
{
    let _length = n;
    for l in 0..rest.len() {
        k.add_scaled(&mut rest[l], at, c, row(x, l));
    }
}

/// Adds c to the entry `at` of a row.
fn add_at<K: FiniteField<E = u32>>(k: &K, row: &mut [u32], at: usize, c: u32)
    requires row { All (IsElement (K.elements k.now)) row.old }
    requires c { IsElement (K.elements k.now) c }
    requires at { at < length row.old }
    ensures vector { IsVector (K.elements k.now) (length row.old) row.new }
    ensures value { let F = K.elements k.now in let P = polys_over F in
        poly_of F row.new ≡ P.add (poly_of F row.old) (monomial F.ring (F.value c) at) }
{
    k.add_scaled(row, at, c, &[k.one()]);
}

/// Adds c to the entry `at` of row j.
fn add_factor<K: FiniteField<E = u32>>(
    k: &K,
    rows: &mut [Vec<u32>],
    j: usize,
    at: usize,
    c: u32,
    n: usize,
)
    requires rows { AreVectors (K.elements k.now) n rows.old }
    requires j { j < length rows.old }
    requires at { at < n }
    requires c { IsElement (K.elements k.now) c }
    ensures count { length rows.new ≡ length rows.old }
    ensures rows { AreVectors (K.elements k.now) n rows.new }
    ensures value { let F = K.elements k.now in let P = polys_over F in
        (i : ℕ) → i < length rows.old → entry_at F (rows_of rows.new) i ≡
        P.add (entry_at F (rows_of rows.old) i)
        (P.mul (monomial F.ring (F.value c) at) (unit_at P j i)) }
{
    let _length = n;
    add_at(k, &mut rows[j], at, c);
}

/// Takes the multiple of a power that has the coefficient c of `z^d * b_l`.
fn take<K: FiniteField<E = u32>>(
    k: &K,
    s: &System,
    p: &PowerBasis,
    rows: &mut Rows,
    n: usize,
    l: usize,
    d: usize,
    c: u32,
)
    requires p { IsPowerBasis (K.elements k.now) s.now p.now }
    requires rows { AreTaken (K.elements k.now) s.now p.now n rows.old }
    requires l { l < s.now.e }
    requires d { d < n }
    requires c { IsElement (K.elements k.now) c }
    ensures form { AreTaken (K.elements k.now) s.now p.now n rows.new }
    ensures exact { let F = K.elements k.now in
        (w : (ring_in F s.now).carrier) (b : PowersOf F s.now w p.now) →
        length s.now.weights ≡ s.now.e → number_at p.now.limits.items l ≤ d →
        F.value c ≡ coefficient_in F s.now (rows_of rows.old.rest.items) l d →
        (t : ℕ) → t ≡ s.now.e * d + weight_at s.now l →
        SplitsDown F s.now b (suc t) t rows.old rows.new }
{
    let _system = s;
    let j = p.exponents[l];
    let at = d.saturating_sub(p.limits[l]);
    let factor = k.mul(c, p.inverses[j]);
    add_factor(k, &mut rows.quotient, j, at, factor, n);
    add_multiple(
        k,
        &mut rows.rest,
        k.neg(factor),
        at,
        p.list[j].rows(),
        n + p.width,
    );
}

/// Takes the multiple of a power that has the coefficient of `z^d * b_l`, where its level is that
/// of one; nothing changes otherwise.
fn take_at<K: FiniteField<E = u32>>(
    k: &K,
    s: &System,
    p: &PowerBasis,
    rows: &mut Rows,
    n: usize,
    l: usize,
    d: usize,
)
    requires p { IsPowerBasis (K.elements k.now) s.now p.now }
    requires rows { AreTaken (K.elements k.now) s.now p.now n rows.old }
    requires l { l < s.now.e }
    requires d { d < n }
    ensures form { AreTaken (K.elements k.now) s.now p.now n rows.new }
    ensures exact { let F = K.elements k.now in
        (w : (ring_in F s.now).carrier) (b : PowersOf F s.now w p.now) →
        length s.now.weights ≡ s.now.e →
        (t : ℕ) → t ≡ s.now.e * d + weight_at s.now l →
        SplitsDown F s.now b (suc t) t rows.old rows.new }
{
    if d < p.limits[l] {
        return;
    }
    let c = rows.rest[l][d];
    if is_zero(k, c) {
        return;
    }
    take(k, s, p, rows, n, l, d, c);
}

/// Takes the multiple at the level t, below `n` coefficients.
fn take_level<K: FiniteField<E = u32>>(
    k: &K,
    s: &System,
    p: &PowerBasis,
    rows: &mut Rows,
    n: usize,
    t: u64,
)
    requires table { HasTable (K.elements k.now) s.now }
    requires p { IsPowerBasis (K.elements k.now) s.now p.now }
    requires rows { AreTaken (K.elements k.now) s.now p.now n rows.old }
    ensures form { AreTaken (K.elements k.now) s.now p.now n rows.new }
    ensures exact { let F = K.elements k.now in t < s.now.e * n →
        (w : (ring_in F s.now).carrier) (b : PowersOf F s.now w p.now) →
        SplitsDown F s.now b (suc t) t rows.old rows.new }
{
    let l = (t % s.e as u64) as usize;
    let m = weight_of(s, l) as u64;
    if t < m {
        return;
    }
    let d = (t - m) / s.e as u64;
    if d >= n as u64 {
        return;
    }
    take_at(k, s, p, rows, n, l, d as usize);
}

/// Takes the multiples at all levels up to `bound`, from it down.
fn take_all<K: FiniteField<E = u32>>(
    k: &K,
    s: &System,
    p: &PowerBasis,
    rows: &mut Rows,
    n: usize,
    bound: u64,
)
    requires table { HasTable (K.elements k.now) s.now }
    requires p { IsPowerBasis (K.elements k.now) s.now p.now }
    requires rows { AreTaken (K.elements k.now) s.now p.now n rows.old }
    ensures form { AreTaken (K.elements k.now) s.now p.now n rows.new }
    ensures exact { let F = K.elements k.now in bound < s.now.e * n →
        (w : (ring_in F s.now).carrier) (b : PowersOf F s.now w p.now) →
        SplitsDown F s.now b (suc bound) 0 rows.old rows.new }
{
    let mut t = bound;
    while t > 0 {
        take_level(k, s, p, rows, n, t);
        t -= 1;
    }
    take_level(k, s, p, rows, n, 0);
}

/// The polynomials of rows of coefficients.
fn polys<K: FiniteField<E = u32>>(
    alloc: Global,
    k: &K,
    rows: &[Vec<u32>],
    n: usize,
) -> Result<PolyList, NoMemory>
    requires { AreVectors (K.elements k.now) n rows.now }
    ensures count { IfOk result (λ r. length r ≡ length rows.now) }
    ensures each { IfOk result (ArePolys (K.elements k.now)) }
    ensures value { let F = K.elements k.now in
        IfOk result (λ r. (l : ℕ) → l < length rows.now →
        entry_at F r l ≡ entry_at F (rows_of rows.now) l) }
{
    let _length = n;
    let mut items = Vec::with_capacity(alloc, rows.len())?;
    for i in 0..rows.len() {
        items.push(Poly::from_coeffs(alloc, k, &rows[i])?)?;
    }
    Ok(PolyList { items })
}

/// A sum of two lengths; `NoMemory` where it passes usize.
fn room_for(a: usize, b: usize) -> Result<usize, NoMemory>
    ensures { IfOk result (λ n. n ≡ a + b) }
{
    match a.checked_add(b) {
        Some(n) => Ok(n),
        None => Err(NoMemory),
    }
}

/// The rows of an element, of which nothing was taken.
fn rows_of<K: FiniteField<E = u32>>(
    alloc: Global,
    k: &K,
    s: &System,
    p: &PowerBasis,
    c: &[Poly],
    n: usize,
) -> Result<Rows, NoMemory>
    requires c { AreCoords (K.elements k.now) s.now c.now }
    ensures form { IfOk result (AreTaken (K.elements k.now) s.now p.now n) }
    ensures rest { let F = K.elements k.now in IfOk result (λ r. x_size c.now ≤ n →
        (l : ℕ) → l < s.now.e → entry_at F (rows_of r.rest.items) l ≡ entry_at F c.now l) }
    ensures quotient { let F = K.elements k.now in let P = polys_over F in IfOk result (λ r.
        (l : ℕ) → l < s.now.e → entry_at F (rows_of r.quotient.items) l ≡ P.zero) }
{
    let room = room_for(n, p.width)?;
    let rest = padded_rows(alloc, k, s.e as usize, c, room)?;
    let quotient = padded_rows(alloc, k, s.e as usize, &[], n)?;
    Ok(Rows { rest, quotient })
}

/// What was taken, and what is left.
fn parts_of<K: FiniteField<E = u32>>(
    alloc: Global,
    k: &K,
    s: &System,
    p: &PowerBasis,
    rows: &Rows,
    n: usize,
) -> Result<Reduced, NoMemory>
    requires rows { AreTaken (K.elements k.now) s.now p.now n rows.now }
    ensures form { IfOk result (IsReduced (K.elements k.now) s.now) }
    ensures exact { let F = K.elements k.now in length s.now.weights ≡ s.now.e →
        (w : (ring_in F s.now).carrier) (b : PowersOf F s.now w p.now) →
        IfOk result (λ r. (a : (ring_in F s.now).carrier) (t : ℕ) →
        IsSplitBy F s.now b a t rows.now → IsSplit F s.now b a t r.quotient r.rest) }
{
    let _system = s;
    let quotient = polys(alloc, k, &rows.quotient, n)?;
    let rest = polys(alloc, k, &rows.rest, n + p.width)?;
    Ok(Reduced { quotient, rest })
}

/// The greatest weight of a term of coordinates, and 0 for none; `NoMemory` where it passes u64,
/// since there is no room for the multiples of powers at so many levels.
fn greatest_weight(s: &System, c: &[Poly]) -> Result<u64, NoMemory>
    requires { length c.now ≤ length s.now.weights }
    ensures { IfOk result (λ n. IsWithinWeight s.now n c.now) }
{
    match top(s, c) {
        Some(term) => {
            if term.weight <= u64::MAX as u128 {
                Ok(term.weight as u64)
            } else {
                Err(NoMemory)
            }
        },
        None => Ok(0),
    }
}

/// The coordinates of an element less the multiples of powers at all of their levels.
pub fn reduce<K: FiniteField<E = u32>>(
    alloc: Global,
    k: &K,
    s: &System,
    p: &PowerBasis,
    c: &[Poly],
) -> Result<Reduced, NoMemory>
    requires table { HasTable (K.elements k.now) s.now }
    requires p { IsPowerBasis (K.elements k.now) s.now p.now }
    requires c { AreCoords (K.elements k.now) s.now c.now }
    ensures form { IfOk result (IsReduced (K.elements k.now) s.now) }
    ensures exact { let F = K.elements k.now in
        (w : (ring_in F s.now).carrier) (b : PowersOf F s.now w p.now) →
        IfOk result (λ r. IsSplit F s.now b (element_in F s.now c.now) 0 r.quotient r.rest) }
{
    let bound = greatest_weight(s, c)?;
    let n = room_for((bound / s.e as u64) as usize, 1)?;
    let mut rows = rows_of(alloc, k, s, p, c, n)?;
    take_all(k, s, p, &mut rows, n, bound);
    parts_of(alloc, k, s, p, &rows, n)
}
