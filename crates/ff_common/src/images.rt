// The residues at infinity of elements that are given by numerators over one denominator.
ghost use Rattle.std.specs.Prelude.{◌≡◌, ℕ, ◌*◌, ◌<◌, ◌≤◌, [], length, get_or, IfOk};
ghost use Rattle.std.specs.List.{All};
ghost use Rattle.std.specs.Global.{Vec};
ghost use Rattle.ff_theory.specs.Monomial.{variable};
ghost use Rattle.ff_theory.specs.Values.{poly_of, IsPoly, polys_over, ArePolys, x_size};
ghost use Rattle.ff_theory.specs.Vector.{vector_of, vectors_of, IsVector};
ghost use Rattle.ff_lin.specs.Space.{rows_of, AreVectors};
ghost use Rattle.ff_data.specs.Orders.{y_degree, slope_of};
ghost use Rattle.ff_common.specs.Common.{AreQuotients, AreQuotientLists, AreRowsWithin};
ghost use Rattle.ff_common.specs.Common.{IsReversed, AreReversed, AreImages};

use ff_alg::{FiniteField, NoMemory};
use ff_data::{equation_at_infinity, raise, raised_quotients, reversals};
use ff_elem::Alg;
use ff_lattice::{plane_of_vector, vector_of_plane};
use ff_poly::rows::width;
use ff_poly::{Plane, Poly};
use std::alloc::Global;

/// The slope: y'/x^e is integral at infinity for the slope e and for no lower e. `NoMemory` is the
/// only error.
pub fn slope_at_infinity<K: FiniteField<E = u32>>(
    alloc: Global,
    alg: &Alg<K>,
) -> Result<u32, NoMemory>
    ensures { let L = K.lawful alg.now.k in IfOk result (λ e. e ≡ slope_of L alg.now.f) }
{
    let (slope, _equation) = equation_at_infinity(alloc, alg)?;
    Ok(slope)
}

/// For each row of the plane with the vector v, the quotient of the row times x^(i * e) by `by`,
/// with i its index and e the slope. `NoMemory` is the only error.
pub fn quotient_rows<K: FiniteField<E = u32>>(
    alloc: Global,
    alg: &Alg<K>,
    e: u32,
    by: &Poly,
    l: usize,
    v: &[u32],
) -> Result<Vec<Poly>, NoMemory>
    requires slope { e ≡ slope_of (K.lawful alg.now.k) alg.now.f }
    requires by { IsPoly (K.elements alg.now.k) by.now }
    requires nonzero { 0 < length by.now }
    requires vector { let L = K.lawful alg.now.k in
        IsVector (K.elements alg.now.k) (y_degree L alg.now.f * l) v.now }
    ensures { let F = K.elements alg.now.k in let L = K.lawful alg.now.k in let f = alg.now.f in
        IfOk result (λ r. AreQuotients L f (poly_of F by.now) l (vector_of F v.now) r.items) }
{
    let plane = plane_of_vector(alloc, &alg.k, v, alg.f.rows().len() - 1, l)?;
    raised_quotients(alloc, &alg.k, plane.rows(), 0, e, by)
}

/// The quotients at infinity of the planes with the vectors, by `by`.
fn quotients_of<K: FiniteField<E = u32>>(
    alloc: Global,
    alg: &Alg<K>,
    by: &Poly,
    l: usize,
    vectors: &[Vec<u32>],
) -> Result<Vec<Vec<Poly>>, NoMemory>
    requires by { IsPoly (K.elements alg.now.k) by.now }
    requires nonzero { 0 < length by.now }
    requires vectors { let L = K.lawful alg.now.k in let f = alg.now.f in
        AreVectors (K.elements alg.now.k) (y_degree L f * l) vectors.now }
    ensures { let F = K.elements alg.now.k in let L = K.lawful alg.now.k in let f = alg.now.f in
        IfOk result (λ r. AreQuotientLists L f (poly_of F by.now) l (rows_of vectors.now)
        r.items) }
{
    let e = slope_at_infinity(alloc, alg)?;
    let mut lists = Vec::with_capacity(alloc, vectors.len())?;
    for v in vectors {
        lists.push(quotient_rows(alloc, alg, e, by, l, v)?)?;
    }
    Ok(lists)
}

/// The quotients at infinity of the planes with the vectors, over d: those by x * d.
fn quotient_lists<K: FiniteField<E = u32>>(
    alloc: Global,
    alg: &Alg<K>,
    d: &Poly,
    l: usize,
    vectors: &[Vec<u32>],
) -> Result<Vec<Vec<Poly>>, NoMemory>
    requires d { IsPoly (K.elements alg.now.k) d.now }
    requires nonzero { 0 < length d.now }
    requires vectors { let L = K.lawful alg.now.k in let f = alg.now.f in
        AreVectors (K.elements alg.now.k) (y_degree L f * l) vectors.now }
    ensures { let F = K.elements alg.now.k in let L = K.lawful alg.now.k in let f = alg.now.f in
        let by = (polys_over F).mul (variable F.ring) (poly_of F d.now) in
        IfOk result (λ r. AreQuotientLists L f by l (rows_of vectors.now) r.items) }
{
    let by = raise(alloc, &alg.k, d, 1)?;
    quotients_of(alloc, alg, &by, l, vectors)
}

/// The greatest number of coefficients of a row, and at least a number.
fn widest(lists: &[Vec<Poly>], least: usize) -> usize
    ensures least { least ≤ result }
    ensures wide { All (λ v. x_size v.items ≤ result) lists.now }
{
    let mut h = least;
    for rows in lists {
        h = h.max(width(rows));
    }
    h
}

/// The vector of the reversals up to t^(h - 1) of the rows. `NoMemory` is the only error.
pub fn reversed_vector<K: FiniteField<E = u32>>(
    alloc: Global,
    alg: &Alg<K>,
    rows: &[Poly],
    h: usize,
) -> Result<Vec<u32>, NoMemory>
    requires rows { let L = K.lawful alg.now.k in
        AreRowsWithin (K.elements alg.now.k) (y_degree L alg.now.f) rows.now }
    requires positive { 0 < h }
    ensures vector { let L = K.lawful alg.now.k in
        IfOk result (λ r. IsVector (K.elements alg.now.k) (y_degree L alg.now.f * h) r.items) }
    ensures value { let F = K.elements alg.now.k in
        IfOk result (λ r. IsReversed F h rows.now (vector_of F r.items)) }
{
    let plane = Plane::from_vec(&alg.k, reversals(alloc, &alg.k, rows, h - 1)?);
    vector_of_plane(alloc, &alg.k, &plane, alg.f.rows().len() - 1, h)
}

/// The vectors of the reversals up to t^(h - 1).
fn reversed_vectors<K: FiniteField<E = u32>>(
    alloc: Global,
    alg: &Alg<K>,
    lists: &[Vec<Poly>],
    h: usize,
) -> Result<Vec<Vec<u32>>, NoMemory>
    requires lists { let F = K.elements alg.now.k in let L = K.lawful alg.now.k in
        let f = alg.now.f in All (λ v. AreRowsWithin F (y_degree L f) v.items) lists.now }
    requires positive { 0 < h }
    ensures len { IfOk result (λ r. length r.items ≡ length lists.now) }
    ensures vectors { let L = K.lawful alg.now.k in
        IfOk result (λ r. AreVectors (K.elements alg.now.k) (y_degree L alg.now.f * h) r.items) }
    ensures value { let F = K.elements alg.now.k in
        IfOk result (λ r. AreReversed F h lists.now (rows_of r.items)) }
{
    let mut vectors = Vec::with_capacity(alloc, lists.len())?;
    for rows in lists {
        vectors.push(reversed_vector(alloc, alg, rows, h)?)?;
    }
    Ok(vectors)
}

/// The vectors of the residues modulo t^h of t^h times the elements with the numerators, for an h
/// that is at least `least`.
pub(crate) fn images<K: FiniteField<E = u32>>(
    alloc: Global,
    alg: &Alg<K>,
    d: &Poly,
    l: usize,
    vectors: &[Vec<u32>],
    least: usize,
) -> Result<(usize, Vec<Vec<u32>>), NoMemory>
    requires d { IsPoly (K.elements alg.now.k) d.now }
    requires nonzero { 0 < length d.now }
    requires vectors { let L = K.lawful alg.now.k in let f = alg.now.f in
        AreVectors (K.elements alg.now.k) (y_degree L f * l) vectors.now }
    ensures positive { IfOk result (λ r. 0 < r.0) }
    ensures room { IfOk result (λ r. least ≤ r.0) }
    ensures len { IfOk result (λ r. length r.1.items ≡ length vectors.now) }
    ensures vectors { let L = K.lawful alg.now.k in let f = alg.now.f in
        IfOk result (λ r. AreVectors (K.elements alg.now.k) (y_degree L f * r.0) r.1.items) }
    ensures images { let L = K.lawful alg.now.k in let f = alg.now.f in IfOk result (λ r.
        AreImages L f d.now l r.0 (rows_of vectors.now) (rows_of r.1.items)) }
{
    let lists = quotient_lists(alloc, alg, d, l, vectors)?;
    let h = widest(&lists, least.max(1));
    let images = reversed_vectors(alloc, alg, &lists, h)?;
    Ok((h, images))
}
