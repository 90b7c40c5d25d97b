// The candidates that the roots of the relation give.
ghost use Rattle.std.specs.Prelude.{◌≡◌, ◌<◌, length, IfOk, IfSome};
ghost use Rattle.std.specs.List.{All};
ghost use Rattle.ff_theory.specs.Ring.{IsElement};
ghost use Rattle.ff_theory.specs.Values.{IsPoly};
ghost use Rattle.ff_elem.specs.Elem.{IsElem};
ghost use Rattle.ff_data.specs.Pairs.{IsPair};
ghost use Rattle.ff_data.specs.Systems.{HasForm, AreCoords, AreOverMonic};
ghost use Rattle.ff_ring.specs.Ring.{HasTable, AreCoordsList};
ghost use Rattle.ff_forms.specs.Forms.{AreAlike, HasRelationForm, HasCandidateForm};
ghost use Rattle.ff_match.specs.Candidates.{IsMap, AreParts, IsCandidateOf, AreCandidatesOf};

use crate::checks::is_map;
use crate::images::images;
use crate::list::CandidateList;
use ff_alg::{FiniteField, NoMemory};
use ff_data::{Candidate, Coords, Pair, PolyLists, Relation, System};
use ff_elem::{Alg, Elem, PolyList};
use ff_poly::Poly;
use ff_ring::{affine, fraction, sum_at};
use std::alloc::Global;

/// The image of the sum with the coefficients c, over q; None where q has no inverse.
fn value_over<K: FiniteField<E = u32>>(
    alloc: Global,
    alg2: &Alg<K>,
    s1: &System,
    s2: &System,
    r: &Relation,
    alpha: u32,
    beta: u32,
    images: &[PolyList],
    c: &[Poly],
    q: &Poly,
) -> Result<Option<Elem>, NoMemory>
    requires parts { AreParts (K.elements alg2.now.k) s1.now s2.now r.now alpha beta }
    requires form { HasForm (K.lawful alg2.now.k) alg2.now.f s2.now }
    requires images { AreCoordsList (K.elements alg2.now.k) s2.now s2.now.e images.now }
    requires c { AreCoords (K.elements alg2.now.k) s1.now c.now }
    requires q { IsPoly (K.elements alg2.now.k) q.now }
    ensures { IfOk result (λ o. IfSome o (IsElem (K.lawful alg2.now.k) alg2.now.f)) }
{
    let _first = s1;
    let _relation = r;
    let sum = sum_at(alloc, &alg2.k, s2.e as usize, c, alpha, beta, images)?;
    fraction(alloc, alg2, s2, q, &sum)
}

/// The image of the element that coordinates of the first system write; None where q at
/// `alpha*z + beta` has no inverse.
fn value<K: FiniteField<E = u32>>(
    alloc: Global,
    alg2: &Alg<K>,
    s1: &System,
    s2: &System,
    r: &Relation,
    alpha: u32,
    beta: u32,
    images: &[PolyList],
    c: &Coords,
) -> Result<Option<Elem>, NoMemory>
    requires parts { AreParts (K.elements alg2.now.k) s1.now s2.now r.now alpha beta }
    requires form { HasForm (K.lawful alg2.now.k) alg2.now.f s2.now }
    requires images { AreCoordsList (K.elements alg2.now.k) s2.now s2.now.e images.now }
    requires c { AreOverMonic (K.elements alg2.now.k) s1.now c.now }
    ensures { IfOk result (λ o. IfSome o (IsElem (K.lawful alg2.now.k) alg2.now.f)) }
{
    let q = affine(alloc, &alg2.k, &c.q, alpha, beta)?;
    value_over(alloc, alg2, s1, s2, r, alpha, beta, images, c.c.rows(), &q)
}

/// The images of x, which is given, and y; None where y has none.
fn pair_with<K: FiniteField<E = u32>>(
    alloc: Global,
    alg2: &Alg<K>,
    s1: &System,
    s2: &System,
    r: &Relation,
    alpha: u32,
    beta: u32,
    images: &[PolyList],
    x: Elem,
) -> Result<Option<Pair>, NoMemory>
    requires parts { AreParts (K.elements alg2.now.k) s1.now s2.now r.now alpha beta }
    requires form { HasForm (K.lawful alg2.now.k) alg2.now.f s2.now }
    requires images { AreCoordsList (K.elements alg2.now.k) s2.now s2.now.e images.now }
    requires x { IsElem (K.lawful alg2.now.k) alg2.now.f x }
    ensures { IfOk result (λ o. IfSome o (IsPair (K.lawful alg2.now.k) alg2.now.f)) }
{
    match value(alloc, alg2, s1, s2, r, alpha, beta, images, &s1.y)? {
        Some(y) => Ok(Some(Pair { x, y })),
        None => Ok(None),
    }
}

/// The images of x and y; None where one has none.
fn pair<K: FiniteField<E = u32>>(
    alloc: Global,
    alg2: &Alg<K>,
    s1: &System,
    s2: &System,
    r: &Relation,
    alpha: u32,
    beta: u32,
    images: &[PolyList],
) -> Result<Option<Pair>, NoMemory>
    requires parts { AreParts (K.elements alg2.now.k) s1.now s2.now r.now alpha beta }
    requires form { HasForm (K.lawful alg2.now.k) alg2.now.f s2.now }
    requires images { AreCoordsList (K.elements alg2.now.k) s2.now s2.now.e images.now }
    ensures { IfOk result (λ o. IfSome o (IsPair (K.lawful alg2.now.k) alg2.now.f)) }
{
    match value(alloc, alg2, s1, s2, r, alpha, beta, images, &s1.x)? {
        Some(x) => pair_with(alloc, alg2, s1, s2, r, alpha, beta, images, x),
        None => Ok(None),
    }
}

/// The candidate of a root with these images, which are those of a map; None where x or y has no
/// image.
fn with_pair<K: FiniteField<E = u32>>(
    alloc: Global,
    alg2: &Alg<K>,
    s1: &System,
    s2: &System,
    r: &Relation,
    alpha: u32,
    beta: u32,
    root: &[Poly],
    images: Vec<PolyList>,
) -> Result<Option<Candidate>, NoMemory>
    requires parts { AreParts (K.elements alg2.now.k) s1.now s2.now r.now alpha beta }
    requires form { HasForm (K.lawful alg2.now.k) alg2.now.f s2.now }
    requires images { AreCoordsList (K.elements alg2.now.k) s2.now s2.now.e images.items }
    requires map { let F = K.elements alg2.now.k in
        IsMap F s1.now s2.now r.now alpha beta root.now images.items }
    ensures { let L = K.lawful alg2.now.k in let g = alg2.now.f in
        IfOk result (λ o. IfSome o
        (IsCandidateOf L g s1.now s2.now r.now alpha beta root.now)) }
{
    let _root = root;
    match pair(alloc, alg2, s1, s2, r, alpha, beta, &images)? {
        Some(pair) => Ok(Some(Candidate {
            alpha,
            beta,
            images: PolyLists { items: images },
            pair,
        })),
        None => Ok(None),
    }
}

/// The candidate of a root with these images; None where a check fails.
fn checked<K: FiniteField<E = u32>>(
    alloc: Global,
    alg2: &Alg<K>,
    s1: &System,
    s2: &System,
    r: &Relation,
    alpha: u32,
    beta: u32,
    root: &[Poly],
    images: Vec<PolyList>,
) -> Result<Option<Candidate>, NoMemory>
    requires parts { AreParts (K.elements alg2.now.k) s1.now s2.now r.now alpha beta }
    requires form { HasForm (K.lawful alg2.now.k) alg2.now.f s2.now }
    requires images { AreCoordsList (K.elements alg2.now.k) s2.now s2.now.e images.items }
    ensures { let L = K.lawful alg2.now.k in let g = alg2.now.f in
        IfOk result (λ o. IfSome o
        (IsCandidateOf L g s1.now s2.now r.now alpha beta root.now)) }
{
    if !is_map(alloc, &alg2.k, s1, s2, r, alpha, beta, root, &images)? {
        return Ok(None);
    }
    with_pair(alloc, alg2, s1, s2, r, alpha, beta, root, images)
}

/// The candidate of a root; None where a check fails.
fn candidate<K: FiniteField<E = u32>>(
    alloc: Global,
    alg2: &Alg<K>,
    s1: &System,
    s2: &System,
    r: &Relation,
    alpha: u32,
    beta: u32,
    root: &[Poly],
) -> Result<Option<Candidate>, NoMemory>
    requires parts { AreParts (K.elements alg2.now.k) s1.now s2.now r.now alpha beta }
    requires form { HasForm (K.lawful alg2.now.k) alg2.now.f s2.now }
    requires root { AreCoords (K.elements alg2.now.k) s2.now root.now }
    ensures { let L = K.lawful alg2.now.k in let g = alg2.now.f in
        IfOk result (λ o. IfSome o
        (IsCandidateOf L g s1.now s2.now r.now alpha beta root.now)) }
{
    match images(alloc, &alg2.k, s1, s2, r, alpha, beta, root)? {
        Some(images) => checked(alloc, alg2, s1, s2, r, alpha, beta, root, images),
        None => Ok(None),
    }
}

/// The candidates of the roots.
fn all_candidates<K: FiniteField<E = u32>>(
    alloc: Global,
    alg2: &Alg<K>,
    s1: &System,
    s2: &System,
    r: &Relation,
    alpha: u32,
    beta: u32,
    roots: &[PolyList],
) -> Result<Vec<Candidate>, NoMemory>
    requires parts { AreParts (K.elements alg2.now.k) s1.now s2.now r.now alpha beta }
    requires form { HasForm (K.lawful alg2.now.k) alg2.now.f s2.now }
    requires roots { All (AreCoords (K.elements alg2.now.k) s2.now) roots.now }
    ensures { let L = K.lawful alg2.now.k in let g = alg2.now.f in
        IfOk result (λ v.
        AreCandidatesOf L g s1.now s2.now r.now alpha beta roots.now v.items) }
{
    let mut items = Vec::new(alloc);
    for i in 0..roots.len() {
        match candidate(alloc, alg2, s1, s2, r, alpha, beta, roots[i].rows())? {
            Some(candidate) => items.push(candidate)?,
            None => (),
        }
    }
    Ok(items)
}

/// The candidates that roots give, in their order, for systems that are alike: the roots are those
/// of the relation r of s1 with `alpha*z + beta` for z, in the ring of s2. The image of each basis
/// element of s1 is the sum that writes it, with the root for w, divided by q. A root is left out
/// where a division is not exact, where the images are not those of a map that keeps 1, weights
/// and products and sends w to the root, or where a denominator of x or y has no inverse.
/// `NoMemory` is the only error. This project's own.
pub fn candidates<K: FiniteField<E = u32>>(
    alloc: Global,
    alg1: &Alg<K>,
    alg2: &Alg<K>,
    s1: &System,
    s2: &System,
    r: &Relation,
    alpha: u32,
    beta: u32,
    roots: &PolyLists,
) -> Result<CandidateList, NoMemory>
    requires field { alg1.now.k ≡ alg2.now.k }
    requires form1 { HasForm (K.lawful alg1.now.k) alg1.now.f s1.now }
    requires table1 { HasTable (K.elements alg1.now.k) s1.now }
    requires form2 { HasForm (K.lawful alg2.now.k) alg2.now.f s2.now }
    requires table2 { HasTable (K.elements alg2.now.k) s2.now }
    requires alike { AreAlike s1.now s2.now }
    requires relation { HasRelationForm (K.elements alg2.now.k) s1.now r.now }
    requires alpha { IsElement (K.elements alg2.now.k) alpha }
    requires nonzero { let F = K.elements alg2.now.k in ¬ (F.value alpha ≡ F.zero) }
    requires beta { IsElement (K.elements alg2.now.k) beta }
    requires roots { All (AreCoords (K.elements alg2.now.k) s2.now) roots.now }
    ensures forms { let L = K.lawful alg2.now.k in
        IfOk result (All (HasCandidateForm L alg2.now.f s2.now)) }
    ensures maps { let L = K.lawful alg2.now.k in let g = alg2.now.f in
        IfOk result (AreCandidatesOf L g s1.now s2.now r.now alpha beta roots.now) }
{
    let _first = alg1;
    Ok(CandidateList {
        items: all_candidates(alloc, alg2, s1, s2, r, alpha, beta, &roots.items)?,
    })
}
