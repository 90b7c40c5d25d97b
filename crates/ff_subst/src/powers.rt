// A pair (X, Y) ready to be substituted: the products of X with the powers of y, and the powers of
// Y, each list with one factor, modulo m.
ghost use Rattle.std.specs.Prelude.{◌≡◌, ◌+◌, ℕ, List, length, IfOk, []};
ghost use Rattle.std.specs.Prelude.{slice_index_or as get_or};
ghost use Rattle.ff_theory.specs.Ring.{power};
ghost use Rattle.ff_theory.specs.Values.{poly_of, IsPoly, plane_of, IsPlane, planes_over};
ghost use Rattle.ff_theory.specs.Planes.{row_of};
ghost use Rattle.ff_elem.specs.Elem.{algebra_in, elem_of, y_in, IsElem};
ghost use Rattle.ff_data.specs.declared.pair.Pair.{Pair};
ghost use Rattle.ff_data.specs.Pairs.{IsPair};
ghost use Rattle.ff_subst.specs.Congruence.{AreCongruent, IsModulus, ArePlanes};
ghost use Rattle.ff_theory.specs.Values.{ArePolys};
ghost use Rattle.ff_subst.specs.Columns.{plane_combination};
ghost use Rattle.ff_subst.specs.Residues.{IsReduced, AreReduced, IsResidue, AreResidues};
ghost use Rattle.ff_subst.specs.Powers.{AreMultiples, IsMatrix, IsSubstitution, IsReducedPair};
ghost use Rattle.ff_subst.specs.Powers.{AreReducedMultiples, AreNextMultiples};
ghost use Rattle.ff_subst.specs.Powers.{IsPowerResidues, ArePowerResidues};

use crate::modulo::{product, reduce};
use crate::residue::{Residue, ResidueList, append, empty, one, residue_of};
use ff_alg::{FiniteField, NoMemory};
use ff_data::Pair;
use ff_elem::{Alg, Elem};
use ff_poly::{Plane, Poly};
use std::alloc::Global;

// The sum with the product of row `j` of a list, if there is one, and a bivariate polynomial.
fn plus_product<K: FiniteField<E = u32>>(
    alloc: Global,
    k: &K,
    sum: Plane,
    rows: &[Poly],
    j: usize,
    plane: &Plane,
) -> Result<Plane, NoMemory>
    requires sum { IsPlane (K.elements k.now) sum }
    requires rows { ArePolys (K.elements k.now) rows.now }
    requires plane { IsPlane (K.elements k.now) plane.now }
    ensures plane { IfOk result (IsPlane (K.elements k.now)) }
    ensures value { let F = K.elements k.now in let P = planes_over F in
        IfOk result (λ r. plane_of F r ≡ P.add (plane_of F sum)
        (P.mul (row_of F.ring (poly_of F (get_or rows.now j []))) (plane_of F plane.now))) }
{
    if j >= rows.len() {
        return Ok(sum);
    }
    let term = plane.scale(alloc, k, &rows[j])?;
    sum.add(alloc, k, &term)
}

// The polynomial 0 in x and y.
pub fn zero_plane<K: FiniteField<E = u32>>(alloc: Global, k: &K) -> Plane
    ensures plane { IsPlane (K.elements k.now) result }
    ensures value { let F = K.elements k.now in let P = planes_over F in
        plane_of F result ≡ P.zero }
{
    Plane::from_vec(k, Vec::new(alloc))
}

// The sum of the products of the rows with the polynomials of the same index, modulo m.
fn dot<K: FiniteField<E = u32>>(
    alloc: Global,
    k: &K,
    m: &Poly,
    planes: &[Plane],
    rows: &[Poly],
) -> Result<Plane, NoMemory>
    requires m { IsModulus (K.elements k.now) m.now }
    requires planes { ArePlanes (K.elements k.now) planes.now }
    requires rows { ArePolys (K.elements k.now) rows.now }
    ensures plane { IfOk result (IsPlane (K.elements k.now)) }
    ensures congruent { let F = K.elements k.now in
        IfOk result (λ r. AreCongruent F m.now
        (plane_combination F.ring (length planes.now) (λ j. poly_of F (get_or rows.now j []))
        (λ j. plane_of F (get_or planes.now j []))) (plane_of F r)) }
{
    let mut sum = zero_plane(alloc, k);
    for j in 0..planes.len() {
        sum = plus_product(alloc, k, sum, rows, j, &planes[j])?;
    }
    reduce(alloc, k, m, sum.rows())
}

// The product of two elements, by the matrix of the first one.
pub fn apply<K: FiniteField<E = u32>>(
    alloc: Global,
    alg: &Alg<K>,
    m: &Poly,
    matrix: &ResidueList,
    r: &Residue,
) -> Result<Residue, NoMemory>
    requires m { IsModulus (K.elements alg.now.k) m.now }
    requires matrix { AreReduced (K.elements alg.now.k) matrix.now }
    requires r { IsReduced (K.elements alg.now.k) r.now }
    ensures reduced { IfOk result (IsReduced (K.elements alg.now.k)) }
    ensures residue { let L = K.lawful alg.now.k in let f = alg.now.f in
        let A = algebra_in L f in
        IfOk result (λ s. (u v : A.carrier) → IsMatrix L f m.now v matrix.now →
        IsResidue L f m.now u r.now → IsResidue L f m.now (A.mul v u) s) }
{
    let factor = product(alloc, &alg.k, m, &matrix.factor, &r.factor)?;
    let plane = dot(alloc, &alg.k, m, matrix.planes.list(), r.plane.rows())?;
    Ok(Residue { factor, plane })
}

// Products of an element with the powers of another one from 0 on, and the next product.
#[derive(Drop)]
struct Multiples {
    list: ResidueList,
    next: Residue,
}

// No products, and the first one as the next.
fn first_multiple<K: FiniteField<E = u32>>(
    alloc: Global,
    alg: &Alg<K>,
    first: &Residue,
) -> Result<Multiples, NoMemory>
    requires { IsReduced (K.elements alg.now.k) first.now }
    ensures reduced { IfOk result (AreReducedMultiples (K.elements alg.now.k)) }
    ensures count { IfOk result (λ r. length r.list.planes ≡ 0) }
    ensures multiples { let L = K.lawful alg.now.k in let f = alg.now.f in
        IfOk result (λ r. (m : List ℕ) (u v : (algebra_in L f).carrier) →
        IsResidue L f m u first.now → AreNextMultiples L f m u v r) }
{
    let list = empty(alloc, alg)?;
    let next = first.copy(alloc)?;
    Ok(Multiples { list, next })
}

// One product more, the other element being given by its matrix.
fn more_multiples<K: FiniteField<E = u32>>(
    alloc: Global,
    alg: &Alg<K>,
    m: &Poly,
    by: &ResidueList,
    at: &Multiples,
) -> Result<Multiples, NoMemory>
    requires m { IsModulus (K.elements alg.now.k) m.now }
    requires by { AreReduced (K.elements alg.now.k) by.now }
    requires at { AreReducedMultiples (K.elements alg.now.k) at.now }
    ensures reduced { IfOk result (AreReducedMultiples (K.elements alg.now.k)) }
    ensures count { IfOk result (λ r. length r.list.planes ≡ length at.now.list.planes + 1) }
    ensures multiples { let L = K.lawful alg.now.k in let f = alg.now.f in
        IfOk result (λ r. (u v : (algebra_in L f).carrier) → IsMatrix L f m.now v by.now →
        AreNextMultiples L f m.now u v at.now → AreNextMultiples L f m.now u v r) }
{
    let list = append(alloc, alg, m, &at.list, &at.next)?;
    let next = apply(alloc, alg, m, by, &at.next)?;
    Ok(Multiples { list, next })
}

// An element times the powers from 0 on, `count` of them, of another one that is given by its
// matrix.
fn powers<K: FiniteField<E = u32>>(
    alloc: Global,
    alg: &Alg<K>,
    m: &Poly,
    first: &Residue,
    by: &ResidueList,
    count: usize,
) -> Result<ResidueList, NoMemory>
    requires m { IsModulus (K.elements alg.now.k) m.now }
    requires first { IsReduced (K.elements alg.now.k) first.now }
    requires by { AreReduced (K.elements alg.now.k) by.now }
    ensures reduced { IfOk result (AreReduced (K.elements alg.now.k)) }
    ensures count { IfOk result (λ r. length r.planes ≡ count) }
    ensures powers { let L = K.lawful alg.now.k in let f = alg.now.f in
        let A = algebra_in L f in
        IfOk result (λ r. (u v : A.carrier) → IsResidue L f m.now u first.now →
        IsMatrix L f m.now v by.now → AreMultiples L f m.now u v r) }
{
    let mut at = first_multiple(alloc, alg, first)?;
    for _i in 0..count {
        at = more_multiples(alloc, alg, m, by, &at)?;
    }
    Ok(at.list)
}

// The list with the residue of one element more.
fn append_element<K: FiniteField<E = u32>>(
    alloc: Global,
    alg: &Alg<K>,
    m: &Poly,
    list: &ResidueList,
    e: &Elem,
) -> Result<ResidueList, NoMemory>
    requires m { IsModulus (K.elements alg.now.k) m.now }
    requires list { AreReduced (K.elements alg.now.k) list.now }
    requires e { IsElem (K.lawful alg.now.k) alg.now.f e.now }
    ensures reduced { IfOk result (AreReduced (K.elements alg.now.k)) }
    ensures count { IfOk result (λ r. length r.planes ≡ length list.now.planes + 1) }
    ensures residues { let L = K.lawful alg.now.k in let f = alg.now.f in
        let A = algebra_in L f in
        IfOk result (λ r. (u : ℕ → A.carrier) → AreResidues L f m.now u list.now →
        elem_of L f e.now ≡ u (length list.now.planes) → AreResidues L f m.now u r) }
{
    let last = residue_of(alloc, alg, m, e)?;
    append(alloc, alg, m, list, &last)
}

// Residues of the powers of an element from 1 on, and the next power itself.
#[derive(Drop)]
struct PowerResidues {
    list: ResidueList,
    next: Elem,
}

// No residues, and the element as the next power.
fn first_power<K: FiniteField<E = u32>>(
    alloc: Global,
    alg: &Alg<K>,
    e: &Elem,
) -> Result<PowerResidues, NoMemory>
    requires { IsElem (K.lawful alg.now.k) alg.now.f e.now }
    ensures reduced { let L = K.lawful alg.now.k in IfOk result (IsPowerResidues L alg.now.f) }
    ensures count { IfOk result (λ r. length r.list.planes ≡ 0) }
    ensures powers { let L = K.lawful alg.now.k in let f = alg.now.f in
        let u = elem_of L f e.now in
        IfOk result (λ r. (m : List ℕ) → ArePowerResidues L f m u r) }
{
    let list = empty(alloc, alg)?;
    let next = e.copy(alloc)?;
    Ok(PowerResidues { list, next })
}

// One power more.
fn more_powers<K: FiniteField<E = u32>>(
    alloc: Global,
    alg: &Alg<K>,
    m: &Poly,
    e: &Elem,
    at: &PowerResidues,
) -> Result<PowerResidues, NoMemory>
    requires m { IsModulus (K.elements alg.now.k) m.now }
    requires e { IsElem (K.lawful alg.now.k) alg.now.f e.now }
    requires at { IsPowerResidues (K.lawful alg.now.k) alg.now.f at.now }
    ensures reduced { let L = K.lawful alg.now.k in IfOk result (IsPowerResidues L alg.now.f) }
    ensures count { IfOk result (λ r. length r.list.planes ≡ length at.now.list.planes + 1) }
    ensures powers { let L = K.lawful alg.now.k in let f = alg.now.f in
        let u = elem_of L f e.now in IfOk result (λ r.
        ArePowerResidues L f m.now u at.now → ArePowerResidues L f m.now u r) }
{
    let list = append_element(alloc, alg, m, &at.list, &at.next)?;
    let next = alg.mul(alloc, e, &at.next)?;
    Ok(PowerResidues { list, next })
}

// The powers from 1 on, `count` of them, of an element.
fn powers_of<K: FiniteField<E = u32>>(
    alloc: Global,
    alg: &Alg<K>,
    m: &Poly,
    e: &Elem,
    count: usize,
) -> Result<ResidueList, NoMemory>
    requires m { IsModulus (K.elements alg.now.k) m.now }
    requires e { IsElem (K.lawful alg.now.k) alg.now.f e.now }
    ensures reduced { IfOk result (AreReduced (K.elements alg.now.k)) }
    ensures count { IfOk result (λ r. length r.planes ≡ count) }
    ensures powers { let L = K.lawful alg.now.k in let f = alg.now.f in
        let u = elem_of L f e.now in IfOk result (AreMultiples L f m.now u u) }
{
    let mut at = first_power(alloc, alg, e)?;
    for _i in 0..count {
        at = more_powers(alloc, alg, m, e, &at)?;
    }
    Ok(at.list)
}

// The matrix of y: the powers of y from 1 on, as many as the y-degree of the equation.
fn matrix_of_y<K: FiniteField<E = u32>>(
    alloc: Global,
    alg: &Alg<K>,
    m: &Poly,
) -> Result<ResidueList, NoMemory>
    requires m { IsModulus (K.elements alg.now.k) m.now }
    ensures reduced { IfOk result (AreReduced (K.elements alg.now.k)) }
    ensures matrix { let L = K.lawful alg.now.k in let f = alg.now.f in
        IfOk result (IsMatrix L f m.now (y_in L f)) }
{
    let y = alg.y(alloc)?;
    powers_of(alloc, alg, m, &y, alg.f.rows().len() - 1)
}

// The matrix of an element: its products with the powers of y.
pub fn matrix<K: FiniteField<E = u32>>(
    alloc: Global,
    alg: &Alg<K>,
    m: &Poly,
    by_y: &ResidueList,
    v: &Elem,
) -> Result<ResidueList, NoMemory>
    requires m { IsModulus (K.elements alg.now.k) m.now }
    requires by_y { AreReduced (K.elements alg.now.k) by_y.now }
    requires matrix { let L = K.lawful alg.now.k in let f = alg.now.f in
        IsMatrix L f m.now (y_in L f) by_y.now }
    requires v { IsElem (K.lawful alg.now.k) alg.now.f v.now }
    ensures reduced { IfOk result (AreReduced (K.elements alg.now.k)) }
    ensures matrix { let L = K.lawful alg.now.k in let f = alg.now.f in
        IfOk result (IsMatrix L f m.now (elem_of L f v.now)) }
{
    let first = residue_of(alloc, alg, m, v)?;
    powers(alloc, alg, m, &first, by_y, alg.f.rows().len() - 1)
}

// The powers from 0 on, `count` of them, of an element.
fn powers_by<K: FiniteField<E = u32>>(
    alloc: Global,
    alg: &Alg<K>,
    m: &Poly,
    by_y: &ResidueList,
    v: &Elem,
    count: usize,
) -> Result<ResidueList, NoMemory>
    requires m { IsModulus (K.elements alg.now.k) m.now }
    requires by_y { AreReduced (K.elements alg.now.k) by_y.now }
    requires matrix { let L = K.lawful alg.now.k in let f = alg.now.f in
        IsMatrix L f m.now (y_in L f) by_y.now }
    requires v { IsElem (K.lawful alg.now.k) alg.now.f v.now }
    ensures reduced { IfOk result (AreReduced (K.elements alg.now.k)) }
    ensures count { IfOk result (λ r. length r.planes ≡ count) }
    ensures powers { let L = K.lawful alg.now.k in let f = alg.now.f in
        IfOk result (AreMultiples L f m.now (algebra_in L f).one (elem_of L f v.now)) }
{
    let by = matrix(alloc, alg, m, by_y, v)?;
    let first = one(alloc, alg, m)?;
    powers(alloc, alg, m, &first, &by, count)
}

// A pair (X, Y) modulo m: the matrices of y and of X, and the powers of Y.
#[derive(Drop)]
pub struct Substitution {
    pub by_y: ResidueList,
    pub x: ResidueList,
    pub y: ResidueList,
}

// The pair with its powers of Y from 0 on, `count` of them, from the matrix of y.
fn prepare_by<K: FiniteField<E = u32>>(
    alloc: Global,
    alg: &Alg<K>,
    m: &Poly,
    by_y: ResidueList,
    pair: &Pair,
    count: usize,
) -> Result<Substitution, NoMemory>
    requires m { IsModulus (K.elements alg.now.k) m.now }
    requires by_y { AreReduced (K.elements alg.now.k) by_y }
    requires matrix { let L = K.lawful alg.now.k in let f = alg.now.f in
        IsMatrix L f m.now (y_in L f) by_y }
    requires pair { IsPair (K.lawful alg.now.k) alg.now.f pair.now }
    ensures reduced { IfOk result (IsReducedPair (K.elements alg.now.k)) }
    ensures count { IfOk result (λ r. length r.y.planes ≡ count) }
    ensures pair { let L = K.lawful alg.now.k in let f = alg.now.f in
        IfOk result (IsSubstitution L f m.now
        (elem_of L f pair.now.x) (elem_of L f pair.now.y)) }
{
    let x = matrix(alloc, alg, m, &by_y, &pair.x)?;
    let y = powers_by(alloc, alg, m, &by_y, &pair.y, count)?;
    Ok(Substitution { by_y, x, y })
}

// The pair with its powers of Y from 0 on, `count` of them.
pub fn prepare<K: FiniteField<E = u32>>(
    alloc: Global,
    alg: &Alg<K>,
    m: &Poly,
    pair: &Pair,
    count: usize,
) -> Result<Substitution, NoMemory>
    requires m { IsModulus (K.elements alg.now.k) m.now }
    requires pair { IsPair (K.lawful alg.now.k) alg.now.f pair.now }
    ensures reduced { IfOk result (IsReducedPair (K.elements alg.now.k)) }
    ensures count { IfOk result (λ r. length r.y.planes ≡ count) }
    ensures pair { let L = K.lawful alg.now.k in let f = alg.now.f in
        IfOk result (IsSubstitution L f m.now
        (elem_of L f pair.now.x) (elem_of L f pair.now.y)) }
{
    let by_y = matrix_of_y(alloc, alg, m)?;
    prepare_by(alloc, alg, m, by_y, pair, count)
}
