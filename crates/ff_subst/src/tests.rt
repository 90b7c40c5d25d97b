// Tests modulo m of equations between values at a pair: a difference refutes the equation.
ghost use Rattle.std.specs.Prelude.{◌≡◌, ◌≤◌, ◌+◌, length, IfOk, IsTrue, []};
ghost use Rattle.ff_theory.specs.Lawful.{lawful_field};
ghost use Rattle.ff_theory.specs.Values.{poly_of, IsPoly, plane_of, IsPlane};
ghost use Rattle.ff_elem.specs.declared.elem.Elem.{Elem};
ghost use Rattle.ff_elem.specs.Elem.{algebra_in, elem_of, x_in, y_in, IsElem};
ghost use Rattle.ff_data.specs.declared.pair.Pair.{Pair};
ghost use Rattle.ff_data.specs.Pairs.{IsPair, Satisfies, Undoes};
ghost use Rattle.ff_data.specs.Substitution.{plane_at_pair};
ghost use Rattle.ff_subst.specs.Congruence.{IsModulus};
ghost use Rattle.ff_theory.specs.Values.{ArePolys};
ghost use Rattle.ff_subst.specs.Residues.{IsReduced, IsResidue};
ghost use Rattle.ff_subst.specs.Powers.{IsMatrix, IsSubstitution, IsReducedPair};
ghost use Rattle.ff_subst.specs.Inverse.{IsQuotientAt, IsSmallPart, IsSmallPair, IsOneSided};
ghost use Rattle.ff_subst.specs.Inverse.{polynomial_at};

use crate::evaluation::evaluate;
use crate::modulo::divides;
use crate::powers::{Substitution, apply, matrix, prepare};
use crate::residue::{Residue, combine};
use ff_alg::{FiniteField, NoMemory};
use ff_data::Pair;
use ff_elem::{Alg, Elem};
use ff_poly::{Plane, Poly};
use std::alloc::Global;
use std::slice;

// Whether two residues may be those of one element.
fn agree<K: FiniteField<E = u32>>(
    alloc: Global,
    alg: &Alg<K>,
    m: &Poly,
    a: &Residue,
    b: &Residue,
) -> Result<bool, NoMemory>
    requires m { IsModulus (K.elements alg.now.k) m.now }
    requires a { IsReduced (K.elements alg.now.k) a.now }
    requires b { IsReduced (K.elements alg.now.k) b.now }
    ensures { let L = K.lawful alg.now.k in let f = alg.now.f in
        IfOk result (λ r. (u : (algebra_in L f).carrier) → IsResidue L f m.now u a.now →
        IsResidue L f m.now u b.now → IsTrue r) }
{
    let minus = a.factor.neg(alloc, &alg.k)?;
    let difference = combine(alloc, &alg.k, &b.factor, &a.plane, &minus, &b.plane)?;
    divides(alloc, &alg.k, m, difference.rows())
}

// Whether the polynomial with these rows may be 0 at the pair.
fn vanishes<K: FiniteField<E = u32>>(
    alloc: Global,
    alg: &Alg<K>,
    m: &Poly,
    at: &Substitution,
    rows: &[Poly],
) -> Result<bool, NoMemory>
    requires m { IsModulus (K.elements alg.now.k) m.now }
    requires at { IsReducedPair (K.elements alg.now.k) at.now }
    requires rows { ArePolys (K.elements alg.now.k) rows.now }
    requires enough { length rows.now ≤ length at.now.y.planes }
    ensures { let F = K.elements alg.now.k in let L = K.lawful alg.now.k in
        let f = alg.now.f in let A = algebra_in L f in
        IfOk result (λ r. (X Y : A.carrier) → IsSubstitution L f m.now X Y at.now →
        plane_at_pair (lawful_field L) (plane_of F f) X Y (plane_of F rows.now) ≡ A.zero →
        IsTrue r) }
{
    let value = evaluate(alloc, alg, m, at, rows)?;
    divides(alloc, &alg.k, m, value.plane.rows())
}

// The product of an element and a residue.
fn multiply<K: FiniteField<E = u32>>(
    alloc: Global,
    alg: &Alg<K>,
    m: &Poly,
    at: &Substitution,
    v: &Elem,
    r: &Residue,
) -> Result<Residue, NoMemory>
    requires m { IsModulus (K.elements alg.now.k) m.now }
    requires at { IsReducedPair (K.elements alg.now.k) at.now }
    requires matrix { let L = K.lawful alg.now.k in let f = alg.now.f in
        IsMatrix L f m.now (y_in L f) at.now.by_y }
    requires v { IsElem (K.lawful alg.now.k) alg.now.f v.now }
    requires r { IsReduced (K.elements alg.now.k) r.now }
    ensures reduced { IfOk result (IsReduced (K.elements alg.now.k)) }
    ensures residue { let L = K.lawful alg.now.k in let f = alg.now.f in
        let A = algebra_in L f in
        IfOk result (λ s. (u : A.carrier) → IsResidue L f m.now u r.now →
        IsResidue L f m.now (A.mul (elem_of L f v.now) u) s) }
{
    let by = matrix(alloc, alg, m, &at.by_y, v)?;
    apply(alloc, alg, m, &by, r)
}

// The product of an element and a polynomial in x at the pair.
fn multiply_value<K: FiniteField<E = u32>>(
    alloc: Global,
    alg: &Alg<K>,
    m: &Poly,
    at: &Substitution,
    v: &Elem,
    p: &Poly,
) -> Result<Residue, NoMemory>
    requires m { IsModulus (K.elements alg.now.k) m.now }
    requires at { IsReducedPair (K.elements alg.now.k) at.now }
    requires matrix { let L = K.lawful alg.now.k in let f = alg.now.f in
        IsMatrix L f m.now (y_in L f) at.now.by_y }
    requires v { IsElem (K.lawful alg.now.k) alg.now.f v.now }
    requires p { IsPoly (K.elements alg.now.k) p.now }
    requires some { 1 ≤ length at.now.y.planes }
    ensures reduced { IfOk result (IsReduced (K.elements alg.now.k)) }
    ensures residue { let L = K.lawful alg.now.k in let f = alg.now.f in
        let A = algebra_in L f in
        IfOk result (λ r. (X Y : A.carrier) → IsSubstitution L f m.now X Y at.now →
        IsResidue L f m.now (A.mul (elem_of L f v.now) (polynomial_at L f X p.now)) r) }
{
    let value = evaluate(alloc, alg, m, at, slice::from_ref(p))?;
    multiply(alloc, alg, m, at, v, &value)
}

// Whether a residue may be that of the polynomial with these rows at the pair.
fn may_equal<K: FiniteField<E = u32>>(
    alloc: Global,
    alg: &Alg<K>,
    m: &Poly,
    at: &Substitution,
    r: &Residue,
    rows: &[Poly],
) -> Result<bool, NoMemory>
    requires m { IsModulus (K.elements alg.now.k) m.now }
    requires at { IsReducedPair (K.elements alg.now.k) at.now }
    requires r { IsReduced (K.elements alg.now.k) r.now }
    requires rows { ArePolys (K.elements alg.now.k) rows.now }
    requires enough { length rows.now ≤ length at.now.y.planes }
    ensures { let F = K.elements alg.now.k in let L = K.lawful alg.now.k in
        let f = alg.now.f in
        IfOk result (λ b. (X Y : (algebra_in L f).carrier) → IsSubstitution L f m.now X Y at.now →
        IsResidue L f m.now
        (plane_at_pair (lawful_field L) (plane_of F f) X Y (plane_of F rows.now)) r.now →
        IsTrue b) }
{
    let value = evaluate(alloc, alg, m, at, rows)?;
    agree(alloc, alg, m, r, &value)
}

// Whether the numerator of s at the pair may be v times its denominator there.
fn takes<K: FiniteField<E = u32>>(
    alloc: Global,
    alg: &Alg<K>,
    m: &Poly,
    at: &Substitution,
    s: &Elem,
    v: &Elem,
) -> Result<bool, NoMemory>
    requires m { IsModulus (K.elements alg.now.k) m.now }
    requires at { IsReducedPair (K.elements alg.now.k) at.now }
    requires matrix { let L = K.lawful alg.now.k in let f = alg.now.f in
        IsMatrix L f m.now (y_in L f) at.now.by_y }
    requires s { IsSmallPart (K.elements alg.now.k) (length at.now.y.planes) s.now }
    requires v { IsElem (K.lawful alg.now.k) alg.now.f v.now }
    ensures { let L = K.lawful alg.now.k in let f = alg.now.f in
        IfOk result (λ r. (X Y : (algebra_in L f).carrier) → IsSubstitution L f m.now X Y at.now →
        IsQuotientAt L f s.now X Y (elem_of L f v.now) → IsTrue r) }
{
    let product = multiply_value(alloc, alg, m, at, v, &s.den)?;
    may_equal(alloc, alg, m, at, &product, s.num.rows())
}

// Whether the numerator of s at the pair may be x times its denominator there.
fn takes_x<K: FiniteField<E = u32>>(
    alloc: Global,
    alg: &Alg<K>,
    m: &Poly,
    at: &Substitution,
    s: &Elem,
) -> Result<bool, NoMemory>
    requires m { IsModulus (K.elements alg.now.k) m.now }
    requires at { IsReducedPair (K.elements alg.now.k) at.now }
    requires matrix { let L = K.lawful alg.now.k in let f = alg.now.f in
        IsMatrix L f m.now (y_in L f) at.now.by_y }
    requires s { IsSmallPart (K.elements alg.now.k) (length at.now.y.planes) s.now }
    ensures { let L = K.lawful alg.now.k in let f = alg.now.f in
        IfOk result (λ r. (X Y : (algebra_in L f).carrier) → IsSubstitution L f m.now X Y at.now →
        IsQuotientAt L f s.now X Y (x_in L f) → IsTrue r) }
{
    let x = alg.x(alloc)?;
    takes(alloc, alg, m, at, s, &x)
}

// Whether the numerator of s at the pair may be y times its denominator there.
fn takes_y<K: FiniteField<E = u32>>(
    alloc: Global,
    alg: &Alg<K>,
    m: &Poly,
    at: &Substitution,
    s: &Elem,
) -> Result<bool, NoMemory>
    requires m { IsModulus (K.elements alg.now.k) m.now }
    requires at { IsReducedPair (K.elements alg.now.k) at.now }
    requires matrix { let L = K.lawful alg.now.k in let f = alg.now.f in
        IsMatrix L f m.now (y_in L f) at.now.by_y }
    requires s { IsSmallPart (K.elements alg.now.k) (length at.now.y.planes) s.now }
    ensures { let L = K.lawful alg.now.k in let f = alg.now.f in
        IfOk result (λ r. (X Y : (algebra_in L f).carrier) → IsSubstitution L f m.now X Y at.now →
        IsQuotientAt L f s.now X Y (y_in L f) → IsTrue r) }
{
    let y = alg.y(alloc)?;
    takes(alloc, alg, m, at, s, &y)
}

// Whether `back` may give x and y at the pair.
fn gives_variables<K: FiniteField<E = u32>>(
    alloc: Global,
    alg: &Alg<K>,
    m: &Poly,
    at: &Substitution,
    back: &Pair,
) -> Result<bool, NoMemory>
    requires m { IsModulus (K.elements alg.now.k) m.now }
    requires at { IsReducedPair (K.elements alg.now.k) at.now }
    requires matrix { let L = K.lawful alg.now.k in let f = alg.now.f in
        IsMatrix L f m.now (y_in L f) at.now.by_y }
    requires back { IsSmallPair (K.elements alg.now.k) (length at.now.y.planes) back.now }
    ensures { let L = K.lawful alg.now.k in let f = alg.now.f in
        IfOk result (λ r. (pair : Pair) →
        IsSubstitution L f m.now (elem_of L f pair.x) (elem_of L f pair.y) at.now →
        Undoes L f back.now pair → IsTrue r) }
{
    let possible = takes_x(alloc, alg, m, at, &back.x)?;
    if !possible {
        return Ok(false);
    }
    takes_y(alloc, alg, m, at, &back.y)
}

// Whether f may be 0 at a pair that is ready, and `back` may give x and y at it.
fn may_invert_at<K: FiniteField<E = u32>>(
    alloc: Global,
    alg: &Alg<K>,
    m: &Poly,
    at: &Substitution,
    f: &Plane,
    back: &Pair,
) -> Result<bool, NoMemory>
    requires m { IsModulus (K.elements alg.now.k) m.now }
    requires at { IsReducedPair (K.elements alg.now.k) at.now }
    requires matrix { let L = K.lawful alg.now.k in let f = alg.now.f in
        IsMatrix L f m.now (y_in L f) at.now.by_y }
    requires f { IsPlane (K.elements alg.now.k) f.now }
    requires count { length at.now.y.planes ≡ length f.now }
    requires back { IsSmallPair (K.elements alg.now.k) (length f.now) back.now }
    ensures { let L = K.lawful alg.now.k in let g = alg.now.f in
        IfOk result (λ r. (pair : Pair) →
        IsSubstitution L g m.now (elem_of L g pair.x) (elem_of L g pair.y) at.now →
        IsOneSided L f.now g pair back.now → IsTrue r) }
{
    let zero = vanishes(alloc, alg, m, at, f.rows())?;
    if !zero {
        return Ok(false);
    }
    gives_variables(alloc, alg, m, at, back)
}

// Whether the pair may satisfy f and `back` may give x and y at it.
pub fn may_invert<K: FiniteField<E = u32>>(
    alloc: Global,
    alg: &Alg<K>,
    m: &Poly,
    f: &Plane,
    pair: &Pair,
    back: &Pair,
) -> Result<bool, NoMemory>
    requires m { IsModulus (K.elements alg.now.k) m.now }
    requires f { IsPlane (K.elements alg.now.k) f.now }
    requires pair { IsPair (K.lawful alg.now.k) alg.now.f pair.now }
    requires back { IsSmallPair (K.elements alg.now.k) (length f.now) back.now }
    ensures { let L = K.lawful alg.now.k in let g = alg.now.f in
        IfOk result (λ r. IsOneSided L f.now g pair.now back.now → IsTrue r) }
{
    let at = prepare(alloc, alg, m, pair, f.rows().len())?;
    may_invert_at(alloc, alg, m, &at, f, back)
}

// Whether the pair may satisfy f.
pub fn may_satisfy_modulo<K: FiniteField<E = u32>>(
    alloc: Global,
    alg: &Alg<K>,
    m: &Poly,
    f: &Plane,
    pair: &Pair,
) -> Result<bool, NoMemory>
    requires m { IsModulus (K.elements alg.now.k) m.now }
    requires f { IsPlane (K.elements alg.now.k) f.now }
    requires pair { IsPair (K.lawful alg.now.k) alg.now.f pair.now }
    ensures { let L = K.lawful alg.now.k in let g = alg.now.f in
        IfOk result (λ r. Satisfies L f.now g pair.now → IsTrue r) }
{
    let at = prepare(alloc, alg, m, pair, f.rows().len())?;
    vanishes(alloc, alg, m, &at, f.rows())
}
