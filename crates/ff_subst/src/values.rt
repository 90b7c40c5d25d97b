// Values at a pair, exactly.
ghost use Rattle.std.specs.Prelude.{◌≡◌, ◌+◌, ◌↔◌, length, IfOk, IfSome, IfNone, IsTrue, [], ◌∷◌};
ghost use Rattle.ff_theory.specs.Ring.{IsElement};
ghost use Rattle.ff_theory.specs.Lawful.{lawful_field};
ghost use Rattle.ff_theory.specs.Values.{poly_of, IsPoly, plane_of, IsPlane};
ghost use Rattle.ff_elem.specs.Elem.{algebra_in, elem_of, x_in, y_in, IsElem, ElemIs};
ghost use Rattle.ff_data.specs.Pairs.{IsPair, Satisfies, HasValue, ValueIs, Undoes};
ghost use Rattle.ff_data.specs.Substitution.{plane_at_pair};
ghost use Rattle.ff_theory.specs.Values.{ArePolys};
ghost use Rattle.ff_subst.specs.Inverse.{HasInverse, IsProductAt, ArePartsPolys, ArePairPolys};
ghost use Rattle.ff_subst.specs.Inverse.{IsOneSided, polynomial_at, numerator_at};
ghost use Rattle.ff_subst.specs.Cleared.{ArePowers};

use crate::blocks::{PowerList, pair_count, plane_count, power_list, value_of_poly};
use ff_alg::{FiniteField, NoMemory};
use ff_data::Pair;
use ff_elem::{Alg, Elem, InvFault};
use ff_poly::{Plane, Poly};
use std::alloc::Global;
use std::slice;

// One step of Horner's rule: the value times an element, and another element.
fn next<K: FiniteField<E = u32>>(
    alloc: Global,
    alg: &Alg<K>,
    value: &Elem,
    by: &Elem,
    next: &Elem,
) -> Result<Elem, NoMemory>
    requires value { IsElem (K.lawful alg.now.k) alg.now.f value.now }
    requires by { IsElem (K.lawful alg.now.k) alg.now.f by.now }
    requires next { IsElem (K.lawful alg.now.k) alg.now.f next.now }
    ensures element { let L = K.lawful alg.now.k in IfOk result (IsElem L alg.now.f) }
    ensures value { let L = K.lawful alg.now.k in let f = alg.now.f in let A = algebra_in L f in
        IfOk result (λ r. elem_of L f r ≡ A.add (elem_of L f next.now)
        (A.mul (elem_of L f by.now) (elem_of L f value.now))) }
{
    let product = alg.mul(alloc, by, value)?;
    alg.add(alloc, next, &product)
}

// One step of Horner's rule: the value times Y, and a row at X.
fn next_row<K: FiniteField<E = u32>>(
    alloc: Global,
    alg: &Alg<K>,
    at: &PowerList,
    pair: &Pair,
    value: &Elem,
    row: &Poly,
) -> Result<Elem, NoMemory>
    requires at { let L = K.lawful alg.now.k in let f = alg.now.f in
        ArePowers L f (elem_of L f pair.now.x) at.now }
    requires y { IsElem (K.lawful alg.now.k) alg.now.f pair.now.y }
    requires value { IsElem (K.lawful alg.now.k) alg.now.f value.now }
    requires row { IsPoly (K.elements alg.now.k) row.now }
    ensures element { let L = K.lawful alg.now.k in IfOk result (IsElem L alg.now.f) }
    ensures value { let L = K.lawful alg.now.k in let f = alg.now.f in let A = algebra_in L f in
        IfOk result (λ r. elem_of L f r ≡ A.add
        (polynomial_at L f (elem_of L f pair.now.x) row.now)
        (A.mul (elem_of L f pair.now.y) (elem_of L f value.now))) }
{
    let row = value_of_poly(alloc, alg, at, row)?;
    next(alloc, alg, value, &pair.y, &row)
}

// The bivariate polynomial with these rows at the pair.
pub fn value_of_rows<K: FiniteField<E = u32>>(
    alloc: Global,
    alg: &Alg<K>,
    at: &PowerList,
    pair: &Pair,
    rows: &[Poly],
) -> Result<Elem, NoMemory>
    requires at { let L = K.lawful alg.now.k in let f = alg.now.f in
        ArePowers L f (elem_of L f pair.now.x) at.now }
    requires pair { IsPair (K.lawful alg.now.k) alg.now.f pair.now }
    requires rows { ArePolys (K.elements alg.now.k) rows.now }
    ensures element { let L = K.lawful alg.now.k in IfOk result (IsElem L alg.now.f) }
    ensures value { let F = K.elements alg.now.k in let L = K.lawful alg.now.k in
        let f = alg.now.f in IfOk result (λ r. elem_of L f r ≡
        plane_at_pair (lawful_field L) (plane_of F f) (elem_of L f pair.now.x)
        (elem_of L f pair.now.y) (plane_of F rows.now)) }
{
    let mut value = alg.zero(alloc)?;
    let mut j = rows.len();
    while j > 0 {
        j -= 1;
        value = next_row(alloc, alg, at, pair, &value, &rows[j])?;
    }
    Ok(value)
}

// The inverse of an element, or none where it has none.
fn inverse_of<K: FiniteField<E = u32>>(
    alloc: Global,
    alg: &Alg<K>,
    a: &Elem,
) -> Result<Option<Elem>, NoMemory>
    requires { IsElem (K.lawful alg.now.k) alg.now.f a.now }
    ensures element { let L = K.lawful alg.now.k in
        IfOk result (λ v. IfSome v (IsElem L alg.now.f)) }
    ensures inverse { let L = K.lawful alg.now.k in let f = alg.now.f in let A = algebra_in L f in
        IfOk result (λ v. IfSome v (λ r. A.mul (elem_of L f r) (elem_of L f a.now) ≡ A.one)) }
    ensures none { let L = K.lawful alg.now.k in let f = alg.now.f in
        IfOk result (λ v. IfNone v (¬ HasInverse L f (elem_of L f a.now))) }
{
    match alg.inverse(alloc, a) {
        Ok(inverse) => Ok(Some(inverse)),
        Err(InvFault::ZeroDivisor { u: _ }) => Ok(None),
        Err(InvFault::NoMemory) => Err(NoMemory),
    }
}

// The numerator of s at the pair, times an element.
fn value_over<K: FiniteField<E = u32>>(
    alloc: Global,
    alg: &Alg<K>,
    at: &PowerList,
    s: &Elem,
    pair: &Pair,
    inverse: &Elem,
) -> Result<Elem, NoMemory>
    requires at { let L = K.lawful alg.now.k in let f = alg.now.f in
        ArePowers L f (elem_of L f pair.now.x) at.now }
    requires pair { IsPair (K.lawful alg.now.k) alg.now.f pair.now }
    requires num { ArePolys (K.elements alg.now.k) s.now.num }
    requires inverse { IsElem (K.lawful alg.now.k) alg.now.f inverse.now }
    ensures element { let L = K.lawful alg.now.k in IfOk result (IsElem L alg.now.f) }
    ensures value { let L = K.lawful alg.now.k in let f = alg.now.f in let A = algebra_in L f in
        IfOk result (λ r. elem_of L f r ≡
        A.mul (numerator_at L f s.now pair.now) (elem_of L f inverse.now)) }
{
    let num = value_of_rows(alloc, alg, at, pair, s.num.rows())?;
    alg.mul(alloc, &num, inverse)
}

// The value s(X, Y), or none where s has none, where the denominator of s at X is `den`.
fn quotient<K: FiniteField<E = u32>>(
    alloc: Global,
    alg: &Alg<K>,
    at: &PowerList,
    s: &Elem,
    pair: &Pair,
    den: &Elem,
) -> Result<Option<Elem>, NoMemory>
    requires at { let L = K.lawful alg.now.k in let f = alg.now.f in
        ArePowers L f (elem_of L f pair.now.x) at.now }
    requires pair { IsPair (K.lawful alg.now.k) alg.now.f pair.now }
    requires num { ArePolys (K.elements alg.now.k) s.now.num }
    requires den { let L = K.lawful alg.now.k in let f = alg.now.f in
        ElemIs L f (polynomial_at L f (elem_of L f pair.now.x) s.now.den) den.now }
    ensures element { let L = K.lawful alg.now.k in
        IfOk result (λ v. IfSome v (IsElem L alg.now.f)) }
    ensures value { let L = K.lawful alg.now.k in let f = alg.now.f in
        IfOk result (λ v. IfSome v (λ r. ValueIs L f s.now pair.now (elem_of L f r))) }
    ensures none { let L = K.lawful alg.now.k in let f = alg.now.f in
        IfOk result (λ v. IfNone v (¬ HasValue L f s.now pair.now)) }
{
    match inverse_of(alloc, alg, den)? {
        Some(inverse) => {
            let value = value_over(alloc, alg, at, s, pair, &inverse)?;
            Ok(Some(value))
        }
        None => Ok(None),
    }
}

// The value s(X, Y), or none where s has none.
pub fn value_at<K: FiniteField<E = u32>>(
    alloc: Global,
    alg: &Alg<K>,
    at: &PowerList,
    s: &Elem,
    pair: &Pair,
) -> Result<Option<Elem>, NoMemory>
    requires at { let L = K.lawful alg.now.k in let f = alg.now.f in
        ArePowers L f (elem_of L f pair.now.x) at.now }
    requires pair { IsPair (K.lawful alg.now.k) alg.now.f pair.now }
    requires den { IsPoly (K.elements alg.now.k) s.now.den }
    requires num { ArePolys (K.elements alg.now.k) s.now.num }
    ensures element { let L = K.lawful alg.now.k in
        IfOk result (λ v. IfSome v (IsElem L alg.now.f)) }
    ensures value { let L = K.lawful alg.now.k in let f = alg.now.f in
        IfOk result (λ v. IfSome v (λ r. ValueIs L f s.now pair.now (elem_of L f r))) }
    ensures none { let L = K.lawful alg.now.k in let f = alg.now.f in
        IfOk result (λ v. IfNone v (¬ HasValue L f s.now pair.now)) }
{
    let den = value_of_poly(alloc, alg, at, &s.den)?;
    quotient(alloc, alg, at, s, pair, &den)
}

// Whether an element has an inverse.
fn has_inverse<K: FiniteField<E = u32>>(
    alloc: Global,
    alg: &Alg<K>,
    a: &Elem,
) -> Result<bool, NoMemory>
    requires { IsElem (K.lawful alg.now.k) alg.now.f a.now }
    ensures { let L = K.lawful alg.now.k in let f = alg.now.f in
        IfOk result (λ r. IsTrue r ↔ HasInverse L f (elem_of L f a.now)) }
{
    match alg.inverse(alloc, a) {
        Ok(_) => Ok(true),
        Err(InvFault::ZeroDivisor { u: _ }) => Ok(false),
        Err(InvFault::NoMemory) => Err(NoMemory),
    }
}

// Whether the numerator of s at the pair is v times a denominator.
fn is_multiple<K: FiniteField<E = u32>>(
    alloc: Global,
    alg: &Alg<K>,
    at: &PowerList,
    s: &Elem,
    pair: &Pair,
    v: &Elem,
    den: &Elem,
) -> Result<bool, NoMemory>
    requires at { let L = K.lawful alg.now.k in let f = alg.now.f in
        ArePowers L f (elem_of L f pair.now.x) at.now }
    requires pair { IsPair (K.lawful alg.now.k) alg.now.f pair.now }
    requires num { ArePolys (K.elements alg.now.k) s.now.num }
    requires v { IsElem (K.lawful alg.now.k) alg.now.f v.now }
    requires den { IsElem (K.lawful alg.now.k) alg.now.f den.now }
    ensures { let L = K.lawful alg.now.k in let f = alg.now.f in
        IfOk result (λ r. IsTrue r ↔ IsProductAt L f s.now pair.now (elem_of L f v.now)
        (elem_of L f den.now)) }
{
    let product = alg.mul(alloc, v, den)?;
    let num = value_of_rows(alloc, alg, at, pair, s.num.rows())?;
    Ok(alg.same(&product, &num))
}

// Whether s(X, Y) is v, where the denominator of s at X is `den`.
fn takes_over<K: FiniteField<E = u32>>(
    alloc: Global,
    alg: &Alg<K>,
    at: &PowerList,
    s: &Elem,
    pair: &Pair,
    v: &Elem,
    den: &Elem,
) -> Result<bool, NoMemory>
    requires at { let L = K.lawful alg.now.k in let f = alg.now.f in
        ArePowers L f (elem_of L f pair.now.x) at.now }
    requires pair { IsPair (K.lawful alg.now.k) alg.now.f pair.now }
    requires num { ArePolys (K.elements alg.now.k) s.now.num }
    requires v { IsElem (K.lawful alg.now.k) alg.now.f v.now }
    requires den { let L = K.lawful alg.now.k in let f = alg.now.f in
        ElemIs L f (polynomial_at L f (elem_of L f pair.now.x) s.now.den) den.now }
    ensures { let L = K.lawful alg.now.k in let f = alg.now.f in
        IfOk result (λ r. IsTrue r ↔ ValueIs L f s.now pair.now (elem_of L f v.now)) }
{
    let equal = is_multiple(alloc, alg, at, s, pair, v, den)?;
    if !equal {
        return Ok(false);
    }
    has_inverse(alloc, alg, den)
}

// Whether s(X, Y) is v.
fn takes<K: FiniteField<E = u32>>(
    alloc: Global,
    alg: &Alg<K>,
    at: &PowerList,
    s: &Elem,
    pair: &Pair,
    v: &Elem,
) -> Result<bool, NoMemory>
    requires at { let L = K.lawful alg.now.k in let f = alg.now.f in
        ArePowers L f (elem_of L f pair.now.x) at.now }
    requires pair { IsPair (K.lawful alg.now.k) alg.now.f pair.now }
    requires den { IsPoly (K.elements alg.now.k) s.now.den }
    requires num { ArePolys (K.elements alg.now.k) s.now.num }
    requires v { IsElem (K.lawful alg.now.k) alg.now.f v.now }
    ensures { let L = K.lawful alg.now.k in let f = alg.now.f in
        IfOk result (λ r. IsTrue r ↔ ValueIs L f s.now pair.now (elem_of L f v.now)) }
{
    let den = value_of_poly(alloc, alg, at, &s.den)?;
    takes_over(alloc, alg, at, s, pair, v, &den)
}

// Whether s(X, Y) is x.
fn takes_x<K: FiniteField<E = u32>>(
    alloc: Global,
    alg: &Alg<K>,
    at: &PowerList,
    s: &Elem,
    pair: &Pair,
) -> Result<bool, NoMemory>
    requires at { let L = K.lawful alg.now.k in let f = alg.now.f in
        ArePowers L f (elem_of L f pair.now.x) at.now }
    requires pair { IsPair (K.lawful alg.now.k) alg.now.f pair.now }
    requires s { ArePartsPolys (K.elements alg.now.k) s.now }
    ensures { let L = K.lawful alg.now.k in let f = alg.now.f in
        IfOk result (λ r. IsTrue r ↔ ValueIs L f s.now pair.now (x_in L f)) }
{
    let x = alg.x(alloc)?;
    takes(alloc, alg, at, s, pair, &x)
}

// Whether s(X, Y) is y.
fn takes_y<K: FiniteField<E = u32>>(
    alloc: Global,
    alg: &Alg<K>,
    at: &PowerList,
    s: &Elem,
    pair: &Pair,
) -> Result<bool, NoMemory>
    requires at { let L = K.lawful alg.now.k in let f = alg.now.f in
        ArePowers L f (elem_of L f pair.now.x) at.now }
    requires pair { IsPair (K.lawful alg.now.k) alg.now.f pair.now }
    requires s { ArePartsPolys (K.elements alg.now.k) s.now }
    ensures { let L = K.lawful alg.now.k in let f = alg.now.f in
        IfOk result (λ r. IsTrue r ↔ ValueIs L f s.now pair.now (y_in L f)) }
{
    let y = alg.y(alloc)?;
    takes(alloc, alg, at, s, pair, &y)
}

// Whether (U, V) undoes (X, Y): X(U, V) is x and Y(U, V) is y.
fn undoes<K: FiniteField<E = u32>>(
    alloc: Global,
    alg: &Alg<K>,
    at: &PowerList,
    pair: &Pair,
    back: &Pair,
) -> Result<bool, NoMemory>
    requires at { let L = K.lawful alg.now.k in let f = alg.now.f in
        ArePowers L f (elem_of L f back.now.x) at.now }
    requires back { IsPair (K.lawful alg.now.k) alg.now.f back.now }
    requires pair { ArePairPolys (K.elements alg.now.k) pair.now }
    ensures { let L = K.lawful alg.now.k in
        IfOk result (λ r. IsTrue r ↔ Undoes L alg.now.f pair.now back.now) }
{
    let undone = takes_x(alloc, alg, at, &pair.x, back)?;
    if !undone {
        return Ok(false);
    }
    takes_y(alloc, alg, at, &pair.y, back)
}

// Whether the pair satisfies f.
fn is_zero_at<K: FiniteField<E = u32>>(
    alloc: Global,
    alg: &Alg<K>,
    at: &PowerList,
    f: &Plane,
    pair: &Pair,
) -> Result<bool, NoMemory>
    requires at { let L = K.lawful alg.now.k in let f = alg.now.f in
        ArePowers L f (elem_of L f pair.now.x) at.now }
    requires f { IsPlane (K.elements alg.now.k) f.now }
    requires pair { IsPair (K.lawful alg.now.k) alg.now.f pair.now }
    ensures { let L = K.lawful alg.now.k in
        IfOk result (λ r. IsTrue r ↔ Satisfies L f.now alg.now.f pair.now) }
{
    let value = value_of_rows(alloc, alg, at, pair, f.rows())?;
    let zero = alg.zero(alloc)?;
    Ok(alg.same(&value, &zero))
}

// The like with no powers at hand.
pub fn is_zero<K: FiniteField<E = u32>>(
    alloc: Global,
    alg: &Alg<K>,
    f: &Plane,
    pair: &Pair,
) -> Result<bool, NoMemory>
    requires f { IsPlane (K.elements alg.now.k) f.now }
    requires pair { IsPair (K.lawful alg.now.k) alg.now.f pair.now }
    ensures { let L = K.lawful alg.now.k in
        IfOk result (λ r. IsTrue r ↔ Satisfies L f.now alg.now.f pair.now) }
{
    let at = power_list(alloc, alg, &pair.x, plane_count(f))?;
    is_zero_at(alloc, alg, &at, f, pair)
}

// Whether the pair, the powers of X at hand, satisfies f and `back` gives x and y at it.
fn inverts_at<K: FiniteField<E = u32>>(
    alloc: Global,
    alg: &Alg<K>,
    at: &PowerList,
    f: &Plane,
    pair: &Pair,
    back: &Pair,
) -> Result<bool, NoMemory>
    requires at { let L = K.lawful alg.now.k in let f = alg.now.f in
        ArePowers L f (elem_of L f pair.now.x) at.now }
    requires f { IsPlane (K.elements alg.now.k) f.now }
    requires pair { IsPair (K.lawful alg.now.k) alg.now.f pair.now }
    requires back { ArePairPolys (K.elements alg.now.k) back.now }
    ensures { let L = K.lawful alg.now.k in
        IfOk result (λ r. IsTrue r ↔ IsOneSided L f.now alg.now.f pair.now back.now) }
{
    let zero = is_zero_at(alloc, alg, at, f, pair)?;
    if !zero {
        return Ok(false);
    }
    undoes(alloc, alg, at, back, pair)
}

// Whether the pair satisfies f and `back` gives x and y at it.
pub fn inverts<K: FiniteField<E = u32>>(
    alloc: Global,
    alg: &Alg<K>,
    f: &Plane,
    pair: &Pair,
    back: &Pair,
) -> Result<bool, NoMemory>
    requires f { IsPlane (K.elements alg.now.k) f.now }
    requires pair { IsPair (K.lawful alg.now.k) alg.now.f pair.now }
    requires back { ArePairPolys (K.elements alg.now.k) back.now }
    ensures { let L = K.lawful alg.now.k in
        IfOk result (λ r. IsTrue r ↔ IsOneSided L f.now alg.now.f pair.now back.now) }
{
    let at = power_list(alloc, alg, &pair.x, pair_count(f, back))?;
    inverts_at(alloc, alg, &at, f, pair, back)
}
