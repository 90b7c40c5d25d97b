// Factors of an equation from an element w of its algebra with w^q = w, where q is the number of
// elements of the field.
ghost use Rattle.std.specs.Prelude.{◌≡◌, ◌-◌, IfOk, IfSome, IfNone, IsTrue, ◌↔◌};
ghost use Rattle.ff_theory.specs.Ring.{IsElement};
ghost use Rattle.ff_elem.specs.Elem.{algebra_in, elem_of, IsElem, ElemIs};
ghost use Rattle.ff_data.specs.Combinations.{constant_in};
ghost use Rattle.ff_const.specs.Fixed.{IsFixed, IsConstant, HasNone, IsInverted, IsKind};
ghost use Rattle.ff_const.specs.Fixed.{AreOrderedFactors, AreFactorsFrom, less_constant_of};
ghost use Rattle.ff_const.specs.Fixed.{product_below};

use crate::keys::ordered;
use ff_alg::{FiniteField, NoMemory};
use ff_data::constant;
use ff_elem::{Alg, Elem, InvFault};
use ff_poly::Plane;
use std::alloc::Global;

/// Why an equation f is not irreducible over k(x).
#[derive(Drop)]
pub enum SplitFault {
    /// f is a polynomial in x times g * h, both normalised and of positive y-degree, and the key of
    /// g is not greater than that of h.
    Reducible { g: Plane, h: Plane },
    NoMemory,
}

impl From<NoMemory> for SplitFault {
    ghost use Rattle.std.specs.Prelude.{◌≡◌};
    ghost use Rattle.ff_const.specs.declared.factors.SplitFault.{SplitFault};

    ghost from_gives = { λ _ e. e ≡ SplitFault.NoMemory };

    fn from(_fault: NoMemory) -> SplitFault {
        SplitFault::NoMemory
    }
}

/// What an element is: 0, with an inverse, or neither, and then f has factors.
#[derive(Drop)]
pub(crate) enum Kind {
    Zero,
    Invertible,
    Divisor { g: Plane, h: Plane },
}

/// The factors of the equation by rising key, from an element that is not 0 and has no inverse.
fn factors_of<K: FiniteField<E = u32>>(
    alloc: Global,
    alg: &Alg<K>,
    w: &Elem,
) -> Result<(Plane, Plane), NoMemory>
    requires w { IsElem (K.lawful alg.now.k) alg.now.f w.now }
    requires none { let L = K.lawful alg.now.k in let f = alg.now.f in
        HasNone L f (elem_of L f w.now) }
    ensures { let L = K.lawful alg.now.k in
        IfOk result (λ r. AreOrderedFactors L alg.now.f r.0 r.1) }
{
    let (g, h) = alg.factors(alloc, w)?;
    Ok(ordered(&alg.k, g, h))
}

/// The element w less the constant c.
fn less_constant<K: FiniteField<E = u32>>(
    alloc: Global,
    alg: &Alg<K>,
    w: &Elem,
    c: u32,
) -> Result<Elem, NoMemory>
    requires w { IsElem (K.lawful alg.now.k) alg.now.f w.now }
    requires c { IsElement (K.elements alg.now.k) c }
    ensures { let F = K.elements alg.now.k in let L = K.lawful alg.now.k in let f = alg.now.f in
        IfOk result (ElemIs L f (less_constant_of L f (elem_of L f w.now) (F.value c))) }
{
    let negative = constant(alloc, alg, alg.k.neg(c))?;
    alg.add(alloc, w, &negative)
}

/// Whether an element is 0.
fn is_zero<K: FiniteField<E = u32>>(alloc: Global, alg: &Alg<K>, w: &Elem) -> Result<bool, NoMemory>
    requires { IsElem (K.lawful alg.now.k) alg.now.f w.now }
    ensures { let L = K.lawful alg.now.k in let f = alg.now.f in
        IfOk result (λ r. IsTrue r ↔ (elem_of L f w.now ≡ (algebra_in L f).zero)) }
{
    let zero = alg.zero(alloc)?;
    Ok(alg.same(w, &zero))
}

/// What an element that is not 0 is.
fn kind_of_nonzero<K: FiniteField<E = u32>>(
    alloc: Global,
    alg: &Alg<K>,
    w: &Elem,
) -> Result<Kind, NoMemory>
    requires w { IsElem (K.lawful alg.now.k) alg.now.f w.now }
    requires nonzero { let L = K.lawful alg.now.k in let f = alg.now.f in
        ¬ (elem_of L f w.now ≡ (algebra_in L f).zero) }
    ensures { let L = K.lawful alg.now.k in let f = alg.now.f in
        IfOk result (IsKind L f (elem_of L f w.now)) }
{
    match alg.inverse(alloc, w) {
        Ok(_) => Ok(Kind::Invertible),
        Err(InvFault::ZeroDivisor { u: _ }) => {
            let (g, h) = factors_of(alloc, alg, w)?;
            Ok(Kind::Divisor { g, h })
        },
        Err(InvFault::NoMemory) => Err(NoMemory),
    }
}

/// What the element w less the constant c is.
fn kind_less<K: FiniteField<E = u32>>(
    alloc: Global,
    alg: &Alg<K>,
    w: &Elem,
    c: u32,
) -> Result<Kind, NoMemory>
    requires w { IsElem (K.lawful alg.now.k) alg.now.f w.now }
    requires c { IsElement (K.elements alg.now.k) c }
    ensures { let F = K.elements alg.now.k in let L = K.lawful alg.now.k in let f = alg.now.f in
        IfOk result (IsKind L f (less_constant_of L f (elem_of L f w.now) (F.value c))) }
{
    let less = less_constant(alloc, alg, w, c)?;
    if is_zero(alloc, alg, &less)? {
        return Ok(Kind::Zero);
    }
    kind_of_nonzero(alloc, alg, &less)
}

/// The factors of the equation by rising key, from an element w with w^q = w, where w - c has an
/// inverse for each constant c but the last one; None where w is that constant.
fn factors_at_last<K: FiniteField<E = u32>>(
    alloc: Global,
    alg: &Alg<K>,
    w: &Elem,
) -> Result<Option<(Plane, Plane)>, NoMemory>
    requires w { IsElem (K.lawful alg.now.k) alg.now.f w.now }
    requires fixed { let L = K.lawful alg.now.k in let f = alg.now.f in
        IsFixed L f (elem_of L f w.now) }
    requires others { let F = K.elements alg.now.k in let L = K.lawful alg.now.k in
        let f = alg.now.f in let A = algebra_in L f in
        IsInverted L f (product_below A (F.size - 1)
        (λ i. less_constant_of L f (elem_of L f w.now) (F.element_at i))) }
    ensures none { let L = K.lawful alg.now.k in let f = alg.now.f in
        IfOk result (λ o. IfNone o (IsConstant L f (elem_of L f w.now))) }
    ensures some { let L = K.lawful alg.now.k in let f = alg.now.f in
        IfOk result (λ o. IfSome o (λ r. AreFactorsFrom L f (elem_of L f w.now) r.0 r.1)) }
{
    let less = less_constant(alloc, alg, w, alg.k.nth(alg.k.count() - 1))?;
    if is_zero(alloc, alg, &less)? {
        return Ok(None);
    }
    Ok(Some(factors_of(alloc, alg, &less)?))
}

/// The factors of the equation by rising key, from an element w with w^q = w; None where w is a
/// constant of the field. `NoMemory` is the only error.
///
/// The product of w - c for all constants c is w^q - w, which is 0.
pub(crate) fn factors_from<K: FiniteField<E = u32>>(
    alloc: Global,
    alg: &Alg<K>,
    w: &Elem,
) -> Result<Option<(Plane, Plane)>, NoMemory>
    requires w { IsElem (K.lawful alg.now.k) alg.now.f w.now }
    requires fixed { let L = K.lawful alg.now.k in let f = alg.now.f in
        IsFixed L f (elem_of L f w.now) }
    ensures none { let L = K.lawful alg.now.k in let f = alg.now.f in
        IfOk result (λ o. IfNone o (IsConstant L f (elem_of L f w.now))) }
    ensures some { let L = K.lawful alg.now.k in let f = alg.now.f in
        IfOk result (λ o. IfSome o (λ r. AreFactorsFrom L f (elem_of L f w.now) r.0 r.1)) }
{
    for i in 0..alg.k.count() - 1 {
        match kind_less(alloc, alg, w, alg.k.nth(i))? {
            Kind::Zero => return Ok(None),
            Kind::Invertible => {},
            Kind::Divisor { g, h } => return Ok(Some((g, h))),
        }
    }
    factors_at_last(alloc, alg, w)
}
