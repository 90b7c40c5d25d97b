// Values of elements, satisfying pairs and inverse pairs.
ghost use Rattle.std.specs.Prelude.{◌≡◌, ◌+◌, ◌↔◌, IfOk, IfSome, IfNone, IsTrue, length};
ghost use Rattle.std.specs.List.{All};
ghost use Rattle.ff_theory.specs.Values.{IsPoly, IsPlane};
ghost use Rattle.ff_elem.specs.Elem.{elem_of, IsElem};
ghost use Rattle.ff_data.specs.Pairs.{IsPair, Satisfies, HasValue, ValueIs, IsInversePair};
ghost use Rattle.ff_theory.specs.Values.{ArePolys};
ghost use Rattle.ff_subst.specs.Congruence.{IsModulus};

use crate::blocks::{element_count, power_list};
use crate::modulus::{modulus, seed_of};
use crate::tests::{may_invert, may_satisfy_modulo};
use crate::values::{inverts, is_zero, value_at};
use ff_alg::{FiniteField, NoMemory, Steps};
use ff_data::Pair;
use ff_elem::{Alg, Elem};
use ff_poly::{Plane, Poly};
use std::alloc::Global;
use std::sync::ledger::Ledger;

/// The value s(X, Y) of an element s of E(f) at a pair (X, Y) of E(g), g being the equation of
/// `alg2`: the value of the numerators at X and Y, times the inverse of the denominator at X.
///
/// None comes exactly where the denominator of s at X has no inverse.
/// The only error is `NoMemory`, out of memory. This project's own.
pub fn substitute<K: FiniteField<E = u32>>(
    alloc: Global,
    alg2: &Alg<K>,
    s: &Elem,
    pair: &Pair,
) -> Result<Option<Elem>, NoMemory>
    requires pair { IsPair (K.lawful alg2.now.k) alg2.now.f pair.now }
    requires den { IsPoly (K.elements alg2.now.k) s.now.den }
    requires num { ArePolys (K.elements alg2.now.k) s.now.num }
    ensures element { let L = K.lawful alg2.now.k in let g = alg2.now.f in
        IfOk result (λ v. IfSome v (IsElem L g)) }
    ensures value { let L = K.lawful alg2.now.k in let g = alg2.now.f in
        IfOk result (λ v. IfSome v (λ r. ValueIs L g s.now pair.now (elem_of L g r))) }
    ensures none { let L = K.lawful alg2.now.k in let g = alg2.now.f in
        IfOk result (λ v. IfNone v (¬ HasValue L g s.now pair.now)) }
{
    let at = power_list(alloc, alg2, &pair.x, element_count(s))?;
    value_at(alloc, alg2, &at, s, pair)
}

// Whether a pair may satisfy f, by a test modulo a polynomial in x.
fn may_satisfy<K: FiniteField<E = u32>>(
    alloc: Global,
    alg2: &Alg<K>,
    f: &Plane,
    pair: &Pair,
) -> Result<bool, NoMemory>
    requires f { IsPlane (K.elements alg2.now.k) f.now }
    requires pair { IsPair (K.lawful alg2.now.k) alg2.now.f pair.now }
    ensures { let L = K.lawful alg2.now.k in let g = alg2.now.f in
        IfOk result (λ r. Satisfies L f.now g pair.now → IsTrue r) }
{
    let m = modulus(alloc, &alg2.k, seed_of(f, &alg2.f, pair, pair))?;
    may_satisfy_modulo(alloc, alg2, &m, f, pair)
}

/// Whether a pair of E(g), g being the equation of `alg2`, satisfies f: `f(X, Y) = 0`.
///
/// The only error is `NoMemory`, out of memory. This project's own.
pub fn satisfies<K: FiniteField<E = u32>>(
    alloc: Global,
    f: &Plane,
    alg2: &Alg<K>,
    pair: &Pair,
) -> Result<bool, NoMemory>
    requires f { IsPlane (K.elements alg2.now.k) f.now }
    requires pair { IsPair (K.lawful alg2.now.k) alg2.now.f pair.now }
    ensures { let L = K.lawful alg2.now.k in let g = alg2.now.f in
        IfOk result (λ r. IsTrue r ↔ Satisfies L f.now g pair.now) }
{
    let possible = may_satisfy(alloc, alg2, f, pair)?;
    if !possible {
        return Ok(false);
    }
    is_zero(alloc, alg2, f, pair)
}

// Whether the pairs may be inverse, by tests modulo m.
fn may_be_inverse_modulo<K: FiniteField<E = u32>>(
    alloc: Global,
    alg1: &Alg<K>,
    alg2: &Alg<K>,
    m: &Poly,
    pair: &Pair,
    back: &Pair,
) -> Result<bool, NoMemory>
    requires field { alg1.now.k ≡ alg2.now.k }
    requires m { IsModulus (K.elements alg2.now.k) m.now }
    requires pair { IsPair (K.lawful alg2.now.k) alg2.now.f pair.now }
    requires back { IsPair (K.lawful alg1.now.k) alg1.now.f back.now }
    ensures { let L = K.lawful alg2.now.k in let f = alg1.now.f in let g = alg2.now.f in
        IfOk result (λ r. IsInversePair L f g pair.now back.now → IsTrue r) }
{
    let possible = may_invert(alloc, alg2, m, &alg1.f, pair, back)?;
    if !possible {
        return Ok(false);
    }
    may_invert(alloc, alg1, m, &alg2.f, back, pair)
}

// Whether the pairs may be inverse, by tests modulo a polynomial in x.
fn may_be_inverse<K: FiniteField<E = u32>>(
    alloc: Global,
    alg1: &Alg<K>,
    alg2: &Alg<K>,
    pair: &Pair,
    back: &Pair,
) -> Result<bool, NoMemory>
    requires field { alg1.now.k ≡ alg2.now.k }
    requires pair { IsPair (K.lawful alg2.now.k) alg2.now.f pair.now }
    requires back { IsPair (K.lawful alg1.now.k) alg1.now.f back.now }
    ensures { let L = K.lawful alg2.now.k in let f = alg1.now.f in let g = alg2.now.f in
        IfOk result (λ r. IsInversePair L f g pair.now back.now → IsTrue r) }
{
    let m = modulus(alloc, &alg2.k, seed_of(&alg1.f, &alg2.f, pair, back))?;
    may_be_inverse_modulo(alloc, alg1, alg2, &m, pair, back)
}

// Whether the pairs are inverse, by exact values.
fn are_inverse<K: FiniteField<E = u32>>(
    alloc: Global,
    alg1: &Alg<K>,
    alg2: &Alg<K>,
    pair: &Pair,
    back: &Pair,
) -> Result<bool, NoMemory>
    requires field { alg1.now.k ≡ alg2.now.k }
    requires pair { IsPair (K.lawful alg2.now.k) alg2.now.f pair.now }
    requires back { IsPair (K.lawful alg1.now.k) alg1.now.f back.now }
    ensures { let L = K.lawful alg2.now.k in let f = alg1.now.f in let g = alg2.now.f in
        IfOk result (λ r. IsTrue r ↔ IsInversePair L f g pair.now back.now) }
{
    let there = inverts(alloc, alg2, &alg1.f, pair, back)?;
    if !there {
        return Ok(false);
    }
    inverts(alloc, alg1, &alg2.f, back, pair)
}

/// Whether a pair of E(g) satisfies f, the equations being those of `alg2` and `alg1`, and `back`
/// is its inverse pair: it satisfies (g, f), and X(U, V), Y(U, V), U(X, Y) and V(X, Y) are x, y, x
/// and y.
///
/// It ticks `tests` once. The only error is `NoMemory`, out of memory. This project's own.
pub fn is_inverse<K: FiniteField<E = u32>, L: Ledger>(
    alloc: Global,
    alg1: &Alg<K>,
    alg2: &Alg<K>,
    pair: &Pair,
    back: &Pair,
    tests: &mut Steps<L>,
) -> Result<bool, NoMemory>
    requires field { alg1.now.k ≡ alg2.now.k }
    requires pair { IsPair (K.lawful alg2.now.k) alg2.now.f pair.now }
    requires back { IsPair (K.lawful alg1.now.k) alg1.now.f back.now }
    ensures inverse { let L = K.lawful alg2.now.k in let f = alg1.now.f in let g = alg2.now.f in
        IfOk result (λ r. IsTrue r ↔ IsInversePair L f g pair.now back.now) }
    ensures tests { tests.new ≡ tests.old + 1 }
{
    tests.tick();
    let possible = may_be_inverse(alloc, alg1, alg2, pair, back)?;
    if !possible {
        return Ok(false);
    }
    are_inverse(alloc, alg1, alg2, pair, back)
}
