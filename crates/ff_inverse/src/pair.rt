// The inverse pair of a candidate.
ghost use Rattle.std.specs.Prelude.{◌≡◌, length, IfOk};
ghost use Rattle.ff_theory.specs.Ring.{IsElement};
ghost use Rattle.ff_theory.specs.Values.{IsPoly, ArePolys};
ghost use Rattle.ff_elem.specs.Elem.{IsElem};
ghost use Rattle.ff_data.specs.Pairs.{IsPair};
ghost use Rattle.ff_data.specs.Systems.{AreOverMonic, HasForm};
ghost use Rattle.ff_forms.specs.Forms.{AreAlike, HasCandidateForm};
ghost use Rattle.ff_inverse.specs.Maps.{HasMap};

use crate::pull::pull;
use ff_alg::{FiniteField, NoMemory};
use ff_data::{Candidate, Coords, Pair, System};
use ff_elem::{Alg, Elem};
use ff_poly::Poly;
use ff_ring::{affine, fraction, inverse_or_zero};
use std::alloc::Global;

/// The polynomial q at `(z - beta) / alpha`.
fn denominator<K: FiniteField<E = u32>>(
    alloc: Global,
    k: &K,
    c: &Candidate,
    q: &Poly,
) -> Result<Poly, NoMemory>
    requires alpha { IsElement (K.elements k.now) c.now.alpha }
    requires beta { IsElement (K.elements k.now) c.now.beta }
    requires q { IsPoly (K.elements k.now) q.now }
    ensures { IfOk result (IsPoly (K.elements k.now)) }
{
    let alpha = inverse_or_zero(k, c.alpha);
    affine(alloc, k, q, alpha, k.neg(k.mul(c.beta, alpha)))
}

/// The element with the coordinates c over q(z), and 0 where q(z) has no inverse.
fn quotient<K: FiniteField<E = u32>>(
    alloc: Global,
    alg: &Alg<K>,
    s: &System,
    q: &Poly,
    c: &[Poly],
) -> Result<Elem, NoMemory>
    requires form { HasForm (K.lawful alg.now.k) alg.now.f s.now }
    requires q { IsPoly (K.elements alg.now.k) q.now }
    requires c { ArePolys (K.elements alg.now.k) c.now }
    requires count { length c.now ≡ s.now.e }
    ensures { IfOk result (IsElem (K.lawful alg.now.k) alg.now.f) }
{
    match fraction(alloc, alg, s, q, c)? {
        Some(w) => Ok(w),
        None => alg.zero(alloc),
    }
}

/// The element of the first field that the candidate carries to the one with these coordinates in
/// the second system.
fn pulled_element<K: FiniteField<E = u32>>(
    alloc: Global,
    alg1: &Alg<K>,
    s1: &System,
    s2: &System,
    c: &Candidate,
    w: &Coords,
) -> Result<Elem, NoMemory>
    requires form { HasForm (K.lawful alg1.now.k) alg1.now.f s1.now }
    requires same { s1.now.e ≡ s2.now.e }
    requires weights { length s2.now.weights ≡ s2.now.e }
    requires map { HasMap (K.elements alg1.now.k) s2.now c.now }
    requires w { AreOverMonic (K.elements alg1.now.k) s2.now w.now }
    ensures { IfOk result (IsElem (K.lawful alg1.now.k) alg1.now.f) }
{
    let pulled = pull(alloc, &alg1.k, s2, c, w.c.rows())?;
    let q = denominator(alloc, &alg1.k, c, &w.q)?;
    quotient(alloc, alg1, s1, &q, &pulled)
}

/// The pair of elements of the first field that the candidate carries to x and y of the second one,
/// by their systems s1 and s2, which are alike: the coordinates of x and y in s2 are pulled back to
/// s1. `NoMemory` is the only error. This project's own.
pub fn back<K: FiniteField<E = u32>>(
    alloc: Global,
    alg1: &Alg<K>,
    alg2: &Alg<K>,
    s1: &System,
    s2: &System,
    c: &Candidate,
) -> Result<Pair, NoMemory>
    requires field { alg1.now.k ≡ alg2.now.k }
    requires first { HasForm (K.lawful alg1.now.k) alg1.now.f s1.now }
    requires second { HasForm (K.lawful alg2.now.k) alg2.now.f s2.now }
    requires alike { AreAlike s1.now s2.now }
    requires candidate { HasCandidateForm (K.lawful alg2.now.k) alg2.now.f s2.now c.now }
    ensures { IfOk result (IsPair (K.lawful alg1.now.k) alg1.now.f) }
{
    let _second = alg2;
    let x = pulled_element(alloc, alg1, s1, s2, c, &s2.x)?;
    let y = pulled_element(alloc, alg1, s1, s2, c, &s2.y)?;
    Ok(Pair { x, y })
}
