// Elements from their coordinates over a polynomial in z.
ghost use Rattle.std.specs.Prelude.{◌≡◌, length, IfOk, IfSome};
ghost use Rattle.ff_theory.specs.Values.{IsPoly, ArePolys};
ghost use Rattle.ff_elem.specs.Elem.{IsElem};
ghost use Rattle.ff_data.specs.Systems.{HasForm};

use ff_alg::{FiniteField, NoMemory};
use ff_data::{System, in_ring, value_of_poly};
use ff_elem::{Alg, Elem, InvFault};
use ff_poly::Poly;
use std::alloc::Global;

/// The product of an element and the one with the coordinates c.
fn times_ring<K: FiniteField<E = u32>>(
    alloc: Global,
    alg: &Alg<K>,
    s: &System,
    a: &Elem,
    c: &[Poly],
) -> Result<Elem, NoMemory>
    requires form { HasForm (K.lawful alg.now.k) alg.now.f s.now }
    requires a { IsElem (K.lawful alg.now.k) alg.now.f a.now }
    requires c { ArePolys (K.elements alg.now.k) c.now }
    requires count { length c.now ≡ s.now.e }
    ensures { IfOk result (IsElem (K.lawful alg.now.k) alg.now.f) }
{
    let w = in_ring(alloc, alg, s, c)?;
    alg.mul(alloc, a, &w)
}

/// The product of the element with the coordinates c and the inverse of q(z); None exactly where
/// q(z) has no inverse. `NoMemory` is the only error.
pub fn fraction<K: FiniteField<E = u32>>(
    alloc: Global,
    alg: &Alg<K>,
    s: &System,
    q: &Poly,
    c: &[Poly],
) -> Result<Option<Elem>, NoMemory>
    requires form { HasForm (K.lawful alg.now.k) alg.now.f s.now }
    requires q { IsPoly (K.elements alg.now.k) q.now }
    requires c { ArePolys (K.elements alg.now.k) c.now }
    requires count { length c.now ≡ s.now.e }
    ensures { IfOk result (λ o. IfSome o (IsElem (K.lawful alg.now.k) alg.now.f)) }
{
    let divisor = value_of_poly(alloc, alg, &s.z, q)?;
    match alg.inverse(alloc, &divisor) {
        Ok(inverse) => {
            let w = times_ring(alloc, alg, s, &inverse, c)?;
            Ok(Some(w))
        },
        Err(InvFault::ZeroDivisor { u: _divisor }) => Ok(None),
        Err(InvFault::NoMemory) => Err(NoMemory),
    }
}
