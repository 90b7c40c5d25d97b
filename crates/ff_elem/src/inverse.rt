// Inverses, and divisors of zero.
ghost use Rattle.std.specs.Prelude.{◌≡◌, IfOk, IfErr};
ghost use Rattle.ff_elem.specs.Elem.{algebra_in, elem_of, IsElem};
ghost use Rattle.ff_elem.specs.Euclid.{IsEnd};
ghost use Rattle.ff_elem.specs.Inverse.{DividesZero, HasNoInverse};

use crate::algebra::Alg;
use crate::elem::Elem;
use crate::euclid::Multiple;
use ff_alg::{FiniteField, NoMemory};
use std::alloc::Global;

/// Why there is no inverse.
#[derive(Drop)]
pub enum InvFault {
    /// The element is a divisor of zero: its product with `u`, which is not 0, is 0.
    ZeroDivisor { u: Elem },
    /// Memory ran out, or a length passed usize.
    NoMemory,
}

impl From<NoMemory> for InvFault {
    ghost use Rattle.std.specs.Prelude.{◌≡◌};
    ghost use Rattle.ff_elem.specs.declared.inverse.InvFault.{InvFault};

    ghost from_gives = { λ _ e. e ≡ InvFault.NoMemory };

    fn from(_fault: NoMemory) -> InvFault {
        InvFault::NoMemory
    }
}

impl<K: FiniteField<E = u32>> Alg<K> {
    /// The inverse, by Euclid's algorithm on the equation and the element.
    ///
    /// `ZeroDivisor` comes exactly where there is none, with a `u` that is not 0 and whose product
    /// with `a` is 0. `NoMemory` comes only where memory runs out or a length passes usize.
    pub fn inverse(&self, alloc: Global, a: &Elem) -> Result<Elem, InvFault>
        requires { IsElem (K.lawful self.now.k) self.now.f a.now }
        ensures element { let L = K.lawful self.now.k in IfOk result (IsElem L self.now.f) }
        ensures inverse { let L = K.lawful self.now.k in let f = self.now.f in
            let A = algebra_in L f in
            IfOk result (λ r. A.mul (elem_of L f r) (elem_of L f a.now) ≡ A.one) }
        ensures none { let L = K.lawful self.now.k in
            IfErr result (HasNoInverse L self.now.f a.now) }
        ensures divisor { let L = K.lawful self.now.k in
            IfErr result (DividesZero L self.now.f a.now) }
    {
        let (_before, last) = self.euclid(alloc, a.num.rows())?;
        self.inverse_by(alloc, a, &last)
    }

    /// The inverse of `a` from a multiple of its numerators whose value has one row at most.
    fn inverse_by(&self, alloc: Global, a: &Elem, last: &Multiple) -> Result<Elem, InvFault>
        requires a { IsElem (K.lawful self.now.k) self.now.f a.now }
        requires last { IsEnd (K.lawful self.now.k) self.now.f a.now.num last.now }
        ensures element { let L = K.lawful self.now.k in IfOk result (IsElem L self.now.f) }
        ensures inverse { let L = K.lawful self.now.k in let f = self.now.f in
            let A = algebra_in L f in
            IfOk result (λ r. A.mul (elem_of L f r) (elem_of L f a.now) ≡ A.one) }
        ensures none { let L = K.lawful self.now.k in
            IfErr result (HasNoInverse L self.now.f a.now) }
        ensures divisor { let L = K.lawful self.now.k in
            IfErr result (DividesZero L self.now.f a.now) }
    {
        let value = last.value.rows();
        if value.is_empty() {
            let u = self.from_plane(alloc, &last.factor)?;
            return Err(InvFault::ZeroDivisor { u });
        }
        let num = last.factor.scale(alloc, &self.k, &a.den)?;
        let inverse = self.from_parts(alloc, &num, &value[0])?;
        Ok(inverse)
    }
}
