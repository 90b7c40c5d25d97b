// Monic polynomials and greatest common divisors.
ghost use Rattle.std.specs.Prelude.{◌≡◌, ◌<◌, length, IfOk};
ghost use Rattle.std.specs.List.{All};
ghost use Rattle.ff_theory.specs.Ring.{IsElement};
ghost use Rattle.ff_theory.specs.Divides.{IsGcd};
ghost use Rattle.ff_theory.specs.Values.{poly_of, IsPoly, polys_over, leading};
ghost use Rattle.ff_theory.specs.Monomial.{monomial};

use crate::Poly;
use crate::coefficients::scale;
use ff_alg::{FiniteField, NoMemory};
use std::alloc::Global;

impl Poly {
    /// The product with the constant `c`; the list is changed in place.
    pub(crate) fn times_constant<K: FiniteField<E = u32>>(self, k: &K, c: u32) -> Poly
        requires a { All (IsElement (K.elements k.now)) self }
        requires c { IsElement (K.elements k.now) c }
        ensures poly { IsPoly (K.elements k.now) result }
        ensures value { let F = K.elements k.now in let P = polys_over F in
            poly_of F result ≡ P.mul (monomial F.ring (F.value c) 0) (poly_of F self) }
    {
        let mut row = self.items;
        scale(k, row.as_mut_slice(), c);
        Poly::trim(k, row)
    }

    /// The multiple by a constant that has the leading coefficient `c`, which is not 0; 0 stays 0.
    pub(crate) fn with_leading<K: FiniteField<E = u32>>(self, k: &K, c: u32) -> Poly
        requires a { IsPoly (K.elements k.now) self }
        requires c { IsElement (K.elements k.now) c }
        ensures poly { IsPoly (K.elements k.now) result }
        ensures value { let F = K.elements k.now in let P = polys_over F in
            let factor = F.mul (F.value c) (F.inverse (leading F self)) in
            poly_of F result ≡ P.mul (monomial F.ring factor 0) (poly_of F self) }
    {
        let n = self.coeffs().len();
        if n == 0 {
            return self;
        }
        let factor = k.mul(c, k.inv(self.coeffs()[n - 1]));
        self.times_constant(k, factor)
    }

    /// The multiple by a constant that has the leading coefficient 1; 0 stays 0.
    pub fn monic<K: FiniteField<E = u32>>(&self, alloc: Global, k: &K) -> Result<Poly, NoMemory>
        requires { IsPoly (K.elements k.now) self.now }
        ensures poly { IfOk result (IsPoly (K.elements k.now)) }
        ensures value { let F = K.elements k.now in let P = polys_over F in
            let factor = F.inverse (leading F self.now) in
            IfOk result (λ r. poly_of F r ≡
            P.mul (monomial F.ring factor 0) (poly_of F self.now)) }
    {
        Ok(self.copy(alloc)?.with_leading(k, k.one()))
    }

    /// The greatest common divisor whose leading coefficient is 1, by Euclid's algorithm; it is 0
    /// only for 0 and 0.
    pub fn gcd<K: FiniteField<E = u32>>(
        &self,
        alloc: Global,
        k: &K,
        b: &Poly,
    ) -> Result<Poly, NoMemory>
        requires a { IsPoly (K.elements k.now) self.now }
        requires b { IsPoly (K.elements k.now) b.now }
        ensures poly { IfOk result (IsPoly (K.elements k.now)) }
        ensures gcd { let F = K.elements k.now in let P = polys_over F in
            IfOk result (λ r. IsGcd P (poly_of F self.now) (poly_of F b.now) (poly_of F r)) }
        ensures monic { let F = K.elements k.now in
            IfOk result (λ r. 0 < length r → leading F r ≡ F.one) }
    {
        let divisor = common_divisor(k, self.copy(alloc)?, b.copy(alloc)?);
        Ok(divisor.with_leading(k, k.one()))
    }
}

/// A greatest common divisor by Euclid's algorithm, whatever its leading coefficient.
pub fn common_divisor<K: FiniteField<E = u32>>(k: &K, a: Poly, b: Poly) -> Poly
    requires a { IsPoly (K.elements k.now) a }
    requires b { IsPoly (K.elements k.now) b }
    ensures poly { IsPoly (K.elements k.now) result }
    ensures gcd { let F = K.elements k.now in let P = polys_over F in
        IsGcd P (poly_of F a) (poly_of F b) (poly_of F result) }
{
    let (mut divisor, mut rest) = (a, b);
    while !rest.is_zero() {
        let next = divisor.into_remainder(k, &rest);
        divisor = rest;
        rest = next;
    }
    divisor
}
