// Elements of the field.
ghost use Rattle.std.specs.Prelude.{◌≡◌};
ghost use Rattle.ff_theory.specs.Ring.{IsElement};
ghost use Rattle.ff_theory.specs.Values.{IsPoly, leading};

use ff_alg::{FiniteField, is_zero};
use ff_poly::Poly;

/// The inverse, and 0 for 0.
pub fn inverse_or_zero<K: FiniteField<E = u32>>(k: &K, a: u32) -> u32
    requires { IsElement (K.elements k.now) a }
    ensures element { IsElement (K.elements k.now) result }
    ensures value { let F = K.elements k.now in
        ¬ (F.value a ≡ F.zero) → F.value result ≡ F.inverse (F.value a) }
{
    if is_zero(k, a) {
        return a;
    }
    k.inv(a)
}

/// The leading coefficient of a polynomial, and 0 for 0.
pub fn leading_coefficient<K: FiniteField<E = u32>>(k: &K, p: &Poly) -> u32
    requires { IsPoly (K.elements k.now) p.now }
    ensures element { IsElement (K.elements k.now) result }
    ensures value { let F = K.elements k.now in F.value result ≡ leading F p.now }
{
    let n = p.coeffs().len();
    if n == 0 {
        return k.zero();
    }
    p.coeff(k, n - 1)
}
