// Powers.
ghost use Rattle.std.specs.Prelude.{◌≡◌, IfOk};
ghost use Rattle.std.specs.List.{All};
ghost use Rattle.ff_theory.specs.Ring.{IsElement, power};
ghost use Rattle.ff_theory.specs.Values.{poly_of, IsPoly, polys_over};

use crate::Poly;
use ff_alg::{FiniteField, NoMemory};
use std::alloc::Global;

impl Poly {
    /// The power, by squaring.
    pub fn power<K: FiniteField<E = u32>>(
        &self,
        alloc: Global,
        k: &K,
        n: u32,
    ) -> Result<Poly, NoMemory>
        requires { All (IsElement (K.elements k.now)) self.now }
        ensures poly { IfOk result (IsPoly (K.elements k.now)) }
        ensures value { let F = K.elements k.now in let P = polys_over F in
            IfOk result (λ r. poly_of F r ≡ power P (poly_of F self.now) n) }
    {
        if n == 0 {
            return Poly::one(alloc, k);
        }
        let half = self.power(alloc, k, n / 2)?;
        let square = half.mul(alloc, k, &half)?;
        if n % 2 == 0 {
            return Ok(square);
        }
        self.mul(alloc, k, &square)
    }
}
