// A polynomial by p polynomials, p the characteristic.
ghost use Rattle.std.specs.Prelude.{◌≡◌, ℕ, ◌<◌, ◌+◌, ◌*◌, length, map, IfOk};
ghost use Rattle.std.specs.List.{All};
ghost use Rattle.ff_theory.specs.Ring.{IsElement, power};
ghost use Rattle.ff_theory.specs.Poly.{coeff};
ghost use Rattle.ff_theory.specs.Values.{poly_of, IsPoly, polys_over, polys_of, ArePolys};
ghost use Rattle.ff_theory.specs.Parts.{sum_of_parts};

use crate::Poly;
use ff_alg::{FiniteField, NoMemory};
use smallvec::SmallVec;
use std::alloc::Global;

impl Poly {
    /// The p polynomials `h_i` whose p-th powers give the polynomial, p the characteristic: it is
    /// the sum of the `x^i * h_i^p`.
    pub fn split_p<K: FiniteField<E = u32>>(
        &self,
        alloc: Global,
        k: &K,
    ) -> Result<Vec<Poly>, NoMemory>
        requires { IsPoly (K.elements k.now) self.now }
        ensures len { let F = K.elements k.now in
            IfOk result (λ r. length r.items ≡ F.characteristic) }
        ensures each { IfOk result (λ r. ArePolys (K.elements k.now) r.items) }
        ensures value { let F = K.elements k.now in let P = polys_over F in
            IfOk result (λ r. poly_of F self.now ≡
            sum_of_parts F.ring F.characteristic (coeff P (polys_of F r.items))) }
    {
        let p = k.characteristic() as usize;
        let mut parts = Vec::with_capacity(alloc, p)?;
        for i in 0..p {
            parts.push(part(alloc, k, self.coeffs(), i, p)?)?;
        }
        Ok(parts)
    }
}

/// The polynomial whose coefficients are the p-th roots of those at i, i + p, i + 2 p and so on.
fn part<K: FiniteField<E = u32>>(
    alloc: Global,
    k: &K,
    c: &[u32],
    i: usize,
    p: usize,
) -> Result<Poly, NoMemory>
    requires c { All (IsElement (K.elements k.now)) c.now }
    requires i { i < p }
    ensures poly { IfOk result (IsPoly (K.elements k.now)) }
    ensures value { let F = K.elements k.now in
        IfOk result (λ r. (j : ℕ) →
        power F.ring (coeff F.ring (map F.value r) j) F.characteristic ≡
        coeff F.ring (map F.value c.now) (i + j * p)) }
{
    let mut roots = SmallVec::new(alloc);
    let mut at = i;
    while at < c.len() {
        roots.push(k.root(c[at]))?;
        if c.len() - at <= p {
            return Ok(Poly::trim(k, roots));
        }
        at += p;
    }
    Ok(Poly::trim(k, roots))
}
