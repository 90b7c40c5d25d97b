// Reduction of a polynomial in x and y by an equation.
ghost use Rattle.std.specs.Prelude.{◌≡◌, ◌<◌, ◌≤◌, length, IfOk};
ghost use Rattle.ff_theory.specs.Values.{poly_of, IsPoly, polys_over, plane_of, IsPlane};
ghost use Rattle.ff_theory.specs.Planes.{IsPseudoDivision};

use crate::rows::combination_rows;
use crate::{Plane, Poly};
use ff_alg::{FiniteField, NoMemory};
use std::alloc::Global;

impl Plane {
    /// A pseudo-remainder by `f`, which is not 0: a polynomial c in x that is not 0, and a
    /// polynomial r with fewer rows than `f`, such that `c * self = q * f + r` for some q.
    pub fn reduce<K: FiniteField<E = u32>>(
        &self,
        alloc: Global,
        k: &K,
        f: &Plane,
    ) -> Result<(Poly, Plane), NoMemory>
        requires a { IsPlane (K.elements k.now) self.now }
        requires f { IsPlane (K.elements k.now) f.now }
        requires nonzero { 0 < length f.now }
        ensures factor { IfOk result (λ r. IsPoly (K.elements k.now) r.0) }
        ensures nonzero { IfOk result (λ r. 0 < length r.0) }
        ensures rest { IfOk result (λ r. IsPlane (K.elements k.now) r.1) }
        ensures smaller { IfOk result (λ r. length r.1 < length f.now) }
        ensures value { let F = K.elements k.now in
            IfOk result (λ r. IsPseudoDivision F.ring
            (poly_of F r.0) (plane_of F self.now) (plane_of F f.now) (plane_of F r.1)) }
    {
        let mut factor = Poly::one(alloc, k)?;
        let mut rest = Plane::from_rows(alloc, k, self.rows())?;
        'reduce: while rest.rows().len() >= f.rows().len() {
            let (c, next) = step(alloc, k, rest.rows(), f.rows())?;
            factor = c.mul(alloc, k, &factor)?;
            rest = next;
        }
        Ok((factor, rest))
    }
}

/// One step: c is not 0, and `c * a = q * f + r` for some q, where r has fewer rows than `a`.
fn step<K: FiniteField<E = u32>>(
    alloc: Global,
    k: &K,
    a: &[Poly],
    f: &[Poly],
) -> Result<(Poly, Plane), NoMemory>
    requires a { IsPlane (K.elements k.now) a.now }
    requires f { IsPlane (K.elements k.now) f.now }
    requires nonzero { 0 < length f.now }
    requires longer { length f.now ≤ length a.now }
    ensures factor { IfOk result (λ r. IsPoly (K.elements k.now) r.0) }
    ensures nonzero { IfOk result (λ r. 0 < length r.0) }
    ensures rest { IfOk result (λ r. IsPlane (K.elements k.now) r.1) }
    ensures smaller { IfOk result (λ r. length r.1 < length a.now) }
    ensures value { let F = K.elements k.now in
        IfOk result (λ r. IsPseudoDivision F.ring
        (poly_of F r.0) (plane_of F a.now) (plane_of F f.now) (plane_of F r.1)) }
{
    let (c, t) = multipliers(alloc, k, &a[a.len() - 1], &f[f.len() - 1])?;
    let rows = combination_rows(alloc, k, a.len() - 1, &c, a, &t, a.len() - f.len(), f)?;
    Ok((c, Plane::from_vec(k, rows)))
}

/// Polynomials c, which is not 0, and t with `c * top + t * lead = 0`, where `lead` is not 0; c is
/// 1 where `lead` is a constant.
pub fn multipliers<K: FiniteField<E = u32>>(
    alloc: Global,
    k: &K,
    top: &Poly,
    lead: &Poly,
) -> Result<(Poly, Poly), NoMemory>
    requires top { IsPoly (K.elements k.now) top.now }
    requires lead { IsPoly (K.elements k.now) lead.now }
    requires nonzero { 0 < length lead.now }
    ensures factor { IfOk result (λ r. IsPoly (K.elements k.now) r.0) }
    ensures nonzero { IfOk result (λ r. 0 < length r.0) }
    ensures multiple { IfOk result (λ r. IsPoly (K.elements k.now) r.1) }
    ensures value { let F = K.elements k.now in let P = polys_over F in
        IfOk result (λ r. P.add
        (P.mul (poly_of F r.0) (poly_of F top.now))
        (P.mul (poly_of F r.1) (poly_of F lead.now)) ≡ P.zero) }
{
    if lead.coeffs().len() == 1 {
        let inverse = k.inv(lead.coeffs()[0]);
        let multiple = Poly::product(alloc, k, top.coeffs(), &[k.neg(inverse)])?;
        return Ok((Poly::one(alloc, k)?, multiple));
    }
    Ok((lead.copy(alloc)?, top.neg(alloc, k)?))
}
