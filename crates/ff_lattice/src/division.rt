// Remainders by a monic polynomial in x and y.
ghost use Rattle.std.specs.Prelude.{◌≡◌, ◌<◌, ◌≤◌, length, IfOk};
ghost use Rattle.ff_theory.specs.Values.{poly_of, IsPoly, polys_over};
ghost use Rattle.ff_theory.specs.Values.{plane_of, IsPlane, planes_over};
ghost use Rattle.ff_lattice.specs.Remainder.{IsMonic, IsCongruent};

use ff_alg::{FiniteField, NoMemory};
use ff_poly::{Plane, Poly, rows};
use std::alloc::Global;

/// The remainder of the product `a * b` by the monic `by`: `a * b = q * by + r` for some q, where r
/// has fewer rows than `by`. `NoMemory` is the only error.
pub fn product<K: FiniteField<E = u32>>(
    alloc: Global,
    k: &K,
    a: &Plane,
    b: &Plane,
    by: &Plane,
) -> Result<Plane, NoMemory>
    requires a { IsPlane (K.elements k.now) a.now }
    requires b { IsPlane (K.elements k.now) b.now }
    requires by { IsPlane (K.elements k.now) by.now }
    requires nonzero { 0 < length by.now }
    requires monic { let F = K.elements k.now in IsMonic (polys_over F) (plane_of F by.now) }
    ensures plane { IfOk result (IsPlane (K.elements k.now)) }
    ensures smaller { IfOk result (λ r. length r < length by.now) }
    ensures value { let F = K.elements k.now in let P = polys_over F in let Q = planes_over F in
        let product = Q.mul (plane_of F a.now) (plane_of F b.now) in
        IfOk result (λ r. IsCongruent P (plane_of F by.now) product (plane_of F r)) }
{
    remainder_of(alloc, k, a.mul(alloc, k, b)?, by)
}

/// The remainder of `a` by the monic `by`: `a = q * by + r` for some q, where r has fewer rows
/// than `by`. `NoMemory` is the only error.
pub fn remainder<K: FiniteField<E = u32>>(
    alloc: Global,
    k: &K,
    a: &Plane,
    by: &Plane,
) -> Result<Plane, NoMemory>
    requires a { IsPlane (K.elements k.now) a.now }
    requires by { IsPlane (K.elements k.now) by.now }
    requires nonzero { 0 < length by.now }
    requires monic { let F = K.elements k.now in IsMonic (polys_over F) (plane_of F by.now) }
    ensures plane { IfOk result (IsPlane (K.elements k.now)) }
    ensures smaller { IfOk result (λ r. length r < length by.now) }
    ensures value { let F = K.elements k.now in let P = polys_over F in
        IfOk result (λ r. IsCongruent P (plane_of F by.now) (plane_of F a.now) (plane_of F r)) }
{
    remainder_of(alloc, k, a.copy(alloc)?, by)
}

/// The remainder of `a` by the monic `by`, which takes `a`.
fn remainder_of<K: FiniteField<E = u32>>(
    alloc: Global,
    k: &K,
    a: Plane,
    by: &Plane,
) -> Result<Plane, NoMemory>
    requires a { IsPlane (K.elements k.now) a }
    requires by { IsPlane (K.elements k.now) by.now }
    requires nonzero { 0 < length by.now }
    requires monic { let F = K.elements k.now in IsMonic (polys_over F) (plane_of F by.now) }
    ensures plane { IfOk result (IsPlane (K.elements k.now)) }
    ensures smaller { IfOk result (λ r. length r < length by.now) }
    ensures value { let F = K.elements k.now in let P = polys_over F in
        IfOk result (λ r. IsCongruent P (plane_of F by.now) (plane_of F a) (plane_of F r)) }
{
    let one = Poly::one(alloc, k)?;
    let mut rest = a;
    'reduce: while rest.rows().len() >= by.rows().len() {
        rest = step(alloc, k, &one, &rest, by)?;
    }
    Ok(rest)
}

/// One step: `a = q * by + r` for some q, where r has fewer rows than `a`, and `one` is 1.
fn step<K: FiniteField<E = u32>>(
    alloc: Global,
    k: &K,
    one: &Poly,
    a: &Plane,
    by: &Plane,
) -> Result<Plane, NoMemory>
    requires one { IsPoly (K.elements k.now) one.now }
    requires one_value { let F = K.elements k.now in poly_of F one.now ≡ (polys_over F).one }
    requires a { IsPlane (K.elements k.now) a.now }
    requires by { IsPlane (K.elements k.now) by.now }
    requires nonzero { 0 < length by.now }
    requires monic { let F = K.elements k.now in IsMonic (polys_over F) (plane_of F by.now) }
    requires longer { length by.now ≤ length a.now }
    ensures plane { IfOk result (IsPlane (K.elements k.now)) }
    ensures smaller { IfOk result (λ r. length r < length a.now) }
    ensures value { let F = K.elements k.now in let P = polys_over F in
        IfOk result (λ r. IsCongruent P (plane_of F by.now) (plane_of F a.now) (plane_of F r)) }
{
    let (high, low) = (a.rows(), by.rows());
    let top = high.len() - 1;
    let t = high[top].neg(alloc, k)?;
    let rest = rows::combination(alloc, k, one, high, &t, top + 1 - low.len(), low)?;
    Ok(Plane::from_vec(k, rest))
}
