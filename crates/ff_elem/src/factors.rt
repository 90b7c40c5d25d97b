// Factors of an equation from an element that has no inverse.
ghost use Rattle.std.specs.Prelude.{◌≡◌, ◌<◌, length, IfOk};
ghost use Rattle.ff_theory.specs.Values.{plane_of, IsPlane};
ghost use Rattle.ff_elem.specs.Elem.{algebra_in, elem_of, IsElem};
ghost use Rattle.ff_elem.specs.Factors.{IsPartOf, AreFactors};

use crate::algebra::Alg;
use crate::elem::Elem;
use crate::euclid::Multiple;
use ff_alg::{FiniteField, NoMemory};
use ff_poly::{Plane, Poly};
use std::alloc::Global;

/// The normalised part of a polynomial that is not 0: its rows over the highest one, in lowest
/// terms.
fn normalised_part<K: FiniteField<E = u32>>(
    alloc: Global,
    k: &K,
    a: &Plane,
) -> Result<Plane, NoMemory>
    requires plane { IsPlane (K.elements k.now) a.now }
    requires nonzero { 0 < length a.now }
    ensures plane { IfOk result (IsPlane (K.elements k.now)) }
    ensures part { IfOk result (IsPartOf (K.elements k.now) a.now) }
{
    let rows = a.rows();
    let (_den, rows) = Poly::lowest(alloc, k, &rows[rows.len() - 1], rows)?;
    Ok(Plane::from_vec(k, rows))
}

/// The normalised parts of two polynomials that are not 0.
fn normalised_parts<K: FiniteField<E = u32>>(
    alloc: Global,
    k: &K,
    a: &Plane,
    b: &Plane,
) -> Result<(Plane, Plane), NoMemory>
    requires a { IsPlane (K.elements k.now) a.now }
    requires b { IsPlane (K.elements k.now) b.now }
    requires a_nonzero { 0 < length a.now }
    requires b_nonzero { 0 < length b.now }
    ensures first { IfOk result (λ r. IsPlane (K.elements k.now) r.0) }
    ensures second { IfOk result (λ r. IsPlane (K.elements k.now) r.1) }
    ensures first_part { IfOk result (λ r. IsPartOf (K.elements k.now) a.now r.0) }
    ensures second_part { IfOk result (λ r. IsPartOf (K.elements k.now) b.now r.1) }
{
    let g = normalised_part(alloc, k, a)?;
    let h = normalised_part(alloc, k, b)?;
    Ok((g, h))
}

impl<K: FiniteField<E = u32>> Alg<K> {
    /// Two factors of the equation, from an element that is not 0 and has no inverse: the equation
    /// is a polynomial in x times their product, and the first one divides the numerators of the
    /// element over k(x).
    /// Both are normalised and have positive degree in y.
    ///
    /// Euclid's algorithm on the equation and the numerators ends with 0; the value before it and
    /// the last factor are the two, but for factors in x.
    pub fn factors(&self, alloc: Global, a: &Elem) -> Result<(Plane, Plane), NoMemory>
        requires a { IsElem (K.lawful self.now.k) self.now.f a.now }
        requires nonzero { let L = K.lawful self.now.k in let f = self.now.f in
            ¬ (elem_of L f a.now ≡ (algebra_in L f).zero) }
        requires none { let L = K.lawful self.now.k in let f = self.now.f in
            let A = algebra_in L f in
            (b : A.carrier) → ¬ (A.mul (elem_of L f a.now) b ≡ A.one) }
        ensures factors { let F = K.elements self.now.k in
            IfOk result (λ r. AreFactors F self.now.f a.now.num r.0 r.1) }
    {
        let (before, last) = self.euclid(alloc, a.num.rows())?;
        normalised_parts(alloc, &self.k, &before.value, &last.factor)
    }
}
