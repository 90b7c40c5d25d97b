// Whether the derivative in y of an equation has an inverse in its algebra.
ghost use Rattle.std.specs.Prelude.{◌≡◌, ◌<◌, length, IfOk, IfErr};
ghost use Rattle.ff_theory.specs.Algebra.{value_of};
ghost use Rattle.ff_theory.specs.Lawful.{lawful_field};
ghost use Rattle.ff_theory.specs.Values.{plane_of, planes_over, IsPlane};
ghost use Rattle.ff_elem.specs.Elem.{elem_of, algebra_in, ElemIs, IsElem};
ghost use Rattle.ff_data.specs.Orders.{IsSep, IsSeparable, y_derivative};
ghost use Rattle.ff_sep.specs.Faults.{IsCause};

use crate::parts::{element_of_plane, sep_of};
use ff_alg::{FiniteField, NoMemory};
use ff_data::Sep;
use ff_elem::{Alg, Elem, InvFault};
use ff_poly::Plane;
use std::alloc::Global;

/// Why an equation f is not separable in y.
#[derive(Drop)]
pub enum SepFault {
    /// The derivative of f in y is 0.
    Inseparable,
    /// f is a polynomial in x times g * h, both normalised and of positive y-degree, and g divides
    /// the derivative of f in y over k(x).
    Square { g: Plane, h: Plane },
    NoMemory,
}

impl From<NoMemory> for SepFault {
    ghost use Rattle.std.specs.Prelude.{◌≡◌};
    ghost use Rattle.ff_sep.specs.declared.separability.SepFault.{SepFault};

    ghost from_gives = { λ _ e. e ≡ SepFault.NoMemory };

    fn from(_fault: NoMemory) -> SepFault {
        SepFault::NoMemory
    }
}

/// The factors of an equation whose derivative in y has no inverse.
fn square<K: FiniteField<E = u32>>(alloc: Global, alg: &Alg<K>, value: &Elem) -> SepFault
    requires value { let F = K.elements alg.now.k in let L = K.lawful alg.now.k in
        let f = alg.now.f in
        ElemIs L f (value_of (lawful_field L) (plane_of F f) (y_derivative L f)) value.now }
    requires nonzero { let F = K.elements alg.now.k in let L = K.lawful alg.now.k in
        ¬ (y_derivative L alg.now.f ≡ (planes_over F).zero) }
    requires none { let L = K.lawful alg.now.k in let f = alg.now.f in
        let A = algebra_in L f in
        (b : A.carrier) → ¬ (A.mul (elem_of L f value.now) b ≡ A.one) }
    ensures { let L = K.lawful alg.now.k in IsCause L alg.now.f result }
{
    match alg.factors(alloc, value) {
        Ok((g, h)) => SepFault::Square { g, h },
        Err(NoMemory) => SepFault::NoMemory,
    }
}

/// d and b, or the factors, from the derivative in y as an element.
fn sep_or_square<K: FiniteField<E = u32>>(
    alloc: Global,
    alg: &Alg<K>,
    value: &Elem,
) -> Result<Sep, SepFault>
    requires value { let F = K.elements alg.now.k in let L = K.lawful alg.now.k in
        let f = alg.now.f in
        ElemIs L f (value_of (lawful_field L) (plane_of F f) (y_derivative L f)) value.now }
    requires nonzero { let F = K.elements alg.now.k in let L = K.lawful alg.now.k in
        ¬ (y_derivative L alg.now.f ≡ (planes_over F).zero) }
    ensures sep { let L = K.lawful alg.now.k in IfOk result (IsSep L alg.now.f) }
    ensures separable { let L = K.lawful alg.now.k in IfOk result (λ _. IsSeparable L alg.now.f) }
    ensures cause { let L = K.lawful alg.now.k in IfErr result (IsCause L alg.now.f) }
{
    match alg.inverse(alloc, value) {
        Ok(w) => Ok(sep_of(alloc, alg, &w)?),
        Err(InvFault::ZeroDivisor { u: _ }) => Err(square(alloc, alg, value)),
        Err(InvFault::NoMemory) => Err(SepFault::NoMemory),
    }
}

/// A polynomial d in x, not 0, and an element b of the finite power order, whose product with the
/// derivative of the monic form at y' is d.
///
/// `Inseparable` comes exactly where the derivative of the equation in y is 0, and `Square` exactly
/// where it is not 0 and has a common factor of positive y-degree with the equation.
pub fn separate<K: FiniteField<E = u32>>(alloc: Global, alg: &Alg<K>) -> Result<Sep, SepFault>
    ensures sep { let L = K.lawful alg.now.k in IfOk result (IsSep L alg.now.f) }
    ensures separable { let L = K.lawful alg.now.k in IfOk result (λ _. IsSeparable L alg.now.f) }
    ensures cause { let L = K.lawful alg.now.k in IfErr result (IsCause L alg.now.f) }
{
    let derivative = alg.f.dy(alloc, &alg.k)?;
    if derivative.rows().is_empty() {
        return Err(SepFault::Inseparable);
    }
    let value = element_of_plane(alloc, alg, &derivative)?;
    sep_or_square(alloc, alg, &value)
}
