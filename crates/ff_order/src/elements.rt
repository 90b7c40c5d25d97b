// The elements theta of the two charts.
ghost use Rattle.std.specs.Prelude.{◌≡◌, IfOk};
ghost use Rattle.ff_theory.specs.Ring.{power};
ghost use Rattle.ff_theory.specs.Lawful.{lawful_field};
ghost use Rattle.ff_theory.specs.Values.{poly_of, IsPoly, plane_of, IsPlane};
ghost use Rattle.ff_theory.specs.Planes.{row_of};
ghost use Rattle.ff_theory.specs.Algebra.{value_of};
ghost use Rattle.ff_charts.specs.FieldCharts.{leading_row, t_of};
ghost use Rattle.ff_elem.specs.Elem.{ElemIs, algebra_in};
ghost use Rattle.ff_data.specs.declared.order.Chart.TheVariants.{Finite, Infinite};
ghost use Rattle.ff_data.specs.Orders.{chart_of};

use ff_alg::{FiniteField, NoMemory};
use ff_data::{equation_at_infinity, leading, variable_power};
use ff_elem::{Alg, Elem};
use ff_poly::rows::single;
use ff_poly::{Plane, Poly};
use std::alloc::Global;

/// A polynomial in x as one in x and y.
fn as_plane<K: FiniteField<E = u32>>(alloc: Global, k: &K, p: Poly) -> Result<Plane, NoMemory>
    requires { IsPoly (K.elements k.now) p }
    ensures plane { IfOk result (IsPlane (K.elements k.now)) }
    ensures value { let F = K.elements k.now in
        IfOk result (λ r. plane_of F r ≡ row_of F.ring (poly_of F p)) }
{
    let rows = single(alloc, p)?;
    Ok(Plane::from_vec(k, rows))
}

/// The leading row of the equation as an element.
fn lead_element<K: FiniteField<E = u32>>(alloc: Global, alg: &Alg<K>) -> Result<Elem, NoMemory>
    ensures { let F = K.elements alg.now.k in let L = K.lawful alg.now.k in let f = alg.now.f in
        let D = lawful_field L in let g = plane_of F f in
        IfOk result (ElemIs L f (value_of D g (row_of F.ring (leading_row D g)))) }
{
    let num = as_plane(alloc, &alg.k, leading(alg).copy(alloc)?)?;
    let one = Poly::one(alloc, &alg.k)?;
    alg.from_parts(alloc, &num, &one)
}

/// The element y'.
pub(crate) fn finite_theta<K: FiniteField<E = u32>>(
    alloc: Global,
    alg: &Alg<K>,
) -> Result<Elem, NoMemory>
    ensures { let L = K.lawful alg.now.k in let f = alg.now.f in
        IfOk result (ElemIs L f (chart_of L f Finite).theta) }
{
    let lead = lead_element(alloc, alg)?;
    let y = alg.y(alloc)?;
    alg.mul(alloc, &lead, &y)
}

/// The element `1 / x^e`.
fn inverse_power<K: FiniteField<E = u32>>(
    alloc: Global,
    alg: &Alg<K>,
    e: u32,
) -> Result<Elem, NoMemory>
    ensures { let F = K.elements alg.now.k in let L = K.lawful alg.now.k in let f = alg.now.f in
        IfOk result (ElemIs L f (power (algebra_in L f) (t_of (lawful_field L) (plane_of F f)) e)) }
{
    let num = as_plane(alloc, &alg.k, Poly::one(alloc, &alg.k)?)?;
    let den = variable_power(alloc, &alg.k, e as usize)?;
    alg.from_parts(alloc, &num, &den)
}

/// The element `y' / x^e`, with e the slope.
pub(crate) fn infinite_theta<K: FiniteField<E = u32>>(
    alloc: Global,
    alg: &Alg<K>,
) -> Result<Elem, NoMemory>
    ensures { let L = K.lawful alg.now.k in let f = alg.now.f in
        IfOk result (ElemIs L f (chart_of L f Infinite).theta) }
{
    let (e, _equation) = equation_at_infinity(alloc, alg)?;
    let t = inverse_power(alloc, alg, e)?;
    let y = finite_theta(alloc, alg)?;
    alg.mul(alloc, &t, &y)
}
