// The quotients at infinity of an element, and their reversals.
ghost use Rattle.std.specs.Prelude.{◌≡◌, ℕ, ◌-◌, ◌<◌, ◌≤◌, length, IfOk, IfSome, IfNone};
ghost use Rattle.ff_theory.specs.Poly.{coeff};
ghost use Rattle.ff_theory.specs.Reversal.{reversal};
ghost use Rattle.ff_theory.specs.Values.{poly_of, IsPoly, polys_over, polys_of, ArePolys};
ghost use Rattle.ff_theory.specs.Values.{plane_of, IsPlane, x_size};
ghost use Rattle.ff_elem.specs.Elem.{algebra_in, elem_of, IsElem, ElemIs, x_in};
ghost use Rattle.ff_data.specs.declared.order.Chart.TheVariants.{Infinite};
ghost use Rattle.ff_data.specs.Orders.{chart_of, y_degree};
ghost use Rattle.ff_value.specs.Value.{AreQuotientsOver, HasQuotients, IsNear, IsFar};

use crate::monic::{over_monic, times_poly};
use ff_alg::{FiniteField, NoMemory};
use ff_common::slope_at_infinity;
use ff_data::{raise, raised_quotients, reversals, variable_power};
use ff_elem::{Alg, Elem};
use ff_poly::rows::width;
use ff_poly::{Plane, Poly};
use std::alloc::Global;

/// The product with x.
fn times_x<K: FiniteField<E = u32>>(alloc: Global, alg: &Alg<K>, w: &Elem) -> Result<Elem, NoMemory>
    requires { IsElem (K.lawful alg.now.k) alg.now.f w.now }
    ensures { let L = K.lawful alg.now.k in let f = alg.now.f in let A = algebra_in L f in
        IfOk result (ElemIs L f (A.mul (x_in L f) (elem_of L f w.now))) }
{
    let x = variable_power(alloc, &alg.k, 1)?;
    times_poly(alloc, alg, &x, w)
}

/// The quotients at infinity of the plane over `den`.
fn quotients_over<K: FiniteField<E = u32>>(
    alloc: Global,
    alg: &Alg<K>,
    den: &Poly,
    plane: &Plane,
) -> Result<Vec<Poly>, NoMemory>
    requires den { IsPoly (K.elements alg.now.k) den.now }
    requires nonzero { 0 < length den.now }
    requires plane { IsPlane (K.elements alg.now.k) plane.now }
    requires few { length plane.now ≤ y_degree (K.lawful alg.now.k) alg.now.f }
    ensures { let F = K.elements alg.now.k in let L = K.lawful alg.now.k in let f = alg.now.f in
        IfOk result (λ r. AreQuotientsOver L f den.now (plane_of F plane.now) r.items) }
{
    let by = raise(alloc, &alg.k, den, 1)?;
    let e = slope_at_infinity(alloc, alg)?;
    raised_quotients(alloc, &alg.k, plane.rows(), 0, e, &by)
}

/// The quotients at infinity of an element.
fn quotients_at_infinity<K: FiniteField<E = u32>>(
    alloc: Global,
    alg: &Alg<K>,
    w: &Elem,
) -> Result<Vec<Poly>, NoMemory>
    requires { IsElem (K.lawful alg.now.k) alg.now.f w.now }
    ensures { let L = K.lawful alg.now.k in let f = alg.now.f in
        IfOk result (λ r. HasQuotients L f (elem_of L f w.now) r.items) }
{
    let (den, plane) = over_monic(alloc, alg, w)?;
    quotients_over(alloc, alg, &den, &plane)
}

/// The plane of the reversals up to t^(h - 1) of the rows; None where a row is longer.
fn short_reversals<K: FiniteField<E = u32>>(
    alloc: Global,
    k: &K,
    rows: &[Poly],
    h: usize,
) -> Result<Option<Plane>, NoMemory>
    requires rows { ArePolys (K.elements k.now) rows.now }
    requires positive { 0 < h }
    ensures plane { let F = K.elements k.now in
        IfOk result (λ o. IfSome o (IsPlane F)) }
    ensures few { IfOk result (λ o. IfSome o (λ r. length r ≤ length rows.now)) }
    ensures short { IfOk result (λ o. IfSome o (λ _. x_size rows.now ≤ h)) }
    ensures some { let F = K.elements k.now in let P = polys_over F in
        IfOk result (λ o. IfSome o (λ r. (i : ℕ) → i < length rows.now →
        coeff P (plane_of F r).coeffs i ≡
        reversal F.ring (h - 1) (coeff P (polys_of F rows.now) i))) }
    ensures none { IfOk result (λ o. IfNone o (h < x_size rows.now)) }
{
    if width(rows) > h {
        return Ok(None);
    }
    let list = reversals(alloc, k, rows, h - 1)?;
    Ok(Some(Plane::from_vec(k, list)))
}

/// The rows of d times the element in powers of theta at infinity, modulo t * d, for a power d of
/// t; None where d times the element is not in the power order. They are the reversals of the
/// quotients at infinity of x times the element.
pub(crate) fn rows_at_infinity<K: FiniteField<E = u32>>(
    alloc: Global,
    alg: &Alg<K>,
    d: &Poly,
    w: &Elem,
) -> Result<Option<Plane>, NoMemory>
    requires d { IsPoly (K.elements alg.now.k) d.now }
    requires modulus { let F = K.elements alg.now.k in let L = K.lawful alg.now.k in
        (chart_of L alg.now.f Infinite).IsModulus (poly_of F d.now) }
    requires w { IsElem (K.lawful alg.now.k) alg.now.f w.now }
    ensures some { let L = K.lawful alg.now.k in let f = alg.now.f in
        IfOk result (λ o. IfSome o (IsNear L f Infinite d.now (elem_of L f w.now))) }
    ensures none { let L = K.lawful alg.now.k in let f = alg.now.f in
        IfOk result (λ o. IfNone o (IsFar L f Infinite d.now (elem_of L f w.now))) }
{
    let scaled = times_x(alloc, alg, w)?;
    let quotients = quotients_at_infinity(alloc, alg, &scaled)?;
    short_reversals(alloc, &alg.k, &quotients, d.coeffs().len())
}
