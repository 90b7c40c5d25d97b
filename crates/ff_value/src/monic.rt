// Elements over a polynomial in x, with rows in powers of y'.
ghost use Rattle.std.specs.Prelude.{◌≡◌, ℕ, ◌-◌, ◌<◌, ◌≤◌, length, IfOk, IfSome, IfNone};
ghost use Rattle.ff_theory.specs.Ring.{power};
ghost use Rattle.ff_theory.specs.Lawful.{lawful_field};
ghost use Rattle.ff_theory.specs.Poly.{coeff};
ghost use Rattle.ff_theory.specs.Values.{poly_of, IsPoly, polys_over, polys_of, ArePolys};
ghost use Rattle.ff_theory.specs.Values.{plane_of, IsPlane, planes_over};
ghost use Rattle.ff_theory.specs.Planes.{row_of};
ghost use Rattle.ff_charts.specs.Chart.{at_u, at_theta, InPowers};
ghost use Rattle.ff_elem.specs.Elem.{algebra_in, elem_of, IsElem, ElemIs};
ghost use Rattle.ff_data.specs.declared.order.Chart.TheVariants.{Finite};
ghost use Rattle.ff_data.specs.Orders.{chart_of, y_degree};
ghost use Rattle.ff_data.specs.Numerators.{IsNumeratorOver};

use ff_alg::{FiniteField, NoMemory};
use ff_data::{leading, quotients_by, times_power};
use ff_elem::{Alg, Elem};
use ff_poly::rows::multiples;
use ff_poly::{Plane, Poly};
use std::alloc::Global;

/// The product of an element and a polynomial in x.
pub(crate) fn times_poly<K: FiniteField<E = u32>>(
    alloc: Global,
    alg: &Alg<K>,
    c: &Poly,
    w: &Elem,
) -> Result<Elem, NoMemory>
    requires c { IsPoly (K.elements alg.now.k) c.now }
    requires w { IsElem (K.lawful alg.now.k) alg.now.f w.now }
    ensures element { let L = K.lawful alg.now.k in IfOk result (IsElem L alg.now.f) }
    ensures value { let F = K.elements alg.now.k in let L = K.lawful alg.now.k in
        let f = alg.now.f in let A = algebra_in L f in
        IfOk result (λ r. elem_of L f r ≡
        A.mul (at_u (chart_of L f Finite) (poly_of F c.now)) (elem_of L f w.now)) }
{
    let rows = multiples(alloc, &alg.k, c, w.num.rows())?;
    alg.from_parts(alloc, &Plane::from_vec(&alg.k, rows), &w.den)
}

/// Row i times the power of `base` whose exponent is the number of rows less i.
fn raised_rows<K: FiniteField<E = u32>>(
    alloc: Global,
    k: &K,
    rows: &[Poly],
    base: &Poly,
) -> Result<Vec<Poly>, NoMemory>
    requires rows { ArePolys (K.elements k.now) rows.now }
    requires base { IsPoly (K.elements k.now) base.now }
    ensures len { IfOk result (λ r. length r.items ≡ length rows.now) }
    ensures each { IfOk result (λ r. ArePolys (K.elements k.now) r.items) }
    ensures value { let F = K.elements k.now in let P = polys_over F in
        IfOk result (λ r. (i : ℕ) → i < length rows.now → coeff P (polys_of F r.items) i ≡
        P.mul (coeff P (polys_of F rows.now) i) (power P (poly_of F base.now)
        (length rows.now - i))) }
{
    let n = rows.len();
    let mut list = Vec::with_capacity(alloc, n)?;
    for i in 0..n {
        list.push(times_power(alloc, k, &rows[i], base, n - i)?)?;
    }
    Ok(list)
}

/// A polynomial in x whose product with the element is a plane at x and y', and this plane.
pub(crate) fn over_monic<K: FiniteField<E = u32>>(
    alloc: Global,
    alg: &Alg<K>,
    w: &Elem,
) -> Result<(Poly, Plane), NoMemory>
    requires { IsElem (K.lawful alg.now.k) alg.now.f w.now }
    ensures den { IfOk result (λ r. IsPoly (K.elements alg.now.k) r.0) }
    ensures nonzero { IfOk result (λ r. 0 < length r.0) }
    ensures plane { IfOk result (λ r. IsPlane (K.elements alg.now.k) r.1) }
    ensures few { let L = K.lawful alg.now.k in
        IfOk result (λ r. length r.1 ≤ y_degree L alg.now.f) }
    ensures over { let L = K.lawful alg.now.k in let f = alg.now.f in
        IfOk result (λ r. IsNumeratorOver L f Finite r.0 r.1 (elem_of L f w.now)) }
{
    let lead = leading(alg);
    let den = times_power(alloc, &alg.k, &w.den, lead, alg.f.rows().len() - 1)?;
    let rows = raised_rows(alloc, &alg.k, w.num.rows(), lead)?;
    Ok((den, Plane::from_vec(&alg.k, rows)))
}

/// The plane whose product with the polynomial is the given one, if there is one.
fn exact_quotient<K: FiniteField<E = u32>>(
    alloc: Global,
    k: &K,
    a: &Plane,
    by: &Poly,
) -> Result<Option<Plane>, NoMemory>
    requires a { IsPlane (K.elements k.now) a.now }
    requires by { IsPoly (K.elements k.now) by.now }
    requires nonzero { 0 < length by.now }
    ensures plane { let F = K.elements k.now in
        IfOk result (λ o. IfSome o (IsPlane F)) }
    ensures few { IfOk result (λ o. IfSome o (λ r. length r ≤ length a.now)) }
    ensures some { let F = K.elements k.now in let Q = planes_over F in
        IfOk result (λ o. IfSome o (λ r. plane_of F a.now ≡
        Q.mul (row_of F.ring (poly_of F by.now)) (plane_of F r))) }
    ensures none { let F = K.elements k.now in let Q = planes_over F in
        IfOk result (λ o. IfNone o ((N : Q.carrier) → ¬ (plane_of F a.now ≡
        Q.mul (row_of F.ring (poly_of F by.now)) N))) }
{
    let quotients = quotients_by(alloc, k, a, by)?;
    if quotients.scale(alloc, k, by)?.same(k, a) {
        Ok(Some(quotients))
    } else {
        Ok(None)
    }
}

/// The rows in powers of y' of an element of the finite power order; None where it is not in it.
pub(crate) fn rows_at_monic<K: FiniteField<E = u32>>(
    alloc: Global,
    alg: &Alg<K>,
    w: &Elem,
) -> Result<Option<Plane>, NoMemory>
    requires { IsElem (K.lawful alg.now.k) alg.now.f w.now }
    ensures plane { let F = K.elements alg.now.k in
        IfOk result (λ o. IfSome o (IsPlane F)) }
    ensures few { let L = K.lawful alg.now.k in
        IfOk result (λ o. IfSome o (λ r. length r ≤ y_degree L alg.now.f)) }
    ensures some { let F = K.elements alg.now.k in let L = K.lawful alg.now.k in
        let f = alg.now.f in IfOk result (λ o. IfSome o (λ r. elem_of L f w.now ≡
        at_theta (chart_of L f Finite) (plane_of F r))) }
    ensures none { let L = K.lawful alg.now.k in let f = alg.now.f in
        IfOk result (λ o. IfNone o (¬ InPowers (chart_of L f Finite) (elem_of L f w.now))) }
{
    let (den, rows) = over_monic(alloc, alg, w)?;
    exact_quotient(alloc, &alg.k, &rows, &den)
}
