// Elements of the finite power order by rows in powers of y'.
ghost use Rattle.std.specs.Prelude.{◌≡◌, ℕ, ◌<◌, ◌≤◌, ◌-◌, length, IfOk};
ghost use Rattle.ff_theory.specs.Ring.{power};
ghost use Rattle.ff_theory.specs.Poly.{coeff};
ghost use Rattle.ff_theory.specs.Division.{IsDivision};
ghost use Rattle.ff_theory.specs.Values.{poly_of, IsPoly, polys_over, polys_of, ArePolys};
ghost use Rattle.ff_theory.specs.Values.{plane_of, IsPlane};
ghost use Rattle.ff_charts.specs.Chart.{at_theta, InPowers};
ghost use Rattle.ff_elem.specs.Elem.{elem_of, IsElem};
ghost use Rattle.ff_data.specs.declared.order.Chart.TheVariants.{Finite};
ghost use Rattle.ff_data.specs.Orders.{chart_of};

use ff_alg::{FiniteField, NoMemory};
use ff_data::{leading, times_power};
use ff_elem::{Alg, Elem};
use ff_poly::{Plane, Poly};
use std::alloc::Global;

/// The quotient of a row by `den * lead^i`.
fn quotient_by<K: FiniteField<E = u32>>(
    alloc: Global,
    k: &K,
    row: &Poly,
    den: &Poly,
    lead: &Poly,
    i: usize,
) -> Result<Poly, NoMemory>
    requires row { IsPoly (K.elements k.now) row.now }
    requires den { IsPoly (K.elements k.now) den.now }
    requires lead { IsPoly (K.elements k.now) lead.now }
    requires den_nonzero { 0 < length den.now }
    requires lead_nonzero { 0 < length lead.now }
    ensures poly { IfOk result (IsPoly (K.elements k.now)) }
    ensures value { let F = K.elements k.now in let P = polys_over F in
        let by = P.mul (poly_of F den.now) (power P (poly_of F lead.now) i) in
        IfOk result (λ r. (s : P.carrier) ×
        IsDivision F.ring (poly_of F row.now) by (poly_of F r) s) }
{
    let by = times_power(alloc, k, den, lead, i)?;
    let (quotient, _rest) = row.divide(alloc, k, &by)?;
    Ok(quotient)
}

/// The quotient of each row by `den * lead^i`, i its index.
fn quotients_by<K: FiniteField<E = u32>>(
    alloc: Global,
    k: &K,
    rows: &[Poly],
    den: &Poly,
    lead: &Poly,
) -> Result<Vec<Poly>, NoMemory>
    requires rows { ArePolys (K.elements k.now) rows.now }
    requires den { IsPoly (K.elements k.now) den.now }
    requires lead { IsPoly (K.elements k.now) lead.now }
    requires den_nonzero { 0 < length den.now }
    requires lead_nonzero { 0 < length lead.now }
    ensures len { IfOk result (λ r. length r.items ≡ length rows.now) }
    ensures each { IfOk result (λ r. ArePolys (K.elements k.now) r.items) }
    ensures value { let F = K.elements k.now in let P = polys_over F in
        IfOk result (λ r. (i : ℕ) → i < length rows.now → (s : P.carrier) ×
        IsDivision F.ring (coeff P (polys_of F rows.now) i)
        (P.mul (poly_of F den.now) (power P (poly_of F lead.now) i))
        (coeff P (polys_of F r.items) i) s) }
{
    let n = rows.len();
    let mut quotients = Vec::with_capacity(alloc, n)?;
    for i in 0..n {
        quotients.push(quotient_by(alloc, k, &rows[i], den, lead, i)?)?;
    }
    Ok(quotients)
}

/// The rows in powers of y' of an element of the finite power order.
pub(crate) fn rows_at_monic<K: FiniteField<E = u32>>(
    alloc: Global,
    alg: &Alg<K>,
    w: &Elem,
) -> Result<Plane, NoMemory>
    requires w { IsElem (K.lawful alg.now.k) alg.now.f w.now }
    requires in_powers { let L = K.lawful alg.now.k in let f = alg.now.f in
        InPowers (chart_of L f Finite) (elem_of L f w.now) }
    ensures plane { IfOk result (IsPlane (K.elements alg.now.k)) }
    ensures rows { IfOk result (λ r. length r ≤ length alg.now.f - 1) }
    ensures value { let F = K.elements alg.now.k in let L = K.lawful alg.now.k in
        let f = alg.now.f in
        IfOk result (λ r. elem_of L f w.now ≡ at_theta (chart_of L f Finite) (plane_of F r)) }
{
    let quotients = quotients_by(alloc, &alg.k, w.num.rows(), &w.den, leading(alg))?;
    Ok(Plane::from_vec(&alg.k, quotients))
}
