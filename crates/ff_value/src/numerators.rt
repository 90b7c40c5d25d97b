// The rows of d times an element in powers of theta, from which its value is read.
ghost use Rattle.std.specs.Prelude.{◌≡◌, ◌<◌, length, IfOk, IfSome, IfNone};
ghost use Rattle.ff_theory.specs.Values.{poly_of, IsPoly};
ghost use Rattle.ff_charts.specs.Chart.{at_u, InPowers};
ghost use Rattle.ff_elem.specs.Elem.{algebra_in, elem_of, IsElem};
ghost use Rattle.ff_data.specs.declared.order.Chart.TheVariants.{Finite, Infinite};
ghost use Rattle.ff_data.specs.Orders.{chart_of};
ghost use Rattle.ff_value.specs.Value.{IsNear, IsFar};

use crate::infinite::rows_at_infinity;
use crate::monic::{rows_at_monic, times_poly};
use ff_alg::{FiniteField, NoMemory};
use ff_data::Chart;
use ff_elem::{Alg, Elem};
use ff_poly::{Plane, Poly};
use std::alloc::Global;

/// The rows of d times the element in powers of y'.
fn finite_rows<K: FiniteField<E = u32>>(
    alloc: Global,
    alg: &Alg<K>,
    d: &Poly,
    w: &Elem,
) -> Result<Option<Plane>, NoMemory>
    requires d { IsPoly (K.elements alg.now.k) d.now }
    requires w { IsElem (K.lawful alg.now.k) alg.now.f w.now }
    ensures some { let L = K.lawful alg.now.k in let f = alg.now.f in
        IfOk result (λ o. IfSome o (IsNear L f Finite d.now (elem_of L f w.now))) }
    ensures none { let L = K.lawful alg.now.k in let f = alg.now.f in
        IfOk result (λ o. IfNone o (IsFar L f Finite d.now (elem_of L f w.now))) }
{
    let scaled = times_poly(alloc, alg, d, w)?;
    rows_at_monic(alloc, alg, &scaled)
}

/// The rows of d times the element in powers of theta, at infinity modulo t * d; None where d times
/// the element is not in the power order.
pub(crate) fn rows_of<K: FiniteField<E = u32>>(
    alloc: Global,
    alg: &Alg<K>,
    chart: Chart,
    d: &Poly,
    w: &Elem,
) -> Result<Option<Plane>, NoMemory>
    requires d { IsPoly (K.elements alg.now.k) d.now }
    requires modulus { let F = K.elements alg.now.k in let L = K.lawful alg.now.k in
        (chart_of L alg.now.f chart).IsModulus (poly_of F d.now) }
    requires w { IsElem (K.lawful alg.now.k) alg.now.f w.now }
    ensures some { let L = K.lawful alg.now.k in let f = alg.now.f in
        IfOk result (λ o. IfSome o (IsNear L f chart d.now (elem_of L f w.now))) }
    ensures none { let L = K.lawful alg.now.k in let f = alg.now.f in
        IfOk result (λ o. IfNone o (IsFar L f chart d.now (elem_of L f w.now))) }
{
    match chart {
        Chart::Finite => finite_rows(alloc, alg, d, w),
        Chart::Infinite => rows_at_infinity(alloc, alg, d, w),
    }
}
