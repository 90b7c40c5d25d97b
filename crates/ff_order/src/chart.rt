// The rows of a chart of E(f), from which the descent starts.
ghost use Rattle.std.specs.Prelude.{◌≡◌, ℕ, ◌+◌, ◌^◌, ◌<◌, ◌≤◌, length, IfOk};
ghost use Rattle.ff_theory.specs.Ring.{power};
ghost use Rattle.ff_theory.specs.Poly.{coeff};
ghost use Rattle.ff_theory.specs.Monomial.{variable};
ghost use Rattle.ff_theory.specs.Reversal.{reversal};
ghost use Rattle.ff_theory.specs.Values.{poly_of, IsPoly, polys_over, polys_of, ArePolys};
ghost use Rattle.ff_theory.specs.Values.{plane_of, IsPlane};
ghost use Rattle.ff_charts.specs.Lattice.{IsResidue};
ghost use Rattle.ff_elem.specs.Elem.{elem_of, ElemIs};
ghost use Rattle.ff_data.specs.declared.order.Chart.TheVariants.{Finite, Infinite};
ghost use Rattle.ff_data.specs.Orders.{IsSep, chart_of};
ghost use Rattle.ff_order.specs.Rows.{IsChartRows};

use crate::elements::{finite_theta, infinite_theta};
use crate::infinite::quotients_at_infinity;
use crate::monic::rows_at_monic;
use ff_alg::{FiniteField, NoMemory};
use ff_data::{Chart, Sep, equation_at_infinity, monic_of, reversals, variable_power};
use ff_elem::{Alg, Elem};
use ff_lattice::residues;
use ff_poly::rows::width;
use ff_poly::{Plane, Poly};
use std::alloc::Global;

/// The equation of theta, a modulus d of the chart, and the residue modulo d of an element of the
/// power order whose product with the different is d.
#[derive(Drop)]
pub(crate) struct ChartRows {
    pub(crate) equation: Plane,
    pub(crate) d: Poly,
    pub(crate) multiple: Plane,
}

/// The residue modulo `sep.d` of `sep.b`, by rows in powers of y'.
fn finite_multiple<K: FiniteField<E = u32>>(
    alloc: Global,
    alg: &Alg<K>,
    sep: &Sep,
) -> Result<Plane, NoMemory>
    requires { IsSep (K.lawful alg.now.k) alg.now.f sep.now }
    ensures plane { IfOk result (IsPlane (K.elements alg.now.k)) }
    ensures residue { let F = K.elements alg.now.k in let L = K.lawful alg.now.k in
        let f = alg.now.f in
        IfOk result (λ r. IsResidue (chart_of L f Finite) (poly_of F sep.now.d)
        (elem_of L f sep.now.b) (plane_of F r)) }
{
    let rows = rows_at_monic(alloc, alg, &sep.b)?;
    residues(alloc, &alg.k, &rows, &sep.d)
}

/// The rows of the finite chart.
fn finite_rows<K: FiniteField<E = u32>>(
    alloc: Global,
    alg: &Alg<K>,
    sep: &Sep,
) -> Result<ChartRows, NoMemory>
    requires { IsSep (K.lawful alg.now.k) alg.now.f sep.now }
    ensures rows { let L = K.lawful alg.now.k in IfOk result (IsChartRows L alg.now.f Finite) }
    ensures d { IfOk result (λ r. r.d ≡ sep.now.d) }
{
    let equation = monic_of(alloc, alg)?;
    let multiple = finite_multiple(alloc, alg, sep)?;
    let d = sep.d.copy(alloc)?;
    Ok(ChartRows {
        equation,
        d,
        multiple,
    })
}

/// A power of t whose exponent is greater than `m`, and the reversals of the quotients, by rows in
/// powers of theta.
fn infinite_multiple<K: FiniteField<E = u32>>(
    alloc: Global,
    k: &K,
    quotients: &[Poly],
    m: usize,
) -> Result<(Poly, Plane), NoMemory>
    requires rows { ArePolys (K.elements k.now) quotients.now }
    requires room { m + 1 < 2 ^ 64 }
    ensures d { IfOk result (λ r. IsPoly (K.elements k.now) r.0) }
    ensures d_value { let F = K.elements k.now in let P = polys_over F in
        IfOk result (λ r. poly_of F r.0 ≡ power P (variable F.ring) (m + 1)) }
    ensures plane { IfOk result (λ r. IsPlane (K.elements k.now) r.1) }
    ensures rows { IfOk result (λ r. length r.1 ≤ length quotients.now) }
    ensures value { let F = K.elements k.now in let P = polys_over F in
        IfOk result (λ r. (i : ℕ) → i < length quotients.now → coeff P (plane_of F r.1).coeffs i ≡
        reversal F.ring m (coeff P (polys_of F quotients.now) i)) }
{
    let d = variable_power(alloc, k, m + 1)?;
    let rows = reversals(alloc, k, quotients, m)?;
    Ok((d, Plane::from_vec(k, rows)))
}

/// The rows of the infinite chart.
fn infinite_rows<K: FiniteField<E = u32>>(
    alloc: Global,
    alg: &Alg<K>,
    sep: &Sep,
) -> Result<ChartRows, NoMemory>
    requires { IsSep (K.lawful alg.now.k) alg.now.f sep.now }
    ensures { let L = K.lawful alg.now.k in IfOk result (IsChartRows L alg.now.f Infinite) }
{
    let (e, equation) = equation_at_infinity(alloc, alg)?;
    let quotients = quotients_at_infinity(alloc, alg, sep, e)?;
    let m = width(&quotients).max(1) - 1;
    let (d, multiple) = infinite_multiple(alloc, &alg.k, &quotients, m)?;
    Ok(ChartRows {
        equation,
        d,
        multiple,
    })
}

/// The rows of a chart, for d and b that make the equation separable; in the finite chart d is the
/// same. `NoMemory` comes where memory runs out or a length passes its type.
pub(crate) fn chart_rows<K: FiniteField<E = u32>>(
    alloc: Global,
    alg: &Alg<K>,
    sep: &Sep,
    chart: Chart,
) -> Result<ChartRows, NoMemory>
    requires { IsSep (K.lawful alg.now.k) alg.now.f sep.now }
    ensures rows { let L = K.lawful alg.now.k in IfOk result (IsChartRows L alg.now.f chart) }
    ensures d { chart ≡ Finite → IfOk result (λ r. r.d ≡ sep.now.d) }
{
    match chart {
        Chart::Finite => finite_rows(alloc, alg, sep),
        Chart::Infinite => infinite_rows(alloc, alg, sep),
    }
}

/// The element theta of a chart.
pub(crate) fn theta<K: FiniteField<E = u32>>(
    alloc: Global,
    alg: &Alg<K>,
    chart: Chart,
) -> Result<Elem, NoMemory>
    ensures { let L = K.lawful alg.now.k in let f = alg.now.f in
        IfOk result (ElemIs L f (chart_of L f chart).theta) }
{
    match chart {
        Chart::Finite => finite_theta(alloc, alg),
        Chart::Infinite => infinite_theta(alloc, alg),
    }
}
