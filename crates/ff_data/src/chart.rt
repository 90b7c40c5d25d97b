// The equations of the charts of E(f), and powers of their variable.
ghost use Rattle.std.specs.Prelude.{◌≡◌, ◌^◌, ◌<◌, ◌≤◌, length, IfOk, IsTrue};
ghost use Rattle.ff_theory.specs.Ring.{power};
ghost use Rattle.ff_theory.specs.Monomial.{variable};
ghost use Rattle.ff_theory.specs.Values.{poly_of, IsPoly, polys_over};
ghost use Rattle.ff_theory.specs.Values.{plane_of, IsPlane, x_size};
ghost use Rattle.ff_data.specs.declared.order.Chart.TheVariants.{Infinite};
ghost use Rattle.ff_data.specs.Orders.{chart_of, slope_of};

use crate::monic::monic_of;
use crate::order::Chart;
use ff_alg::{FiniteField, NoMemory};
use ff_elem::Alg;
use ff_poly::{Plane, Poly};
use std::alloc::Global;

/// Whether the degree in x is below 2^32 - 1.
fn is_narrow(p: &Plane) -> bool
    ensures { IsTrue result → (x_size p.now ≤ 2 ^ 32) }
{
    match p.x_degree() {
        Some(d) => d < u32::MAX as usize,
        None => true,
    }
}

/// The slope: the least e for which y'/x^e is integral at infinity, and the equation of the
/// infinite chart. `NoMemory` is the only error.
pub fn equation_at_infinity<K: FiniteField<E = u32>>(
    alloc: Global,
    alg: &Alg<K>,
) -> Result<(u32, Plane), NoMemory>
    ensures slope { let L = K.lawful alg.now.k in
        IfOk result (λ r. r.0 ≡ slope_of L alg.now.f) }
    ensures plane { IfOk result (λ r. IsPlane (K.elements alg.now.k) r.1) }
    ensures value { let F = K.elements alg.now.k in let L = K.lawful alg.now.k in
        let f = alg.now.f in
        IfOk result (λ r. plane_of F r.1 ≡ (chart_of L f Infinite).equation) }
{
    let monic = monic_of(alloc, alg)?;
    if !is_narrow(&monic) {
        return Err(NoMemory);
    }
    monic.at_infinity(alloc, &alg.k)
}

/// The product with `x^h`; `NoMemory` where its length passes usize.
pub fn raise<K: FiniteField<E = u32>>(
    alloc: Global,
    k: &K,
    row: &Poly,
    h: usize,
) -> Result<Poly, NoMemory>
    requires { IsPoly (K.elements k.now) row.now }
    ensures poly { IfOk result (IsPoly (K.elements k.now)) }
    ensures value { let F = K.elements k.now in let P = polys_over F in
        IfOk result (λ r. poly_of F r ≡
        P.mul (power P (variable F.ring) h) (poly_of F row.now)) }
{
    match row.coeffs().len().checked_add(h) {
        Some(_len) => row.shift(alloc, k, h),
        None => Err(NoMemory),
    }
}

/// The power `t^m`. `NoMemory` is the only error.
pub fn variable_power<K: FiniteField<E = u32>>(
    alloc: Global,
    k: &K,
    m: usize,
) -> Result<Poly, NoMemory>
    ensures poly { IfOk result (IsPoly (K.elements k.now)) }
    ensures nonzero { IfOk result (λ r. 0 < length r) }
    ensures value { let F = K.elements k.now in let P = polys_over F in
        IfOk result (λ r. poly_of F r ≡ power P (variable F.ring) m) }
{
    let one = Poly::one(alloc, k)?;
    raise(alloc, k, &one, m)
}

/// The equation of theta in a chart. `NoMemory` is the only error.
pub fn chart_equation<K: FiniteField<E = u32>>(
    alloc: Global,
    alg: &Alg<K>,
    chart: Chart,
) -> Result<Plane, NoMemory>
    ensures plane { IfOk result (IsPlane (K.elements alg.now.k)) }
    ensures value { let F = K.elements alg.now.k in let L = K.lawful alg.now.k in
        let f = alg.now.f in
        IfOk result (λ r. plane_of F r ≡ (chart_of L f chart).equation) }
{
    match chart {
        Chart::Finite => monic_of(alloc, alg),
        Chart::Infinite => {
            let (_slope, equation) = equation_at_infinity(alloc, alg)?;
            Ok(equation)
        },
    }
}
