// The monic form of an equation f, which is the equation of y', and its leading row.
ghost use Rattle.std.specs.Prelude.{◌≡◌, ◌<◌, length, IfOk};
ghost use Rattle.ff_theory.specs.Ring.{power};
ghost use Rattle.ff_theory.specs.Lawful.{lawful_field};
ghost use Rattle.ff_theory.specs.Values.{poly_of, IsPoly, polys_over, ArePolys};
ghost use Rattle.ff_theory.specs.Values.{plane_of, IsPlane};
ghost use Rattle.ff_theory.specs.Monic.{monic_form};
ghost use Rattle.ff_charts.specs.FieldCharts.{leading_row};

use ff_alg::{FiniteField, NoMemory};
use ff_elem::Alg;
use ff_poly::{Plane, Poly};
use std::alloc::Global;

/// A number as an exponent; `NoMemory` where it passes u32.
fn exponent(n: usize) -> Result<u32, NoMemory>
    ensures { IfOk result (λ r. r ≡ n) }
{
    if n > u32::MAX as usize {
        return Err(NoMemory);
    }
    Ok(n as u32)
}

/// The product of a row and a power. `NoMemory` is the only error.
pub fn times_power<K: FiniteField<E = u32>>(
    alloc: Global,
    k: &K,
    row: &Poly,
    base: &Poly,
    n: usize,
) -> Result<Poly, NoMemory>
    requires row { IsPoly (K.elements k.now) row.now }
    requires base { IsPoly (K.elements k.now) base.now }
    ensures poly { IfOk result (IsPoly (K.elements k.now)) }
    ensures value { let F = K.elements k.now in let P = polys_over F in
        IfOk result (λ r. poly_of F r ≡
        P.mul (poly_of F row.now) (power P (poly_of F base.now) n)) }
{
    let factor = base.power(alloc, k, exponent(n)?)?;
    row.mul(alloc, k, &factor)
}

/// The rows of the monic form.
fn monic_rows<K: FiniteField<E = u32>>(
    alloc: Global,
    k: &K,
    rows: &[Poly],
) -> Result<Vec<Poly>, NoMemory>
    requires plane { IsPlane (K.elements k.now) rows.now }
    requires has_y { 1 < length rows.now }
    ensures each { IfOk result (λ r. ArePolys (K.elements k.now) r.items) }
    ensures value { let F = K.elements k.now in let P = polys_over F in
        IfOk result (λ r. plane_of F r.items ≡ monic_form P (plane_of F rows.now)) }
{
    let n = rows.len() - 1;
    let mut form = Vec::with_capacity(alloc, rows.len())?;
    for i in 0..n {
        form.push(times_power(alloc, k, &rows[i], &rows[n], n - 1 - i)?)?;
    }
    form.push(Poly::one(alloc, k)?)?;
    Ok(form)
}

/// The monic form of the equation (Stichtenoth, section 3.3). `NoMemory` is the only error.
pub fn monic_of<K: FiniteField<E = u32>>(alloc: Global, alg: &Alg<K>) -> Result<Plane, NoMemory>
    ensures plane { IfOk result (IsPlane (K.elements alg.now.k)) }
    ensures value { let F = K.elements alg.now.k in let P = polys_over F in
        IfOk result (λ r. plane_of F r ≡ monic_form P (plane_of F alg.now.f)) }
{
    let rows = monic_rows(alloc, &alg.k, alg.f.rows())?;
    Ok(Plane::from_vec(&alg.k, rows))
}

/// The leading row of the equation.
pub fn leading<K: FiniteField<E = u32>>(alg: &Alg<K>) -> &Poly
    ensures poly { IsPoly (K.elements alg.now.k) result.now }
    ensures nonzero { 0 < length result.now }
    ensures value { let F = K.elements alg.now.k in let L = K.lawful alg.now.k in
        poly_of F result.now ≡ leading_row (lawful_field L) (plane_of F alg.now.f) }
{
    let rows = alg.f.rows();
    &rows[rows.len() - 1]
}
