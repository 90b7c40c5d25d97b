// Quotients of rows times powers of the variable, and the reversals of rows.
ghost use Rattle.std.specs.Prelude.{◌≡◌, ℕ, ◌+◌, ◌*◌, ◌^◌, ◌<◌, ◌≤◌, length, IfOk};
ghost use Rattle.ff_theory.specs.Poly.{coeff};
ghost use Rattle.ff_theory.specs.Reversal.{reversal};
ghost use Rattle.ff_theory.specs.Values.{poly_of, IsPoly, polys_over, polys_of, ArePolys};
ghost use Rattle.ff_theory.specs.Values.{plane_of, IsPlane};
ghost use Rattle.ff_data.specs.Numerators.{AreQuotients};
ghost use Rattle.ff_data.specs.Quotients.{IsRaisedQuotient};

use crate::chart::raise;
use ff_alg::{FiniteField, NoMemory};
use ff_poly::{Plane, Poly};
use std::alloc::Global;

/// The quotient of `x^h * row` by `by`, which is not 0.
fn raised_quotient<K: FiniteField<E = u32>>(
    alloc: Global,
    k: &K,
    row: &Poly,
    h: usize,
    by: &Poly,
) -> Result<Poly, NoMemory>
    requires row { IsPoly (K.elements k.now) row.now }
    requires by { IsPoly (K.elements k.now) by.now }
    requires nonzero { 0 < length by.now }
    ensures poly { IfOk result (IsPoly (K.elements k.now)) }
    ensures value { let F = K.elements k.now in
        IfOk result (λ r. IsRaisedQuotient F (poly_of F by.now) h (poly_of F row.now)
        (poly_of F r)) }
{
    let raised = raise(alloc, k, row, h)?;
    let (quotient, _rest) = raised.divide(alloc, k, by)?;
    Ok(quotient)
}

/// The product `(m + i) * e`; `NoMemory` where it passes usize.
fn height(m: usize, i: usize, e: u32) -> Result<usize, NoMemory>
    ensures { IfOk result (λ h. h ≡ (m + i) * e) }
{
    match m.checked_add(i) {
        Some(sum) => match sum.checked_mul(e as usize) {
            Some(h) => Ok(h),
            None => Err(NoMemory),
        },
        None => Err(NoMemory),
    }
}

/// The quotient of each row times `x^((m + i) * e)` by `by`, with i its index. `NoMemory` is the
/// only error.
pub fn raised_quotients<K: FiniteField<E = u32>>(
    alloc: Global,
    k: &K,
    rows: &[Poly],
    m: usize,
    e: u32,
    by: &Poly,
) -> Result<Vec<Poly>, NoMemory>
    requires rows { ArePolys (K.elements k.now) rows.now }
    requires by { IsPoly (K.elements k.now) by.now }
    requires nonzero { 0 < length by.now }
    ensures len { IfOk result (λ r. length r.items ≡ length rows.now) }
    ensures each { IfOk result (λ r. ArePolys (K.elements k.now) r.items) }
    ensures value { let F = K.elements k.now in let P = polys_over F in
        IfOk result (λ r. (i : ℕ) → i < length rows.now → IsRaisedQuotient F (poly_of F by.now)
        ((m + i) * e) (coeff P (polys_of F rows.now) i) (coeff P (polys_of F r.items) i)) }
{
    let n = rows.len();
    let mut quotients = Vec::with_capacity(alloc, n)?;
    for i in 0..n {
        quotients.push(raised_quotient(alloc, k, &rows[i], height(m, i, e)?, by)?)?;
    }
    Ok(quotients)
}

/// The quotient of each row by `by`, which is not 0. `NoMemory` is the only error.
pub fn quotients_by<K: FiniteField<E = u32>>(
    alloc: Global,
    k: &K,
    a: &Plane,
    by: &Poly,
) -> Result<Plane, NoMemory>
    requires a { IsPlane (K.elements k.now) a.now }
    requires by { IsPoly (K.elements k.now) by.now }
    requires nonzero { 0 < length by.now }
    ensures plane { IfOk result (IsPlane (K.elements k.now)) }
    ensures len { IfOk result (λ r. length r ≤ length a.now) }
    ensures value { let F = K.elements k.now in
        IfOk result (λ r. AreQuotients F (poly_of F by.now) (plane_of F a.now) (plane_of F r)) }
{
    let rows = raised_quotients(alloc, k, a.rows(), 0, 0, by)?;
    Ok(Plane::from_vec(k, rows))
}

/// The polynomial `t^m * p(1 / t)` up to `t^m`.
fn reversal_of<K: FiniteField<E = u32>>(
    alloc: Global,
    k: &K,
    p: &Poly,
    m: usize,
) -> Result<Poly, NoMemory>
    requires poly { IsPoly (K.elements k.now) p.now }
    requires room { m + 1 < 2 ^ 64 }
    ensures poly { IfOk result (IsPoly (K.elements k.now)) }
    ensures value { let F = K.elements k.now in
        IfOk result (λ r. poly_of F r ≡ reversal F.ring m (poly_of F p.now)) }
{
    let mut list = Vec::with_capacity(alloc, m + 1)?;
    for j in 0..m + 1 {
        list.push(p.coeff(k, m - j))?;
    }
    Poly::from_coeffs(alloc, k, &list)
}

/// The polynomials `t^m * p(1 / t)` up to `t^m` of the rows p. `NoMemory` is the only error.
pub fn reversals<K: FiniteField<E = u32>>(
    alloc: Global,
    k: &K,
    rows: &[Poly],
    m: usize,
) -> Result<Vec<Poly>, NoMemory>
    requires rows { ArePolys (K.elements k.now) rows.now }
    requires room { m + 1 < 2 ^ 64 }
    ensures len { IfOk result (λ r. length r.items ≡ length rows.now) }
    ensures each { IfOk result (λ r. ArePolys (K.elements k.now) r.items) }
    ensures value { let F = K.elements k.now in let P = polys_over F in
        IfOk result (λ r. (i : ℕ) → i < length rows.now → coeff P (polys_of F r.items) i ≡
        reversal F.ring m (coeff P (polys_of F rows.now) i)) }
{
    let n = rows.len();
    let mut reversals = Vec::with_capacity(alloc, n)?;
    for i in 0..n {
        reversals.push(reversal_of(alloc, k, &rows[i], m)?)?;
    }
    Ok(reversals)
}
