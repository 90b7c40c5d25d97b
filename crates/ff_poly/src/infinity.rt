// The equation at infinity.
ghost use Rattle.std.specs.Prelude.{◌≡◌, ◌<◌, ◌≤◌, ◌+◌, ◌-◌, ◌*◌, ◌^◌, suc, length, map, IfOk};
ghost use Rattle.std.specs.List.{All};
ghost use Rattle.ff_theory.specs.Ring.{IsElement};
ghost use Rattle.ff_theory.specs.Values.{poly_of, IsPoly, plane_of, IsPlane, ArePolys, x_size};
ghost use Rattle.ff_theory.specs.Reversal.{reversal, reversed, quotient_up, slope};

use crate::{Plane, Poly};
use ff_alg::{FiniteField, NoMemory};
use smallvec::SmallVec;
use std::alloc::Global;

impl Plane {
    /// The slope e and the equation of `y / x^e` in `t = 1 / x`, for an equation of degree n in y
    /// that is monic in y.
    ///
    /// The slope is the least e such that each row i below row n has a degree of at most
    /// `(n - i) * e`; row i of the answer is `t^((n - i) * e)` times row i at `1 / t`.
    pub fn at_infinity<K: FiniteField<E = u32>>(
        &self,
        alloc: Global,
        k: &K,
    ) -> Result<(u32, Plane), NoMemory>
        requires plane { IsPlane (K.elements k.now) self.now }
        requires has_y { 1 < length self.now }
        requires width { x_size self.now ≤ 2 ^ 32 }
        ensures slope { let F = K.elements k.now in
            IfOk result (λ r. r.0 ≡ slope F.ring (length self.now - 1) (plane_of F self.now)) }
        ensures plane { IfOk result (λ r. IsPlane (K.elements k.now) r.1) }
        ensures value { let F = K.elements k.now in
            IfOk result (λ r. plane_of F r.1 ≡
            reversed F.ring (length self.now - 1) r.0 (plane_of F self.now)) }
    {
        let e = slope_of(k, self.rows());
        let rows = reversed_rows(alloc, k, self.rows(), e)?;
        Ok((e, Plane::from_vec(k, rows)))
    }
}

/// The slope of an equation with these rows.
fn slope_of<K: FiniteField<E = u32>>(k: &K, rows: &[Poly]) -> u32
    requires plane { IsPlane (K.elements k.now) rows.now }
    requires has_y { 1 < length rows.now }
    requires width { x_size rows.now ≤ 2 ^ 32 }
    ensures { let F = K.elements k.now in
        result ≡ slope F.ring (length rows.now - 1) (plane_of F rows.now) }
{
    let _field = k;
    let n = rows.len() - 1;
    let mut e = 0;
    for i in 0..n {
        e = e.max(row_slope(rows[i].coeffs().len(), n - i));
    }
    e
}

/// The least e such that a row with `len` coefficients has a degree of at most `below * e`.
fn row_slope(len: usize, below: usize) -> u32
    requires len { len ≤ 2 ^ 32 }
    requires below { 0 < below }
    ensures { result ≡ quotient_up (len - 1) below }
{
    if len <= 1 {
        0
    } else {
        ((len - 2) / below + 1) as u32
    }
}

/// The rows of the equation at infinity with the slope `e`.
fn reversed_rows<K: FiniteField<E = u32>>(
    alloc: Global,
    k: &K,
    rows: &[Poly],
    e: u32,
) -> Result<Vec<Poly>, NoMemory>
    requires rows { ArePolys (K.elements k.now) rows.now }
    requires has_y { 1 < length rows.now }
    ensures each { IfOk result (λ r. ArePolys (K.elements k.now) r.items) }
    ensures value { let F = K.elements k.now in
        IfOk result (λ r. plane_of F r.items ≡
        reversed F.ring (length rows.now - 1) e (plane_of F rows.now)) }
{
    let n = rows.len() - 1;
    let mut reversed = Vec::with_capacity(alloc, rows.len())?;
    for i in 0..n + 1 {
        reversed.push(reversal_of(alloc, k, &rows[i], degree_bound(n - i, e)?)?)?;
    }
    Ok(reversed)
}

/// The product of two numbers, where one more is within usize.
fn degree_bound(below: usize, e: u32) -> Result<usize, NoMemory>
    ensures { IfOk result (λ m. (m ≡ below * e) × (m + 1 < 2 ^ 64)) }
{
    match below.checked_mul(e as usize) {
        Some(m) if m < usize::MAX => Ok(m),
        _ => Err(NoMemory),
    }
}

/// The polynomial `t^m * p(1 / t)` up to `t^m`.
fn reversal_of<K: FiniteField<E = u32>>(
    alloc: Global,
    k: &K,
    p: &Poly,
    m: usize,
) -> Result<Poly, NoMemory>
    requires poly { IsPoly (K.elements k.now) p.now }
    requires room { m + 1 < 2 ^ 64 }
    ensures poly { IfOk result (IsPoly (K.elements k.now)) }
    ensures value { let F = K.elements k.now in
        IfOk result (λ r. poly_of F r ≡ reversal F.ring m (poly_of F p.now)) }
{
    let mut list = SmallVec::with_capacity(alloc, m + 1)?;
    for j in 0..m + 1 {
        list.push(p.coeff(k, m - j))?;
    }
    Ok(Poly::trim(k, list))
}
