// Hyperelliptic curves in shifted coordinates.
ghost use Rattle.std.specs.Prelude.{◌≡◌, ◌≤◌, ℕ, length, IfOk};
ghost use Rattle.ff_theory.specs.Ring.{IsElement};
ghost use Rattle.ff_theory.specs.Values.{poly_of, IsPoly, polys_over};
ghost use Rattle.ff_theory.specs.Values.{plane_of, IsPlane, planes_over};
ghost use Rattle.ff_theory.specs.Planes.{row_of};
ghost use Rattle.ff_poly.specs.Limits.{IsEquation};
ghost use Rattle.ff_make.specs.Curve.{y_plus, right_side};
ghost use Rattle.ff_make.specs.Curve.{curve as curve_of, quintic as quintic_of};

use ff_alg::{FiniteField, NoMemory};
use ff_poly::{Plane, Poly};
use std::alloc::Global;
use std::slice;

/// The polynomial `x^5 + c*x`.
pub fn quintic<K: FiniteField<E = u32>>(alloc: Global, k: &K, c: u32) -> Result<Poly, NoMemory>
    requires { IsElement (K.elements k.now) c }
    ensures poly { IfOk result (IsPoly (K.elements k.now)) }
    ensures few { IfOk result (λ r. length r ≤ 6) }
    ensures value { let F = K.elements k.now in
        IfOk result (λ r. poly_of F r ≡ quintic_of F (F.value c)) }
{
    let zero = k.zero();
    Poly::from_coeffs(alloc, k, &[zero, c, zero, zero, zero, k.one()])
}

/// The polynomial `(x + s)^m + 1`.
fn right_side_of<K: FiniteField<E = u32>>(
    alloc: Global,
    k: &K,
    s: u32,
    m: u32,
) -> Result<Poly, NoMemory>
    requires { IsElement (K.elements k.now) s }
    ensures poly { IfOk result (IsPoly (K.elements k.now)) }
    ensures value { let F = K.elements k.now in
        IfOk result (λ r. poly_of F r ≡ right_side F (F.value s) m) }
{
    let power = Poly::from_coeffs(alloc, k, &[s, k.one()])?.power(alloc, k, m)?;
    power.add(alloc, k, &Poly::one(alloc, k)?)
}

/// The square of `y + h`.
fn square<K: FiniteField<E = u32>>(alloc: Global, k: &K, h: Poly) -> Result<Plane, NoMemory>
    requires { IsPoly (K.elements k.now) h }
    ensures plane { IfOk result (IsPlane (K.elements k.now)) }
    ensures value { let F = K.elements k.now in let Q = planes_over F in
        IfOk result (λ r. plane_of F r
        ≡ Q.mul (y_plus F (poly_of F h)) (y_plus F (poly_of F h))) }
{
    let root = Plane::from_rows(alloc, k, &[h, Poly::one(alloc, k)?])?;
    root.mul(alloc, k, &root)
}

/// The polynomial in x and y with the one row `-p`.
fn negative_row<K: FiniteField<E = u32>>(alloc: Global, k: &K, p: &Poly) -> Result<Plane, NoMemory>
    requires { IsPoly (K.elements k.now) p.now }
    ensures plane { IfOk result (IsPlane (K.elements k.now)) }
    ensures value { let F = K.elements k.now in
        IfOk result (λ r. plane_of F r
        ≡ row_of F.ring ((polys_over F).neg (poly_of F p.now))) }
{
    let negative = p.neg(alloc, k)?;
    Plane::from_rows(alloc, k, slice::from_ref(&negative))
}

/// The equation `(y + h)^2 - (x + s)^m - 1`, multiplied out, for h of degree at most 5 and m of at
/// most 11. `NoMemory` is the only error.
pub fn curve<K: FiniteField<E = u32>>(
    alloc: Global,
    k: &K,
    h: Poly,
    s: u32,
    m: u32,
) -> Result<Plane, NoMemory>
    requires h { IsPoly (K.elements k.now) h }
    requires short { length h ≤ 6 }
    requires s { IsElement (K.elements k.now) s }
    requires few { m ≤ 11 }
    ensures equation { IfOk result (IsEquation (K.elements k.now)) }
    ensures value { let F = K.elements k.now in
        IfOk result (λ r. plane_of F r ≡ curve_of F (poly_of F h) (F.value s) m) }
{
    let left = square(alloc, k, h)?;
    let right = negative_row(alloc, k, &right_side_of(alloc, k, s, m)?)?;
    left.add(alloc, k, &right)
}
