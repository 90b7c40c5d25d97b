// The values of numerators by the data of a point.
ghost use Rattle.std.specs.Prelude.{◌≡◌, ℕ, ◌≤◌, pred, length, IfOk, IfSome, IfNone};
ghost use Rattle.std.specs.List.{All};
ghost use Rattle.ff_theory.specs.Ring.{IsElement};
ghost use Rattle.ff_theory.specs.Eval.{eval_list, plane_at};
ghost use Rattle.ff_theory.specs.Vector.{vector_of, IsVector};
ghost use Rattle.ff_theory.specs.Values.{plane_of, IsPlane, ArePolys};
ghost use Rattle.ff_charts.specs.Lattice.{HasShape};
ghost use Rattle.ff_data.specs.Orders.{y_degree, InResidues, IsOrder};
ghost use Rattle.ff_data.specs.Numerators.{IsResidueOf};
ghost use Rattle.ff_data.specs.Vectors.{IsPlaneWithin};
ghost use Rattle.ff_forms.specs.Forms.{HasPointForm};
ghost use Rattle.ff_frac.specs.Places.{IsLowValueIfAny, HasNumeratorValue};
ghost use Rattle.ff_frac.specs.Places.{HaveNumeratorValues};

use ff_alg::{FiniteField, NoMemory};
use ff_characters::dot;
use ff_data::{Order, Point, quotients_by};
use ff_elem::Alg;
use ff_lattice::{residues, vector_of_plane};
use ff_lin::solve;
use ff_poly::{Plane, Poly};
use std::alloc::Global;

/// The polynomial with the coefficients at a.
fn evaluate<K: FiniteField<E = u32>>(k: &K, coeffs: &[u32], a: u32) -> u32
    requires coeffs { All (IsElement (K.elements k.now)) coeffs.now }
    requires a { IsElement (K.elements k.now) a }
    ensures element { IsElement (K.elements k.now) result }
    ensures value { let F = K.elements k.now in
        F.value result ≡ eval_list F.ring F.value (F.value a) coeffs.now }
{
    let mut value = k.zero();
    let mut i = coeffs.len();
    while i > 0 {
        i -= 1;
        value = k.add(coeffs[i], k.mul(a, value));
    }
    value
}

/// The rows at a, as coefficients of a polynomial at b.
fn value_of_rows<K: FiniteField<E = u32>>(k: &K, rows: &[Poly], a: u32, b: u32) -> u32
    requires rows { ArePolys (K.elements k.now) rows.now }
    requires a { IsElement (K.elements k.now) a }
    requires b { IsElement (K.elements k.now) b }
    ensures element { IsElement (K.elements k.now) result }
    ensures value { let F = K.elements k.now in F.value result ≡
        plane_at F.ring F.ring (λ s. s) (F.value a) (F.value b) (plane_of F rows.now) }
{
    let mut value = k.zero();
    let mut i = rows.len();
    while i > 0 {
        i -= 1;
        value = k.add(evaluate(k, rows[i].coeffs(), a), k.mul(b, value));
    }
    value
}

/// The coefficients of a residue modulo d by the basis of the order's space, and None where it is
/// not in the space.
fn coefficients<K: FiniteField<E = u32>>(
    alloc: Global,
    alg: &Alg<K>,
    order: &Order,
    low: &Plane,
) -> Result<Option<Vec<u32>>, NoMemory>
    requires order { IsOrder (K.lawful alg.now.k) alg.now.f order.now }
    requires low { IsPlane (K.elements alg.now.k) low.now }
    requires shape { let F = K.elements alg.now.k in let L = K.lawful alg.now.k in
        HasShape F.ring (y_degree L alg.now.f) (pred (length order.now.d)) (plane_of F low.now) }
    ensures vector { let F = K.elements alg.now.k in IfOk result
        (λ o. IfSome o (λ c. IsVector F (length order.now.space.basis) c.items)) }
    ensures some { let F = K.elements alg.now.k in IfOk result (λ o. IfSome o (λ c.
        IsResidueOf F order.now (plane_of F low.now) (vector_of F c.items))) }
    ensures none { let F = K.elements alg.now.k in IfOk result (λ o. IfNone o
        (¬ InResidues F (pred (length order.now.d)) order.now.space (plane_of F low.now))) }
{
    let n = alg.f.rows().len() - 1;
    let l = order.d.coeffs().len() - 1;
    let v = vector_of_plane(alloc, &alg.k, low, n, l)?;
    solve(alloc, &alg.k, order.space.len(), order.space.basis(), &v)
}

/// The combination of the values at the point with the coefficients of a residue modulo d by the
/// basis of the order's space, and 0 where the residue is not in the space.
fn low_value<K: FiniteField<E = u32>>(
    alloc: Global,
    alg: &Alg<K>,
    order: &Order,
    point: &Point,
    low: &Plane,
) -> Result<u32, NoMemory>
    requires order { IsOrder (K.lawful alg.now.k) alg.now.f order.now }
    requires point { HasPointForm (K.elements alg.now.k) order.now point.now }
    requires low { IsPlane (K.elements alg.now.k) low.now }
    requires shape { let F = K.elements alg.now.k in let L = K.lawful alg.now.k in
        HasShape F.ring (y_degree L alg.now.f) (pred (length order.now.d)) (plane_of F low.now) }
    ensures element { IfOk result (IsElement (K.elements alg.now.k)) }
    ensures value { let F = K.elements alg.now.k in
        IfOk result (IsLowValueIfAny F order.now point.now (plane_of F low.now)) }
{
    match coefficients(alloc, alg, order, low)? {
        None => Ok(alg.k.zero()),
        Some(c) => Ok(dot(&alg.k, &c, &point.values.items)),
    }
}

/// The value by the data of a point of the element with the numerator over d.
fn value<K: FiniteField<E = u32>>(
    alloc: Global,
    alg: &Alg<K>,
    order: &Order,
    point: &Point,
    plane: &Plane,
) -> Result<u32, NoMemory>
    requires order { IsOrder (K.lawful alg.now.k) alg.now.f order.now }
    requires point { HasPointForm (K.elements alg.now.k) order.now point.now }
    requires plane { IsPlane (K.elements alg.now.k) plane.now }
    requires few { length plane.now ≤ y_degree (K.lawful alg.now.k) alg.now.f }
    ensures element { IfOk result (IsElement (K.elements alg.now.k)) }
    ensures value { let L = K.lawful alg.now.k in let f = alg.now.f in
        IfOk result (HasNumeratorValue L f order.now point.now plane.now) }
{
    let low = residues(alloc, &alg.k, plane, &order.d)?;
    let high = quotients_by(alloc, &alg.k, plane, &order.d)?;
    let part = low_value(alloc, alg, order, point, &low)?;
    let rest = value_of_rows(&alg.k, high.rows(), point.a, point.theta);
    Ok(alg.k.add(part, rest))
}

/// The values by the data of a point of the elements with the numerators over d.
pub(crate) fn values<K: FiniteField<E = u32>>(
    alloc: Global,
    alg: &Alg<K>,
    order: &Order,
    point: &Point,
    planes: &[Plane],
) -> Result<Vec<u32>, NoMemory>
    requires order { IsOrder (K.lawful alg.now.k) alg.now.f order.now }
    requires point { HasPointForm (K.elements alg.now.k) order.now point.now }
    requires planes { let L = K.lawful alg.now.k in
        All (IsPlaneWithin (K.elements alg.now.k) (y_degree L alg.now.f)) planes.now }
    ensures vector { let F = K.elements alg.now.k in
        IfOk result (λ r. IsVector F (length planes.now) r.items) }
    ensures value { let L = K.lawful alg.now.k in let f = alg.now.f in
        IfOk result (λ r. HaveNumeratorValues L f order.now point.now planes.now r.items) }
{
    let mut values = Vec::with_capacity(alloc, planes.len())?;
    for plane in planes {
        values.push(value(alloc, alg, order, point, plane)?)?;
    }
    Ok(values)
}
