// The value of an element of an order at one of its points.
ghost use Rattle.std.specs.Prelude.{◌≡◌, ◌≤◌, length, pred, IfOk, IfSome, IfNone};
ghost use Rattle.std.specs.List.{All};
ghost use Rattle.ff_theory.specs.Ring.{IsElement};
ghost use Rattle.ff_theory.specs.Eval.{eval_list, plane_at};
ghost use Rattle.ff_theory.specs.Span.{product};
ghost use Rattle.ff_theory.specs.Vector.{vector_of, IsVector};
ghost use Rattle.ff_theory.specs.Values.{plane_of, IsPlane, ArePolys};
ghost use Rattle.ff_charts.specs.Lattice.{HasShape};
ghost use Rattle.ff_data.specs.Orders.{y_degree, InResidues, IsOrder};
ghost use Rattle.ff_data.specs.Points.{IsPoint};
ghost use Rattle.ff_data.specs.Numerators.{IsResidueOf, IsValueOfNumerator, IsOutside};

use crate::order::Order;
use crate::point::Point;
use crate::quotients::quotients_by;
use ff_alg::{FiniteField, NoMemory};
use ff_elem::Alg;
use ff_lattice::{residues, vector_of_plane};
use ff_lin::solve;
use ff_poly::{Plane, Poly};
use std::alloc::Global;

/// The polynomial with the coefficients at a.
fn evaluate<K: FiniteField<E = u32>>(k: &K, coeffs: &[u32], a: u32) -> u32
    requires coeffs { All (IsElement (K.elements k.now)) coeffs.now }
    requires a { IsElement (K.elements k.now) a }
    ensures element { IsElement (K.elements k.now) result }
    ensures value { let F = K.elements k.now in
        F.value result ≡ eval_list F.ring F.value (F.value a) coeffs.now }
{
    let mut value = k.zero();
    let mut i = coeffs.len();
    while i > 0 {
        i -= 1;
        value = k.add(coeffs[i], k.mul(a, value));
    }
    value
}

/// The rows at a, as coefficients of a polynomial at b.
fn value_of_rows<K: FiniteField<E = u32>>(k: &K, rows: &[Poly], a: u32, b: u32) -> u32
    requires rows { ArePolys (K.elements k.now) rows.now }
    requires a { IsElement (K.elements k.now) a }
    requires b { IsElement (K.elements k.now) b }
    ensures element { IsElement (K.elements k.now) result }
    ensures value { let F = K.elements k.now in F.value result ≡
        plane_at F.ring F.ring (λ s. s) (F.value a) (F.value b) (plane_of F rows.now) }
{
    let mut value = k.zero();
    let mut i = rows.len();
    while i > 0 {
        i -= 1;
        value = k.add(evaluate(k, rows[i].coeffs(), a), k.mul(b, value));
    }
    value
}

/// The sum of the products of two lists of as many numbers.
fn dot<K: FiniteField<E = u32>>(k: &K, a: &[u32], b: &[u32]) -> u32
    requires a { All (IsElement (K.elements k.now)) a.now }
    requires b { IsVector (K.elements k.now) (length a.now) b.now }
    ensures element { IsElement (K.elements k.now) result }
    ensures value { let F = K.elements k.now in F.value result ≡
        product F.ring (length a.now) (vector_of F a.now) (vector_of F b.now) }
{
    let mut sum = k.zero();
    for i in 0..a.len() {
        sum = k.add(sum, k.mul(a[i], b[i]));
    }
    sum
}

/// The coefficients by the basis of the order's space of a residue modulo d; None where it is not
/// in the space.
fn residue_coefficients<K: FiniteField<E = u32>>(
    alloc: Global,
    alg: &Alg<K>,
    order: &Order,
    low: &Plane,
) -> Result<Option<Vec<u32>>, NoMemory>
    requires order { IsOrder (K.lawful alg.now.k) alg.now.f order.now }
    requires low { IsPlane (K.elements alg.now.k) low.now }
    requires shape { let F = K.elements alg.now.k in let L = K.lawful alg.now.k in
        HasShape F.ring (y_degree L alg.now.f) (pred (length order.now.d)) (plane_of F low.now) }
    ensures vector { let F = K.elements alg.now.k in IfOk result
        (λ o. IfSome o (λ c. IsVector F (length order.now.space.basis) c.items)) }
    ensures some { let F = K.elements alg.now.k in IfOk result (λ o. IfSome o (λ c.
        IsResidueOf F order.now (plane_of F low.now) (vector_of F c.items))) }
    ensures none { let F = K.elements alg.now.k in IfOk result (λ o. IfNone o
        (¬ InResidues F (pred (length order.now.d)) order.now.space (plane_of F low.now))) }
{
    let n = alg.f.rows().len() - 1;
    let l = order.d.coeffs().len() - 1;
    let vector = vector_of_plane(alloc, &alg.k, low, n, l)?;
    solve(
        alloc,
        &alg.k,
        order.space.len(),
        order.space.basis(),
        &vector,
    )
}

/// The value at a point of an order of the element with the numerator `plane` over d, by rows in
/// powers of theta, fewer than the equation has. None comes exactly where the element is not in the
/// order. `NoMemory` is the only error. This project's own.
pub fn value_of_numerator<K: FiniteField<E = u32>>(
    alloc: Global,
    alg: &Alg<K>,
    order: &Order,
    point: &Point,
    plane: &Plane,
) -> Result<Option<u32>, NoMemory>
    requires order { IsOrder (K.lawful alg.now.k) alg.now.f order.now }
    requires point { IsPoint (K.lawful alg.now.k) alg.now.f order.now point.now }
    requires plane { IsPlane (K.elements alg.now.k) plane.now }
    requires few { length plane.now ≤ y_degree (K.lawful alg.now.k) alg.now.f }
    ensures some { let L = K.lawful alg.now.k in let f = alg.now.f in IfOk result
        (λ o. IfSome o (IsValueOfNumerator L f order.now point.now plane.now)) }
    ensures none { let L = K.lawful alg.now.k in let f = alg.now.f in IfOk result
        (λ o. IfNone o (IsOutside L f order.now plane.now)) }
{
    let low = residues(alloc, &alg.k, plane, &order.d)?;
    let high = quotients_by(alloc, &alg.k, plane, &order.d)?;
    match residue_coefficients(alloc, alg, order, &low)? {
        None => Ok(None),
        Some(c) => {
            let part = dot(&alg.k, &c, &point.values.items);
            let rest = value_of_rows(&alg.k, high.rows(), point.a, point.theta);
            Ok(Some(alg.k.add(part, rest)))
        },
    }
}
