// The order of the keys of polynomials in x and y.
ghost use Rattle.std.specs.Prelude.{◌≡◌, ◌⊎◌, length};
ghost use Rattle.std.specs.List.{All};
ghost use Rattle.std.specs.declared.cmp.Ordering.TheVariants.{Greater};
ghost use Rattle.ff_theory.specs.Ring.{IsElement};
ghost use Rattle.ff_theory.specs.Values.{IsPoly, ArePolys, IsPlane};
ghost use Rattle.ff_elem.specs.Key.{indices, poly_key, rows_key, key_cmp};
ghost use Rattle.ff_const.specs.Keys.{plane_key};

use ff_alg::FiniteField;
use ff_poly::{Plane, Poly};
use std::cmp::Ordering;

/// The order of two lists of as many coefficients, from the last one down.
fn compare_coeffs<K: FiniteField<E = u32>>(k: &K, a: &[u32], b: &[u32]) -> Ordering
    requires a { All (IsElement (K.elements k.now)) a.now }
    requires b { All (IsElement (K.elements k.now)) b.now }
    requires same { length a.now ≡ length b.now }
    ensures { let F = K.elements k.now in result ≡ key_cmp (indices F a.now) (indices F b.now) }
{
    let mut i = a.len();
    while i > 0 {
        i -= 1;
        let order = k.index(a[i]).cmp(&k.index(b[i]));
        if order.is_ne() {
            return order;
        }
    }
    Ordering::Equal
}

/// The order of the keys of two polynomials in x.
fn compare_polys<K: FiniteField<E = u32>>(k: &K, a: &Poly, b: &Poly) -> Ordering
    requires a { IsPoly (K.elements k.now) a.now }
    requires b { IsPoly (K.elements k.now) b.now }
    ensures { let F = K.elements k.now in result ≡ key_cmp (poly_key F a.now) (poly_key F b.now) }
{
    let order = a.coeffs().len().cmp(&b.coeffs().len());
    if order.is_ne() {
        return order;
    }
    compare_coeffs(k, a.coeffs(), b.coeffs())
}

/// The order of the keys of as many rows.
fn compare_rows<K: FiniteField<E = u32>>(k: &K, a: &[Poly], b: &[Poly]) -> Ordering
    requires a { ArePolys (K.elements k.now) a.now }
    requires b { ArePolys (K.elements k.now) b.now }
    requires same { length a.now ≡ length b.now }
    ensures { let F = K.elements k.now in result ≡ key_cmp (rows_key F a.now) (rows_key F b.now) }
{
    for i in 0..a.len() {
        let order = compare_polys(k, &a[i], &b[i]);
        if order.is_ne() {
            return order;
        }
    }
    Ordering::Equal
}

/// The order of the keys of two polynomials in x and y.
fn compare_planes<K: FiniteField<E = u32>>(k: &K, a: &Plane, b: &Plane) -> Ordering
    requires a { IsPlane (K.elements k.now) a.now }
    requires b { IsPlane (K.elements k.now) b.now }
    ensures { let F = K.elements k.now in result ≡ key_cmp (plane_key F a.now) (plane_key F b.now) }
{
    let order = a.rows().len().cmp(&b.rows().len());
    if order.is_ne() {
        return order;
    }
    compare_rows(k, a.rows(), b.rows())
}

/// Two polynomials in x and y by rising key.
pub(crate) fn ordered<K: FiniteField<E = u32>>(k: &K, g: Plane, h: Plane) -> (Plane, Plane)
    requires g { IsPlane (K.elements k.now) g }
    requires h { IsPlane (K.elements k.now) h }
    ensures same { (result ≡ (g, h)) ⊎ (result ≡ (h, g)) }
    ensures order { let F = K.elements k.now in
        ¬ (key_cmp (plane_key F result.0) (plane_key F result.1) ≡ Greater) }
{
    if compare_planes(k, &g, &h).is_gt() {
        (h, g)
    } else {
        (g, h)
    }
}
