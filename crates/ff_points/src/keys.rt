// The order of points by their data, and lists of points by that order.
ghost use Rattle.std.specs.Prelude.{◌≡◌, length, OnOk, IfSome, IfNone};
ghost use Rattle.std.specs.List.{All};
ghost use Rattle.std.specs.Ordering.{nat_cmp};
ghost use Rattle.ff_theory.specs.Ring.{IsElement};
ghost use Rattle.ff_theory.specs.Vector.{IsVector};
ghost use Rattle.ff_elem.specs.Key.{key_cmp};
ghost use Rattle.ff_data.specs.declared.point.Point.{Point};
ghost use Rattle.ff_points.specs.PointLists.{HasElements, indices_of, point_key, BelongsAt};
ghost use Rattle.ff_points.specs.PointLists.{HasKeyOf, IsListWith};

use ff_alg::{FiniteField, NoMemory};
use ff_data::Point;
use std::cmp::Ordering;

/// The order of the indices of two elements.
fn compare_elements<K: FiniteField<E = u32>>(k: &K, x: u32, y: u32) -> Ordering
    requires x { IsElement (K.elements k.now) x }
    requires y { IsElement (K.elements k.now) y }
    ensures { let F = K.elements k.now in
        result ≡ nat_cmp (F.index (F.value x)) (F.index (F.value y)) }
{
    k.index(x).cmp(&k.index(y))
}

/// The order of two lists of as many elements by the indices of their entries.
fn compare_values<K: FiniteField<E = u32>>(k: &K, v: &[u32], w: &[u32]) -> Ordering
    requires v { All (IsElement (K.elements k.now)) v.now }
    requires w { IsVector (K.elements k.now) (length v.now) w.now }
    ensures { let F = K.elements k.now in
        result ≡ key_cmp (indices_of F v.now) (indices_of F w.now) }
{
    for i in 0..v.len() {
        let order = compare_elements(k, v[i], w[i]);
        if order.is_ne() {
            return order;
        }
    }
    Ordering::Equal
}

/// The order of two points by a, theta and the values.
fn compare<K: FiniteField<E = u32>>(k: &K, p: &Point, q: &Point) -> Ordering
    requires p { HasElements (K.elements k.now) (length p.now.values) p.now }
    requires q { HasElements (K.elements k.now) (length p.now.values) q.now }
    ensures { let F = K.elements k.now in
        result ≡ key_cmp (point_key F p.now) (point_key F q.now) }
{
    let first = compare_elements(k, p.a, q.a);
    if first.is_ne() {
        return first;
    }
    let second = compare_elements(k, p.theta, q.theta);
    if second.is_ne() {
        return second;
    }
    compare_values(k, &p.values.items, &q.values.items)
}

/// The index at which a point belongs in a list by rising keys; None where the list has its key.
fn place<K: FiniteField<E = u32>>(k: &K, list: &[Point], p: &Point) -> Option<usize>
    requires p { HasElements (K.elements k.now) (length p.now.values) p.now }
    requires list { All (HasElements (K.elements k.now) (length p.now.values)) list.now }
    ensures some { IfSome result (BelongsAt (K.elements k.now) list.now p.now) }
    ensures none { IfNone result (HasKeyOf (K.elements k.now) list.now p.now) }
{
    let mut i = list.len();
    while i > 0 {
        match compare(k, p, &list[i - 1]) {
            Ordering::Less => i -= 1,
            Ordering::Equal => return None,
            Ordering::Greater => return Some(i),
        }
    }
    Some(0)
}

/// Puts the point into a list by rising keys, where it is not in the list yet.
pub(crate) fn insert<K: FiniteField<E = u32>>(
    k: &K,
    list: &mut Vec<Point>,
    p: Point,
) -> Result<(), NoMemory>
    requires p { HasElements (K.elements k.now) (length p.values) p }
    requires list { All (HasElements (K.elements k.now) (length p.values)) list.old.items }
    requires chart { All (λ (q : Point). q.chart ≡ p.chart) list.old.items }
    ensures { OnOk result (IsListWith (K.elements k.now) list.old.items p list.new.items) }
{
    match place(k, list, &p) {
        None => Ok(()),
        Some(i) => {
            list.insert(i, p)?;
            Ok(())
        },
    }
}
