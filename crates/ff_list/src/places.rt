// The points of both maximal orders, and the first of them with a pole system.
ghost use Rattle.std.specs.Prelude.{◌≡◌, ◌<◌, ◌++◌, length, IfOk, IfSome};
ghost use Rattle.ff_functions.specs.Searches.{HasWeights};
ghost use Rattle.ff_forms.specs.Forms.{AreAlike};
ghost use Rattle.ff_const.specs.Irreducible.{IsIrreducible};
ghost use Rattle.ff_list.specs.Lists.{AreBothOrders, IsPointOf};
ghost use Rattle.ff_list.specs.Searches.{ArePlaces, IsPlace, IsFormed};
ghost use Rattle.ff_list.specs.Searches.{IsSystemIfAny, IsFirstIfAny};

use crate::curve::Curve;
use ff_alg::{FiniteField, NoMemory};
use ff_data::{Chart, Point, System};
use ff_points::points;
use ff_poles::find_system;
use std::alloc::Global;

/// One list of all points: those of the first list, and then those of the second one.
fn joined(first: Vec<Point>, second: Vec<Point>) -> Result<Vec<Point>, NoMemory>
    ensures { IfOk result (λ r. r.items ≡ first.items ++ second.items) }
{
    let (mut all, mut rest) = (first, second);
    all.append(&mut rest)?;
    Ok(all)
}

/// All points of an equation, those at infinity first.
pub fn places_of<K: FiniteField<E = u32>>(
    alloc: Global,
    curve: &Curve<K>,
) -> Result<Vec<Point>, NoMemory>
    requires { let c = curve.now in
        AreBothOrders (K.lawful c.alg.k) c.alg.f c.finite c.infinite }
    ensures { let c = curve.now in let L = K.lawful c.alg.k in
        IfOk result (λ r. ArePlaces L c.alg.f c.finite c.infinite r.items) }
{
    let infinite = points(alloc, &curve.alg, &curve.infinite)?;
    let finite = points(alloc, &curve.alg, &curve.finite)?;
    joined(infinite.items, finite.items)
}

/// A pole system, and the index of its point.
#[derive(Drop)]
pub struct Found {
    pub index: usize,
    pub system: System,
}

/// A pole system of a point within the pole limit; None where there is none, and where its pole
/// numbers differ from those of the system `like`.
pub fn system_at<K: FiniteField<E = u32>>(
    alloc: Global,
    curve: &Curve<K>,
    point: &Point,
    like: Option<&System>,
) -> Result<Option<System>, NoMemory>
    requires orders { let c = curve.now in
        AreBothOrders (K.lawful c.alg.k) c.alg.f c.finite c.infinite }
    requires point { let c = curve.now in
        IsPlace (K.elements c.alg.k) c.finite c.infinite point.now }
    requires like { IfSome like (λ s. HasWeights s.now) }
    ensures form { let c = curve.now in
        IfOk result (λ o. IfSome o (IsFormed (K.lawful c.alg.k) c.alg.f)) }
    ensures exact { let c = curve.now in let L = K.lawful c.alg.k in let p = point.now in
        let alike = λ (s : System). IfSome like.entry (λ t. AreAlike s t.now) in
        IsIrreducible L c.alg.f → IsPointOf L c.alg.f c.finite c.infinite p →
        IfOk result (IsSystemIfAny L c.alg.f c.finite c.infinite p alike) }
{
    let (finite, infinite) = (&curve.finite, &curve.infinite);
    match point.chart {
        Chart::Finite => find_system(alloc, &curve.alg, finite, infinite, point, like),
        Chart::Infinite => find_system(alloc, &curve.alg, infinite, finite, point, like),
    }
}

/// A pole system of a point whose pole numbers are those of a system.
pub fn system_like<K: FiniteField<E = u32>>(
    alloc: Global,
    curve: &Curve<K>,
    point: &Point,
    like: &System,
) -> Result<Option<System>, NoMemory>
    requires orders { let c = curve.now in
        AreBothOrders (K.lawful c.alg.k) c.alg.f c.finite c.infinite }
    requires point { let c = curve.now in
        IsPlace (K.elements c.alg.k) c.finite c.infinite point.now }
    requires like { HasWeights like.now }
    ensures { let c = curve.now in
        IfOk result (λ o. IfSome o (IsFormed (K.lawful c.alg.k) c.alg.f)) }
{
    system_at(alloc, curve, point, Some(like))
}

/// The first of the points that has a pole system within the pole limit.
pub fn first_of<K: FiniteField<E = u32>>(
    alloc: Global,
    curve: &Curve<K>,
    places: &[Point],
) -> Result<Option<Found>, NoMemory>
    requires { let c = curve.now in
        ArePlaces (K.lawful c.alg.k) c.alg.f c.finite c.infinite places.now }
    ensures index { IfOk result (λ o. IfSome o (λ s. s.index < length places.now)) }
    ensures system { let c = curve.now in let L = K.lawful c.alg.k in
        IfOk result (λ o. IfSome o (λ s. IsFormed L c.alg.f s.system)) }
    ensures first { let c = curve.now in let L = K.lawful c.alg.k in
        IsIrreducible L c.alg.f →
        IfOk result (IsFirstIfAny L c.alg.f c.finite c.infinite places.now) }
{
    for index in 0..places.len() {
        match system_at(alloc, curve, &places[index], None)? {
            Some(system) => return Ok(Some(Found { index, system })),
            None => {},
        }
    }
    Ok(None)
}
