// The first field with the pole system that is kept for the search.
ghost use Rattle.std.specs.Prelude.{◌≡◌, ◌<◌, length, get_or, IfOk, IfErr};
ghost use Rattle.ff_poly.specs.Limits.{IsEquation};
ghost use Rattle.ff_data.specs.Orders.{IsSep};
ghost use Rattle.ff_list.specs.Lists.{IsAdmitted, AreAdmitted, AreBothOrders, IsRefused};
ghost use Rattle.ff_const.specs.Irreducible.{IsIrreducible};
ghost use Rattle.ff_list.specs.Lists.{IsPointOf, HaveNoPlace, IsFirstAt};
ghost use Rattle.ff_list.specs.Searches.{ArePlaces, IsFormed, IsStart};
ghost use Rattle.ff_list.specs.Searches.{IsStartFault, HasNoStart, AreKept};

use crate::curve::{Curve, curve_of};
use crate::places::{Found, first_of, places_of};
use ff_alg::{FiniteField, NoMemory};
use ff_data::{Order, Point, Refusal, Sep, System, gap_number};
use ff_poly::Plane;
use std::alloc::Global;

/// What is known of two equations f and g before the search: why they are separable, the maximal
/// orders of both, the first point of the first field that has a pole system, and one there.
#[derive(Drop)]
pub struct KeptParts {
    pub sep1: Sep,
    pub finite1: Order,
    pub infinite1: Order,
    pub sep2: Sep,
    pub finite2: Order,
    pub infinite2: Order,
    pub point: Point,
    pub system: System,
}

/// The points of an equation, and the first of them with a pole system: its index among them, and a
/// system there.
#[derive(Drop)]
pub struct Start {
    pub places: Vec<Point>,
    pub index: usize,
    pub system: System,
}

/// Why an equation has no start.
#[derive(Drop)]
pub enum StartFault {
    NoPlace,
    PoleLimit,
    SmallGenus { system: System },
    NoMemory,
}

/// The start at a system, unless its gap number is 0 or 1.
fn start_at<K: FiniteField<E = u32>>(
    curve: &Curve<K>,
    places: Vec<Point>,
    found: Found,
) -> Result<Start, StartFault>
    requires index { found.index < length places.items }
    requires system { IsFormed (K.lawful curve.now.alg.k) curve.now.alg.f found.system }
    requires places { let c = curve.now in let L = K.lawful c.alg.k in
        ArePlaces L c.alg.f c.finite c.infinite places.items }
    requires first { let c = curve.now in let L = K.lawful c.alg.k in
        IsIrreducible L c.alg.f →
        IsFirstAt L c.alg.f c.finite c.infinite places.items found.index found.system }
    ensures places { IfOk result (λ r. r.places ≡ places) }
    ensures start { let c = curve.now in IfOk result (IsStart (K.lawful c.alg.k) c.alg.f) }
    ensures first { let c = curve.now in let L = K.lawful c.alg.k in
        IsIrreducible L c.alg.f → IfOk result (λ r.
        IsFirstAt L c.alg.f c.finite c.infinite r.places.items r.index r.system) }
    ensures fault { let c = curve.now in let L = K.lawful c.alg.k in
        IfErr result (IsStartFault L c.alg.f c.finite c.infinite) }
{
    let _curve = curve;
    let Found { index, system } = found;
    if gap_number(&system) <= 1 {
        drop(places);
        return Err(StartFault::SmallGenus { system });
    }
    Ok(Start {
        places,
        index,
        system,
    })
}

/// The start at one of the points.
fn start_among<K: FiniteField<E = u32>>(
    alloc: Global,
    curve: &Curve<K>,
    places: Vec<Point>,
) -> Result<Start, StartFault>
    requires places { let c = curve.now in let L = K.lawful c.alg.k in
        ArePlaces L c.alg.f c.finite c.infinite places.items }
    requires nonempty { 0 < length places.items }
    ensures places { let c = curve.now in let L = K.lawful c.alg.k in
        IfOk result (λ r. ArePlaces L c.alg.f c.finite c.infinite r.places.items) }
    ensures start { let c = curve.now in IfOk result (IsStart (K.lawful c.alg.k) c.alg.f) }
    ensures first { let c = curve.now in let L = K.lawful c.alg.k in
        IsIrreducible L c.alg.f → IfOk result (λ r.
        IsFirstAt L c.alg.f c.finite c.infinite r.places.items r.index r.system) }
    ensures fault { let c = curve.now in let L = K.lawful c.alg.k in
        IfErr result (IsStartFault L c.alg.f c.finite c.infinite) }
{
    match first_of(alloc, curve, &places) {
        Ok(Some(found)) => start_at(curve, places, found),
        Ok(None) => {
            drop(places);
            Err(StartFault::PoleLimit)
        },
        Err(NoMemory) => {
            drop(places);
            Err(StartFault::NoMemory)
        },
    }
}

/// The start at one of the points, where there is any.
fn start_in<K: FiniteField<E = u32>>(
    alloc: Global,
    curve: &Curve<K>,
    places: Vec<Point>,
) -> Result<Start, StartFault>
    requires { let c = curve.now in let L = K.lawful c.alg.k in
        ArePlaces L c.alg.f c.finite c.infinite places.items }
    ensures places { let c = curve.now in let L = K.lawful c.alg.k in
        IfOk result (λ r. ArePlaces L c.alg.f c.finite c.infinite r.places.items) }
    ensures start { let c = curve.now in IfOk result (IsStart (K.lawful c.alg.k) c.alg.f) }
    ensures first { let c = curve.now in let L = K.lawful c.alg.k in
        IsIrreducible L c.alg.f → IfOk result (λ r.
        IsFirstAt L c.alg.f c.finite c.infinite r.places.items r.index r.system) }
    ensures fault { let c = curve.now in let L = K.lawful c.alg.k in
        IfErr result (IsStartFault L c.alg.f c.finite c.infinite) }
{
    if places.is_empty() {
        drop(places);
        Err(StartFault::NoPlace)
    } else {
        start_among(alloc, curve, places)
    }
}

/// The points of an equation and the first of them that has a pole system within the pole limit,
/// with one there of a gap number above 1; else why there is none.
pub fn start_of<K: FiniteField<E = u32>>(
    alloc: Global,
    curve: &Curve<K>,
) -> Result<Start, StartFault>
    requires { let c = curve.now in
        AreBothOrders (K.lawful c.alg.k) c.alg.f c.finite c.infinite }
    ensures places { let c = curve.now in let L = K.lawful c.alg.k in
        IfOk result (λ r. ArePlaces L c.alg.f c.finite c.infinite r.places.items) }
    ensures start { let c = curve.now in IfOk result (IsStart (K.lawful c.alg.k) c.alg.f) }
    ensures first { let c = curve.now in let L = K.lawful c.alg.k in
        IsIrreducible L c.alg.f → IfOk result (λ r.
        IsFirstAt L c.alg.f c.finite c.infinite r.places.items r.index r.system) }
    ensures fault { let c = curve.now in let L = K.lawful c.alg.k in
        IfErr result (IsStartFault L c.alg.f c.finite c.infinite) }
{
    match places_of(alloc, curve) {
        Ok(places) => start_in(alloc, curve, places),
        Err(NoMemory) => Err(StartFault::NoMemory),
    }
}

/// The refusal of an equation without points.
fn no_place<K: FiniteField<E = u32>>(curve: Curve<K>) -> Refusal
    requires { let L = K.lawful curve.alg.k in
        HaveNoPlace L curve.alg.f curve.finite curve.infinite }
    ensures { HasNoStart (K.lawful curve.alg.k) curve.alg.f result }
{
    let Curve {
        alg: _,
        sep: _,
        finite,
        infinite,
    } = curve;
    Refusal::NoRationalPlace { finite, infinite }
}

/// The refusal of an equation without a start.
pub fn refusal_of<K: FiniteField<E = u32>>(curve: Curve<K>, fault: StartFault) -> Refusal
    requires { let L = K.lawful curve.alg.k in
        IsStartFault L curve.alg.f curve.finite curve.infinite fault }
    ensures { HasNoStart (K.lawful curve.alg.k) curve.alg.f result }
{
    match fault {
        StartFault::NoPlace => no_place(curve),
        StartFault::PoleLimit => {
            drop(curve);
            Refusal::PoleLimit
        },
        StartFault::SmallGenus { system } => {
            drop(curve);
            Refusal::SmallGenus { system }
        },
        StartFault::NoMemory => {
            drop(curve);
            Refusal::NoMemory
        },
    }
}

/// The point with an index.
fn point_of<K: FiniteField<E = u32>>(curve: &Curve<K>, places: Vec<Point>, index: usize) -> Point
    requires places { let c = curve.now in
        ArePlaces (K.lawful c.alg.k) c.alg.f c.finite c.infinite places.items }
    requires index { index < length places.items }
    ensures point { let c = curve.now in
        IsPointOf (K.lawful c.alg.k) c.alg.f c.finite c.infinite result }
    ensures at { (d : Point) → get_or places.items index d ≡ result }
{
    let _curve = curve;
    let mut items = places;
    items.swap_remove(index)
}

/// The parts of a first equation with its start, and of the second one.
fn parts_of<K: FiniteField<E = u32>>(
    one: Curve<K>,
    start: Start,
    second: &Plane,
    two: Curve<K>,
) -> KeptParts
    requires sep1 { IsSep (K.lawful one.alg.k) one.alg.f one.sep }
    requires places { let L = K.lawful one.alg.k in
        ArePlaces L one.alg.f one.finite one.infinite start.places.items }
    requires start { IsStart (K.lawful one.alg.k) one.alg.f start }
    requires first { let L = K.lawful one.alg.k in IsIrreducible L one.alg.f →
        IsFirstAt L one.alg.f one.finite one.infinite start.places.items start.index start.system }
    requires sep2 { IsSep (K.lawful one.alg.k) second.now two.sep }
    requires orders2 { AreBothOrders (K.lawful one.alg.k) second.now two.finite two.infinite }
    ensures { AreKept (K.lawful one.alg.k) one.alg.f second.now result }
{
    let _second = second;
    let point = point_of(&one, start.places, start.index);
    KeptParts {
        sep1: one.sep,
        finite1: one.finite,
        infinite1: one.infinite,
        sep2: two.sep,
        finite2: two.finite,
        infinite2: two.infinite,
        point,
        system: start.system,
    }
}

/// The parts of a first equation and of the second one.
fn kept_with<K: FiniteField<E = u32>>(
    alloc: Global,
    one: Curve<K>,
    second: &Plane,
    two: Curve<K>,
) -> Result<KeptParts, Refusal>
    requires sep1 { IsSep (K.lawful one.alg.k) one.alg.f one.sep }
    requires orders1 { AreBothOrders (K.lawful one.alg.k) one.alg.f one.finite one.infinite }
    requires sep2 { IsSep (K.lawful one.alg.k) second.now two.sep }
    requires orders2 { AreBothOrders (K.lawful one.alg.k) second.now two.finite two.infinite }
    ensures kept { IfOk result (AreKept (K.lawful one.alg.k) one.alg.f second.now) }
    ensures refused { IfErr result (HasNoStart (K.lawful one.alg.k) one.alg.f) }
{
    match start_of(alloc, &one) {
        Ok(start) => Ok(parts_of(one, start, second, two)),
        Err(fault) => {
            drop(two);
            Err(refusal_of(one, fault))
        },
    }
}

/// The parts of a first equation and of a second one that is looked at.
fn kept_from<K: FiniteField<E = u32>>(
    alloc: Global,
    one: Curve<K>,
    second: &Plane,
) -> Result<KeptParts, Refusal>
    requires sep1 { IsSep (K.lawful one.alg.k) one.alg.f one.sep }
    requires orders1 { AreBothOrders (K.lawful one.alg.k) one.alg.f one.finite one.infinite }
    requires admitted { IsAdmitted (K.lawful one.alg.k) one.alg.f }
    requires second { IsEquation (K.elements one.alg.k) second.now }
    ensures kept { IfOk result (AreKept (K.lawful one.alg.k) one.alg.f second.now) }
    ensures admitted { let L = K.lawful one.alg.k in
        IfOk result (λ _. AreAdmitted L one.alg.f second.now) }
    ensures refused { let L = K.lawful one.alg.k in
        IfErr result (IsRefused L one.alg.f second.now) }
{
    match curve_of(alloc, &one.alg.k, second, 2) {
        Ok(two) => kept_with(alloc, one, second, two),
        Err(refusal) => {
            drop(one);
            Err(refusal)
        },
    }
}

/// The maximal orders of two equations, and the first point of the first field with a pole system
/// within the pole limit, with one there of a gap number above 1.
///
/// The refusals come in this order: those of the first equation, those of the second one,
/// `NoRationalPlace` where the first field has no point, `PoleLimit` where none of its points has a
/// pole system within the pole limit, and `SmallGenus` where the gap number of the one of the first
/// point that has one is 0 or 1. This project's own.
pub fn kept<K: FiniteField<E = u32>>(
    alloc: Global,
    k: &K,
    first: &Plane,
    second: &Plane,
) -> Result<KeptParts, Refusal>
    requires first { IsEquation (K.elements k.now) first.now }
    requires second { IsEquation (K.elements k.now) second.now }
    ensures kept { IfOk result (AreKept (K.lawful k.now) first.now second.now) }
    ensures admitted { let L = K.lawful k.now in
        IfOk result (λ _. AreAdmitted L first.now second.now) }
    ensures refused { let L = K.lawful k.now in
        IfErr result (IsRefused L first.now second.now) }
{
    match curve_of(alloc, k, first, 1) {
        Ok(one) => kept_from(alloc, one, second),
        Err(refusal) => Err(refusal),
    }
}
