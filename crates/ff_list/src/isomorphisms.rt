// The isomorphism list of two equations.
ghost use Rattle.std.specs.Prelude.{◌≡◌, ◌≤◌, [], IfOk, IfErr};
ghost use Rattle.ff_poly.specs.Limits.{IsEquation};
ghost use Rattle.ff_data.specs.declared.order.Refusal.TheVariants as refusal;
ghost use Rattle.ff_list.specs.Lists.{IsAdmitted, AreAdmitted, AreBothOrders, IsRefused};
ghost use Rattle.ff_list.specs.Lists.{IsTrueList};
ghost use Rattle.ff_list.specs.Searches.{ArePlaces, IsKnown, HasNoStart};

use crate::curve::{Curve, curve_of};
use crate::known::{Known, known_of};
use crate::places::places_of;
use crate::profile::Profile;
use crate::search::{Hits, search};
use crate::starts::refusal_of;
use ff_alg::{FiniteField, NoMemory, Steps};
use ff_data::{EntryList, IsoList, Point, Refusal};
use ff_elem::Alg;
use ff_poly::Plane;
use std::alloc::Global;
use std::sync::ledger::Ledger;

/// A search that has found nothing.
fn no_hits<K: FiniteField<E = u32>>(alloc: Global, k: &K) -> Result<Hits, NoMemory>
    ensures { IfOk result (λ h. h.list.items ≡ []) }
{
    let profile = Profile::new(alloc, k)?;
    Ok(Hits {
        list: Vec::new(alloc),
        profile,
    })
}

/// The list of what a search has found.
fn list_of(hits: Hits) -> IsoList
    ensures { result.entries ≡ hits.list.items }
{
    let Hits { list, profile: _ } = hits;
    IsoList {
        entries: EntryList { items: list },
    }
}

/// The isomorphisms to the field of an equation that carry the point of the first system to one of
/// the points.
fn list_at<K: FiniteField<E = u32>, L: Ledger, M: Ledger>(
    alloc: Global,
    alg1: &Alg<K>,
    curve: &Curve<K>,
    places: &[Point],
    known: &Known,
    tests: &mut Steps<L>,
    nodes: &mut Steps<M>,
) -> Result<IsoList, NoMemory>
    requires field { alg1.now.k ≡ curve.now.alg.k }
    requires known { IsKnown (K.lawful curve.now.alg.k) alg1.now.f known.now }
    requires places { let c = curve.now in
        ArePlaces (K.lawful c.alg.k) c.alg.f c.finite c.infinite places.now }
    ensures list { let c = curve.now in
        IfOk result (λ r. IsTrueList (K.lawful c.alg.k) alg1.now.f c.alg.f r.entries) }
    ensures tests { tests.old ≤ tests.new }
    ensures nodes { nodes.old ≤ nodes.new }
{
    let mut hits = no_hits(alloc, &alg1.k)?;
    match search(alloc, alg1, curve, known, places, &mut hits, tests, nodes) {
        Ok(()) => Ok(list_of(hits)),
        Err(NoMemory) => {
            drop(hits);
            Err(NoMemory)
        },
    }
}

/// The isomorphisms to the field of an equation, whose points are looked for.
fn list_to<K: FiniteField<E = u32>, L: Ledger, M: Ledger>(
    alloc: Global,
    alg1: &Alg<K>,
    curve: &Curve<K>,
    known: &Known,
    tests: &mut Steps<L>,
    nodes: &mut Steps<M>,
) -> Result<IsoList, NoMemory>
    requires field { alg1.now.k ≡ curve.now.alg.k }
    requires known { IsKnown (K.lawful curve.now.alg.k) alg1.now.f known.now }
    requires orders { let c = curve.now in
        AreBothOrders (K.lawful c.alg.k) c.alg.f c.finite c.infinite }
    ensures list { let c = curve.now in
        IfOk result (λ r. IsTrueList (K.lawful c.alg.k) alg1.now.f c.alg.f r.entries) }
    ensures tests { tests.old ≤ tests.new }
    ensures nodes { nodes.old ≤ nodes.new }
{
    let places = places_of(alloc, curve)?;
    list_at(alloc, alg1, curve, &places, known, tests, nodes)
}

/// The list of one equation with itself, with what is known of it.
fn list_of_one<K: FiniteField<E = u32>, L: Ledger, M: Ledger>(
    alloc: Global,
    one: Curve<K>,
    known: Known,
    tests: &mut Steps<L>,
    nodes: &mut Steps<M>,
) -> Result<IsoList, Refusal>
    requires known { IsKnown (K.lawful one.alg.k) one.alg.f known }
    requires places { let L = K.lawful one.alg.k in
        ArePlaces L one.alg.f one.finite one.infinite known.start.places.items }
    ensures list { let L = K.lawful one.alg.k in
        IfOk result (λ r. IsTrueList L one.alg.f one.alg.f r.entries) }
    ensures refused { IfErr result (λ r. r ≡ refusal.NoMemory) }
    ensures tests { tests.old ≤ tests.new }
    ensures nodes { nodes.old ≤ nodes.new }
{
    let places = &known.start.places;
    match list_at(alloc, &one.alg, &one, places, &known, tests, nodes) {
        Ok(list) => {
            drop(known);
            drop(one);
            Ok(list)
        },
        Err(NoMemory) => {
            drop(known);
            drop(one);
            Err(Refusal::NoMemory)
        },
    }
}

/// The list of two equations, with what is known of the first one.
fn list_of_two<K: FiniteField<E = u32>, L: Ledger, M: Ledger>(
    alloc: Global,
    one: Curve<K>,
    known: Known,
    two: Curve<K>,
    tests: &mut Steps<L>,
    nodes: &mut Steps<M>,
) -> Result<IsoList, Refusal>
    requires field { one.alg.k ≡ two.alg.k }
    requires known { IsKnown (K.lawful two.alg.k) one.alg.f known }
    requires orders { AreBothOrders (K.lawful two.alg.k) two.alg.f two.finite two.infinite }
    ensures list { let L = K.lawful two.alg.k in
        IfOk result (λ r. IsTrueList L one.alg.f two.alg.f r.entries) }
    ensures refused { IfErr result (λ r. r ≡ refusal.NoMemory) }
    ensures tests { tests.old ≤ tests.new }
    ensures nodes { nodes.old ≤ nodes.new }
{
    match list_to(alloc, &one.alg, &two, &known, tests, nodes) {
        Ok(list) => {
            drop(known);
            drop(one);
            drop(two);
            Ok(list)
        },
        Err(NoMemory) => {
            drop(known);
            drop(one);
            drop(two);
            Err(Refusal::NoMemory)
        },
    }
}

/// The list of one admitted equation with itself.
fn list_alone<K: FiniteField<E = u32>, L: Ledger, M: Ledger>(
    alloc: Global,
    one: Curve<K>,
    tests: &mut Steps<L>,
    nodes: &mut Steps<M>,
) -> Result<IsoList, Refusal>
    requires orders { AreBothOrders (K.lawful one.alg.k) one.alg.f one.finite one.infinite }
    ensures list { let L = K.lawful one.alg.k in
        IfOk result (λ r. IsTrueList L one.alg.f one.alg.f r.entries) }
    ensures refused { IfErr result (HasNoStart (K.lawful one.alg.k) one.alg.f) }
    ensures tests { tests.old ≤ tests.new }
    ensures nodes { nodes.old ≤ nodes.new }
{
    match known_of(alloc, &one) {
        Ok(known) => list_of_one(alloc, one, known, tests, nodes),
        Err(fault) => Err(refusal_of(one, fault)),
    }
}

/// The list of two admitted equations.
fn list_with<K: FiniteField<E = u32>, L: Ledger, M: Ledger>(
    alloc: Global,
    one: Curve<K>,
    two: Curve<K>,
    tests: &mut Steps<L>,
    nodes: &mut Steps<M>,
) -> Result<IsoList, Refusal>
    requires field { one.alg.k ≡ two.alg.k }
    requires orders1 { AreBothOrders (K.lawful one.alg.k) one.alg.f one.finite one.infinite }
    requires orders2 { AreBothOrders (K.lawful two.alg.k) two.alg.f two.finite two.infinite }
    ensures list { let L = K.lawful two.alg.k in
        IfOk result (λ r. IsTrueList L one.alg.f two.alg.f r.entries) }
    ensures refused { IfErr result (HasNoStart (K.lawful one.alg.k) one.alg.f) }
    ensures tests { tests.old ≤ tests.new }
    ensures nodes { nodes.old ≤ nodes.new }
{
    match known_of(alloc, &one) {
        Ok(known) => list_of_two(alloc, one, known, two, tests, nodes),
        Err(fault) => {
            drop(two);
            Err(refusal_of(one, fault))
        },
    }
}

/// The list of an admitted equation and a second one that is looked at.
fn list_from<K: FiniteField<E = u32>, L: Ledger, M: Ledger>(
    alloc: Global,
    one: Curve<K>,
    second: &Plane,
    tests: &mut Steps<L>,
    nodes: &mut Steps<M>,
) -> Result<IsoList, Refusal>
    requires orders { AreBothOrders (K.lawful one.alg.k) one.alg.f one.finite one.infinite }
    requires admitted { IsAdmitted (K.lawful one.alg.k) one.alg.f }
    requires second { IsEquation (K.elements one.alg.k) second.now }
    ensures admitted { let L = K.lawful one.alg.k in
        IfOk result (λ _. AreAdmitted L one.alg.f second.now) }
    ensures list { let L = K.lawful one.alg.k in
        IfOk result (λ r. IsTrueList L one.alg.f second.now r.entries) }
    ensures refused { let L = K.lawful one.alg.k in
        IfErr result (IsRefused L one.alg.f second.now) }
    ensures tests { tests.old ≤ tests.new }
    ensures nodes { nodes.old ≤ nodes.new }
{
    match curve_of(alloc, &one.alg.k, second, 2) {
        Ok(two) => list_with(alloc, one, two, tests, nodes),
        Err(refusal) => {
            drop(one);
            Err(refusal)
        },
    }
}

/// The list of an admitted equation and a second one, which may be the same.
fn list_of_both<K: FiniteField<E = u32>, L: Ledger, M: Ledger>(
    alloc: Global,
    one: Curve<K>,
    second: &Plane,
    tests: &mut Steps<L>,
    nodes: &mut Steps<M>,
) -> Result<IsoList, Refusal>
    requires orders { AreBothOrders (K.lawful one.alg.k) one.alg.f one.finite one.infinite }
    requires admitted { IsAdmitted (K.lawful one.alg.k) one.alg.f }
    requires second { IsEquation (K.elements one.alg.k) second.now }
    ensures admitted { let L = K.lawful one.alg.k in
        IfOk result (λ _. AreAdmitted L one.alg.f second.now) }
    ensures list { let L = K.lawful one.alg.k in
        IfOk result (λ r. IsTrueList L one.alg.f second.now r.entries) }
    ensures refused { let L = K.lawful one.alg.k in
        IfErr result (IsRefused L one.alg.f second.now) }
    ensures tests { tests.old ≤ tests.new }
    ensures nodes { nodes.old ≤ nodes.new }
{
    if one.alg.f.same(&one.alg.k, second) {
        list_alone(alloc, one, tests, nodes)
    } else {
        list_from(alloc, one, second, tests, nodes)
    }
}

/// The isomorphisms of the function fields of two equations f and g, of y-degree at least 1: pairs
/// of E(g) that satisfy f, with their inverse pairs, by rising key of the pair.
///
/// The refusals are those of `kept`, in its order. `tests` is ticked once for each pair that is
/// tested, and `nodes` for each state of the search for roots. This project's own.
pub fn isos<K: FiniteField<E = u32>, L: Ledger, M: Ledger>(
    alloc: Global,
    k: &K,
    first: &Plane,
    second: &Plane,
    tests: &mut Steps<L>,
    nodes: &mut Steps<M>,
) -> Result<IsoList, Refusal>
    requires first { IsEquation (K.elements k.now) first.now }
    requires second { IsEquation (K.elements k.now) second.now }
    ensures admitted { let L = K.lawful k.now in
        IfOk result (λ _. AreAdmitted L first.now second.now) }
    ensures list { let L = K.lawful k.now in
        IfOk result (λ r. IsTrueList L first.now second.now r.entries) }
    ensures refused { let L = K.lawful k.now in
        IfErr result (IsRefused L first.now second.now) }
    ensures tests { tests.old ≤ tests.new }
    ensures nodes { nodes.old ≤ nodes.new }
{
    match curve_of(alloc, k, first, 1) {
        Ok(one) => list_of_both(alloc, one, second, tests, nodes),
        Err(refusal) => Err(refusal),
    }
}
