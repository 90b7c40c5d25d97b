// The search over the points of the second field and the lines alpha * z + beta.
ghost use Rattle.std.specs.Prelude.{◌≡◌, ◌≤◌, IfOk, IfSome};
ghost use Rattle.ff_theory.specs.Ring.{IsElement};
ghost use Rattle.ff_list.specs.Lists.{IsTrueList, AreBothOrders};
ghost use Rattle.ff_list.specs.Searches.{ArePlaces, IsPlace, IsFormed, IsKnown, AreMatched};
ghost use Rattle.ff_list.specs.Searches.{AreSlopes, IsChoice};

use crate::choice::search_choice;
use crate::curve::Curve;
use crate::known::Known;
use crate::places::system_like;
use crate::profile::{Profile, fits};
use crate::slopes::slopes;
use ff_alg::{FiniteField, NoMemory, Steps};
use ff_data::{Entry, Point, System};
use ff_elem::Alg;
use ff_match::alike;
use std::alloc::Global;
use std::sync::ledger::Ledger;

/// What a search has found: the entries by rising key, and what is known of the profile of the
/// first system.
#[derive(Drop)]
pub struct Hits {
    pub list: Vec<Entry>,
    pub profile: Profile,
}

/// Adds the isomorphisms that carry z to `alpha * z + beta`, where the profiles of both systems
/// allow any.
fn search_line<K: FiniteField<E = u32>, L: Ledger, M: Ledger>(
    alloc: Global,
    alg1: &Alg<K>,
    alg2: &Alg<K>,
    known: &Known,
    s2: &System,
    alpha: u32,
    beta: u32,
    second: &mut Profile,
    hits: &mut Hits,
    tests: &mut Steps<L>,
    nodes: &mut Steps<M>,
) -> Result<(), NoMemory>
    requires field { alg1.now.k ≡ alg2.now.k }
    requires systems { AreMatched (K.lawful alg2.now.k) alg1.now.f alg2.now.f known.now s2.now }
    requires choice { IsChoice (K.elements alg2.now.k) alpha beta }
    requires list { IsTrueList (K.lawful alg2.now.k) alg1.now.f alg2.now.f hits.old.list.items }
    ensures list { let L = K.lawful alg2.now.k in
        IfOk result (λ _. IsTrueList L alg1.now.f alg2.now.f hits.new.list.items) }
    ensures tests { tests.old ≤ tests.new }
    ensures nodes { nodes.old ≤ nodes.new }
{
    let (k, s1) = (&alg2.k, &known.start.system);
    let fitting = fits(alloc, k, s1, s2, alpha, beta, &mut hits.profile, second)?;
    if !fitting {
        return Ok(());
    }
    let list = &mut hits.list;
    search_choice(
        alloc, alg1, alg2, known, s2, alpha, beta, list, tests, nodes,
    )
}

/// Adds the isomorphisms that carry z to `alpha * z + beta` for any beta.
fn search_slope<K: FiniteField<E = u32>, L: Ledger, M: Ledger>(
    alloc: Global,
    alg1: &Alg<K>,
    alg2: &Alg<K>,
    known: &Known,
    s2: &System,
    alpha: u32,
    second: &mut Profile,
    hits: &mut Hits,
    tests: &mut Steps<L>,
    nodes: &mut Steps<M>,
) -> Result<(), NoMemory>
    requires field { alg1.now.k ≡ alg2.now.k }
    requires systems { AreMatched (K.lawful alg2.now.k) alg1.now.f alg2.now.f known.now s2.now }
    requires alpha { IsElement (K.elements alg2.now.k) alpha }
    requires nonzero { let F = K.elements alg2.now.k in ¬ (F.value alpha ≡ F.zero) }
    requires list { IsTrueList (K.lawful alg2.now.k) alg1.now.f alg2.now.f hits.old.list.items }
    ensures list { let L = K.lawful alg2.now.k in
        IfOk result (λ _. IsTrueList L alg1.now.f alg2.now.f hits.new.list.items) }
    ensures tests { tests.old ≤ tests.new }
    ensures nodes { nodes.old ≤ nodes.new }
{
    for j in 0..alg2.k.count() {
        let beta = alg2.k.nth(j);
        search_line(
            alloc, alg1, alg2, known, s2, alpha, beta, second, hits, tests, nodes,
        )?;
    }
    Ok(())
}

/// Adds the isomorphisms that carry z to `alpha * z + beta` for any beta and any alpha of a list.
fn search_slopes<K: FiniteField<E = u32>, L: Ledger, M: Ledger>(
    alloc: Global,
    alg1: &Alg<K>,
    alg2: &Alg<K>,
    known: &Known,
    s2: &System,
    slopes: &[u32],
    hits: &mut Hits,
    tests: &mut Steps<L>,
    nodes: &mut Steps<M>,
) -> Result<(), NoMemory>
    requires field { alg1.now.k ≡ alg2.now.k }
    requires systems { AreMatched (K.lawful alg2.now.k) alg1.now.f alg2.now.f known.now s2.now }
    requires slopes { AreSlopes (K.elements alg2.now.k) slopes.now }
    requires list { IsTrueList (K.lawful alg2.now.k) alg1.now.f alg2.now.f hits.old.list.items }
    ensures list { let L = K.lawful alg2.now.k in
        IfOk result (λ _. IsTrueList L alg1.now.f alg2.now.f hits.new.list.items) }
    ensures tests { tests.old ≤ tests.new }
    ensures nodes { nodes.old ≤ nodes.new }
{
    let mut second = Profile::new(alloc, &alg2.k)?;
    for i in 0..slopes.len() {
        search_slope(
            alloc,
            alg1,
            alg2,
            known,
            s2,
            slopes[i],
            &mut second,
            hits,
            tests,
            nodes,
        )?;
    }
    Ok(())
}

/// Adds the isomorphisms that carry the first system to s2.
fn search_system<K: FiniteField<E = u32>, L: Ledger, M: Ledger>(
    alloc: Global,
    alg1: &Alg<K>,
    alg2: &Alg<K>,
    known: &Known,
    s2: &System,
    hits: &mut Hits,
    tests: &mut Steps<L>,
    nodes: &mut Steps<M>,
) -> Result<(), NoMemory>
    requires field { alg1.now.k ≡ alg2.now.k }
    requires systems { AreMatched (K.lawful alg2.now.k) alg1.now.f alg2.now.f known.now s2.now }
    requires list { IsTrueList (K.lawful alg2.now.k) alg1.now.f alg2.now.f hits.old.list.items }
    ensures list { let L = K.lawful alg2.now.k in
        IfOk result (λ _. IsTrueList L alg1.now.f alg2.now.f hits.new.list.items) }
    ensures tests { tests.old ≤ tests.new }
    ensures nodes { nodes.old ≤ nodes.new }
{
    let slopes = slopes(alloc, &alg2.k)?;
    search_slopes(alloc, alg1, alg2, known, s2, &slopes, hits, tests, nodes)
}

/// Adds the isomorphisms that carry the first system to s2, where they are alike.
fn search_alike<K: FiniteField<E = u32>, L: Ledger, M: Ledger>(
    alloc: Global,
    alg1: &Alg<K>,
    alg2: &Alg<K>,
    known: &Known,
    s2: &System,
    hits: &mut Hits,
    tests: &mut Steps<L>,
    nodes: &mut Steps<M>,
) -> Result<(), NoMemory>
    requires field { alg1.now.k ≡ alg2.now.k }
    requires known { IsKnown (K.lawful alg2.now.k) alg1.now.f known.now }
    requires system { IsFormed (K.lawful alg2.now.k) alg2.now.f s2.now }
    requires list { IsTrueList (K.lawful alg2.now.k) alg1.now.f alg2.now.f hits.old.list.items }
    ensures list { let L = K.lawful alg2.now.k in
        IfOk result (λ _. IsTrueList L alg1.now.f alg2.now.f hits.new.list.items) }
    ensures tests { tests.old ≤ tests.new }
    ensures nodes { nodes.old ≤ nodes.new }
{
    if !alike(&known.start.system, s2) {
        return Ok(());
    }
    search_system(alloc, alg1, alg2, known, s2, hits, tests, nodes)
}

/// Adds the isomorphisms that carry the first system to another one, where there is one.
fn search_found<K: FiniteField<E = u32>, L: Ledger, M: Ledger>(
    alloc: Global,
    alg1: &Alg<K>,
    alg2: &Alg<K>,
    known: &Known,
    found: &Option<System>,
    hits: &mut Hits,
    tests: &mut Steps<L>,
    nodes: &mut Steps<M>,
) -> Result<(), NoMemory>
    requires field { alg1.now.k ≡ alg2.now.k }
    requires known { IsKnown (K.lawful alg2.now.k) alg1.now.f known.now }
    requires system { IfSome found.now (IsFormed (K.lawful alg2.now.k) alg2.now.f) }
    requires list { IsTrueList (K.lawful alg2.now.k) alg1.now.f alg2.now.f hits.old.list.items }
    ensures list { let L = K.lawful alg2.now.k in
        IfOk result (λ _. IsTrueList L alg1.now.f alg2.now.f hits.new.list.items) }
    ensures tests { tests.old ≤ tests.new }
    ensures nodes { nodes.old ≤ nodes.new }
{
    match found {
        Some(s2) => search_alike(alloc, alg1, alg2, known, s2, hits, tests, nodes),
        None => Ok(()),
    }
}

/// Adds the isomorphisms that carry the point of the first system to a point.
fn search_point<K: FiniteField<E = u32>, L: Ledger, M: Ledger>(
    alloc: Global,
    alg1: &Alg<K>,
    curve: &Curve<K>,
    known: &Known,
    point: &Point,
    hits: &mut Hits,
    tests: &mut Steps<L>,
    nodes: &mut Steps<M>,
) -> Result<(), NoMemory>
    requires field { alg1.now.k ≡ curve.now.alg.k }
    requires known { IsKnown (K.lawful curve.now.alg.k) alg1.now.f known.now }
    requires orders { let c = curve.now in
        AreBothOrders (K.lawful c.alg.k) c.alg.f c.finite c.infinite }
    requires point { let c = curve.now in
        IsPlace (K.elements c.alg.k) c.finite c.infinite point.now }
    requires list { let c = curve.now in
        IsTrueList (K.lawful c.alg.k) alg1.now.f c.alg.f hits.old.list.items }
    ensures list { let c = curve.now in
        IfOk result (λ _. IsTrueList (K.lawful c.alg.k) alg1.now.f c.alg.f hits.new.list.items) }
    ensures tests { tests.old ≤ tests.new }
    ensures nodes { nodes.old ≤ nodes.new }
{
    let found = system_like(alloc, curve, point, &known.start.system)?;
    let outcome = search_found(alloc, alg1, &curve.alg, known, &found, hits, tests, nodes);
    drop(found);
    outcome
}

/// Adds the isomorphisms that carry the point of the first system to one of the points.
pub fn search<K: FiniteField<E = u32>, L: Ledger, M: Ledger>(
    alloc: Global,
    alg1: &Alg<K>,
    curve: &Curve<K>,
    known: &Known,
    places: &[Point],
    hits: &mut Hits,
    tests: &mut Steps<L>,
    nodes: &mut Steps<M>,
) -> Result<(), NoMemory>
    requires field { alg1.now.k ≡ curve.now.alg.k }
    requires known { IsKnown (K.lawful curve.now.alg.k) alg1.now.f known.now }
    requires places { let c = curve.now in
        ArePlaces (K.lawful c.alg.k) c.alg.f c.finite c.infinite places.now }
    requires list { let c = curve.now in
        IsTrueList (K.lawful c.alg.k) alg1.now.f c.alg.f hits.old.list.items }
    ensures list { let c = curve.now in
        IfOk result (λ _. IsTrueList (K.lawful c.alg.k) alg1.now.f c.alg.f hits.new.list.items) }
    ensures tests { tests.old ≤ tests.new }
    ensures nodes { nodes.old ≤ nodes.new }
{
    for i in 0..places.len() {
        search_point(alloc, alg1, curve, known, &places[i], hits, tests, nodes)?;
    }
    Ok(())
}
