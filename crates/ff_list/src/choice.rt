// The candidates of one choice of alpha and beta, and which of them are isomorphisms.
ghost use Rattle.std.specs.Prelude.{◌≡◌, ◌≤◌, IfOk, IsTrue};
ghost use Rattle.std.specs.List.{All};
ghost use Rattle.ff_theory.specs.Ring.{IsElement};
ghost use Rattle.ff_data.specs.Lists.{IsEntry};
ghost use Rattle.ff_data.specs.Pairs.{IsPair};
ghost use Rattle.ff_data.specs.Systems.{AreCoords};
ghost use Rattle.ff_forms.specs.Forms.{HasCandidateForm};
ghost use Rattle.ff_list.specs.Lists.{IsTrueList};
ghost use Rattle.ff_list.specs.Searches.{AreMatched, IsChoice};

use crate::entry::insert;
use crate::known::Known;
use ff_alg::{FiniteField, NoMemory, Steps};
use ff_data::{Candidate, Entry, Pair, PolyLists, System};
use ff_elem::Alg;
use ff_inverse::back;
use ff_match::{candidates, shifted};
use ff_root::roots;
use ff_subst::is_inverse;
use std::alloc::Global;
use std::sync::ledger::Ledger;

/// Adds the entry, where its pairs are inverse to each other.
fn keep_tested<K: FiniteField<E = u32>>(
    alg1: &Alg<K>,
    alg2: &Alg<K>,
    inverse: bool,
    entry: Entry,
    list: &mut Vec<Entry>,
) -> Result<(), NoMemory>
    requires entry { let L = K.lawful alg2.now.k in
        IsTrue inverse → IsEntry L alg1.now.f alg2.now.f entry }
    requires list { IsTrueList (K.lawful alg2.now.k) alg1.now.f alg2.now.f list.old.items }
    ensures { let L = K.lawful alg2.now.k in
        IfOk result (λ _. IsTrueList L alg1.now.f alg2.now.f list.new.items) }
{
    if inverse {
        insert(alg1, alg2, list, entry)
    } else {
        drop(entry);
        Ok(())
    }
}

/// Tests whether the pairs of an entry are inverse to each other, and adds it where they are.
fn keep_entry<K: FiniteField<E = u32>, L: Ledger>(
    alloc: Global,
    alg1: &Alg<K>,
    alg2: &Alg<K>,
    entry: Entry,
    list: &mut Vec<Entry>,
    tests: &mut Steps<L>,
) -> Result<(), NoMemory>
    requires field { alg1.now.k ≡ alg2.now.k }
    requires pair { IsPair (K.lawful alg2.now.k) alg2.now.f entry.pair }
    requires back { IsPair (K.lawful alg2.now.k) alg1.now.f entry.back }
    requires list { IsTrueList (K.lawful alg2.now.k) alg1.now.f alg2.now.f list.old.items }
    ensures list { let L = K.lawful alg2.now.k in
        IfOk result (λ _. IsTrueList L alg1.now.f alg2.now.f list.new.items) }
    ensures tests { tests.old ≤ tests.new }
{
    match is_inverse(alloc, alg1, alg2, &entry.pair, &entry.back, tests) {
        Ok(inverse) => keep_tested(alg1, alg2, inverse, entry, list),
        Err(NoMemory) => {
            drop(entry);
            Err(NoMemory)
        },
    }
}

/// The entry of the pair of a candidate and a pair back.
fn entry_of(c: Candidate, back: Pair) -> Entry
    ensures { result ≡ record { pair = c.pair; back = back } }
{
    Entry { pair: c.pair, back }
}

/// Adds the pair of a candidate with its inverse pair, where they are inverse to each other.
fn keep<K: FiniteField<E = u32>, L: Ledger>(
    alloc: Global,
    alg1: &Alg<K>,
    alg2: &Alg<K>,
    known: &Known,
    s2: &System,
    c: Candidate,
    list: &mut Vec<Entry>,
    tests: &mut Steps<L>,
) -> Result<(), NoMemory>
    requires field { alg1.now.k ≡ alg2.now.k }
    requires systems { AreMatched (K.lawful alg2.now.k) alg1.now.f alg2.now.f known.now s2.now }
    requires candidate { HasCandidateForm (K.lawful alg2.now.k) alg2.now.f s2.now c }
    requires list { IsTrueList (K.lawful alg2.now.k) alg1.now.f alg2.now.f list.old.items }
    ensures list { let L = K.lawful alg2.now.k in
        IfOk result (λ _. IsTrueList L alg1.now.f alg2.now.f list.new.items) }
    ensures tests { tests.old ≤ tests.new }
{
    match back(alloc, alg1, alg2, &known.start.system, s2, &c) {
        Ok(back) => keep_entry(alloc, alg1, alg2, entry_of(c, back), list, tests),
        Err(NoMemory) => {
            drop(c);
            Err(NoMemory)
        },
    }
}

/// Adds the pairs of the candidates that have an inverse pair.
fn keep_each<K: FiniteField<E = u32>, L: Ledger>(
    alloc: Global,
    alg1: &Alg<K>,
    alg2: &Alg<K>,
    known: &Known,
    s2: &System,
    candidates: Vec<Candidate>,
    list: &mut Vec<Entry>,
    tests: &mut Steps<L>,
) -> Result<(), NoMemory>
    requires field { alg1.now.k ≡ alg2.now.k }
    requires systems { AreMatched (K.lawful alg2.now.k) alg1.now.f alg2.now.f known.now s2.now }
    requires candidates { let L = K.lawful alg2.now.k in
        All (HasCandidateForm L alg2.now.f s2.now) candidates.items }
    requires list { IsTrueList (K.lawful alg2.now.k) alg1.now.f alg2.now.f list.old.items }
    ensures list { let L = K.lawful alg2.now.k in
        IfOk result (λ _. IsTrueList L alg1.now.f alg2.now.f list.new.items) }
    ensures tests { tests.old ≤ tests.new }
{
    let mut rest = candidates;
    while let Some(c) = rest.pop() {
        keep(alloc, alg1, alg2, known, s2, c, list, tests)?;
    }
    Ok(())
}

/// The coordinates in s2 of the elements that w may be carried to, where z is carried to
/// `alpha * z + beta`.
fn images_of_w<K: FiniteField<E = u32>, M: Ledger>(
    alloc: Global,
    alg1: &Alg<K>,
    alg2: &Alg<K>,
    known: &Known,
    s2: &System,
    alpha: u32,
    beta: u32,
    nodes: &mut Steps<M>,
) -> Result<PolyLists, NoMemory>
    requires systems { AreMatched (K.lawful alg2.now.k) alg1.now.f alg2.now.f known.now s2.now }
    requires choice { IsChoice (K.elements alg2.now.k) alpha beta }
    ensures coords { IfOk result (All (AreCoords (K.elements alg2.now.k) s2.now)) }
    ensures nodes { nodes.old ≤ nodes.new }
{
    let _first = alg1;
    let coeffs = shifted(alloc, &alg2.k, &known.relation, alpha, beta)?;
    roots(alloc, alg2, s2, coeffs.rows(), known.weight, nodes)
}

/// Adds the isomorphisms that carry z to `alpha * z + beta` and w to one of the elements with these
/// coordinates.
fn keep_candidates<K: FiniteField<E = u32>, L: Ledger>(
    alloc: Global,
    alg1: &Alg<K>,
    alg2: &Alg<K>,
    known: &Known,
    s2: &System,
    alpha: u32,
    beta: u32,
    roots: &PolyLists,
    list: &mut Vec<Entry>,
    tests: &mut Steps<L>,
) -> Result<(), NoMemory>
    requires field { alg1.now.k ≡ alg2.now.k }
    requires systems { AreMatched (K.lawful alg2.now.k) alg1.now.f alg2.now.f known.now s2.now }
    requires choice { IsChoice (K.elements alg2.now.k) alpha beta }
    requires roots { All (AreCoords (K.elements alg2.now.k) s2.now) roots.now }
    requires list { IsTrueList (K.lawful alg2.now.k) alg1.now.f alg2.now.f list.old.items }
    ensures list { let L = K.lawful alg2.now.k in
        IfOk result (λ _. IsTrueList L alg1.now.f alg2.now.f list.new.items) }
    ensures tests { tests.old ≤ tests.new }
{
    let (s1, r) = (&known.start.system, &known.relation);
    let found = candidates(alloc, alg1, alg2, s1, s2, r, alpha, beta, roots)?;
    keep_each(alloc, alg1, alg2, known, s2, found.items, list, tests)
}

/// Adds the isomorphisms that carry z to `alpha * z + beta`.
pub fn search_choice<K: FiniteField<E = u32>, L: Ledger, M: Ledger>(
    alloc: Global,
    alg1: &Alg<K>,
    alg2: &Alg<K>,
    known: &Known,
    s2: &System,
    alpha: u32,
    beta: u32,
    list: &mut Vec<Entry>,
    tests: &mut Steps<L>,
    nodes: &mut Steps<M>,
) -> Result<(), NoMemory>
    requires field { alg1.now.k ≡ alg2.now.k }
    requires systems { AreMatched (K.lawful alg2.now.k) alg1.now.f alg2.now.f known.now s2.now }
    requires choice { IsChoice (K.elements alg2.now.k) alpha beta }
    requires list { IsTrueList (K.lawful alg2.now.k) alg1.now.f alg2.now.f list.old.items }
    ensures list { let L = K.lawful alg2.now.k in
        IfOk result (λ _. IsTrueList L alg1.now.f alg2.now.f list.new.items) }
    ensures tests { tests.old ≤ tests.new }
    ensures nodes { nodes.old ≤ nodes.new }
{
    let roots = images_of_w(alloc, alg1, alg2, known, s2, alpha, beta, nodes)?;
    keep_candidates(
        alloc, alg1, alg2, known, s2, alpha, beta, &roots, list, tests,
    )
}
