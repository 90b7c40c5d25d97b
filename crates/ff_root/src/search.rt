// The search, from the highest level down.
ghost use Rattle.std.specs.Prelude.{◌≡◌, ◌+◌, ◌*◌, ◌%◌, ◌<◌, ◌≤◌, [], ◌∷◌, ◌++◌, length, cond};
ghost use Rattle.std.specs.Prelude.{IfOk};
ghost use Rattle.std.specs.List.{All};
ghost use Rattle.ff_theory.specs.Ring.{IsElement};
ghost use Rattle.ff_theory.specs.Values.{ArePolys};
ghost use Rattle.ff_table.specs.Roots.{child as child_of, children as children_of};
ghost use Rattle.ff_table.specs.Roots.{is_level as level_at};
ghost use Rattle.ff_table.specs.Roots.{next_states as next_of, states_after as after_of};
ghost use Rattle.ff_table.specs.Roots.{search as search_of, node_count};
ghost use Rattle.ff_data.specs.Systems.{AreCoords, weight_at};
ghost use Rattle.ff_ring.specs.Ring.{HasTable, MeetsRule, table_in};
ghost use Rattle.ff_root.specs.States.{IsState, AreStates, AreRootsIn, state_in, states_in};
ghost use Rattle.ff_root.specs.States.{levels_up_to};

use crate::leading::{is_root, leading_poly};
use crate::state::{State, child, finished, start};
use ff_alg::{FiniteField, NoMemory, Steps};
use ff_data::{PolyLists, System};
use ff_elem::Alg;
use ff_poly::Poly;
use ff_ring::is_level;
use std::alloc::Global;
use std::sync::ledger::Ledger;

/// Adds the child with the part c at the level t, and counts it. It is a function of its own in the
/// compiled program, so that its calls can be counted.
#[inline(never)]
fn push_child<K: FiniteField<E = u32>, L: Ledger>(
    alloc: Global,
    k: &K,
    s: &System,
    t: u32,
    state: &State,
    c: u32,
    list: &mut Vec<State>,
    nodes: &mut Steps<L>,
) -> Result<(), NoMemory>
    requires table { HasTable (K.elements k.now) s.now }
    requires level { weight_at s.now (t % s.now.e) ≤ t }
    requires state { IsState (K.elements k.now) s.now (length state.now.moved) state.now }
    requires c { IsElement (K.elements k.now) c }
    requires list { AreStates (K.elements k.now) s.now (length state.now.moved) list.old.items }
    ensures states { let F = K.elements k.now in
        IfOk result (λ _. AreStates F s.now (length state.now.moved) list.new.items) }
    ensures value { let F = K.elements k.now in let S = table_in F s.now in MeetsRule F s.now →
        IfOk result (λ _. states_in F s.now list.new.items ≡ states_in F s.now list.old.items
        ++ child_of F.ring S t (state_in F s.now state.now) (F.value c) ∷ []) }
    ensures nodes { nodes.new ≡ nodes.old + 1 }
{
    nodes.tick();
    let child = child(alloc, k, s, t, state, c)?;
    list.push(child)?;
    Ok(())
}

/// Adds the children of a state at the level t: one for each root of its leading polynomial.
fn push_children<K: FiniteField<E = u32>, L: Ledger>(
    alloc: Global,
    k: &K,
    s: &System,
    t: u32,
    state: &State,
    list: &mut Vec<State>,
    nodes: &mut Steps<L>,
) -> Result<(), NoMemory>
    requires table { HasTable (K.elements k.now) s.now }
    requires level { weight_at s.now (t % s.now.e) ≤ t }
    requires state { IsState (K.elements k.now) s.now (length state.now.moved) state.now }
    requires list { AreStates (K.elements k.now) s.now (length state.now.moved) list.old.items }
    ensures states { let F = K.elements k.now in
        IfOk result (λ _. AreStates F s.now (length state.now.moved) list.new.items) }
    ensures value { let F = K.elements k.now in let S = table_in F s.now in MeetsRule F s.now →
        IfOk result (λ _. states_in F s.now list.new.items ≡ states_in F s.now list.old.items
        ++ children_of F.field S t (state_in F s.now state.now)) }
    ensures nodes { nodes.old ≤ nodes.new }
    ensures count { let F = K.elements k.now in let S = table_in F s.now in MeetsRule F s.now →
        nodes.new ≤ nodes.old + length (children_of F.field S t (state_in F s.now state.now)) }
{
    let leading = leading_poly(alloc, k, s, &state.moved.items, t)?;
    for i in 0..k.count() {
        let c = k.nth(i);
        if is_root(k, &leading, c) {
            match push_child(alloc, k, s, t, state, c, list, nodes) {
                Ok(()) => {},
                Err(fault) => return Err(fault),
            }
        }
    }
    Ok(())
}

/// The states after the level t.
fn next_states<K: FiniteField<E = u32>, L: Ledger>(
    alloc: Global,
    k: &K,
    s: &System,
    t: u32,
    m: usize,
    states: &[State],
    nodes: &mut Steps<L>,
) -> Result<Vec<State>, NoMemory>
    requires table { HasTable (K.elements k.now) s.now }
    requires level { weight_at s.now (t % s.now.e) ≤ t }
    requires states { AreStates (K.elements k.now) s.now m states.now }
    ensures states { IfOk result (λ r. AreStates (K.elements k.now) s.now m r.items) }
    ensures value { let F = K.elements k.now in let S = table_in F s.now in MeetsRule F s.now →
        IfOk result (λ r. states_in F s.now r.items ≡
        next_of F.field S t (states_in F s.now states.now)) }
    ensures nodes { nodes.old ≤ nodes.new }
    ensures count { let F = K.elements k.now in let S = table_in F s.now in MeetsRule F s.now →
        nodes.new ≤ nodes.old + length (next_of F.field S t (states_in F s.now states.now)) }
{
    let _count = m;
    let mut items = Vec::new(alloc);
    for i in 0..states.len() {
        match push_children(alloc, k, s, t, &states[i], &mut items, nodes) {
            Ok(()) => {},
            Err(fault) => return Err(fault),
        }
    }
    Ok(items)
}

/// The states after t, which are the same where t is no level.
fn states_after<K: FiniteField<E = u32>, L: Ledger>(
    alloc: Global,
    k: &K,
    s: &System,
    t: u32,
    m: usize,
    states: Vec<State>,
    nodes: &mut Steps<L>,
) -> Result<Vec<State>, NoMemory>
    requires table { HasTable (K.elements k.now) s.now }
    requires states { AreStates (K.elements k.now) s.now m states.items }
    ensures states { IfOk result (λ r. AreStates (K.elements k.now) s.now m r.items) }
    ensures value { let F = K.elements k.now in let S = table_in F s.now in MeetsRule F s.now →
        IfOk result (λ r. states_in F s.now r.items ≡
        after_of F.field S t (states_in F s.now states.items)) }
    ensures nodes { nodes.old ≤ nodes.new }
    ensures count { let F = K.elements k.now in let S = table_in F s.now in MeetsRule F s.now →
        nodes.new ≤ nodes.old + cond (level_at F.ring S t)
        (length (next_of F.field S t (states_in F s.now states.items))) 0 }
{
    if !is_level(s, t) {
        return Ok(states);
    }
    next_states(alloc, k, s, t, m, &states, nodes)
}

/// The states after all levels up to `weight`, from the highest one down.
fn search<K: FiniteField<E = u32>, L: Ledger>(
    alloc: Global,
    k: &K,
    s: &System,
    weight: u32,
    m: usize,
    states: Vec<State>,
    nodes: &mut Steps<L>,
) -> Result<Vec<State>, NoMemory>
    requires table { HasTable (K.elements k.now) s.now }
    requires states { AreStates (K.elements k.now) s.now m states.items }
    ensures states { IfOk result (λ r. AreStates (K.elements k.now) s.now m r.items) }
    ensures value { let F = K.elements k.now in let S = table_in F s.now in MeetsRule F s.now →
        IfOk result (λ r. states_in F s.now r.items ≡
        search_of F.field S (weight + 1) (states_in F s.now states.items)) }
    ensures nodes { nodes.old ≤ nodes.new }
    ensures count { let F = K.elements k.now in let S = table_in F s.now in MeetsRule F s.now →
        nodes.new ≤ nodes.old + node_count F.field S (weight + 1) (states_in F s.now states.items) }
{
    let mut states = states;
    for i in 0..weight as u64 + 1 {
        let t = (weight as u64 - i) as u32;
        states = match states_after(alloc, k, s, t, m, states, nodes) {
            Ok(next) => next,
            Err(fault) => return Err(fault),
        };
    }
    Ok(states)
}

/// The number of coefficients of a monic polynomial with so many lower ones.
fn size_of(lower: &[Poly]) -> Result<usize, NoMemory>
    ensures { IfOk result (λ n. n ≡ length lower.now + 1) }
{
    match lower.len().checked_add(1) {
        Some(n) => Ok(n),
        None => Err(NoMemory),
    }
}

/// The coordinates of the elements c of the ring of the system s2, which are 0 or of weight at most
/// `weight`, with `c^m + coeffs[m-1](z)*c^(m-1) + .. + coeffs[0](z) = 0`, each once.
/// It ticks `nodes` once for each level together with one partial sum that is carried past it.
/// Where the table meets the table rule the list is exact, and there are at most m ticks a level, m
/// being the number of coefficients. `NoMemory` is the only error. This project's own.
pub fn roots<K: FiniteField<E = u32>, L: Ledger>(
    alloc: Global,
    alg2: &Alg<K>,
    s2: &System,
    coeffs: &[Poly],
    weight: u32,
    nodes: &mut Steps<L>,
) -> Result<PolyLists, NoMemory>
    requires table { HasTable (K.elements alg2.now.k) s2.now }
    requires coeffs { ArePolys (K.elements alg2.now.k) coeffs.now }
    ensures coords { IfOk result (All (AreCoords (K.elements alg2.now.k) s2.now)) }
    ensures nodes { nodes.old ≤ nodes.new }
    ensures exact { let F = K.elements alg2.now.k in MeetsRule F s2.now →
        IfOk result (AreRootsIn F s2.now coeffs.now weight) }
    ensures count { let F = K.elements alg2.now.k in MeetsRule F s2.now →
        nodes.new ≤ nodes.old + length coeffs.now * levels_up_to F s2.now weight }
{
    let k = &alg2.k;
    let m = size_of(coeffs)?;
    let first = start(alloc, k, s2, coeffs)?;
    let states = search(alloc, k, s2, weight, m, first, nodes)?;
    Ok(PolyLists {
        items: finished(alloc, k, s2, m, &states)?,
    })
}
