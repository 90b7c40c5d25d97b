// States of the search: a partial sum of a root, and the polynomial moved by it.
ghost use Rattle.std.specs.Prelude.{◌≡◌, ◌+◌, ◌%◌, ◌<◌, ◌≤◌, [], length, get_or, IfOk, ◌↔◌, IsTrue};
ghost use Rattle.std.specs.List.{All};
ghost use Rattle.ff_theory.specs.Ring.{IsElement};
ghost use Rattle.ff_theory.specs.Values.{poly_of, IsPoly, ArePolys};
ghost use Rattle.ff_table.specs.Level.{z_multiple};
ghost use Rattle.ff_table.specs.Shift.{shift};
ghost use Rattle.ff_table.specs.Roots.{child as child_of, start as start_of};
ghost use Rattle.ff_table.specs.Roots.{finished as finished_of};
ghost use Rattle.ff_data.specs.Systems.{AreCoords, weight_at};
ghost use Rattle.ff_ring.specs.Ring.{HasTable, MeetsRule, AreCoordsList, IsMonomial, table_in};
ghost use Rattle.ff_ring.specs.Ring.{ring_in, element_in, elements_in, monomial_in};
ghost use Rattle.ff_root.specs.States.{IsState, AreStates, state_in, states_in, monic_over};

use ff_alg::{FiniteField, NoMemory, is_zero};
use ff_data::{PolyLists, System};
use ff_elem::PolyList;
use ff_poly::Poly;
use ff_ring::{
    Monomial, basis_vector, class_of, is_zero_each, monomial_poly, plus_at, power_of, ring_scale,
    ring_shift, zero_coords,
};
use std::alloc::Global;

/// A partial sum c, and the coefficients of p(c + Z).
#[derive(Drop)]
pub struct State {
    pub sum: PolyList,
    pub moved: PolyLists,
}

/// Coordinates with a monomial added.
fn plus_monomial<K: FiniteField<E = u32>>(
    alloc: Global,
    k: &K,
    s: &System,
    sum: &[Poly],
    a: &Monomial,
) -> Result<PolyList, NoMemory>
    requires table { HasTable (K.elements k.now) s.now }
    requires a { IsMonomial (K.elements k.now) s.now a.now }
    requires sum { AreCoords (K.elements k.now) s.now sum.now }
    ensures coords { IfOk result (AreCoords (K.elements k.now) s.now) }
    ensures value { let F = K.elements k.now in let T = ring_in F s.now in
        IfOk result (λ r. element_in F s.now r ≡
        T.add (element_in F s.now sum.now) (monomial_in F s.now a.now)) }
{
    let _system = s;
    let term = monomial_poly(alloc, k, a.c, a.power)?;
    Ok(PolyList {
        items: plus_at(alloc, k, sum, &term, a.class)?,
    })
}

/// Equal lists.
fn copies(alloc: Global, lists: &[PolyList]) -> Result<Vec<PolyList>, NoMemory>
    ensures { IfOk result (λ r. r.items ≡ lists.now) }
{
    let mut copies = Vec::with_capacity(alloc, lists.len())?;
    for list in lists {
        copies.push(list.copy(alloc)?)?;
    }
    Ok(copies)
}

/// The polynomial moved by a monomial.
fn moved<K: FiniteField<E = u32>>(
    alloc: Global,
    k: &K,
    s: &System,
    p: &[PolyList],
    a: &Monomial,
) -> Result<Vec<PolyList>, NoMemory>
    requires table { HasTable (K.elements k.now) s.now }
    requires a { IsMonomial (K.elements k.now) s.now a.now }
    requires p { All (AreCoords (K.elements k.now) s.now) p.now }
    ensures coords { let F = K.elements k.now in
        IfOk result (λ r. AreCoordsList F s.now (length p.now) r.items) }
    ensures value { let F = K.elements k.now in MeetsRule F s.now →
        IfOk result (λ r. elements_in F s.now r.items ≡
        shift (ring_in F s.now) (monomial_in F s.now a.now) (elements_in F s.now p.now)) }
{
    if is_zero(k, a.c) {
        return copies(alloc, p);
    }
    ring_shift(alloc, k, s, a, p)
}

/// The state with the part c at the level t.
pub fn child<K: FiniteField<E = u32>>(
    alloc: Global,
    k: &K,
    s: &System,
    t: u32,
    state: &State,
    c: u32,
) -> Result<State, NoMemory>
    requires table { HasTable (K.elements k.now) s.now }
    requires level { weight_at s.now (t % s.now.e) ≤ t }
    requires state { IsState (K.elements k.now) s.now (length state.now.moved) state.now }
    requires c { IsElement (K.elements k.now) c }
    ensures state { IfOk result (IsState (K.elements k.now) s.now (length state.now.moved)) }
    ensures value { let F = K.elements k.now in MeetsRule F s.now →
        IfOk result (λ r. state_in F s.now r ≡
        child_of F.ring (table_in F s.now) t (state_in F s.now state.now) (F.value c)) }
{
    let a = Monomial {
        c,
        class: class_of(s, t),
        power: power_of(s, t),
    };
    let sum = plus_monomial(alloc, k, s, state.sum.rows(), &a)?;
    let items = moved(alloc, k, s, &state.moved.items, &a)?;
    Ok(State {
        sum,
        moved: PolyLists { items },
    })
}

/// A polynomial in z as coordinates.
fn constant<K: FiniteField<E = u32>>(
    alloc: Global,
    k: &K,
    s: &System,
    p: &Poly,
) -> Result<PolyList, NoMemory>
    requires p { IsPoly (K.elements k.now) p.now }
    requires weights { length s.now.weights ≡ s.now.e }
    ensures coords { IfOk result (AreCoords (K.elements k.now) s.now) }
    ensures value { let F = K.elements k.now in let T = ring_in F s.now in
        IfOk result (λ r. element_in F s.now r ≡
        z_multiple F.ring (table_in F s.now) (poly_of F p.now) T.one) }
{
    let one = basis_vector(alloc, k, s.e as usize, 0)?;
    Ok(PolyList {
        items: ring_scale(alloc, k, p, &one)?,
    })
}

/// The monic polynomial over the ring whose lower coefficients are these polynomials in z.
fn monic<K: FiniteField<E = u32>>(
    alloc: Global,
    k: &K,
    s: &System,
    coeffs: &[Poly],
) -> Result<Vec<PolyList>, NoMemory>
    requires coeffs { ArePolys (K.elements k.now) coeffs.now }
    requires weights { length s.now.weights ≡ s.now.e }
    ensures coords { let F = K.elements k.now in
        IfOk result (λ r. AreCoordsList F s.now (length coeffs.now + 1) r.items) }
    ensures value { let F = K.elements k.now in
        IfOk result (λ r. elements_in F s.now r.items ≡ monic_over F s.now coeffs.now) }
{
    let mut items = Vec::new(alloc);
    for i in 0..coeffs.len() {
        items.push(constant(alloc, k, s, &coeffs[i])?)?;
    }
    let one = Poly::one(alloc, k)?;
    items.push(constant(alloc, k, s, &one)?)?;
    Ok(items)
}

/// The state at the start: the sum 0.
fn first_state<K: FiniteField<E = u32>>(
    alloc: Global,
    k: &K,
    s: &System,
    coeffs: &[Poly],
) -> Result<State, NoMemory>
    requires coeffs { ArePolys (K.elements k.now) coeffs.now }
    requires weights { length s.now.weights ≡ s.now.e }
    ensures state { IfOk result (IsState (K.elements k.now) s.now (length coeffs.now + 1)) }
    ensures sum { let F = K.elements k.now in let T = ring_in F s.now in
        IfOk result (λ r. element_in F s.now r.sum ≡ T.zero) }
    ensures moved { let F = K.elements k.now in
        IfOk result (λ r. elements_in F s.now r.moved ≡ monic_over F s.now coeffs.now) }
{
    let items = monic(alloc, k, s, coeffs)?;
    let sum = PolyList {
        items: zero_coords(alloc, k, s.e as usize)?,
    };
    Ok(State {
        sum,
        moved: PolyLists { items },
    })
}

/// The states at the start: the sum 0 alone.
pub fn start<K: FiniteField<E = u32>>(
    alloc: Global,
    k: &K,
    s: &System,
    coeffs: &[Poly],
) -> Result<Vec<State>, NoMemory>
    requires coeffs { ArePolys (K.elements k.now) coeffs.now }
    requires weights { length s.now.weights ≡ s.now.e }
    ensures states { let F = K.elements k.now in
        IfOk result (λ r. AreStates F s.now (length coeffs.now + 1) r.items) }
    ensures value { let F = K.elements k.now in
        IfOk result (λ r. states_in F s.now r.items ≡
        start_of F.field (table_in F s.now) (monic_over F s.now coeffs.now)) }
{
    let mut items = Vec::new(alloc);
    items.push(first_state(alloc, k, s, coeffs)?)?;
    Ok(items)
}

/// Whether the polynomial of the state has the root 0.
fn is_finished(state: &State) -> bool
    requires { 0 < length state.now.moved }
    ensures { IsTrue result ↔ All (λ p. p ≡ []) (get_or state.now.moved 0 []) }
{
    is_zero_each(state.moved.items[0].rows())
}

/// The sums of the states whose polynomial has the root 0.
pub fn finished<K: FiniteField<E = u32>>(
    alloc: Global,
    k: &K,
    s: &System,
    m: usize,
    states: &[State],
) -> Result<Vec<PolyList>, NoMemory>
    requires states { AreStates (K.elements k.now) s.now m states.now }
    requires some { 0 < m }
    requires weights { length s.now.weights ≡ s.now.e }
    ensures coords { IfOk result (λ r. All (AreCoords (K.elements k.now) s.now) r.items) }
    ensures value { let F = K.elements k.now in MeetsRule F s.now →
        IfOk result (λ r. elements_in F s.now r.items ≡
        finished_of F.field (table_in F s.now) (states_in F s.now states.now)) }
{
    let _field = k;
    let _system = s;
    let _count = m;
    let mut sums = Vec::new(alloc);
    for i in 0..states.len() {
        if is_finished(&states[i]) {
            sums.push(states[i].sum.copy(alloc)?)?;
        }
    }
    Ok(sums)
}
