// A modulus that depends on all coefficients of an input, so that it is not known before.
ghost use Rattle.std.specs.Prelude.{◌≡◌, ◌+◌, ◌<◌, ℕ, length, IfOk};
ghost use Rattle.std.specs.List.{All};
ghost use Rattle.ff_theory.specs.Ring.{IsElement};
ghost use Rattle.ff_subst.specs.Congruence.{IsModulus};

use ff_alg::{FiniteField, NoMemory};
use ff_data::Pair;
use ff_elem::Elem;
use ff_poly::{Plane, Poly};
use std::alloc::Global;

// The state after one number more; any mixing serves.
fn mix(state: u64, n: u64) -> u64 {
    let product = (state ^ n).wrapping_mul(0x9E37_79B9_7F4A_7C15);
    product ^ (product >> 29)
}

// The state after the coefficients of a polynomial and their number.
fn mix_poly(state: u64, p: &Poly) -> u64 {
    let coeffs = p.coeffs();
    let mut state = mix(state, coeffs.len() as u64);
    for c in coeffs {
        state = mix(state, *c as u64);
    }
    state
}

// The state after the rows.
fn mix_rows(state: u64, rows: &[Poly]) -> u64 {
    let mut state = mix(state, rows.len() as u64);
    for row in rows {
        state = mix_poly(state, row);
    }
    state
}

// The state after an element.
fn mix_element(state: u64, e: &Elem) -> u64 {
    mix_rows(mix_poly(state, &e.den), e.num.rows())
}

// What a modulus is made from: two numbers, since one could be met on purpose.
#[derive(Clone, Copy)]
pub struct Seed {
    first: u64,
    second: u64,
}

// Two numbers that depend on two equations and two pairs.
pub fn seed_of(f: &Plane, g: &Plane, pair: &Pair, back: &Pair) -> Seed {
    Seed {
        first: mix_all(1, f, g, pair, back),
        second: mix_all(2, f, g, pair, back),
    }
}

// The state after two equations and two pairs.
fn mix_all(state: u64, f: &Plane, g: &Plane, pair: &Pair, back: &Pair) -> u64 {
    let equations = mix_rows(mix_rows(state, f.rows()), g.rows());
    let first = mix_element(mix_element(equations, &pair.x), &pair.y);
    mix_element(mix_element(first, &back.x), &back.y)
}

// How many coefficients there are to be: so many that there are more than 2^64 choices.
fn coefficient_count(size: u64) -> usize {
    if size < 4 {
        66
    } else if size < 16 {
        28
    } else if size < 88 {
        16
    } else {
        10
    }
}

// Elements of the field, `count` of them, that depend on the seed.
fn elements<K: FiniteField<E = u32>>(
    alloc: Global,
    k: &K,
    seed: Seed,
    count: usize,
) -> Result<Vec<u32>, NoMemory>
    ensures { IfOk result (λ r. All (IsElement (K.elements k.now)) r.items) }
{
    let (mut first, mut second) = (seed.first, seed.second);
    let mut list = Vec::new(alloc);
    for i in 0..count {
        first = mix(first, i as u64);
        second = mix(second, i as u64);
        list.push(element(k, mix(first, second)))?;
    }
    Ok(list)
}

// The element of the field whose index is the state modulo the number of elements.
fn element<K: FiniteField<E = u32>>(k: &K, state: u64) -> u32
    ensures { IsElement (K.elements k.now) result }
{
    let count = k.count();
    if count == 0 {
        return k.zero();
    }
    k.nth(state % count)
}

// A polynomial that is not 0 and depends on the seed.
pub fn modulus<K: FiniteField<E = u32>>(alloc: Global, k: &K, seed: Seed) -> Result<Poly, NoMemory>
    ensures { IfOk result (IsModulus (K.elements k.now)) }
{
    let list = elements(alloc, k, seed, coefficient_count(k.count()))?;
    let m = Poly::from_coeffs(alloc, k, &list)?;
    if m.is_zero() {
        return Poly::one(alloc, k);
    }
    Ok(m)
}
