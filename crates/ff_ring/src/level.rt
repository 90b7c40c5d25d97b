// Levels: the numbers m_i + e * a, which are the weights of the monomials z^a * b_i.
ghost use Rattle.std.specs.Prelude.{◌≡◌, ◌+◌, ◌-◌, ◌/◌, ◌%◌, ◌^◌, ◌<◌, ◌≤◌, ◌↔◌, length};
ghost use Rattle.std.specs.Prelude.{IsTrue, IfOk};
ghost use Rattle.ff_theory.specs.Ring.{IsElement};
ghost use Rattle.ff_theory.specs.Values.{poly_of, IsPoly};
ghost use Rattle.ff_data.specs.Systems.{weight_at};
ghost use Rattle.ff_ring.specs.Affine.{term_poly};

use ff_alg::{FiniteField, NoMemory};
use ff_data::System;
use ff_poly::Poly;
use std::alloc::Global;

/// The product of c, the power of z with that exponent, and the basis element with the index
/// `class`.
#[derive(Clone, Copy)]
pub struct Monomial {
    pub c: u32,
    pub class: usize,
    pub power: usize,
}

/// The index of the basis element that stands at the level t.
pub fn class_of(s: &System, t: u32) -> usize
    requires { 0 < s.now.e }
    ensures value { result ≡ t % s.now.e }
    ensures below { result < s.now.e }
{
    (t % s.e) as usize
}

/// Whether t is a level.
pub fn is_level(s: &System, t: u32) -> bool
    requires positive { 0 < s.now.e }
    requires weights { length s.now.weights ≡ s.now.e }
    ensures { IsTrue result ↔ (weight_at s.now (t % s.now.e) ≤ t) }
{
    s.weights.items[class_of(s, t)] <= t
}

/// The exponent of z at the level t.
pub fn power_of(s: &System, t: u32) -> usize
    requires positive { 0 < s.now.e }
    requires weights { length s.now.weights ≡ s.now.e }
    requires level { weight_at s.now (t % s.now.e) ≤ t }
    ensures value { result ≡ (t - weight_at s.now (t % s.now.e)) / s.now.e }
    ensures small { result < 2 ^ 32 }
{
    ((t - s.weights.items[class_of(s, t)]) / s.e) as usize
}

/// The polynomial `c * z^power`. `NoMemory` is the only error.
pub fn monomial_poly<K: FiniteField<E = u32>>(
    alloc: Global,
    k: &K,
    c: u32,
    power: usize,
) -> Result<Poly, NoMemory>
    requires c { IsElement (K.elements k.now) c }
    requires room { power + 1 < 2 ^ 64 }
    ensures poly { IfOk result (IsPoly (K.elements k.now)) }
    ensures value { let F = K.elements k.now in
        IfOk result (λ r. poly_of F r ≡ term_poly F c power) }
{
    let raised = Poly::one(alloc, k)?.shift(alloc, k, power)?;
    let constant = Poly::from_coeffs(alloc, k, &[c])?;
    raised.mul(alloc, k, &constant)
}
