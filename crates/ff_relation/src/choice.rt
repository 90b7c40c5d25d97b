// The basis element whose powers write the ring.
ghost use Rattle.std.specs.Prelude.{◌≡◌, ℕ, ◌<◌, length};
ghost use Rattle.std.specs.Int.{IsGcd};
ghost use Rattle.ff_data.specs.Systems.{weight_at};
ghost use Rattle.ff_relation.specs.Combination.{IsDifference};

use ff_data::System;

/// The weight at an index.
pub fn weight_of(s: &System, i: usize) -> u32
    requires { i < length s.now.weights }
    ensures { result ≡ weight_at s.now i }
{
    s.weights.items[i]
}

/// The greatest common divisor.
fn gcd(a: u32, b: u32) -> u32
    ensures divisor { IsGcd a b result }
    ensures difference { IsDifference a b result }
{
    if b == 0 {
        return a;
    }
    gcd(b, a % b)
}

/// Of the indices `best` and i that of a weight that is prime to e, the lesser one if both are, and
/// `best` if none is.
fn better(s: &System, best: usize, i: usize) -> usize
    requires best { best < length s.now.weights }
    requires i { i < length s.now.weights }
    ensures below { result < length s.now.weights }
    ensures kept { IsDifference (weight_at s.now best) s.now.e 1 →
        IsDifference (weight_at s.now result) s.now.e 1 }
    ensures taken { IsGcd (weight_at s.now i) s.now.e 1 →
        IsDifference (weight_at s.now result) s.now.e 1 }
{
    if gcd(weight_of(s, i), s.e) != 1 {
        return best;
    }
    if gcd(weight_of(s, best), s.e) != 1 {
        return i;
    }
    if weight_of(s, i) < weight_of(s, best) {
        i
    } else {
        best
    }
}

/// The index of a least weight among those that are prime to e.
pub fn choice(s: &System) -> usize
    requires positive { 0 < s.now.e }
    requires weights { length s.now.weights ≡ s.now.e }
    ensures below { result < s.now.e }
    ensures prime { (i : ℕ) → i < s.now.e → IsGcd (weight_at s.now i) s.now.e 1 →
        IsDifference (weight_at s.now result) s.now.e 1 }
{
    let mut best = 0;
    for i in 0..s.weights.items.len() {
        best = better(s, best, i);
    }
    best
}
