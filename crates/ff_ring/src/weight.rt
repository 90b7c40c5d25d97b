// Weights of coordinates, and their leading terms.
ghost use Rattle.std.specs.Prelude.{◌≡◌, ◌+◌, ◌*◌, ◌^◌, ◌<◌, ◌≤◌, length, MatchOption};
ghost use Rattle.ff_data.specs.Systems.{weight_at};
ghost use Rattle.ff_ring.specs.Weight.{IsTop, IsTopBelow, AreZero, AreZeroBelow};

use ff_data::System;
use ff_poly::Poly;

/// The leading term of coordinates c that are not 0: the greatest of the numbers
/// `e * deg(c_l) + m_l` over the c_l that are not 0, which is the weight, the index l at which it
/// stands, and the degree of c_l. This project's own.
#[derive(Clone, Copy)]
pub struct Term {
    pub weight: u128,
    pub class: usize,
    pub degree: usize,
}

/// The weight of a term of a degree.
fn weight_of(e: u32, degree: usize, m: u32) -> u128
    ensures value { result ≡ e * degree + m }
    ensures small { result < 2 ^ 97 }
{
    e as u128 * degree as u128 + m as u128
}

/// The term of the first l + 1 coordinates with the greatest weight, from that of the first l.
fn greater(s: &System, c: &[Poly], term: Option<Term>, l: usize) -> Option<Term>
    requires below { l < length c.now }
    requires count { length c.now ≤ length s.now.weights }
    requires old { MatchOption term (AreZeroBelow c.now l) (IsTopBelow s.now c.now l) }
    ensures { MatchOption result (AreZeroBelow c.now (l + 1)) (IsTopBelow s.now c.now (l + 1)) }
{
    match c[l].degree() {
        None => term,
        Some(degree) => {
            let weight = weight_of(s.e, degree, s.weights.items[l]);
            let new = Term {
                weight,
                class: l,
                degree,
            };
            match term {
                None => Some(new),
                Some(old) => {
                    if weight <= old.weight {
                        Some(old)
                    } else {
                        Some(new)
                    }
                },
            }
        },
    }
}

/// The leading term of coordinates of a system; None exactly where all of them are 0.
pub fn top(s: &System, c: &[Poly]) -> Option<Term>
    requires { length c.now ≤ length s.now.weights }
    ensures { MatchOption result (AreZero c.now) (IsTop s.now c.now) }
{
    let mut term = None;
    for l in 0..c.len() {
        term = greater(s, c, term, l);
    }
    term
}

/// A number that is not below the weight of coordinates of a system, unless it is the greatest one.
pub fn weight_bound(s: &System, c: &[Poly]) -> u64
    requires { length c.now ≤ length s.now.weights }
{
    match top(s, c) {
        Some(term) => {
            if term.weight < u64::MAX as u128 {
                term.weight as u64
            } else {
                u64::MAX
            }
        },
        None => 0,
    }
}
