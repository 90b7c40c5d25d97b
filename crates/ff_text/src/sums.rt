// Sums of terms.
ghost use Rattle.std.specs.Prelude.{◌≡◌, ◌<◌, ℕ, IfOk};
ghost use Rattle.std.specs.Option.{unwrap_or};
ghost use Rattle.std.specs.BTreeMap.{get};
ghost use Rattle.ff_text.specs.Sums.{total, powers_cmp, IsCollected};
ghost use Rattle.ff_text.specs.Ratios.{IsRatio, AreRatios};

use crate::reader::{Fraction, Monomial};
use std::alloc::{AllocError, Global};
use std::collections::BTreeMap;

/// The coefficients of the sum of the terms modulo p, by the powers of x and y.
fn coefficients(
    alloc: Global,
    p: u32,
    terms: &[Monomial],
) -> Result<BTreeMap<(u64, u64), u32>, AllocError>
    requires { 0 < p }
    ensures { IfOk result (λ sums.
        (i j : ℕ) → unwrap_or (get powers_cmp sums (i, j)) 0 ≡ total p terms.now i j) }
{
    let mut sums = BTreeMap::new(alloc);
    for m in terms {
        let powers = (m.x, m.y);
        let so_far = sums.get(&powers).copied().unwrap_or(0);
        let sum = (so_far as u64 + m.coefficient as u64) % p as u64;
        sums.insert(powers, sum as u32)?;
    }
    Ok(sums)
}

/// The terms of the sum with coefficients that are not 0 modulo p. A term may stand more than
/// once, each time with its coefficient in the sum.
pub fn collect(alloc: Global, p: u32, terms: &[Monomial]) -> Result<Vec<Monomial>, AllocError>
    requires { 0 < p }
    ensures { IfOk result (λ r. IsCollected p terms.now r.items) }
{
    let sums = coefficients(alloc, p, terms)?;
    let mut collected = Vec::new(alloc);
    for m in terms {
        let coefficient = sums.get(&(m.x, m.y)).copied().unwrap_or(0);
        if coefficient > 0 {
            collected.push(Monomial {
                coefficient,
                x: m.x,
                y: m.y,
            })?;
        }
    }
    Ok(collected)
}

/// A numerator and a denominator, by the terms of their sums, of which none is 0.
#[derive(Drop)]
pub struct Ratio {
    pub numerator: Vec<Monomial>,
    pub denominator: Vec<Monomial>,
}

impl Ratio {
    /// The sums of a line. Where it has no denominator, that is 1.
    fn of(alloc: Global, p: u32, line: &Fraction) -> Result<Ratio, AllocError>
        requires { 0 < p }
        ensures { IfOk result (IsRatio p line.now) }
    {
        let numerator = collect(alloc, p, &line.numerator)?;
        let denominator = match &line.denominator {
            Some(terms) => collect(alloc, p, terms)?,
            None => collect(
                alloc,
                p,
                &[Monomial {
                    coefficient: 1,
                    x: 0,
                    y: 0,
                }],
            )?,
        };
        Ok(Ratio {
            numerator,
            denominator,
        })
    }
}

/// The sums of each line.
pub fn ratios(alloc: Global, p: u32, lines: &[Fraction]) -> Result<Vec<Ratio>, AllocError>
    requires { 0 < p }
    ensures { IfOk result (λ r. AreRatios p lines.now r.items) }
{
    let mut ratios = Vec::new(alloc);
    for line in lines {
        ratios.push(Ratio::of(alloc, p, line)?)?;
    }
    Ok(ratios)
}
