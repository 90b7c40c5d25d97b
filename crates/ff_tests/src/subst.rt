// Values at pairs, satisfying pairs and inverse pairs.
ghost use Rattle.std.specs.Prelude.{◌≡◌, ◌+◌, ◌<◌, IfOk};
ghost use Rattle.ff_data.specs.Pairs.{IsPair};

use crate::pairs::{Parts, element, pair};
use ff_alg::{Ring, Steps};
use ff_data::Pair;
use ff_elem::Alg;
use ff_prime::Prime;
use ff_subst::{is_inverse, satisfies, substitute};
use ff_tests_base::algebras::{algebra, quintic, two_fields};
use ff_tests_base::made::field;
use std::alloc::Global;
use std::marker::Brand;
use std::sync::ledger::{Blank, Ledger};
use std::test::Fail;

const ZERO: Parts = [&[1], &[], &[]];

const ONE: Parts = [&[1], &[1], &[]];

const TWO: Parts = [&[1], &[2], &[]];

const X: Parts = [&[1], &[0, 1], &[]];

const Y: Parts = [&[1], &[], &[1]];

const TWO_Y: Parts = [&[1], &[], &[2]];

/// Whether an element has a value at a pair, and this.
fn has_value_at(
    alloc: Global,
    a: &Alg<Prime>,
    s: Parts,
    at: &Pair,
    value: Parts,
) -> Result<bool, Fail>
    requires { IsPair (⟦<Prime as Ring>⟧.lawful a.now.k) a.now.f at.now }
{
    let s = element(alloc, a, s)?;
    let want = element(alloc, a, value)?;
    match substitute(alloc, a, &s, at)? {
        Some(v) => Ok(a.same(&v, &want)),
        None => Ok(false),
    }
}

/// Whether an element has a value at a pair, and this.
fn takes(
    alloc: Global,
    a: &Alg<Prime>,
    s: Parts,
    at: [Parts; 2],
    value: Parts,
) -> Result<bool, Fail> {
    let at = pair(alloc, a, at)?;
    has_value_at(alloc, a, s, &at, value)
}

/// Whether an element has a value at a pair.
fn has_value(alloc: Global, a: &Alg<Prime>, s: Parts, at: [Parts; 2]) -> Result<bool, Fail> {
    let s = element(alloc, a, s)?;
    let at = pair(alloc, a, at)?;
    let value = substitute(alloc, a, &s, &at)?;
    Ok(value.is_some())
}

/// Whether a pair satisfies the equation of its own algebra.
fn satisfying(alloc: Global, a: &Alg<Prime>, at: [Parts; 2]) -> Result<bool, Fail> {
    let at = pair(alloc, a, at)?;
    let answer = satisfies(alloc, &a.f, a, &at)?;
    Ok(answer)
}

/// What `is_inverse` answers, which ticks once.
fn inverse_ticked<L: Ledger>(
    alloc: Global,
    first: &Alg<Prime>,
    second: &Alg<Prime>,
    at: [Parts; 2],
    back: [Parts; 2],
    tests: &mut Steps<L>,
) -> Result<bool, Fail>
    requires { first.now.k ≡ second.now.k }
    ensures { IfOk result (λ _. tests.new ≡ tests.old + 1) }
{
    let at = pair(alloc, second, at)?;
    let back = pair(alloc, first, back)?;
    let answer = is_inverse(alloc, first, second, &at, &back, tests)?;
    Ok(answer)
}

/// What `is_inverse` answers, with a new counter.
fn inverse_counted<L: Ledger>(
    alloc: Global,
    first: &Alg<Prime>,
    second: &Alg<Prime>,
    at: [Parts; 2],
    back: [Parts; 2],
    blank: Blank,
) -> Result<bool, Fail>
    requires field { first.now.k ≡ second.now.k }
    requires name { blank.name ≡ L.name }
    requires parts { blank.parts ≡ L.parts }
    requires some { 0 < L.parts }
{
    let mut tests = Steps::<L>::new(blank);
    inverse_ticked(alloc, first, second, at, back, &mut tests)
}

/// Whether two pairs are inverse to each other.
fn inverse(
    alloc: Global,
    first: &Alg<Prime>,
    second: &Alg<Prime>,
    at: [Parts; 2],
    back: [Parts; 2],
) -> Result<bool, Fail>
    requires { first.now.k ≡ second.now.k }
{
    inverse_counted::<Brand>(alloc, first, second, at, back, Blank::new(1))
}

/// Whether two pairs of one algebra are inverse to each other.
fn inverse_in(
    alloc: Global,
    a: &Alg<Prime>,
    at: [Parts; 2],
    back: [Parts; 2],
) -> Result<bool, Fail> {
    inverse(alloc, a, a, at, back)
}

#[test]
fn values(rt: HostRuntime) -> Result<(), Fail> {
    let a = quintic(rt.alloc())?;
    let s: Parts = [&[1, 1], &[1], &[]];
    assert!(rt; !has_value(rt.alloc(), &a, s, [TWO, ZERO])?);
    assert!(rt; takes(rt.alloc(), &a, s, [X, Y], s)?);
    assert!(rt; takes(rt.alloc(), &a, ZERO, [TWO, ZERO], ZERO)?);
    assert!(rt; takes(rt.alloc(), &a, Y, [X, TWO_Y], TWO_Y)?);
    Ok(())
}

#[test]
fn satisfying_pairs(rt: HostRuntime) -> Result<(), Fail> {
    let a = quintic(rt.alloc())?;
    assert!(rt; satisfying(rt.alloc(), &a, [TWO, ZERO])?);
    assert!(rt; !satisfying(rt.alloc(), &a, [ONE, ZERO])?);
    assert!(rt; satisfying(rt.alloc(), &a, [X, TWO_Y])?);
    assert!(rt; !satisfying(rt.alloc(), &a, [X, [&[1], &[1], &[1]]])?);
    Ok(())
}

#[test]
fn inverse_pairs(rt: HostRuntime) -> Result<(), Fail> {
    let a = quintic(rt.alloc())?;
    assert!(rt; inverse_in(rt.alloc(), &a, [X, TWO_Y], [X, TWO_Y])?);
    assert!(rt; !inverse_in(rt.alloc(), &a, [X, TWO_Y], [X, Y])?);
    assert!(rt; !inverse_in(rt.alloc(), &a, [X, [&[1], &[1], &[1]]], [X, TWO_Y])?);
    Ok(())
}

#[test]
fn pairs_of_constants(rt: HostRuntime) -> Result<(), Fail> {
    let a = quintic(rt.alloc())?;
    assert!(rt; !inverse_in(rt.alloc(), &a, [TWO, ZERO], [X, Y])?);
    assert!(rt; !inverse_in(rt.alloc(), &a, [TWO, ZERO], [[&[1, 1], &[1], &[]], ZERO])?);
    Ok(())
}

/// Whether pairs of two equations with the same rows of degree 1 and 2 in y are inverse.
fn inverse_over(
    alloc: Global,
    k: Prime,
    equations: [Parts; 2],
    at: [Parts; 2],
    back: [Parts; 2],
) -> Result<bool, Fail> {
    let f = algebra(alloc, k, equations[0])?;
    let g = algebra(alloc, k, equations[1])?;
    inverse(alloc, &f, &g, at, back)
}

#[test]
fn inverse_pairs_of_two_equations(rt: HostRuntime) -> Result<(), Fail> {
    const F: Parts = [&[2, 0, 0, 0, 0, 2], &[], &[1]];
    const G: Parts = [&[0, 0, 2, 0, 0, 0, 0, 2], &[], &[1]];
    const AT: [Parts; 2] = [X, [&[0, 1], &[], &[2]]];
    const BACK: [Parts; 2] = [X, [&[1], &[], &[0, 2]]];
    let k = field(3)?;
    assert!(rt; inverse_over(rt.alloc(), k, [F, G], AT, BACK)?);
    assert!(rt; inverse_over(rt.alloc(), k, [G, F], BACK, AT)?);
    assert!(rt; !inverse_over(rt.alloc(), k, [F, G], BACK, AT)?);
    Ok(())
}

#[test]
fn equations_that_are_not_monic(rt: HostRuntime) -> Result<(), Fail> {
    const F: Parts = [&[2, 0, 0, 0, 2], &[], &[0, 1]];
    const G: Parts = [&[0, 2, 0, 0, 0, 2], &[], &[1]];
    const AT: [Parts; 2] = [X, [&[0, 1], &[], &[1]]];
    let k = field(3)?;
    assert!(rt; inverse_over(rt.alloc(), k, [F, G], AT, [X, [&[1], &[], &[0, 1]]])?);
    assert!(rt; !inverse_over(rt.alloc(), k, [F, G], AT, AT)?);
    Ok(())
}

// Where f has a factor in x alone, an inverse pair need not be an isomorphism: y is a root of
// x^2 + 1.
#[test]
fn variables_exchanged(rt: HostRuntime) -> Result<(), Fail> {
    let a = algebra(rt.alloc(), field(3)?, [&[1, 0, 1], &[], &[1, 0, 1]])?;
    assert!(rt; inverse_in(rt.alloc(), &a, [Y, X], [Y, X])?);
    assert!(rt; !inverse_in(rt.alloc(), &a, [Y, X], [X, Y])?);
    assert!(rt; !has_value(rt.alloc(), &a, [&[1, 0, 1], &[1], &[]], [Y, X])?);
    Ok(())
}

// The element E is 1 in the field in which y is x, and 0 in the other.
const E: Parts = [&[0, 1], &[0, 4], &[4]];

#[test]
fn values_in_products_of_fields(rt: HostRuntime) -> Result<(), Fail> {
    let a = two_fields(rt.alloc())?;
    let over: Parts = [&[0, 1], &[0, 6], &[5]];
    assert!(rt; takes(rt.alloc(), &a, [&[1], &[0, 0, 1], &[]], [E, Y], E)?);
    assert!(rt; takes(rt.alloc(), &a, [&[1, 1], &[1], &[]], [E, Y], over)?);
    assert!(rt; !has_value(rt.alloc(), &a, [&[0, 1], &[1], &[]], [E, Y])?);
    Ok(())
}

#[test]
fn pairs_in_products_of_fields(rt: HostRuntime) -> Result<(), Fail> {
    let a = two_fields(rt.alloc())?;
    assert!(rt; satisfying(rt.alloc(), &a, [ONE, [&[0, 1], &[], &[1]]])?);
    assert!(rt; !inverse_in(rt.alloc(), &a, [E, E], [X, Y])?);
    Ok(())
}

// The pair sends x to x in the field in which y is x, and to x + 1 in the other.
#[test]
fn components_moved(rt: HostRuntime) -> Result<(), Fail> {
    const AT: [Parts; 2] = [[&[0, 1], &[0, 4, 1], &[3]], [&[0, 1], &[0, 3], &[4, 1]]];
    const BACK: [Parts; 2] = [[&[0, 1], &[0, 3, 1], &[4]], [&[0, 1], &[0, 4], &[3, 1]]];
    let a = two_fields(rt.alloc())?;
    assert!(rt; inverse_in(rt.alloc(), &a, AT, BACK)?);
    assert!(rt; !inverse_in(rt.alloc(), &a, AT, [X, Y])?);
    assert!(rt; !inverse_in(rt.alloc(), &a, AT, AT)?);
    assert!(rt; !inverse_in(rt.alloc(), &a, AT, [E, E])?);
    Ok(())
}

// x^40 + x + 2, the polynomial that X and Y are.
const HIGH: &[u64] = &[
    2, 1, 0, 0, 0, 0, 0, 0, 0, 0, 0, 0, 0, 0, 0, 0, 0, 0, 0, 0, 0, 0, 0, 0, 0, 0, 0, 0, 0, 0, 0, 0,
    0, 0, 0, 0, 0, 0, 0, 0, 1,
];

// Both pairs satisfy y = x, and X(U, V) has degree 1600 in x.
#[test]
fn pairs_of_high_degree(rt: HostRuntime) -> Result<(), Fail> {
    const WHOLE: Parts = [&[1], HIGH, &[]];
    const OVER: Parts = [&[1, 1], HIGH, &[]];
    let a = algebra(rt.alloc(), field(3)?, [&[0, 2], &[1], &[]])?;
    assert!(rt; satisfying(rt.alloc(), &a, [WHOLE, WHOLE])?);
    assert!(rt; !inverse_in(rt.alloc(), &a, [WHOLE, WHOLE], [WHOLE, WHOLE])?);
    assert!(rt; !inverse_in(rt.alloc(), &a, [OVER, OVER], [WHOLE, WHOLE])?);
    Ok(())
}

// With y^2 = 0 the pair (x + h*y, y) has the inverse pair (x - h*y, y) for each h, here x^2 + 1.
#[test]
fn pairs_that_move_x_by_a_nilpotent(rt: HostRuntime) -> Result<(), Fail> {
    const PLUS: Parts = [&[1], &[0, 1], &[1, 0, 1]];
    const MINUS: Parts = [&[1], &[0, 1], &[2, 0, 2]];
    let a = algebra(rt.alloc(), field(3)?, [&[], &[], &[1]])?;
    assert!(rt; inverse_in(rt.alloc(), &a, [PLUS, Y], [MINUS, Y])?);
    assert!(rt; !inverse_in(rt.alloc(), &a, [PLUS, Y], [PLUS, Y])?);
    Ok(())
}
