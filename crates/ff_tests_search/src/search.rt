// Isomorphism lists, and what is kept before the search.
ghost use Rattle.std.specs.Prelude.{◌≡◌, ◌<◌, IfOk};
ghost use Rattle.ff_text.specs.Values.{HasEquations};

use ff_alg::Steps;
use ff_data::{IsoList, Refusal, System};
use ff_list::{KeptParts, isos, kept};
use ff_text::{Job, MAX_BYTES, Mode, read_input};
use std::alloc::Global;
use std::marker::Brand;
use std::sync::ledger::{Blank, Ledger};
use std::test::Fail;

/// What an answer is: a list of a length, or a refusal, where the genus is small with the number of
/// gaps.
#[derive(Clone, Copy, PartialEq, Eq)]
enum Outcome {
    List(usize),
    Kept,
    Inseparable(u8),
    Reducible(u8),
    NoRationalPlace,
    PoleLimit,
    SmallGenus(Option<u32>),
    NoMemory,
}

/// The number of gaps of a system, by its weights; None where it is not a number of 32 bits.
fn gaps(system: &System) -> Option<u32> {
    let mut sum: u32 = 0;
    for i in 0..system.weights.items.len() {
        sum = sum.checked_add(system.weights.items[i].checked_div(system.e)?)?;
    }
    Some(sum)
}

/// The outcome that a refusal is.
fn outcome_of(refusal: &Refusal) -> Outcome {
    match refusal {
        Refusal::Inseparable { which } => Outcome::Inseparable(*which),
        Refusal::Reducible { which, g: _, h: _ } => Outcome::Reducible(*which),
        Refusal::NoRationalPlace {
            finite: _,
            infinite: _,
        } => Outcome::NoRationalPlace,
        Refusal::PoleLimit => Outcome::PoleLimit,
        Refusal::SmallGenus { system } => Outcome::SmallGenus(gaps(system)),
        Refusal::NoMemory => Outcome::NoMemory,
    }
}

/// The outcome that the list or its refusal is.
fn outcome_of_answer(answer: &Result<IsoList, Refusal>) -> Outcome {
    match answer {
        Ok(list) => Outcome::List(list.entries.items.len()),
        Err(refusal) => outcome_of(refusal),
    }
}

/// The outcome that the parts or their refusal are.
fn outcome_of_parts(answer: &Result<KeptParts, Refusal>) -> Outcome {
    match answer {
        Ok(_) => Outcome::Kept,
        Err(refusal) => outcome_of(refusal),
    }
}

/// Whether a system has as many functions as there are weights, and these weights.
fn is_of(system: &System, weights: &[u32]) -> bool {
    system.e as usize == weights.len() && &system.weights.items[..] == weights
}

/// Whether there are parts, whose system has the weights, one for each class.
fn have_weights(answer: &Result<KeptParts, Refusal>, weights: &[u32]) -> bool {
    match answer {
        Ok(parts) => is_of(&parts.system, weights),
        Err(_) => false,
    }
}

/// The job of a text.
fn job(alloc: Global, text: &[u8], mode: Mode) -> Result<Job, Fail>
    ensures { IfOk result HasEquations }
{
    if text.len() > MAX_BYTES {
        return Err(Fail::from("a short text"));
    }
    let job = read_input(alloc, text, mode).ok().ok_or("a text")?;
    Ok(job)
}

/// The outcome of the list of the equations of a job, with new counters.
fn listed<L: Ledger, M: Ledger>(alloc: Global, job: &Job, blank: Blank, other: Blank) -> Outcome
    requires job { HasEquations job.now }
    requires name { blank.name ≡ L.name }
    requires parts { blank.parts ≡ L.parts }
    requires some { 0 < L.parts }
    requires name2 { other.name ≡ M.name }
    requires parts2 { other.parts ≡ M.parts }
    requires some2 { 0 < M.parts }
{
    let mut tests = Steps::<L>::new(blank);
    let mut nodes = Steps::<M>::new(other);
    let (k, first, second) = (&job.prime, &job.first, &job.second);
    let answer = isos(alloc, k, first, second, &mut tests, &mut nodes);
    let outcome = outcome_of_answer(&answer);
    drop(answer);
    outcome
}

/// Whether the list of a text, or its refusal, is the outcome.
fn list_is(alloc: Global, text: &[u8], mode: Mode, want: Outcome) -> Result<bool, Fail> {
    let job = job(alloc, text, mode)?;
    let outcome = listed::<Brand, Brand>(alloc, &job, Blank::new(1), Blank::new(1));
    drop(job);
    Ok(outcome == want)
}

/// What is kept of the equations of a job.
fn kept_of(alloc: Global, job: &Job) -> Result<KeptParts, Refusal>
    requires { HasEquations job.now }
{
    kept(alloc, &job.prime, &job.first, &job.second)
}

/// Whether what comes for an equation twice is the outcome.
fn kept_is(alloc: Global, text: &[u8], want: Outcome) -> Result<bool, Fail> {
    let job = job(alloc, text, Mode::Aut)?;
    let answer = kept_of(alloc, &job);
    let outcome = outcome_of_parts(&answer);
    drop(answer);
    drop(job);
    Ok(outcome == want)
}

/// Whether the system that is kept of an equation twice has the weights, one for each class.
fn kept_has(alloc: Global, text: &[u8], weights: &[u32]) -> Result<bool, Fail> {
    let job = job(alloc, text, Mode::Aut)?;
    let answer = kept_of(alloc, &job);
    let has = have_weights(&answer, weights);
    drop(answer);
    drop(job);
    Ok(has)
}

/// Whether the automorphisms of an equation are so many.
fn automorphisms_are(alloc: Global, text: &[u8], count: usize) -> Result<bool, Fail> {
    list_is(alloc, text, Mode::Aut, Outcome::List(count))
}

/// Whether the isomorphisms of two equations are so many.
fn isomorphisms_are(alloc: Global, text: &[u8], count: usize) -> Result<bool, Fail> {
    list_is(alloc, text, Mode::Iso, Outcome::List(count))
}

#[test]
fn small_genus(rt: HostRuntime) -> Result<(), Fail> {
    assert!(rt;
        kept_is(
            rt.alloc(),
            b"p 5\nf y^2-x^5+1\n",
            Outcome::SmallGenus(Some(0))
        )?
    );
    assert!(rt;
        kept_is(
            rt.alloc(),
            b"p 5\nf y^2-x^3-x-1\n",
            Outcome::SmallGenus(Some(1))
        )?
    );
    Ok(())
}

#[test]
fn refusals(rt: HostRuntime) -> Result<(), Fail> {
    assert!(rt; kept_is(rt.alloc(), b"p 7\nf y^2-x^2\n", Outcome::Reducible(1))?);
    assert!(rt; kept_is(rt.alloc(), b"p 2\nf y^2+x^3\n", Outcome::Inseparable(1))?);
    assert!(rt;
        kept_is(
            rt.alloc(),
            b"p 3\nf y^2-2*x^6-x^2-2\n",
            Outcome::NoRationalPlace
        )?
    );
    Ok(())
}

#[test]
fn kept_systems(rt: HostRuntime) -> Result<(), Fail> {
    assert!(rt; kept_has(rt.alloc(), b"p 3\nf y^2-x^5-1\n", &[0, 5])?);
    assert!(rt; kept_has(rt.alloc(), b"p 2\nf x^3*y+y^3+x\n", &[0, 7, 5])?);
    Ok(())
}

#[test]
fn automorphisms(rt: HostRuntime) -> Result<(), Fail> {
    assert!(rt; automorphisms_are(rt.alloc(), b"p 2\nf y^2+y-x^5\n", 2)?);
    assert!(rt; automorphisms_are(rt.alloc(), b"p 3\nf y^3-y-x^4\n", 24)?);
    assert!(rt; automorphisms_are(rt.alloc(), b"p 2\nf x^3*y+y^3+x\n", 3)?);
    Ok(())
}

#[test]
fn isomorphisms(rt: HostRuntime) -> Result<(), Fail> {
    assert!(rt; isomorphisms_are(rt.alloc(), b"p 3\nf y^2-x^5+1\ng y^2-x^5-1\n", 0)?);
    assert!(rt; isomorphisms_are(rt.alloc(), b"p 3\nf y^2-x^5-1\ng y^2-x^7-x^2\n", 2)?);
    Ok(())
}
