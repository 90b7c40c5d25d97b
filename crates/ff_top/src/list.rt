// The lists of isomorphisms of two equations: of a job, and of a number.
ghost use Rattle.std.specs.Prelude.{◌≡◌, ◌≤◌, IfOk};
ghost use Rattle.ff_theory.specs.PrimeTable.{prime_elements};
ghost use Rattle.ff_prime.specs.Number.{number_of};
ghost use Rattle.ff_poly.specs.Limits.{IsEquation};
ghost use Rattle.ff_text.specs.Lists.{HasList, list_text, made_text};
ghost use Rattle.ff_text.specs.Values.{HasEquations};
ghost use Rattle.ff_top.specs.Lists.{IsListed, IsMade};

use crate::Status;
use crate::input::Answer;
use crate::refusal::refuse;
use ff_alg::{NoMemory, Steps};
use ff_data::IsoList;
use ff_list::isos;
use ff_make::generate;
use ff_poly::Plane;
use ff_prime::Prime;
use ff_text::{Job, Mode, print_list, print_made};
use std::alloc::Global;
use std::sync::ledger::Ledger;

/// The list of isomorphisms of the equations of a job, or why there is none. `NoMemory` is the only
/// error.
pub fn judge<L: Ledger, M: Ledger>(
    alloc: Global,
    mode: Mode,
    job: &Job,
    tests: &mut Steps<L>,
    nodes: &mut Steps<M>,
) -> Result<Answer, NoMemory>
    requires mode { HasList mode }
    requires equations { HasEquations job.now }
    ensures listed { let job = job.now in let listed = IsListed job.prime job.first job.second in
        IfOk result (λ a. listed (list_text mode) a.status a.text.items) }
    ensures tests { tests.old ≤ tests.new }
    ensures nodes { nodes.old ≤ nodes.new }
{
    match isos(alloc, &job.prime, &job.first, &job.second, tests, nodes) {
        Ok(list) => write_list(alloc, mode, &list),
        Err(refusal) => refuse(alloc, &refusal),
    }
}

// The answer that a list is.
fn write_list(alloc: Global, mode: Mode, list: &IsoList) -> Result<Answer, NoMemory>
    requires { HasList mode }
    ensures status { IfOk result (λ a. a.status ≡ Status.Done) }
    ensures text { IfOk result (λ a. a.text.items ≡ list_text mode list.now) }
{
    let text = print_list(alloc, mode, list)?;
    Ok(Answer {
        status: Status::Done,
        text,
    })
}

/// The equations of a number, and the beginning of their list of isomorphisms, or why there is
/// none. `NoMemory` is the only error.
pub fn make<L: Ledger, M: Ledger>(
    alloc: Global,
    number: u32,
    tests: &mut Steps<L>,
    nodes: &mut Steps<M>,
) -> Result<Answer, NoMemory>
    ensures made { IfOk result (λ a. IsMade number a.status a.text.items) }
    ensures tests { tests.old ≤ tests.new }
    ensures nodes { nodes.old ≤ nodes.new }
{
    let (k, first, second) = generate(alloc, number)?;
    list_made(alloc, &k, &first, &second, tests, nodes)
}

// The answer for two equations that are printed.
fn list_made<L: Ledger, M: Ledger>(
    alloc: Global,
    k: &Prime,
    first: &Plane,
    second: &Plane,
    tests: &mut Steps<L>,
    nodes: &mut Steps<M>,
) -> Result<Answer, NoMemory>
    requires first { IsEquation (prime_elements (number_of k.now)) first.now }
    requires second { IsEquation (prime_elements (number_of k.now)) second.now }
    ensures listed { let f = first.now in let g = second.now in
        let listed = IsListed k.now f g (made_text (number_of k.now) f g) in
        IfOk result (λ a. listed a.status a.text.items) }
    ensures tests { tests.old ≤ tests.new }
    ensures nodes { nodes.old ≤ nodes.new }
{
    match isos(alloc, k, first, second, tests, nodes) {
        Ok(list) => write_made(alloc, k, first, second, &list),
        Err(refusal) => refuse(alloc, &refusal),
    }
}

// The answer that two equations and their list are.
fn write_made(
    alloc: Global,
    k: &Prime,
    first: &Plane,
    second: &Plane,
    list: &IsoList,
) -> Result<Answer, NoMemory>
    ensures status { IfOk result (λ a. a.status ≡ Status.Done) }
    ensures text { let text = made_text (number_of k.now) first.now second.now list.now in
        IfOk result (λ a. a.text.items ≡ text) }
{
    let text = print_made(alloc, k, first, second, list)?;
    Ok(Answer {
        status: Status::Done,
        text,
    })
}
