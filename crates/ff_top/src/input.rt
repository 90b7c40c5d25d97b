// The answer to the bytes of an input.
ghost use Rattle.std.specs.Prelude.{◌≡◌, ◌≢◌, IfOk};
ghost use Rattle.ff_text.specs.Printed.{fault_text, HasText};
ghost use Rattle.ff_top.specs.Commands.{Judges, NodesFor, TestsFor};
ghost use Rattle.ff_top.specs.Input.{IsInputAnswer, status_of};

use crate::Status;
use crate::command::judge;
use ff_alg::{NoMemory, Steps};
use ff_text::{MAX_BYTES, Mode, TextFault, print_fault, read_input};
use std::alloc::Global;
use std::sync::ledger::Ledger;

/// A status and the text that goes with it.
#[derive(Drop)]
pub struct Answer {
    pub status: Status,
    pub text: Vec<u8>,
}

/// The answer in a mode to the bytes that were read, `MAX_BYTES` and one where there are more.
///
/// A verdict of `check` ticks `tests` once, the lists of `iso` and `aut` may tick both counters,
/// and no other answer ticks one. `NoMemory` is the only error.
pub fn answer_of<L: Ledger, M: Ledger>(
    alloc: Global,
    mode: Mode,
    bytes: &[u8],
    tests: &mut Steps<L>,
    nodes: &mut Steps<M>,
) -> Result<Answer, NoMemory>
    ensures answer { let answers = IsInputAnswer mode (Judges mode) bytes.now in
        IfOk result (λ a. answers tests.old tests.new a.status a.text.items) }
    ensures tests { TestsFor mode tests.old tests.new }
    ensures nodes { NodesFor mode nodes.old nodes.new }
{
    if bytes.len() > MAX_BYTES {
        let text = "limit: input longer than 65536 bytes\n"
            .as_bytes()
            .to_vec(alloc)?;
        return Ok(Answer {
            status: Status::Limit,
            text,
        });
    }
    match read_input(alloc, bytes, mode) {
        Ok(job) => judge(alloc, mode, &job, tests, nodes),
        Err(fault) => refuse(alloc, &fault),
    }
}

// The answer to an input that has a fault. Where memory ran out there is none.
fn refuse(alloc: Global, fault: &TextFault) -> Result<Answer, NoMemory>
    requires { fault.now ≢ TextFault.NoMemory → HasText fault.now }
    ensures fault { IfOk result (λ _. fault.now ≢ TextFault.NoMemory) }
    ensures status { IfOk result (λ a. a.status ≡ status_of fault.now) }
    ensures text { IfOk result (λ a. a.text.items ≡ fault_text fault.now) }
{
    match fault {
        TextFault::NoMemory => Err(NoMemory),
        TextFault::Degree { which: _ } => line_of(alloc, Status::Limit, fault),
        TextFault::Syntax { at: _ } => line_of(alloc, Status::BadInput, fault),
        TextFault::NotPrime => line_of(alloc, Status::BadInput, fault),
        TextFault::NoY { which: _ } => line_of(alloc, Status::BadInput, fault),
        TextFault::ZeroDenominator { which: _ } => line_of(alloc, Status::BadInput, fault),
    }
}

// The line of a fault, with this status.
fn line_of(alloc: Global, status: Status, fault: &TextFault) -> Result<Answer, NoMemory>
    requires { HasText fault.now }
    ensures status { IfOk result (λ a. a.status ≡ status) }
    ensures text { IfOk result (λ a. a.text.items ≡ fault_text fault.now) }
{
    let text = print_fault(alloc, fault)?;
    Ok(Answer { status, text })
}
