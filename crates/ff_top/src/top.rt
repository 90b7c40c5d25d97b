// The top call.
ghost use Rattle.std.specs.Prelude.{◌≡◌, ◌≢◌, ◌≤◌, ◌⊎◌, map, IfOk, OnErr};
ghost use Rattle.ff_io.specs.Bytes.{TakesSome};
ghost use Rattle.ff_io.specs.Causes.{Rose};
ghost use Rattle.ff_top.specs.Commands.{Counts, IsReading, NodesFor, NodesOf, TestsFor, TestsOf};
ghost use Rattle.ff_top.specs.Words.{HasCommand, ReadsSource};
ghost use Rattle.ff_top.specs.Run.{Ends, IsAnswer, IsAnswerOf, IsReadAnswer, Writes, read_limit};

use crate::command::Command;
use crate::input::{Answer, answer_of};
use crate::{Status, Word, list};
use ff_alg::{NoMemory, Steps};
use ff_io::{Failed, ReadStop, Sink, Source, read_up_to, write_all};
use ff_text::{MAX_BYTES, Mode};
use std::alloc::Global;
use std::sync::ledger::Ledger;

/// Does all that the program does: reads the words, then the source where the command asks for it,
/// computes the whole text of the answer, writes it to the sink and answers the status.
///
/// The command is one word, `iso`, `aut`, `check` or `order`, or `make` and a number, with which
/// nothing is read. Other words are answered by the usage text, with nothing read. `tests` is
/// ticked once for a verdict of `check`, written or not; the commands that form a list may tick
/// both counters, and nothing else does. Where the answer is `NoMemory`, nothing was written.
pub fn run<S: Source, T: Sink, L: Ledger, M: Ledger>(
    alloc: Global,
    words: &[Word],
    source: &mut S,
    sink: &mut T,
    tests: &mut Steps<L>,
    nodes: &mut Steps<M>,
) -> Status
    // What was read, counted, answered and written.
    ensures writes { let words = map (λ w. w.text) words.now in
        let rose = Rose (S.faults source.old) (S.faults source.new) in
        let answers = IsAnswer words (S.left source.old) (S.left source.new) rose in
        Writes (answers tests.old tests.new) (T.written sink.old) (T.written sink.new) result }
    ensures lost { let taken = TakesSome read_limit (S.left source.old) (S.left source.new) in
        result ≡ Status.NoMemory → taken }
    ensures tests { Counts TestsOf (map (λ w. w.text) words.now) tests.old tests.new }
    ensures nodes { Counts NodesOf (map (λ w. w.text) words.now) nodes.old nodes.new }

    // Only a command that asks for it reads, and words that are none are answered without memory.
    ensures unread { let words = map (λ w. w.text) words.now in
        ¬ ReadsSource words → source.new ≡ source.old }
    ensures usage { let words = map (λ w. w.text) words.now in
        ¬ HasCommand words → (result ≡ Status.Usage) ⊎ (result ≡ Status.WriteFault) }

    // Faults have their causes, and their counts do not fall.
    ensures source_later { S.faults source.old ≤ S.faults source.new }
    ensures sink_later { T.faults sink.old ≤ T.faults sink.new }
    ensures read_fault { let rose = Rose (S.faults source.old) (S.faults source.new) in
        result ≡ Status.ReadFault → rose }
    ensures write_fault { let rose = Rose (T.faults sink.old) (T.faults sink.new) in
        result ≡ Status.WriteFault → rose }
{
    match Command::of(words) {
        None => {
            let usage = "usage: iso | aut | check | order | make N\n".as_bytes();
            write_text(sink, Status::Usage, usage)
        }
        Some(command) => match answer_to(alloc, command, source, tests, nodes) {
            Ok(answer) => write_text(sink, answer.status, &answer.text),
            Err(NoMemory) => Status::NoMemory,
        },
    }
}

// Computes the answer of a command, which reads the source where it asks for it.
fn answer_to<S: Source, L: Ledger, M: Ledger>(
    alloc: Global,
    command: Command,
    source: &mut S,
    tests: &mut Steps<L>,
    nodes: &mut Steps<M>,
) -> Result<Answer, NoMemory>
    ensures later { S.faults source.old ≤ S.faults source.new }
    ensures answer { let rose = Rose (S.faults source.old) (S.faults source.new) in
        let answers = IsAnswerOf command (S.left source.old) (S.left source.new) rose in
        IfOk result (λ a. answers tests.old tests.new a.status a.text.items) }
    ensures lost { OnErr result (TakesSome read_limit (S.left source.old) (S.left source.new)) }
    ensures unread { ¬ IsReading command → source.new ≡ source.old }
    ensures tests { TestsOf command tests.old tests.new }
    ensures nodes { NodesOf command nodes.old nodes.new }
{
    match command {
        Command::Read(mode) => read_answer(alloc, mode, source, tests, nodes),
        Command::Make(number) => list::make(alloc, number, tests, nodes),
    }
}

// Reads the source, and computes the answer in a mode to what it gave.
fn read_answer<S: Source, L: Ledger, M: Ledger>(
    alloc: Global,
    mode: Mode,
    source: &mut S,
    tests: &mut Steps<L>,
    nodes: &mut Steps<M>,
) -> Result<Answer, NoMemory>
    ensures later { S.faults source.old ≤ S.faults source.new }
    ensures answer { let rose = Rose (S.faults source.old) (S.faults source.new) in
        let answers = IsReadAnswer mode (S.left source.old) (S.left source.new) rose in
        IfOk result (λ a. answers tests.old tests.new a.status a.text.items) }
    ensures lost { OnErr result (TakesSome read_limit (S.left source.old) (S.left source.new)) }
    ensures tests { TestsFor mode tests.old tests.new }
    ensures nodes { NodesFor mode nodes.old nodes.new }
{
    match read_up_to(alloc, source, MAX_BYTES + 1) {
        Ok(bytes) => answer_of(alloc, mode, &bytes, tests, nodes),
        Err(ReadStop::Fault) => {
            let text = "read fault\n".as_bytes().to_vec(alloc)?;
            Ok(Answer {
                status: Status::ReadFault,
                text,
            })
        }
        Err(ReadStop::NoMemory) => Err(NoMemory),
    }
}

// Writes a text, and answers its status, or that of a sink that failed.
fn write_text<T: Sink>(sink: &mut T, status: Status, text: &[u8]) -> Status
    ensures later { T.faults sink.old ≤ T.faults sink.new }
    ensures ends { Ends status text.now (T.written sink.old) (T.written sink.new) result }
    ensures cause { result ≢ status → Rose (T.faults sink.old) (T.faults sink.new) }
{
    match write_all(sink, text) {
        Ok(()) => status,
        Err(Failed) => Status::WriteFault,
    }
}
