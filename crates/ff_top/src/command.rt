// The commands, and what each says of a job.
ghost use Rattle.std.specs.Prelude.{◌≡◌, [], ◌∷◌, map, IfOk, IfSome, IfNone};
ghost use Rattle.ff_top.specs.Commands.{IsSoundFor, Judges, NodesFor, TestsFor};
ghost use Rattle.ff_top.specs.Words.{HasCommand, IsCommand};

use crate::input::Answer;
use crate::{Word, check, list, order};
use ff_alg::{NoMemory, Steps};
use ff_text::{Job, Mode, read_number};
use std::alloc::Global;
use std::sync::ledger::Ledger;

/// What a run is asked for.
#[derive(Clone, Copy, PartialEq, Eq, Debug)]
pub enum Command {
    /// To read the source in this mode, and to judge its job.
    Read(Mode),
    /// The list of the equations of this number.
    Make(u32),
}

impl Command {
    /// The command that the words are, where they are one.
    pub fn of(words: &[Word]) -> Option<Command>
        ensures some { let words = map (λ w. w.text) words.now in
            IfSome result (IsCommand words) }
        ensures none { let words = map (λ w. w.text) words.now in
            IfNone result (¬ HasCommand words) }
    {
        match words {
            [word] => Command::named(word),
            [word, number] => Command::numbered(word, number),
            _ => None,
        }
    }

    // The command of one word.
    fn named(word: &Word) -> Option<Command>
        ensures some { let words = word.now.text ∷ [] in
            IfSome result (IsCommand words) }
        ensures none { let words = word.now.text ∷ [] in
            IfNone result (¬ HasCommand words) }
    {
        if word.is("iso") {
            return Some(Command::Read(Mode::Iso));
        }
        if word.is("aut") {
            return Some(Command::Read(Mode::Aut));
        }
        if word.is("check") {
            return Some(Command::Read(Mode::Check));
        }
        if word.is("order") {
            return Some(Command::Read(Mode::Order));
        }
        None
    }

    // The command of two words.
    fn numbered(word: &Word, number: &Word) -> Option<Command>
        ensures some { let words = word.now.text ∷ number.now.text ∷ [] in
            IfSome result (IsCommand words) }
        ensures none { let words = word.now.text ∷ number.now.text ∷ [] in
            IfNone result (¬ HasCommand words) }
    {
        if !word.is("make") {
            return None;
        }
        match read_number(&number.text.bytes) {
            Some(number) => Some(Command::Make(number)),
            None => None,
        }
    }
}

/// The answer to the job of an input in this mode. `NoMemory` is the only error.
pub fn judge<L: Ledger, M: Ledger>(
    alloc: Global,
    mode: Mode,
    job: &Job,
    tests: &mut Steps<L>,
    nodes: &mut Steps<M>,
) -> Result<Answer, NoMemory>
    requires { IsSoundFor mode job.now }
    ensures judged { let judges = Judges mode job.now in
        IfOk result (λ a. judges tests.old tests.new a.status a.text.items) }
    ensures tests { TestsFor mode tests.old tests.new }
    ensures nodes { NodesFor mode nodes.old nodes.new }
{
    match mode {
        Mode::Iso => list::judge(alloc, Mode::Iso, job, tests, nodes),
        Mode::Aut => list::judge(alloc, Mode::Aut, job, tests, nodes),
        Mode::Check => check::judge(alloc, job, tests),
        Mode::Order => order::judge(alloc, job),
    }
}
