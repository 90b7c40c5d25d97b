//! The program: words from its arguments, the input from standard input, the answer to standard
//! output, and the exit number of the status.
#![tactic(auto)]

ghost use Rattle.std.specs.Prelude.{◌≡◌, ◌<◌};

use ff_alg::{NoMemory, Steps};
use ff_io::{ReadSource, WriteSink};
use ff_top::{Status, Word, run};
use std::alloc::Global;
use std::marker::Brand;
use std::process::ExitCode;
use std::sync::ledger::{Blank, Ledger};
use std::{env, io};

fn main(rt: HostRuntime) -> ExitCode {
    let status = match words_of(rt.alloc(), env::args(&rt)) {
        Ok(words) => run_with_counters::<Brand, Brand>(&rt, &words, Blank::new(1), Blank::new(1)),
        Err(NoMemory) => Status::NoMemory,
    };
    ExitCode::from(status.exit())
}

// The arguments as words, without the program's own name. Arguments that cannot be read, for
// another cause than memory, are one empty word, which is no command.
fn words_of(alloc: Global, args: io::Result<env::Args>) -> Result<Vec<Word>, NoMemory> {
    let mut words = Vec::new(alloc);
    match args {
        Ok(args) => {
            for arg in args.skip(1) {
                words.push(Word::from_text(alloc, arg.as_str())?)?;
            }
        }
        Err(error) if error.kind() == io::ErrorKind::OutOfMemory => return Err(NoMemory),
        Err(_) => words.push(Word::from_text(alloc, "")?)?,
    }
    Ok(words)
}

// Runs the words over the standard streams, with a counter of each ledger.
fn run_with_counters<L: Ledger, M: Ledger>(
    rt: &HostRuntime,
    words: &[Word],
    tests: Blank,
    nodes: Blank,
) -> Status
    requires tests_name { tests.name ≡ L.name }
    requires tests_parts { tests.parts ≡ L.parts }
    requires tests_some { 0 < L.parts }
    requires nodes_name { nodes.name ≡ M.name }
    requires nodes_parts { nodes.parts ≡ M.parts }
    requires nodes_some { 0 < M.parts }
{
    let mut source = ReadSource::new(rt.stdin());
    let mut sink = WriteSink::new(rt.stdout());
    let mut tests = Steps::<L>::new(tests);
    let mut nodes = Steps::<M>::new(nodes);
    run(
        rt.alloc(),
        words,
        &mut source,
        &mut sink,
        &mut tests,
        &mut nodes,
    )
}
