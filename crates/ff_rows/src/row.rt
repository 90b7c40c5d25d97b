// The rows of the table.
ghost use Rattle.std.specs.Prelude.{◌≡◌, ◌≤◌, ◌<◌, ◌↔◌, IsTrue, OnOk};
ghost use Rattle.ff_rows.specs.Rows.{CountsOne, EndsAs};

use super::bytes::push_text;
use super::tally::Tally;
use ff_alg::Steps;
use ff_io::{MemSink, MemSource};
use ff_top::{ByteList, Status, Word, run};
use std::alloc::{AllocError, AllocFailed, Global};
use std::io;
use std::marker::Brand;
use std::sync::ledger::{Blank, Ledger};

/// Why a row cannot be run.
#[derive(Clone, Copy, Debug)]
pub enum Fault {
    /// A line is not in the form of a row, or there is no status.
    Line,
    /// There was no memory.
    NoMemory,
}

impl From<AllocError> for Fault {
    fn from(_: AllocError) -> Fault {
        Fault::NoMemory
    }
}

impl<T: Drop> From<AllocFailed<T>> for Fault {
    fn from(_: AllocFailed<T>) -> Fault {
        Fault::NoMemory
    }
}

// The most bytes that a call of a source or a sink moves, and the numbers of the calls that fail.
#[derive(Drop)]
struct Calls {
    chunk: usize,
    fails: Vec<u64>,
    ghost some: { 1 ≤ chunk },
}

impl Calls {
    // Calls that do not fail.
    fn new(alloc: Global) -> Calls {
        Calls {
            chunk: 4096,
            fails: Vec::new(alloc),
        }
    }

    // The calls that a text names.
    fn read(alloc: Global, text: &str) -> Result<Calls, Fault> {
        let (chunk, numbers) = text.split_once(' ').unwrap_or((text, ""));
        let chunk = number(chunk)?;
        if chunk == 0 {
            return Err(Fault::Line);
        }
        let mut fails = Vec::new(alloc);
        for word in numbers.split_whitespace() {
            fails.push(number(word)? as u64)?;
        }
        Ok(Calls { chunk, fails })
    }
}

/// How a row is to end.
#[derive(Drop)]
pub struct End {
    pub status: Option<Status>,
    pub text: Vec<u8>,
}

impl End {
    /// Whether a run that ended with this status and these bytes ended so.
    pub fn is(&self, status: Status, written: &[u8]) -> bool
        ensures { IsTrue result ↔ EndsAs self.now status written.now }
    {
        self.status == Some(status) && self.text.as_slice() == written
    }
}

/// A run of words over an input, and how it is to end.
#[derive(Drop)]
pub struct Row {
    words: Vec<Word>,
    input: Vec<u8>,
    source: Calls,
    sink: Calls,
    places: usize,
    end: End,
}

impl Row {
    // A run of no words over no input.
    fn new(alloc: Global) -> Row {
        Row {
            words: Vec::new(alloc),
            input: Vec::new(alloc),
            source: Calls::new(alloc),
            sink: Calls::new(alloc),
            places: 1048576,
            end: End {
                status: None,
                text: Vec::new(alloc),
            },
        }
    }

    /// The row of these lines.
    pub fn read(alloc: Global, lines: &str) -> Result<Row, Fault> {
        let mut row = Row::new(alloc);
        for line in lines.lines() {
            let (key, text) = line.split_once(' ').unwrap_or((line, ""));
            row.take(alloc, key, text)?;
        }
        if row.end.status.is_none() {
            return Err(Fault::Line);
        }
        Ok(row)
    }

    // Reads a line.
    fn take(&mut self, alloc: Global, key: &str, text: &str) -> Result<(), Fault> {
        match key {
            "row" => {}
            "word" => self.words.push(word(alloc, text)?)?,
            "input" => push_text(&mut self.input, text)?,
            "repeat" => push_repeated(&mut self.input, text)?,
            "source" => self.source = Calls::read(alloc, text)?,
            "sink" => self.sink = Calls::read(alloc, text)?,
            "places" => self.places = number(text)?,
            "status" => self.end.status = Some(status(text)?),
            "text" => push_text(&mut self.end.text, text)?,
            _ => return Err(Fault::Line),
        }
        Ok(())
    }

    /// Runs the row and counts it, and prints how it ended where it does not pass.
    pub fn try_run(self, rt: &HostRuntime, name: &str, tally: &mut Tally) -> io::Result<()>
        ensures { OnOk result (CountsOne tally.old tally.new) }
    {
        let Row {
            words,
            input,
            source,
            sink,
            places,
            end,
        } = self;
        let mut source = MemSource::new(input, source.chunk, source.fails);
        let places = vec![in rt.alloc(); 0; places]?;
        let mut sink = MemSink::new(places, sink.chunk, sink.fails);
        let status = run_with_counters::<Brand, Brand>(
            rt.alloc(),
            &words,
            &mut source,
            &mut sink,
            Blank::new(1),
            Blank::new(1),
        );
        if !tally.count(&end, status, sink.written()) {
            let written = str::from_utf8(sink.written());
            println!(rt; "{name}: {status:?}, {written:?}")?;
        }
        Ok(())
    }
}

// Runs the words with a counter of each ledger.
fn run_with_counters<L: Ledger, M: Ledger>(
    alloc: Global,
    words: &[Word],
    source: &mut MemSource,
    sink: &mut MemSink,
    tests: Blank,
    nodes: Blank,
) -> Status
    requires tests_name { tests.name ≡ L.name }
    requires tests_parts { tests.parts ≡ L.parts }
    requires tests_some { 0 < L.parts }
    requires nodes_name { nodes.name ≡ M.name }
    requires nodes_parts { nodes.parts ≡ M.parts }
    requires nodes_some { 0 < M.parts }
{
    let mut tests = Steps::<L>::new(tests);
    let mut nodes = Steps::<M>::new(nodes);
    run(alloc, words, source, sink, &mut tests, &mut nodes)
}

// The word for which a text stands.
fn word(alloc: Global, text: &str) -> Result<Word, Fault> {
    let mut bytes = Vec::new(alloc);
    push_text(&mut bytes, text)?;
    Ok(Word {
        text: ByteList { bytes },
    })
}

// A number and a text: puts the bytes for which the text stands so often at the end of `bytes`.
fn push_repeated(bytes: &mut Vec<u8>, text: &str) -> Result<(), Fault> {
    let (count, text) = text.split_once(' ').ok_or(Fault::Line)?;
    for _ in 0..number(count)? {
        push_text(bytes, text)?;
    }
    Ok(())
}

// The number that a text is.
fn number(text: &str) -> Result<usize, Fault> {
    text.parse::<usize>().map_err(|_| Fault::Line)
}

// The status of a name.
fn status(name: &str) -> Result<Status, Fault> {
    match name {
        "Done" => Ok(Status::Done),
        "BadInput" => Ok(Status::BadInput),
        "Premise" => Ok(Status::Premise),
        "Limit" => Ok(Status::Limit),
        "ReadFault" => Ok(Status::ReadFault),
        "WriteFault" => Ok(Status::WriteFault),
        "NoMemory" => Ok(Status::NoMemory),
        "Usage" => Ok(Status::Usage),
        _ => Err(Fault::Line),
    }
}
