//! Runs the rows of a table, which stands on standard input, through the top call over a source
//! and a sink in memory. It prints each row that ends otherwise than the table says, and then how
//! many pass.
//!
//! A row is some lines without an empty one between them. Lines that begin with `#` are left out.
//! A line is a key, a space and a text, in which `\n`, `\r`, `\t` and `\\` are a line feed, a
//! carriage return, a tab and a backslash, and `\x` with two hexadecimal digits is that byte.
//!
//! | Key | Says |
//! |---|---|
//! | `row` | the name of the row, which is its first line |
//! | `word` | the next word |
//! | `input` | the next bytes of the input |
//! | `repeat` | a number and a text, which stands so often as the next bytes of the input |
//! | `source`, `sink` | the most bytes that a call moves, and the numbers of the calls that fail |
//! | `places` | the places of the sink |
//! | `status` | the status |
//! | `text` | the next bytes of what is written |
//!
//! Without these lines a source and a sink move up to 4096 bytes in a call, no call fails, and the
//! sink has 1,048,576 places.
#![tactic(auto)]

mod bytes;
mod row;
mod tally;

use row::{Fault, Row};
use std::io;
use std::process::ExitCode;
use tally::Tally;

fn main(rt: HostRuntime) -> io::Result<ExitCode> {
    let table = io::read_to_string(rt.alloc(), rt.stdin())?;
    let mut tally = Tally::new();
    for lines in table.as_str().split("\n\n") {
        try_row(&rt, lines, &mut tally)?;
    }
    let (passed, rows) = (tally.passed(), tally.rows());
    println!(rt; "{passed} of {rows} rows pass")?;
    Ok(ExitCode::from(if passed == rows { 0 } else { 1 }))
}

// Runs and counts the row of these lines, if they are no comment, and prints its first line where
// it does not pass.
fn try_row(rt: &HostRuntime, lines: &str, tally: &mut Tally) -> io::Result<()> {
    if lines.lines().all(|line| line.starts_with('#')) {
        return Ok(());
    }
    let name = lines.lines().next().unwrap_or("");
    match Row::read(rt.alloc(), lines) {
        Ok(row) => row.try_run(rt, name, tally),
        Err(Fault::Line) => {
            tally.count_unread();
            println!(rt; "{name}: not in the form of a row")
        }
        Err(Fault::NoMemory) => Err(io::Error::from(io::ErrorKind::OutOfMemory)),
    }
}
