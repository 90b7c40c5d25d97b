// How many rows pass.
ghost use Rattle.std.specs.Prelude.{◌≡◌, ◌↔◌, IsTrue, false};
ghost use Rattle.ff_rows.specs.Rows.{EndsAs, Counts};

use super::row::End;
use ff_top::Status;

/// A count of rows, and of those that pass.
#[derive(Drop)]
pub struct Tally {
    passed: u64,
    rows: u64,
}

impl Tally {
    /// No row so far.
    pub fn new() -> Tally
        ensures passed { result.passed ≡ 0 }
        ensures rows { result.rows ≡ 0 }
    {
        Tally { passed: 0, rows: 0 }
    }

    /// The rows that pass.
    pub fn passed(&self) -> u64
        ensures { result ≡ self.now.passed }
    {
        self.passed
    }

    /// The rows.
    pub fn rows(&self) -> u64
        ensures { result ≡ self.now.rows }
    {
        self.rows
    }

    /// Counts a row that ended with this status and these bytes, and answers whether it passes.
    pub fn count(&mut self, end: &End, status: Status, written: &[u8]) -> bool
        ensures same { IsTrue result ↔ EndsAs end.now status written.now }
        ensures counts { Counts self.old self.new result }
    {
        let same = end.is(status, written);
        self.rows = self.rows.saturating_add(1);
        if same {
            self.passed = self.passed.saturating_add(1);
        }
        same
    }

    /// Counts a row that cannot be read, which does not pass.
    pub fn count_unread(&mut self)
        ensures { Counts self.old self.new false }
    {
        self.rows = self.rows.saturating_add(1);
    }
}
