// The calls of a source or a sink in memory, by number, and those that are to fail.
ghost use Rattle.std.specs.Prelude.{◌≡◌, ◌≤◌, ◌↔◌};
ghost use Rattle.std.specs.Result.{IsErr};
ghost use Rattle.ff_io.specs.Causes.{next_count};
ghost use Rattle.ff_io.specs.Memory.{FailsNext, calls_after};

use super::Failed;
use std::marker::Model;

/// The calls so far, numbered from 1, the numbers of those that are to fail, and the faults.
/// A call past the last value of u64 has no number, and does not fail.
#[derive(Drop)]
pub(super) struct CallLog {
    // How many calls there were. It stops at the last value of u64.
    count: u64,
    fails: Vec<u64>,
    faults: u64,
}

impl Model for CallLog {
    ghost use Rattle.ff_io.specs.Memory.{Calls};

    ghost Value = { Calls };

    ghost view = { λ log. record {
      count = log.count;
      fails = log.fails.items;
      faults = log.faults;
    } };
}

impl CallLog {
    /// Before any call. Those whose numbers are in `fails` are to fail.
    pub(super) fn new(fails: Vec<u64>) -> CallLog
        ensures { result ≡ record { count = 0; fails = fails.items; faults = 0 } }
    {
        CallLog {
            count: 0,
            fails,
            faults: 0,
        }
    }

    /// Counts the next call. It answers `Failed`, and counts a fault, where that call is to fail.
    pub(super) fn begin(&mut self) -> Result<(), Failed>
        ensures fails { IsErr result ↔ FailsNext self.old }
        ensures after { self.new ≡ calls_after result self.old }
        ensures later { self.old.faults ≤ self.new.faults }
    {
        let Some(number) = self.count.checked_add(1) else {
            return Ok(());
        };
        self.count = number;
        if self.fails.contains(&number) {
            return Err(self.fault());
        }
        Ok(())
    }

    /// Counts a fault.
    pub(super) fn fault(&mut self) -> Failed
        ensures after { self.new ≡ record self.old { faults = next_count self.old.faults } }
        ensures later { self.old.faults ≤ self.new.faults }
    {
        self.faults = self.faults.saturating_add(1);
        Failed
    }
}
