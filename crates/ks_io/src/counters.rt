//! The counts of the files in memory.
ghost use Rattle.std.specs.Prelude.{◌≡◌};
ghost use Rattle.ks_io.specs.Outside.{no_counts, NeverFall};
ghost use Rattle.ks_io.specs.InMemory.{counts_after};

use crate::types::FileFault;
use std::marker::Model;

/// How often a load found no file, a file longer than its limit, and a fault. Each stops at 2^64 - 1.
#[derive(Drop)]
pub(crate) struct Counters {
    absences: u64,
    excesses: u64,
    faults: u64,
}

impl Model for Counters {
    ghost use Rattle.ks_io.specs.Outside.{Counts};

    ghost Value = { Counts };

    ghost view = { λ s. record { absences = s.absences; excesses = s.excesses; faults = s.faults } };
}

impl Counters {
    /// Counters at zero.
    pub(crate) fn new() -> Counters
        ensures { result ≡ no_counts }
    {
        Counters {
            absences: 0,
            excesses: 0,
            faults: 0,
        }
    }

    /// Counts what a load answered.
    pub(crate) fn count(&mut self, answer: Result<(), FileFault>)
        ensures counted { self.new ≡ counts_after answer self.old }
        ensures never_fall { NeverFall self.old self.new }
    {
        match answer {
            Err(FileFault::Missing) => self.absences = self.absences.saturating_add(1),
            Err(FileFault::TooLong) => self.excesses = self.excesses.saturating_add(1),
            Err(FileFault::Failed) => self.faults = self.faults.saturating_add(1),
            Ok(()) | Err(FileFault::Memory) => {}
        }
    }
}
