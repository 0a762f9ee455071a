//! The updates of a running system.
use ks_base::{Fault, ListOf, Name, Range, Ranges, Report};
use symbol_table::Addresses;
use update_memory::Jumps;
use update_pieces::NewSymbols;
use update_plan::AllNeeds;

/// An update that is live.
#[derive(Clone, PartialEq, Eq, Drop)]
pub struct Update {
    /// The name that it was given.
    pub name: Name,
    /// What it did.
    pub report: Report,
}

/// Updates in order.
pub type Updates = ListOf<Update>;

/// How a function ended that was run at an update.
#[derive(Clone, Copy)]
pub enum HookEnd {
    /// It returned.
    Returned {
        /// After so many steps, the one that ended it among them.
        steps: u32,
    },
    /// It stopped.
    Faulted {
        /// Why.
        fault: Fault,
        /// The program counter where it did.
        pc: u32,
    },
    /// It has made as many steps as it may without ending.
    Unreturned,
}

/// What a system keeps of a live update beside its name and report.
#[derive(Drop)]
pub(crate) struct Kept {
    /// Where the pieces begin that it added.
    pub(crate) pieces: Addresses,
    /// The ranges of these pieces, in ascending order.
    pub(crate) ranges: Ranges,
    /// The ranges of those that are code, in ascending order.
    pub(crate) code_ranges: Ranges,
    /// The ranges that it retired.
    pub(crate) retired: Ranges,
    /// The symbols that it added.
    pub(crate) symbols: NewSymbols,
    /// How many they are.
    pub(crate) symbol_count: u32,
    /// What the fields of its new sections need.
    pub(crate) needs: AllNeeds,
    /// The jumps that it wrote, with the code that stood there before.
    pub(crate) jumps: Jumps,
}

/// Where new pieces are placed.
#[derive(Clone, Copy)]
pub(crate) struct Arena {
    /// The arena.
    pub(crate) range: Range,
    /// The range of the scratch piece, which takes of it, if there is one.
    pub(crate) scratch: Option<Range>,
}

/// What is kept of updates in order.
pub(crate) type KeptList = ListOf<Kept>;

/// What is made of a plan before it is carried out, since it takes memory.
#[derive(Drop)]
pub(crate) struct Prepared {
    /// The update, as it is shown.
    pub(crate) update: Update,
    /// What is kept of it.
    pub(crate) kept: Kept,
    /// The jumps to write, with the code that stands there before.
    pub(crate) jumps: Jumps,
}
