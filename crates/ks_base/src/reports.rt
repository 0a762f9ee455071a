//! What an update did to the functions of the running program, and which it ran.
use crate::list::ListOf;
use crate::places::{Name, Names};

/// A function whose running version an update replaced.
#[derive(Clone, PartialEq, Eq, Drop)]
pub struct Replaced {
    /// The function's name, as the object built before the change has it.
    pub function: Name,
    /// The address of its first version, where the jump stands.
    pub home: u32,
    /// The address of its new version.
    pub base: u32,
    /// How many bytes the version had that ran until then.
    pub length: u32,
}

/// Replaced functions in order.
pub type ReplacedList = ListOf<Replaced>;

/// A function that an update added.
#[derive(Clone, PartialEq, Eq, Drop)]
pub struct Added {
    /// The function's name.
    pub function: Name,
    /// The address of its body.
    pub base: u32,
}

/// Added functions in order.
pub type AddedList = ListOf<Added>;

/// What an update did.
#[derive(Clone, PartialEq, Eq, Drop)]
pub struct Report {
    /// The functions that have a new version.
    pub replaced: ReplacedList,
    /// The functions that are new.
    pub added: AddedList,
    /// The names of the functions that are gone.
    pub dropped: Names,
}

/// A function that was run at an update.
#[derive(Clone, PartialEq, Eq, Drop)]
pub struct HookRun {
    /// The function's name.
    pub function: Name,
    /// How many steps it made, the one that ended it among them.
    pub steps: u32,
}

/// Functions that were run, in order.
pub type HookRuns = ListOf<HookRun>;

/// What an update did at which functions may be run.
#[derive(Clone, PartialEq, Eq, Drop)]
pub struct HookReport {
    /// What it did to the functions of the running program.
    pub report: Report,
    /// The functions that were run.
    pub hooks: HookRuns,
}
