//! What an update would do.
use image_memory::{Fence, Pieces};
use ks_base::{ListOf, Name, Ranges, Report};
use link_post::Needs;
use update_pieces::NewSymbols;

/// Ranges that are to be retired, in order.
pub type Fences = ListOf<Fence>;

/// What the fields of new sections need, section by section.
pub type AllNeeds = ListOf<Needs>;

/// A function to be run at an update.
#[derive(Drop)]
pub struct Hook {
    /// Its name, as the object built before the change has it if it has the function, and else the one built after it.
    pub function: Name,
    /// Where a run of it starts: at its home if the old object has it, and else where it is placed.
    pub address: u32,
}

/// Functions to be run, in order.
pub type Hooks = ListOf<Hook>;

/// What an update would do to a running program.
#[derive(Drop)]
pub struct Plan {
    /// What it reports. Its replaced functions tell where jumps are written, and where they lead.
    pub report: Report,
    /// The pieces of memory that it adds.
    pub pieces: Pieces,
    /// The symbols that it adds.
    pub symbols: NewSymbols,
    /// The ranges that it retires, in the order of the old object, each with whether the jump is written at its low.
    pub fences: Fences,
    /// The ranges in which no thread may stand: those that it retires, and the jump at the home of each function that
    /// it drops and that was replaced before.
    pub guarded: Ranges,
    /// What the fields of its new sections need, in the order of the new object.
    pub needs: AllNeeds,
    /// The functions that the new object lists to be run at the update; none where it has no such list, or a broken one.
    pub hooks: Hooks,
}
