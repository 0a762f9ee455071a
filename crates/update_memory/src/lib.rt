//! What an update does to the memory of a running program: it adds pieces, retires ranges of code and writes jumps; and
//! how all of it is taken back.
#![tactic(auto)]

mod changes;
mod laws;
mod types;
mod withdrawing;

pub use crate::laws::{
    changes_are_withdrawn, code_that_stays, dropping_goes_past_writes, memory_stays_memory,
    pieces_are_added, pieces_are_added_past_code, ranges_are_retired, updates_are_withdrawn,
};
pub use changes::{add_pieces, note_old_code, retire, write_jumps};
pub use types::{Jump, Jumps};
pub use withdrawing::{drop_pieces, restore_code, unretire, withdraw};
