//! Which bodies of running functions an update retires, and what of them stands in its way: a first version without
//! room for the jump, and code that overlaps.
#![tactic(auto)]

mod bounds;
mod jump_room;
mod laws;
mod overlapping;
mod refusals;
mod retiring;
mod types;

pub use jump_room::room_for_jump;
pub use laws::{
    padded_end_is_greatest, retired_code_lies_apart, room_is_code, room_is_greatest, room_is_met,
};
pub use refusals::code_refusal;
pub use retiring::{are_bodies, guarded_ranges, retired_ranges};
pub use types::{Fate, OldFunction};
