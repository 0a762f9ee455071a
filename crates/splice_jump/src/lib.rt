//! The jump at a replaced function's home: its five bytes, how it is written and taken back, also in separate writes
//! while threads run, and what memory is with such jumps.
#![tactic(auto)]

mod jumps;
mod laws;
mod phase;

pub use crate::laws::{
    code_stays_code, data_are_written_past_jumps, homes_are_not_looked_at, homes_stay_spliced,
    jump_is_never_half, jumps_are_added_and_replaced, jumps_are_taken_back,
    jumps_change_their_bytes_alone, jumps_leave_views, jumps_stand, last_bytes_stand,
    pieces_come_and_go_past_jumps, writes_change_their_bytes,
};
pub use jumps::{five_at, jump_bytes, open_home, phase_bytes, restore, splice};
pub use phase::Phase;
