//! The bytes that a program may change, copied and put back: those of its writable pieces.
#![tactic(auto)]

mod copying;
mod laws;
mod restoring;

pub use crate::copying::save;
pub use crate::laws::{data_alone_differ, saved_data_come_back};
pub use crate::restoring::put_back;
