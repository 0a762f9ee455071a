//! The functions of a running program that the code sections of an object may be, each matched by itself.
#![tactic(auto)]

mod codes;
mod homes;
mod laws;
mod running;
mod trials;
mod trying;

pub use laws::alike_programs_have_alike_candidates;
pub use running::Running;
pub use trials::{Trials, Tried, try_all};
pub use trying::outcome_of;
