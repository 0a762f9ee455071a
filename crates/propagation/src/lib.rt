//! Choosing by propagation: one item is to be chosen for each of several sections, and one that is forced excludes what
//! can't be chosen beside it.
#![tactic(auto)]

mod building;
mod choice;
mod conflicts;
mod engine;
mod laws;
mod marking;
mod propagating;
mod striking;
mod tables;

pub use choice::{Choice, Claim, Demand};
pub use conflicts::first_conflict;
pub use laws::sets_are_least;
pub use propagating::propagate;
