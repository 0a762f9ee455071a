//! Frames of running threads, and whether a run keeps to its stacks.
//!
//! A run is disciplined while each of its events keeps four rules: a started thread's pc has a window; a return pops
//! the slot of the thread's last frame and goes on at that frame's address; after every other step the new pc has a
//! window; and each open frame's slot lies at or above ESP inside its stack and holds the frame's address.
#![tactic(auto)]

mod calls;
mod list;
mod memory;
mod notes;
mod thread;
mod types;

pub use calls::Watch;
pub use types::{Rule, Verdict};
