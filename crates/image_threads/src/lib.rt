//! The threads of a running program: how one is started, how one steps, and which steps next in turn.
#![tactic(auto)]

mod first;
mod machine;
mod stacks;
mod thread_list;
mod turns;

pub use first::{first_bytes, first_thread};
pub use machine::Machine;
pub use stacks::are_stacks;
pub use turns::Turns;
