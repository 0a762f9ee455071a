//! One step of one thread of the simulated i386.
//!
//! What an instruction does is that of the Intel SDM, volume 2, for a chosen list of instructions, and one atomic
//! step: it is worked out whole, with every fault of its reads, before anything is changed, and then it is done or
//! the thread stops. Nothing here takes memory.
#![tactic(auto)]

mod arithmetic;
mod branches;
mod changes;
mod exec;
mod laws;
mod moves;
mod operands;
mod products;
mod registers;
mod stack;
mod step;
mod types;

pub use laws::{
    calls_and_returns, code_bytes_have_no_say, instructions_are_never_stray, steps_keep,
    steps_leave_code, steps_write_one_number,
};
pub use step::{step_thread, step_traced};
pub use types::{ESP, Flow, Frame, Outcome, RETURN_ADDRESS, State, Store, Thread, Threads, Traced};
