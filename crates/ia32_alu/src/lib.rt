//! The integer arithmetic of the simulated i386: values and flags, and nothing else. No memory is read or taken.
//!
//! What each instruction gives is that of the Intel SDM: volume 1, 3.4.3.1 for the flags, volume 2 for the
//! instructions. Where the manual leaves a flag undefined it has one value here, which `specs/` marks as own.
#![tactic(auto)]

mod adding;
mod conditions;
mod dividing;
mod multiplying;
mod operations;
mod settling;
mod shifting;
mod types;
mod widths;

pub use conditions::condition;
pub use dividing::divide;
pub use multiplying::multiply;
pub use operations::{binary, unary};
pub use shifting::shift;
pub use types::{Binary, Flags, Shift, Unary, Width};
