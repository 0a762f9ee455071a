//! Whether a thread stands in one of some ranges of code.
#![tactic(auto)]

mod checks;
mod places;
mod scan;
mod slots;
mod sorting;
mod stacks;
mod targets;
mod types;
mod words;

pub use crate::checks::check_threads;
pub use crate::scan::stands;
pub use crate::sorting::order_has_no_say;
pub use crate::stacks::is_stack;
pub use crate::types::StackOut;
pub use crate::words::first_in;
