//! Updates at which functions run that the new object lists.
#![tactic(auto)]

mod hooking;
mod laws;
mod list;
mod run;
mod runs;

pub use crate::hooking::apply_with_hooks;
pub use crate::laws::failed_hooks_are_taken_back;
