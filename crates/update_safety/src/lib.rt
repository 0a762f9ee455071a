//! Why the check of the threads is enough: what an update, and taking one back, leave of the code that frames return
//! to.
#![tactic(auto)]

mod laws;

pub use crate::laws::{
    accepted_updates_are_clear, fetched_bytes_have_windows, hooks_keep_threads_safe,
    threads_keep_windows, undone_updates_are_clear, updates_keep_slots, updates_keep_windows,
};
