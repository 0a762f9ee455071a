//! The functions that an object lists, to be run at an update to it.
#![tactic(auto)]

mod entries;
mod list;

pub use crate::list::{HOOK_SECTION_NAME, HookList, read_hooks};
