//! Tests of what functions that run at an update need: `hook_list` and `saved_data`. They stand apart so that those
//! crates are proved once, and not once more for their tests.
#![tactic(auto)]

#[cfg(test)]
mod lists;
#[cfg(test)]
mod saving;
