//! Tests of what an update adds to a running program, retires in it and changes in its memory: `update_pieces`,
//! `update_retired`, `update_memory`, and of the threads that block it: `stack_scan`.
//! They stand apart so that those crates are proved once, and not once more for their tests.
#![tactic(auto)]

#[cfg(test)]
mod adding;
#[cfg(test)]
mod changing;
#[cfg(test)]
mod retired;
#[cfg(test)]
mod standing;
