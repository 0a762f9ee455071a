//! Tests of sessions: one that updates a function and takes the update back, what it leaves, and the line of a lost
//! file. They stand apart so that `ksplice_session` is proved once, and not once more for its tests. All other lines of
//! sessions are in tests/worked.
#![tactic(auto)]

#[cfg(test)]
mod sessions;
