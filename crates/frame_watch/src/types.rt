//! What is said of a run.

/// A rule that each event of a run has to keep.
#[derive(Clone, Copy, PartialEq, Eq)]
pub enum Rule {
    /// The pc of a started thread has a window.
    Start,
    /// A return pops the slot of the thread's last frame, and goes on at that frame's address.
    Return,
    /// After every other step the new pc has a window.
    Arrival,
    /// The slot of each open frame is a multiple of 4, lies at or above ESP and inside its stack, and holds the frame's
    /// address.
    Slot,
}

/// Whether a run has kept all rules.
#[derive(Clone, Copy, PartialEq, Eq)]
pub enum Verdict {
    /// Each event so far has kept them.
    Disciplined,
    /// One event has not.
    Broken {
        /// The event's number, counted from 1.
        event: u64,
        /// The thread's number.
        thread: u32,
        /// The first rule that it broke.
        rule: Rule,
    },
}
