//! What refuses a look at a thread.

/// That ESP of a running thread is below its stack's low bound or above its high one.
#[derive(Clone, Copy, PartialEq, Eq)]
pub struct StackOut {
    /// The thread's number.
    pub thread: u32,
    /// What ESP holds.
    pub esp: u32,
}
