//! How far the jump at a home has been written.

/// The phase in which the jump at a home is written, in three separate writes while threads run. The number is the
/// home.
#[derive(Copy, Clone, PartialEq, Eq)]
pub enum Phase {
    /// The whole jump stands at its home.
    Done,
    /// The home's first byte traps; behind it the old bytes stand.
    Marked(u32),
    /// The home's first byte traps; behind it the jump's displacement stands.
    Tailed(u32),
}
