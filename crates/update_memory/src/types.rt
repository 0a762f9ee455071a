//! The jumps of an update.
use image_memory::JUMP_LENGTH;
use ks_base::ListOf;

/// A jump that an update writes: where, to where, and the five bytes of code that stood there before.
#[derive(Clone, Copy, PartialEq, Eq)]
pub struct Jump {
    /// Where the jump stands: the first address of the function that is replaced.
    pub home: u32,
    /// Where it goes: the first address of the function's newest version.
    pub base: u32,
    /// The five bytes that stood at the home before.
    pub old: [u8; JUMP_LENGTH],
}

/// Jumps in order.
pub type Jumps = ListOf<Jump>;
