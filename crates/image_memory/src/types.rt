//! What memory consists of, why an access to it fails, and the bytes of a fetch.
use ks_base::{Bytes, ListOf, Range};

/// What a piece of memory may be used for.
#[derive(Clone, Copy, PartialEq, Eq)]
pub enum Kind {
    /// Fetched alone: no data access reaches it.
    Code,
    /// Read as data, and not written.
    ReadOnly,
    /// Read and written as data.
    Writable,
}

/// What data are used for.
#[derive(Clone, Copy, PartialEq, Eq)]
pub enum Access {
    /// They are read.
    Read,
    /// They are written.
    Write,
}

/// Bytes that stand at consecutive addresses.
#[derive(Clone, PartialEq, Eq, Drop)]
pub struct Piece {
    /// What the piece may be used for.
    pub kind: Kind,
    /// The address of the first byte.
    pub base: u32,
    /// The bytes, from the base upwards.
    pub bytes: Bytes,
}

/// Pieces in order.
pub type Pieces = ListOf<Piece>;

/// A retired range of code.
#[derive(Clone, Copy, PartialEq, Eq)]
pub struct Fence {
    /// The addresses that are retired.
    pub range: Range,
    /// Whether the range's low is a spliced home, where a jump stands.
    pub jump: bool,
}

/// No piece of memory ends above this address.
pub const END_LIMIT: u32 = 0xFFFF_0000;

/// How many bytes the jump at a spliced home has.
pub const JUMP_LENGTH: usize = 5;

/// A window has at most so many bytes.
pub const WINDOW_LENGTH: usize = 15;

/// What is fetched at an address.
#[derive(Clone, Copy, PartialEq, Eq)]
pub struct Window {
    /// The bytes from the address on, zeros after `length`.
    pub bytes: [u8; WINDOW_LENGTH],
    /// How many bytes were fetched, at most 15.
    pub length: u32,
}
