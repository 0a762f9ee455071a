//! Names, address ranges, and places in a section.
use crate::list::ListOf;

/// A name of a section or a symbol, as its bytes.
pub type Name = ListOf<u8>;

/// Bytes in order.
pub type Bytes = ListOf<u8>;

/// Names in order.
pub type Names = ListOf<Name>;

/// The addresses from `low` up to but not including `high`.
#[derive(Clone, Copy, PartialEq, Eq, Debug)]
pub struct Range {
    /// The first address.
    pub low: u32,
    /// The address after the last.
    pub high: u32,
}

/// Ranges of addresses in order.
pub type Ranges = ListOf<Range>;

/// A place in a section.
#[derive(Clone, PartialEq, Eq, Drop)]
pub struct Spot {
    /// The section's name.
    pub section: Name,
    /// The offset from the section's start, in bytes.
    pub offset: u32,
}
