//! Pages, and where the pieces lie that stand in them.
use crate::blocks::Block;
use image_memory::Kind;

/// Where a piece lies, and what it may be used for.
#[derive(Clone, Copy)]
pub(crate) struct Extent {
    /// What the piece may be used for.
    pub kind: Kind,
    /// The address of its first byte.
    pub base: u32,
    /// How many bytes it has.
    pub length: u32,
}

/// The bytes of 4,096 addresses, the first of which is a multiple of 4,096.
#[derive(Drop)]
pub(crate) struct Page {
    /// The first address, divided by 4,096.
    pub number: u32,
    /// How many extents end at or below the page: the place of the first one with a byte in it.
    pub first: usize,
    /// How many extents begin below the page's end: the place after the last one with a byte in it.
    pub last: usize,
    /// The bytes. Where no piece holds an address, the byte there is any.
    pub bytes: Block,
}

/// Where an address is found.
#[derive(Clone, Copy)]
pub(crate) struct Spot {
    /// The place of its page.
    pub page: usize,
    /// The place of the extent that has it.
    pub extent: usize,
}
