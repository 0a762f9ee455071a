//! Where the relocations of each section stand, as a table.

/// Where a relocation stands: the index of its section, and that of its entry there.
#[derive(Clone, Copy)]
pub(crate) struct Spot {
    pub from: u32,
    pub index: u32,
}
