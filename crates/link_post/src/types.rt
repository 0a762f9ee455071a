//! Sections that are to be placed, their places, and what their fields need.
use ks_base::{ListOf, Name};

/// A section that is to be placed.
#[derive(Clone, PartialEq, Eq, Drop)]
pub struct SectionSize {
    /// The section's name.
    pub name: Name,
    /// Its size in bytes.
    pub size: u32,
    /// Its alignment in bytes, 0 or a power of two up to 4,096.
    pub align: u32,
}

/// The place of a section.
#[derive(Clone, PartialEq, Eq, Drop)]
pub struct Placed {
    /// The section's name.
    pub section: Name,
    /// The address of its first byte.
    pub base: u32,
}

/// Places of sections, in the order in which they were placed.
pub type Placement = ListOf<Placed>;

/// What a field of new code needs of the running program.
#[derive(Clone, Copy, PartialEq, Eq)]
pub struct Need {
    /// Where the field begins in its section, in bytes.
    pub offset: u32,
    /// The address of what the field's reference goes to.
    pub s: u32,
}

/// What the fields of one section need.
#[derive(Drop)]
pub struct Needs {
    /// The section's name.
    pub section: Name,
    /// Its fields, by offset.
    pub fields: ListOf<Need>,
}
