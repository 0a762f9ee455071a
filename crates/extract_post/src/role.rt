//! What becomes of a section of a new object.

/// What an update does with a section of its new object. It places the section in each case.
#[derive(Clone, Copy, PartialEq, Eq)]
pub enum Role {
    /// A function that takes the place of one that runs.
    Changed,
    /// A function that the old object doesn't have.
    Added,
    /// Read-only data or texts that the others reach.
    Carried,
    /// Data that the old object doesn't have.
    NewData,
}
