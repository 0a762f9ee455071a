//! The functions of an old object as they run, and what an update does with each.
use ks_base::Name;

/// What an update does with a function of its old object.
#[derive(Clone, Copy, PartialEq, Eq)]
pub enum Fate {
    /// It stays as it is.
    Kept,
    /// A new version takes its place.
    Replaced,
    /// The new object has it no longer. It is retired: a thread that comes to it stops.
    Dropped,
}

/// A function of the old object of an update, as it runs.
#[derive(Clone, PartialEq, Eq, Drop)]
pub struct OldFunction {
    /// The name of its section.
    pub section: Name,
    /// Its name.
    pub function: Name,
    /// Where its first version begins.
    pub home: u32,
    /// Where its newest version begins.
    pub base: u32,
    /// How many bytes its newest version has.
    pub length: u32,
    /// What the update does with it.
    pub fate: Fate,
}
