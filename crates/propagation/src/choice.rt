//! What may be chosen for a section, and what it says of other choices.
use ks_base::ListOf;

/// That an unknown has a value. Unknowns are numbered.
#[derive(Clone, Copy, PartialEq, Eq)]
pub struct Claim {
    /// The number of the unknown.
    pub unknown: u32,
    /// Its value.
    pub value: u32,
}

/// Something that is asked of whatever is chosen for another section. Demands are numbered.
#[derive(Clone, Copy, PartialEq, Eq)]
pub struct Demand {
    /// The number of the section of which it is asked.
    pub section: u32,
    /// The number of the demand.
    pub number: u32,
}

/// One of several that may be chosen for a section.
#[derive(Drop)]
pub struct Choice {
    /// The number of the section.
    pub section: u32,
    /// An address, which tells it from the others of its section.
    pub home: u32,
    /// Whether it can be chosen at all.
    pub matches: bool,
    /// What it claims.
    pub claims: ListOf<Claim>,
    /// What it asks of choices of other sections.
    pub demands: ListOf<Demand>,
    /// The numbers of the demands that it meets, ascending.
    pub met: ListOf<u32>,
}
