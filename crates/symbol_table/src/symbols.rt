//! One symbol of a running program, and what is said where a name has none.
use ks_base::Name;

/// A symbol: a name for an address of the running program.
#[derive(Clone, PartialEq, Eq, Drop)]
pub struct Symbol {
    /// The address that the symbol stands for.
    pub address: u32,
    /// Whether a function begins at the address; otherwise data do.
    pub function: bool,
    /// Whether other objects may refer to the symbol by its name.
    pub global: bool,
    /// The symbol's name.
    pub name: Name,
}

/// Which refusal says that a name has no address.
#[derive(Clone, Copy, PartialEq, Eq)]
pub enum Missing {
    /// `Refusal::NoSymbol`: a user asked for the name.
    NoSymbol,
    /// `Refusal::Unresolved`: new code needs it.
    Unresolved,
}
