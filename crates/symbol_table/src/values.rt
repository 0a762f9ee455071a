//! What the unknowns of an object's references come to in the running program.
use indexmap::IndexMap;
use ks_base::Name;

/// What a reference leaves open: a section of the object by its name, or a name that the object doesn't
/// define.
#[derive(Clone, PartialEq, Eq, Hash, Drop)]
pub enum Unknown {
    /// Where the code section of a name begins.
    Code(Name),
    /// Where the data section of a name begins.
    Data(Name),
    /// The address of a name outside of the object.
    Outside(Name),
}

/// What an unknown comes to.
#[derive(Clone, Copy, PartialEq, Eq)]
pub enum Solved {
    /// Of a code section: the function's home, the base of the body that was matched, and its length in bytes.
    Body { home: u32, base: u32, length: u32 },
    /// Of the others: the address.
    Address(u32),
}

/// The values of unknowns, in the order in which they were found.
pub type Values = IndexMap<Unknown, Solved>;
