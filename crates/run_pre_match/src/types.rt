//! What matching finds. Names are borrowed from the object's file.
use crate::borrowed::{BorrowedSpot, BorrowedUnknown};
use i386_reloc::Span;
use ks_base::{Difference, ListOf};
use std::alloc::AllocError;

/// That something has a value, and the place of the field that says so.
#[derive(Drop)]
pub struct Claim<'a> {
    /// What has the value.
    pub unknown: BorrowedUnknown<'a>,
    /// The value: of a code section the home of its function, otherwise an address.
    pub value: u32,
    /// Where the field begins.
    pub place: BorrowedSpot<'a>,
}

/// Claims in the order of their places.
pub type Claims<'a> = ListOf<Claim<'a>>;

/// That an address is that of an offset in another code section, and the place of the field that says so.
#[derive(Drop)]
pub struct Interior<'a> {
    /// The name of the other section.
    pub section: Span<'a>,
    /// The offset in it, in bytes.
    pub offset: u32,
    /// The address.
    pub address: u32,
    /// Where the field begins.
    pub place: BorrowedSpot<'a>,
}

/// Interiors in the order of their places.
pub type Interiors<'a> = ListOf<Interior<'a>>;

/// What is known where the code of a section is what runs at a base.
#[derive(Drop)]
pub struct Matched<'a> {
    /// How many bytes the running body has, from its base to the end of its last instruction that isn't padding.
    pub length: u32,
    /// Its claims, the own home first.
    pub claims: Claims<'a>,
    /// Its references to the interiors of other code sections.
    pub interiors: Interiors<'a>,
}

/// Why the code of a section doesn't match.
#[derive(PartialEq, Eq, Drop)]
pub enum MatchFault {
    /// It differs from what runs; the first difference.
    Differs(Difference),
    /// The section's own code can't be matched at this offset: it doesn't decode there, a field stands where none may,
    /// or a branch or reference leads to no instruction.
    Undecoded(u32),
    /// Memory ran out.
    Memory,
}

impl From<AllocError> for MatchFault {
    ghost use Rattle.std.specs.Prelude.{◌≡◌};
    ghost use Rattle.run_pre_match.specs.declared.types.MatchFault.TheVariants.{Memory};

    ghost from_gives = { λ _ fault. fault ≡ Memory };

    fn from(_error: AllocError) -> MatchFault {
        MatchFault::Memory
    }
}
