//! Unknowns and places whose names are borrowed from an object's file.
ghost use Rattle.std.specs.Prelude.{◌≡◌, IfOk};
ghost use Rattle.run_pre_match.specs.Borrowed.{unknown_named};

use i386_reloc::Span;
use ks_base::{Name, Spot};
use std::alloc::{AllocError, Global};
use std::marker::Model;
use symbol_table::Unknown;

/// What sort of thing an unknown is.
#[derive(Clone, Copy, PartialEq, Eq)]
pub enum UnknownKind {
    /// A code section of the object.
    CodeSection,
    /// A data section of the object.
    DataSection,
    /// A name that the object doesn't define.
    OutsideName,
}

/// An unknown whose name is borrowed from the object's file. Contracts see the [`Unknown`] that it is.
#[derive(Drop)]
pub struct BorrowedUnknown<'a> {
    kind: UnknownKind,
    name: Span<'a>,
}

impl<'a> Model for BorrowedUnknown<'a> {
    ghost use Rattle.symbol_table.specs.declared.values.Unknown.{Unknown};
    ghost use Rattle.run_pre_match.specs.Borrowed.{unknown_named};

    ghost Value = { Unknown };

    ghost view = { λ u. unknown_named u.kind u.name };
}

impl<'a> BorrowedUnknown<'a> {
    /// The unknown of this kind and name.
    pub fn new(kind: UnknownKind, name: &'a [u8]) -> BorrowedUnknown<'a>
        ensures { result ≡ unknown_named kind name.now }
    {
        BorrowedUnknown {
            kind,
            name: Span::new(name),
        }
    }

    /// The same with a name of its own. `Err` comes only if memory runs out.
    pub fn owned(&self, alloc: Global) -> Result<Unknown, AllocError>
        ensures { IfOk result (λ unknown. unknown ≡ self.now) }
    {
        let name = Name::from_slice(alloc, self.name.as_slice())?;
        match self.kind {
            UnknownKind::CodeSection => Ok(Unknown::Code(name)),
            UnknownKind::DataSection => Ok(Unknown::Data(name)),
            UnknownKind::OutsideName => Ok(Unknown::Outside(name)),
        }
    }
}

/// A place in a section whose name is borrowed from the object's file. Contracts see the [`Spot`] that it is.
#[derive(Drop)]
pub struct BorrowedSpot<'a> {
    section: Span<'a>,
    offset: u32,
}

impl<'a> Model for BorrowedSpot<'a> {
    ghost use Rattle.ks_base.specs.declared.places.Spot.{Spot};

    ghost Value = { Spot };

    ghost view = { λ s. record { section = s.section; offset = s.offset } };
}

impl<'a> BorrowedSpot<'a> {
    /// The place at an offset of the section of a name.
    pub fn new(section: &'a [u8], offset: u32) -> BorrowedSpot<'a>
        ensures { result ≡ record { section = section.now; offset = offset } }
    {
        BorrowedSpot {
            section: Span::new(section),
            offset,
        }
    }

    /// The same with a name of its own. `Err` comes only if memory runs out.
    pub fn owned(&self, alloc: Global) -> Result<Spot, AllocError>
        ensures { IfOk result (λ spot. spot ≡ self.now) }
    {
        Ok(Spot {
            section: Name::from_slice(alloc, self.section.as_slice())?,
            offset: self.offset,
        })
    }
}
