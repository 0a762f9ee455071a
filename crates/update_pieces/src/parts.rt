//! The sections of a new object that an update places, and their places.
ghost use Rattle.std.specs.Prelude.{◌≡◌, map, IfOk};
ghost use Rattle.update_pieces.specs.Parts.{at_places, new_part, placed_part, size_of};

use extract_post::Role;
use i386_reloc::NormalSection;
use ks_base::Name;
use link_post::{Placement, SectionSize};
use std::alloc::{AllocError, Global};
use std::marker::Model;

/// A section of the new object that an update places. Contracts see the section and what the update does with it.
#[derive(Drop)]
pub struct Part<'p, 'a> {
    section: &'p NormalSection<'a>,
    role: Role,
}

impl<'p, 'a> Model for Part<'p, 'a> {
    ghost use Rattle.update_pieces.specs.Parts.{NewPart, new_part};

    ghost Value = { NewPart };

    ghost view = { λ p. new_part p.section.now p.role };
}

impl<'p, 'a> Part<'p, 'a> {
    /// A section of the new object, with what the update does with it.
    pub fn new(section: &'p NormalSection<'a>, role: Role) -> Part<'p, 'a>
        ensures { result ≡ new_part section.now role }
    {
        Part { section, role }
    }

    /// The section.
    pub fn section(&self) -> &'p NormalSection<'a>
        ensures { result.now ≡ self.now.section }
    {
        self.section
    }

    /// What the update does with it.
    pub fn role(&self) -> Role
        ensures { result ≡ self.now.role }
    {
        self.role
    }
}

/// What [`place`](link_post::place) needs of the sections that an update places, in their order. `Err` comes only if
/// memory runs out.
pub fn sizes(alloc: Global, parts: &[Part<'_, '_>]) -> Result<Vec<SectionSize>, AllocError>
    ensures { IfOk result (λ sizes. sizes.items ≡ map size_of parts.now) }
{
    let mut sizes = Vec::new(alloc);
    for part in parts {
        sizes.push(size_of(alloc, part)?)?;
    }
    Ok(sizes)
}

fn size_of(alloc: Global, part: &Part<'_, '_>) -> Result<SectionSize, AllocError>
    ensures { IfOk result (λ size. size ≡ size_of part.now) }
{
    let section = part.section();
    Ok(SectionSize {
        name: Name::from_slice(alloc, section.name.as_slice())?,
        size: section.size,
        align: section.align,
    })
}

/// A section at its place.
#[derive(Drop)]
pub(crate) struct PlacedPart<'p, 'a> {
    section: &'p NormalSection<'a>,
    role: Role,
    base: u32,
}

impl<'p, 'a> Model for PlacedPart<'p, 'a> {
    ghost use Rattle.update_pieces.specs.Parts.{AtPlace, placed_part};

    ghost Value = { AtPlace };

    ghost view = { λ p. placed_part p.section.now p.role p.base };
}

impl<'p, 'a> PlacedPart<'p, 'a> {
    fn new(section: &'p NormalSection<'a>, role: Role, base: u32) -> PlacedPart<'p, 'a>
        ensures { result ≡ placed_part section.now role base }
    {
        PlacedPart {
            section,
            role,
            base,
        }
    }

    pub(crate) fn section(&self) -> &'p NormalSection<'a>
        ensures { result.now ≡ self.now.section }
    {
        self.section
    }

    pub(crate) fn role(&self) -> Role
        ensures { result ≡ self.now.role }
    {
        self.role
    }

    /// The address of its first byte.
    pub(crate) fn base(&self) -> u32
        ensures { result ≡ self.now.base }
    {
        self.base
    }
}

/// Each section at the place that it was given: the first has the first place.
#[tactic(auto, using(crate::proofs::Zips::placed_more, crate::proofs::Zips::placed_all))]
pub(crate) fn at_places<'p, 'a>(
    alloc: Global,
    parts: &[Part<'p, 'a>],
    placement: &Placement,
) -> Result<Vec<PlacedPart<'p, 'a>>, AllocError>
    ensures { IfOk result (λ placed. placed.items ≡ at_places parts.now placement.now) }
{
    let mut placed = Vec::new(alloc);
    for (part, place) in parts.iter().zip(placement.as_slice()) {
        placed.push(PlacedPart::new(part.section(), part.role(), place.base))?;
    }
    Ok(placed)
}
