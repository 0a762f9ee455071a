//! Where the regions of a linked image begin, and where they end so far.
ghost use Rattle.std.specs.Prelude.{◌≡◌, ◌≤◌, ◌<◌, ◌^◌, IfSome};
ghost use Rattle.std.specs.Option.{IfNone};
ghost use Rattle.image_link.specs.Regions.{gap_of, kind_of, start_of, unit_of};
ghost use Rattle.image_link.specs.Places.{behind, end_in, first_ends, lengths_of, next_base, region_length, with_end};
ghost use Rattle.image_link.specs.inside.Laying.{seen};

use i386_reloc::NormalSection;
use image_memory::Kind;
use link_post::{kind_of_class, round_up};

/// The lengths of all regions sum to at most this.
pub(crate) const LENGTH_LIMIT: u64 = 16_777_216;

/// Where the regions end so far.
#[derive(Clone, Copy)]
pub(crate) struct RegionEnds {
    code: u32,
    read_only: u32,
    writable: u32,
}

/// The region that a section goes to.
pub(crate) fn kind_of(section: &NormalSection<'_>) -> Kind
    ensures { result ≡ kind_of section.now }
{
    kind_of_class(section.class)
}

/// The lowest address of a region.
pub(crate) fn start_of(kind: Kind) -> u32
    ensures value { result ≡ start_of kind }
    ensures low { result ≤ 0x0300_0000 }
{
    match kind {
        Kind::Code => 0x0010_0000,
        Kind::ReadOnly => 0x0200_0000,
        Kind::Writable => 0x0300_0000,
    }
}

/// Each section of a region begins at a multiple of this.
fn unit_of(kind: Kind) -> u32
    ensures value { result ≡ unit_of kind }
    ensures some { 0 < result }
{
    match kind {
        Kind::Code => 16,
        Kind::ReadOnly => 4,
        Kind::Writable => 4,
    }
}

/// The byte that stands between the sections of a region: in code NOP.
pub(crate) fn gap_of(kind: Kind) -> u8
    ensures { result ≡ gap_of kind }
{
    match kind {
        Kind::Code => 0x90,
        Kind::ReadOnly => 0,
        Kind::Writable => 0,
    }
}

/// The regions without a section.
pub(crate) fn first_ends() -> RegionEnds
    ensures value { seen result ≡ first_ends }
    ensures short { lengths_of (seen result) ≤ 16777216 }
{
    RegionEnds {
        code: start_of(Kind::Code),
        read_only: start_of(Kind::ReadOnly),
        writable: start_of(Kind::Writable),
    }
}

/// Where a region ends.
fn end_in(ends: RegionEnds, kind: Kind) -> u32
    ensures { result ≡ end_in (seen ends) kind }
{
    match kind {
        Kind::Code => ends.code,
        Kind::ReadOnly => ends.read_only,
        Kind::Writable => ends.writable,
    }
}

/// The ends with another one of a region.
fn with_end(ends: RegionEnds, kind: Kind, end: u32) -> RegionEnds
    ensures { seen result ≡ with_end (seen ends) kind end }
{
    let mut changed = ends;
    match kind {
        Kind::Code => changed.code = end,
        Kind::ReadOnly => changed.read_only = end,
        Kind::Writable => changed.writable = end,
    }
    changed
}

/// How many bytes a region has.
fn region_length(ends: RegionEnds, kind: Kind) -> u64
    ensures value { result ≡ region_length (seen ends) kind }
    ensures short { result < 2 ^ 32 }
{
    u64::from(end_in(ends, kind).saturating_sub(start_of(kind)))
}

/// How many bytes all regions have.
fn lengths_of(ends: RegionEnds) -> u64
    ensures { result ≡ lengths_of (seen ends) }
{
    region_length(ends, Kind::Code)
        + region_length(ends, Kind::ReadOnly)
        + region_length(ends, Kind::Writable)
}

/// The place of a section behind those so far.
fn next_base(ends: RegionEnds, section: &NormalSection<'_>) -> u64
    ensures value { result ≡ next_base (seen ends) section.now }
    ensures bound { result < 2 ^ 34 }
{
    let kind = kind_of(section);
    round_up(end_in(ends, kind), unit_of(kind).max(section.align))
}

/// A section's place, and the ends behind it.
#[derive(Clone, Copy)]
pub(crate) struct NextPlace {
    pub(crate) base: u32,
    pub(crate) ends: RegionEnds,
}

/// The place of a section behind those so far, `None` exactly where the lengths of the regions then sum to too much.
pub(crate) fn next_place(ends: RegionEnds, section: &NormalSection<'_>) -> Option<NextPlace>
    ensures base { IfSome result (λ next. next.base ≡ next_base (seen ends) section.now) }
    ensures ends { IfSome result (λ next. seen next.ends ≡ behind (seen ends) section.now) }
    ensures short { IfSome result (λ next. lengths_of (seen next.ends) ≤ 16777216) }
    ensures none { IfNone result (16777216 < lengths_of (behind (seen ends) section.now)) }
{
    let kind = kind_of(section);
    let base = next_base(ends, section);
    let end = base + u64::from(section.size);
    let others = lengths_of(ends) - region_length(ends, kind);
    if others + end.saturating_sub(u64::from(start_of(kind))) > LENGTH_LIMIT {
        return None;
    }
    Some(NextPlace {
        base: base as u32,
        ends: with_end(ends, kind, end as u32),
    })
}
