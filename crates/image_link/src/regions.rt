//! The regions of a linked image: the bytes of all sections at their places.
ghost use Rattle.std.specs.Prelude.{◌≡◌, ◌++◌, IfOk, OnOk};
ghost use Rattle.std.specs.List.{flat_map, fold};
ghost use Rattle.image_link.specs.Regions.{gap_of};
ghost use Rattle.image_link.specs.Linked.{filled_in, region, regions, same_kind};
ghost use Rattle.image_link.specs.inside.Filling.{OfNames};
ghost use Rattle.image_link.specs.inside.Joining.{bytes_of, chosen, filled_at, first_tail, joined_tail, with_filled};

use crate::ends::{gap_of, kind_of, start_of};
use crate::filling::linked_bytes;
use crate::laid::LaidObject;
use i386_reloc::NormalSection;
use image_memory::{Kind, Piece, Pieces};
use ks_base::Bytes;
use std::alloc::{AllocError, Global};
use std::marker::Model;
use symbol_table::Values;

/// The bytes of a region so far: where the last section ends, so many bytes above its base, and whether there is one.
#[derive(Drop)]
struct RegionBytes {
    bytes: Vec<u8>,
    last: u32,
    length: usize,
    any: bool,
}

impl Model for RegionBytes {
    ghost use Rattle.image_link.specs.inside.Joining.{Tail, tail};

    ghost Value = { Tail };

    ghost view = { λ r. tail r.bytes.items r.last r.length r.any };
}

impl RegionBytes {
    /// A region without a section, with room for so many bytes.
    fn new(alloc: Global, kind: Kind, room: u32) -> Result<RegionBytes, AllocError>
        ensures { IfOk result (λ region. region ≡ first_tail kind) }
    {
        Ok(RegionBytes {
            bytes: Vec::with_capacity(alloc, room as usize)?,
            last: start_of(kind),
            length: 0,
            any: false,
        })
    }

    /// Adds bytes at a base, behind a gap up to there.
    #[tactic(auto, using(crate::proofs::Joins::gap_length))]
    fn add(&mut self, alloc: Global, gap: u8, base: u32, bytes: &[u8]) -> Result<(), AllocError>
        ensures { OnOk result (self.new ≡ with_filled gap self.old (filled_at base bytes.now)) }
    {
        let missing = (base.saturating_sub(self.last) as usize).saturating_sub(self.length);
        let between = vec![in alloc; gap; missing]?;
        self.bytes.extend_from_slice(between.as_slice())?;
        self.bytes.extend_from_slice(bytes)?;
        self.last = base;
        self.length = bytes.len();
        self.any = true;
        Ok(())
    }

    /// The bytes, if there is a section.
    fn into_bytes(self) -> Option<Bytes>
        ensures { result ≡ bytes_of self }
    {
        if !self.any {
            return None;
        }
        Some(Bytes::from_vec(self.bytes))
    }
}

/// The regions in ascending order.
#[tactic(auto, unfolding(crate::specs::Linked::regions))]
pub(crate) fn regions(
    alloc: Global,
    laid: &[LaidObject<'_, '_>],
    values: &Values,
) -> Result<Pieces, AllocError>
    requires { OfNames values.now.entries }
    ensures { IfOk result (λ pieces. pieces ≡ regions laid.now values.now.entries) }
{
    let mut pieces = Pieces::new(alloc);
    add_region(alloc, &mut pieces, laid, values, Kind::Code)?;
    add_region(alloc, &mut pieces, laid, values, Kind::ReadOnly)?;
    add_region(alloc, &mut pieces, laid, values, Kind::Writable)?;
    Ok(pieces)
}

/// Adds a region, unless no section goes to it.
#[tactic(auto, using(crate::proofs::Joins::region_some, crate::proofs::Joins::region_none))]
fn add_region(
    alloc: Global,
    pieces: &mut Pieces,
    laid: &[LaidObject<'_, '_>],
    values: &Values,
    kind: Kind,
) -> Result<(), AllocError>
    requires { OfNames values.now.entries }
    ensures { OnOk result (pieces.new ≡ pieces.old ++ region laid.now values.now.entries kind) }
{
    if let Some(bytes) = region_bytes(alloc, laid, values, kind)? {
        pieces.push(Piece {
            kind,
            base: start_of(kind),
            bytes,
        })?;
    }
    Ok(())
}

/// The bytes of a region, `None` where no section goes to it.
fn region_bytes(
    alloc: Global,
    laid: &[LaidObject<'_, '_>],
    values: &Values,
    kind: Kind,
) -> Result<Option<Bytes>, AllocError>
    requires { OfNames values.now.entries }
    ensures { IfOk result (λ bytes. bytes
        ≡ bytes_of (joined_tail kind (flat_map (filled_in kind values.now.entries) laid.now))) }
{
    let mut region = RegionBytes::new(alloc, kind, room_of(laid, kind))?;
    for object in laid {
        add_object(alloc, &mut region, object, values, kind)?;
    }
    Ok(region.into_bytes())
}

/// Room for the bytes of a region. It changes no byte.
fn room_of(laid: &[LaidObject<'_, '_>], kind: Kind) -> u32 {
    let mut end = start_of(kind);
    for object in laid {
        end = end_behind(object, kind, end);
    }
    end.saturating_sub(start_of(kind))
}

/// Where a region ends with an object, when it ended here before.
fn end_behind(laid: &LaidObject<'_, '_>, kind: Kind, before: u32) -> u32 {
    let object = laid.object();
    let placement = laid.placement();
    let mut end = before;
    for (section, place) in object.as_slice().iter().zip(placement.as_slice()) {
        if same_kind(kind, kind_of(section)) {
            end = place.base.saturating_add(section.size);
        }
    }
    end
}

/// Adds the sections of an object that go to a region.
#[tactic(auto, using(crate::proofs::Joins::chosen_more, crate::proofs::Joins::chosen_all))]
fn add_object(
    alloc: Global,
    region: &mut RegionBytes,
    laid: &LaidObject<'_, '_>,
    values: &Values,
    kind: Kind,
) -> Result<(), AllocError>
    requires { OfNames values.now.entries }
    ensures { OnOk result (region.new
        ≡ fold (with_filled (gap_of kind)) region.old (filled_in kind values.now.entries laid.now)) }
{
    let object = laid.object();
    let placement = laid.placement();
    for (section, place) in object.as_slice().iter().zip(placement.as_slice()) {
        add_section(alloc, region, laid, values, kind, section, place.base)?;
    }
    Ok(())
}

/// Whether two kinds are one.
fn same_kind(one: Kind, other: Kind) -> bool
    ensures { result ≡ same_kind one other }
{
    match (one, other) {
        (Kind::Code, Kind::Code) => true,
        (Kind::ReadOnly, Kind::ReadOnly) => true,
        (Kind::Writable, Kind::Writable) => true,
        _ => false,
    }
}

/// Adds a section at its base, if it goes to the region.
fn add_section(
    alloc: Global,
    region: &mut RegionBytes,
    laid: &LaidObject<'_, '_>,
    values: &Values,
    kind: Kind,
    section: &NormalSection<'_>,
    base: u32,
) -> Result<(), AllocError>
    requires { OfNames values.now.entries }
    ensures { OnOk result (region.new
        ≡ fold (with_filled (gap_of kind)) region.old (chosen kind laid.now values.now.entries section.now base)) }
{
    if !same_kind(kind, kind_of(section)) {
        return Ok(());
    }
    let bytes = linked_bytes(alloc, laid, values, section.name.as_slice())?;
    region.add(alloc, gap_of(kind), base, bytes.as_slice())
}
