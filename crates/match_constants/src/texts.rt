//! Texts in read-only memory. They are compared from their ends, and what is known of one text before an address goes
//! for all that share it, so that each byte before an address is found equal once.
ghost use Rattle.std.specs.Prelude.{◌≡◌, ◌≤◌, ◌+◌, ◌-◌, suc, ℕ, List, length, take, drop};
ghost use Rattle.std.specs.Ordering.{nat_cmp};
ghost use Rattle.std.specs.BTreeMap.{get};
ghost use Rattle.i386_reloc.specs.declared.types.NormalSection.{NormalSection};
ghost use Rattle.i386_reloc.specs.Places.{bytes_at};
ghost use Rattle.image_memory.specs.declared.types.Piece.{Piece};
ghost use Rattle.match_constants.specs.Constants.{stand_at};
ghost use Rattle.match_constants.specs.Endings.{AreEndings};
ghost use Rattle.match_constants.specs.Texts.{StandBefore, IsKnown, AreKnown};
ghost use Rattle.match_constants.specs.inside.Texts.{StandFor};

use crate::constants::constant_at;
use crate::endings::{End, Endings, bytes_at};
use i386_reloc::Normal;
use image_memory::Space;
use std::alloc::Global;
use std::collections::BTreeMap;

/// How many bytes before an end of a text of the object are known to stand before an address.
#[derive(Clone, Copy, PartialEq, Eq)]
pub(crate) struct Known {
    pub(crate) end: End,
    pub(crate) count: usize,
}

/// What is known of the texts of one object in one memory: for each address at which one was looked for, how many bytes
/// before an end stand before it. It grows as texts are looked for, and is good for that object and that memory alone.
#[derive(Drop)]
pub struct KnownTexts {
    pub(crate) before: BTreeMap<u64, Known>,
}

impl KnownTexts {
    /// Nothing is known yet.
    pub fn new(alloc: Global) -> Self
        ensures { (object : List NormalSection) (pieces : List Piece) → AreKnown object pieces result }
    {
        KnownTexts {
            before: BTreeMap::new(alloc),
        }
    }
}

/// Where a text stands in an object: in which section, from which of its bytes on, and how many bytes it has.
#[derive(Clone, Copy, PartialEq, Eq)]
pub struct TextPlace {
    /// The place of the section among the object's sections.
    pub place: usize,
    /// Where the text begins in it, in bytes.
    pub offset: usize,
    /// How many bytes it has, the zero with them.
    pub len: usize,
}

/// How many bytes before an end stand in read-only memory before an address, at most `bound`. So many as are known to
/// stand aren't compared again.
fn agreement<S: Space>(
    space: &S,
    bytes: &[u8],
    end: usize,
    address: u64,
    known: usize,
    bound: usize,
) -> usize
    requires end { end ≤ length bytes.now }
    requires in_bytes { bound ≤ end }
    requires in_memory { bound ≤ address }
    requires few { known ≤ bound }
    requires stand { StandBefore (S.contents space.now).pieces bytes.now end address known }
    ensures { StandFor (S.contents space.now).pieces bytes.now end address bound result }
{
    for count in known..bound {
        if constant_at(space, address - 1 - count as u64) != Some(bytes[end - 1 - count]) {
            return count;
        }
    }
    bound
}

/// What is known of an address.
fn known_at(known: &KnownTexts, address: u64) -> Option<Known>
    ensures { result ≡ get nat_cmp known.now.before address }
{
    known.before.get(&address).copied()
}

/// How many bytes before an end stand, by what is known of another end before the same address.
#[tactic(auto, using(crate::proofs::Shared::stand_shared, crate::proofs::Shared::stand_same))]
fn known_by(endings: &Endings, best: Known, end: End) -> usize
    ensures { (object : List NormalSection) (pieces : List Piece) (address : ℕ) → AreEndings object endings.now
        → IsKnown object pieces address best → IsKnown object pieces address (record { end = end; count = result }) }
{
    if best.end == end {
        return best.count;
    }
    best.count.min(endings.shared(best.end, end))
}

/// How many bytes before an end are known to stand before an address.
#[tactic(auto, using(crate::proofs::Ends::none_stand))]
fn known_before(known: &KnownTexts, endings: &Endings, end: End, address: u64) -> usize
    ensures { (object : List NormalSection) (pieces : List Piece) → AreEndings object endings.now
        → AreKnown object pieces known.now → IsKnown object pieces address (record { end = end; count = result }) }
{
    match known_at(known, address) {
        Some(best) => known_by(endings, best, end),
        None => 0,
    }
}

/// Whether so many bytes are more than are known to stand before an address.
fn is_more(known: &KnownTexts, address: u64, count: usize) -> bool {
    match known_at(known, address) {
        Some(best) => best.count < count,
        None => true,
    }
}

/// Keeps how many bytes before an end stand before an address. If memory runs out nothing is kept, and only time is
/// lost.
fn keep(known: &mut KnownTexts, address: u64, now: Known)
    ensures { (object : List NormalSection) (pieces : List Piece) → AreKnown object pieces known.old
        → IsKnown object pieces address now → AreKnown object pieces known.new }
{
    let _kept = known.before.insert(address, now);
}

/// Keeps how many bytes before an end stand before an address, if they are more than are known to.
fn keep_most(known: &mut KnownTexts, address: u64, now: Known)
    ensures { (object : List NormalSection) (pieces : List Piece) → AreKnown object pieces known.old
        → IsKnown object pieces address now → AreKnown object pieces known.new }
{
    if !is_more(known, address, now.count) {
        return;
    }
    keep(known, address, now);
}

/// Whether a text of an object, so many bytes from an offset of the section at a place on, stands in read-only memory
/// at an address. What is known of the object's texts in this memory saves looking at bytes again, and more is known
/// afterwards.
pub fn text_stands<S: Space>(
    space: &S,
    known: &mut KnownTexts,
    endings: &Endings,
    normal: &Normal<'_>,
    text: TextPlace,
    value: u32,
) -> bool
    requires within { text.offset + text.len ≤ length (bytes_at normal.now text.place) }
    requires endings { AreEndings normal.now endings.now }
    requires known { AreKnown normal.now (S.contents space.now).pieces known.old }
    ensures stands { result ≡ stand_at (S.contents space.now).pieces value
        (take text.len (drop text.offset (bytes_at normal.now text.place))) text.len }
    ensures known { AreKnown normal.now (S.contents space.now).pieces known.new }
{
    let bytes = bytes_at(normal, text.place);
    let end = End {
        place: text.place,
        end: text.offset + text.len,
    };
    let address = value as u64 + text.len as u64;
    let before = known_before(known, endings, end, address);
    if text.len <= before {
        return true;
    }
    let count = agreement(space, bytes, end.end, address, before, text.len);
    keep_most(known, address, Known { end, count });
    count == text.len
}
