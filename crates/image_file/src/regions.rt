//! The regions of memory.
ghost use Rattle.std.specs.Prelude.{◌≡◌, ◌≤◌, ◌+◌, ◌*◌, ◌<◌, ◌^◌, IfOk, IsTrue, length, []};
ghost use Rattle.std.specs.List.{All};
ghost use Rattle.image_memory.specs.Contents.{ArePlaced, piece_range};
ghost use Rattle.ks_base.specs.Gives.{Gives};
ghost use Rattle.image_file.specs.Fields.{field, items_at};
ghost use Rattle.image_file.specs.Rules.{region_kind_rules, region_kind, base_rules, length_rules, total_of};
ghost use Rattle.image_file.specs.Keeps.{all_hold, keeps_region};
ghost use Rattle.image_file.specs.Reading.{region_after, region_at, region_width};

use crate::bounds::{LOWEST, MEMORY_LIMIT};
use crate::front::HEADER_LENGTH;
use crate::numbers::{content_of, number_of};
use image_memory::{END_LIMIT, Kind, Piece, Pieces, meets};
use ks_base::{Bytes, ImageFault, Range, Refusal};
use std::alloc::Global;

/// The offset of a region's base, after its kind.
const BASE_OFFSET: u32 = 4;

/// The offset of the number of its bytes.
const LENGTH_OFFSET: u32 = 8;

/// The offset of its bytes.
const BYTES_OFFSET: u32 = 12;

/// The regions of a file, and the offset after them.
pub(crate) fn regions_of(
    alloc: Global,
    bytes: &[u8],
    count: u32,
    arena: Range,
) -> Result<(Pieces, u32), Refusal>
    requires { count ≤ 1024 }
    ensures exact { Gives (λ x. (x.0, x.1)) result
        (items_at count (region_at bytes.now arena) region_width [] 24) }
    ensures placed { IfOk result (λ x. ArePlaced x.0) }
    ensures within { IfOk result (λ x. x.1 ≤ 17000000) }
    ensures count { IfOk result (λ x. length x.0 ≡ count) }
    ensures kept { IfOk result (λ x. All (λ piece. IsTrue (keeps_region arena piece)) x.0) }
    ensures fit { IfOk result (λ x. total_of piece_range x.0 ≤ 16777216) }
{
    let mut pieces = Pieces::new(alloc);
    let mut floor = 0;
    let mut total = 0;
    let mut offset = HEADER_LENGTH;
    for _ in 0..count {
        let piece = region_of(alloc, bytes, arena, floor, total, offset)?;
        let length = piece.bytes.len() as u32;
        floor = piece.base + length;
        total += length;
        offset += BYTES_OFFSET + length;
        pieces.push(piece)?;
    }
    Ok((pieces, offset))
}

/// The region at an offset, where those before it end at `floor` and have `total` bytes.
#[tactic(auto, unfolding(crate::specs::Reading::region_after))]
fn region_of(
    alloc: Global,
    bytes: &[u8],
    arena: Range,
    floor: u32,
    total: u32,
    offset: u32,
) -> Result<Piece, Refusal>
    requires place { offset ≤ 17000000 }
    requires small { total ≤ 16777216 }
    ensures exact { Gives (λ piece. piece) result (region_after bytes.now arena floor total offset) }
    ensures some { IfOk result (λ piece. 0 < length piece.bytes) }
    ensures sum { IfOk result (λ piece. total + length piece.bytes ≤ 16777216) }
    ensures end { IfOk result (λ piece. piece.base + length piece.bytes ≤ 0xFFFF_0000) }
    ensures above { IfOk result (λ piece. floor ≤ piece.base) }
    ensures kept { IfOk result (λ piece. IsTrue (keeps_region arena piece)) }
{
    let kind = kind_number_of(bytes, offset)?;
    let base = base_of(bytes, offset + BASE_OFFSET)?;
    let length = length_of(bytes, offset + LENGTH_OFFSET, arena, floor, total, base)?;
    let content = content_of(bytes, offset + BYTES_OFFSET, length)?;
    Ok(Piece {
        kind: region_kind(kind),
        base,
        bytes: Bytes::from_slice(alloc, content)?,
    })
}

fn kind_number_of(bytes: &[u8], offset: u32) -> Result<u32, Refusal>
    requires { offset < 2 ^ 31 }
    ensures { Gives (λ n. n) result (field bytes.now offset region_kind_rules) }
{
    let number = number_of(bytes, offset)?;
    if number < 1 || number > 3 {
        return Err(Refusal::BadImage(offset, ImageFault::Kind));
    }
    Ok(number)
}

fn region_kind(number: u32) -> Kind
    ensures { result ≡ region_kind number }
{
    match number {
        1 => Kind::Code,
        2 => Kind::ReadOnly,
        _ => Kind::Writable,
    }
}

fn base_of(bytes: &[u8], offset: u32) -> Result<u32, Refusal>
    requires { offset < 2 ^ 31 }
    ensures exact { Gives (λ n. n) result (field bytes.now offset base_rules) }
    ensures kept { IfOk result (λ n. IsTrue (all_hold (base_rules n))) }
{
    let base = number_of(bytes, offset)?;
    if base < LOWEST {
        return Err(Refusal::BadImage(offset, ImageFault::Range));
    }
    Ok(base)
}

fn length_of(
    bytes: &[u8],
    offset: u32,
    arena: Range,
    floor: u32,
    total: u32,
    base: u32,
) -> Result<u32, Refusal>
    requires place { offset < 2 ^ 31 }
    requires small { total ≤ 16777216 }
    ensures exact { Gives (λ n. n) result (field bytes.now offset (length_rules arena floor total base)) }
    ensures some { IfOk result (λ n. 0 < n) }
    ensures sum { IfOk result (λ n. total + n ≤ 16777216) }
    ensures end { IfOk result (λ n. base + n ≤ 0xFFFF_0000) }
    ensures above { IfOk result (λ n. floor ≤ base) }
    ensures kept { IfOk result (λ n. IsTrue (all_hold (length_rules arena 0 0 base n))) }
{
    let length = number_of(bytes, offset)?;
    if length < 1 {
        return Err(Refusal::BadImage(offset, ImageFault::Limit));
    }
    if length > MEMORY_LIMIT - total {
        return Err(Refusal::BadImage(offset, ImageFault::Limit));
    }
    if u64::from(base) + u64::from(length) > u64::from(END_LIMIT) {
        return Err(Refusal::BadImage(offset, ImageFault::Range));
    }
    if base < floor {
        return Err(Refusal::BadImage(offset, ImageFault::Order));
    }
    let (low, high) = (base, base + length);
    if meets(Range { low, high }, arena) {
        return Err(Refusal::BadImage(offset, ImageFault::Order));
    }
    Ok(length)
}
