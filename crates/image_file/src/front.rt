//! The header of the file: its magic bytes, its counts and the arena.
ghost use Rattle.std.specs.Prelude.{◌≡◌, ◌≤◌, IfOk, IsTrue};
ghost use Rattle.ks_base.specs.Gives.{Gives};
ghost use Rattle.image_file.specs.Fields.{field};
ghost use Rattle.image_file.specs.Rules.{magic_rules, arena_low_rules, arena_high_rules};
ghost use Rattle.image_file.specs.Keeps.{all_hold, keeps_arena};
ghost use Rattle.image_file.specs.Reading.{header_at};

use crate::bounds::{MAGIC, MEMORY_LIMIT, is_aligned, is_arena_placed};
use crate::numbers::{count_of, number_of};
use ks_base::{ImageFault, Range, Refusal};

/// The offset of the magic bytes.
const MAGIC_OFFSET: u32 = 0;

/// The offset of the number of regions.
const REGIONS_OFFSET: u32 = 4;

/// The offset of the number of symbols.
const SYMBOLS_OFFSET: u32 = 8;

/// The offset of the number of stacks.
const STACKS_OFFSET: u32 = 12;

/// The offset of the arena's low bound.
const ARENA_LOW_OFFSET: u32 = 16;

/// The offset of the arena's high bound.
const ARENA_HIGH_OFFSET: u32 = 20;

/// The header has so many bytes.
pub(crate) const HEADER_LENGTH: u32 = 24;

/// A file has at most so many regions.
const REGIONS_LIMIT: u32 = 1024;

/// A file has at most so many symbols.
const SYMBOLS_LIMIT: u32 = 65_536;

/// A file has at most so many stacks.
const STACKS_LIMIT: u32 = 64;

/// What stands before the regions.
#[derive(Clone, Copy)]
pub(crate) struct Header {
    pub(crate) regions: u32,
    pub(crate) symbols: u32,
    pub(crate) stacks: u32,
    pub(crate) arena: Range,
}

/// The header of a file.
#[tactic(auto, unfolding(crate::specs::Reading::header_at))]
pub(crate) fn header_of(bytes: &[u8]) -> Result<Header, Refusal>
    ensures exact { Gives (λ header. header) result (header_at bytes.now) }
    ensures regions { IfOk result (λ header. header.regions ≤ 1024) }
    ensures symbols { IfOk result (λ header. header.symbols ≤ 65536) }
    ensures stacks { IfOk result (λ header. header.stacks ≤ 64) }
    ensures arena { IfOk result (λ header. IsTrue (keeps_arena header.arena)) }
{
    magic_of(bytes)?;
    let regions = count_of(bytes, REGIONS_OFFSET, REGIONS_LIMIT)?;
    let symbols = count_of(bytes, SYMBOLS_OFFSET, SYMBOLS_LIMIT)?;
    let stacks = count_of(bytes, STACKS_OFFSET, STACKS_LIMIT)?;
    let low = arena_low_of(bytes)?;
    let high = arena_high_of(bytes, low)?;
    Ok(Header {
        regions,
        symbols,
        stacks,
        arena: Range { low, high },
    })
}

fn magic_of(bytes: &[u8]) -> Result<u32, Refusal>
    ensures { Gives (λ n. n) result (field bytes.now 0 magic_rules) }
{
    let magic = number_of(bytes, MAGIC_OFFSET)?;
    if magic != MAGIC {
        return Err(Refusal::BadImage(MAGIC_OFFSET, ImageFault::Magic));
    }
    Ok(magic)
}

fn arena_low_of(bytes: &[u8]) -> Result<u32, Refusal>
    ensures exact { Gives (λ n. n) result (field bytes.now 16 arena_low_rules) }
    ensures kept { IfOk result (λ n. IsTrue (all_hold (arena_low_rules n))) }
{
    let low = number_of(bytes, ARENA_LOW_OFFSET)?;
    if !is_aligned(low) {
        return Err(Refusal::BadImage(ARENA_LOW_OFFSET, ImageFault::Range));
    }
    Ok(low)
}

fn arena_high_of(bytes: &[u8], low: u32) -> Result<u32, Refusal>
    ensures exact { Gives (λ n. n) result (field bytes.now 20 (arena_high_rules low)) }
    ensures kept { IfOk result (λ n. IsTrue (all_hold (arena_high_rules low n))) }
{
    let high = number_of(bytes, ARENA_HIGH_OFFSET)?;
    if high.saturating_sub(low) > MEMORY_LIMIT {
        return Err(Refusal::BadImage(ARENA_HIGH_OFFSET, ImageFault::Limit));
    }
    if !is_aligned(high) {
        return Err(Refusal::BadImage(ARENA_HIGH_OFFSET, ImageFault::Range));
    }
    if low > high {
        return Err(Refusal::BadImage(ARENA_HIGH_OFFSET, ImageFault::Range));
    }
    if !is_arena_placed(low, high) {
        return Err(Refusal::BadImage(ARENA_HIGH_OFFSET, ImageFault::Range));
    }
    Ok(high)
}
