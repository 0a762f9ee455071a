//! Free ranges in blocks, so that those without room for a section are passed at once.
ghost use Rattle.std.specs.Prelude.{◌≡◌, ◌<◌, map, IfOk, IfSome};
ghost use Rattle.link_post.specs.inside.Blocks.{boundaries, room_in, most_room, has_fit};

use crate::rooms::{LEAST_BOUNDARY, fits, round_up};
use crate::types::SectionSize;
use ks_base::Range;
use std::alloc::{AllocError, Global};

/// The boundaries that sections have.
const BOUNDARIES: [u32; 9] = [16, 32, 64, 128, 256, 512, 1_024, 2_048, 4_096];

/// Ranges that follow one another, and for each boundary the most room at a multiple of it that one of them has.
#[derive(Drop)]
pub(crate) struct Block {
    ranges: Vec<Range>,
    limits: Vec<u32>,
    ghost limited: { limits.items ≡ map (most_room ranges.items) boundaries },
}

impl Block {
    pub(crate) fn new(alloc: Global, ranges: Vec<Range>) -> Result<Block, AllocError>
        ensures { IfOk result (λ block. block.ranges.items ≡ ranges.items) }
    {
        let mut limits = Vec::new(alloc);
        for unit in &BOUNDARIES {
            limits.push(most_room(ranges.as_slice(), *unit))?;
        }
        Ok(Block { ranges, limits })
    }

    pub(crate) fn into_ranges(self) -> Vec<Range>
        ensures { result.items ≡ self.ranges.items }
    {
        self.ranges
    }

    /// The most room at a boundary, `None` where it isn't kept.
    fn limit(&self, unit: u32) -> Option<u32>
        ensures { IfSome result (λ limit. limit ≡ most_room self.now.ranges.items unit) }
    {
        let k = BOUNDARIES.iter().position(|boundary| *boundary == unit)?;
        self.limits.as_slice().get(k).copied()
    }

    /// Whether a section fits in one of the ranges.
    pub(crate) fn has_fit(&self, section: &SectionSize) -> bool
        ensures { result ≡ has_fit section.now self.now.ranges.items }
    {
        if let Some(limit) = self.limit(section.align.max(LEAST_BOUNDARY)) {
            if limit < section.size {
                return false;
            }
        }
        self.ranges.iter().any(|range| fits(section, range))
    }
}

/// How many bytes of a range lie at or above its first multiple of a boundary.
#[tactic(auto, unfolding(crate::specs::inside::Blocks::room_in))]
fn room_in(unit: u32, range: &Range) -> u32
    requires { 0 < unit }
    ensures { result ≡ room_in unit range.now }
{
    u64::from(range.high).saturating_sub(round_up(range.low, unit)) as u32
}

/// The most of some ranges.
fn most_room(ranges: &[Range], unit: u32) -> u32
    requires { 0 < unit }
    ensures { result ≡ most_room ranges.now unit }
{
    let mut most = 0;
    for range in ranges {
        most = most.max(room_in(unit, range));
    }
    most
}
