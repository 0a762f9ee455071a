//! Ranges with what makes it quick to say how many of them a range meets.
ghost use Rattle.std.specs.Prelude.{◌≡◌, ◌≤◌, nat_lt, IfOk};
ghost use Rattle.std.specs.List.Sorted.{IsNonDecreasing, IsPermutation, IsSorted};
ghost use Rattle.std.specs.Ordering.{nat_cmp};
ghost use Rattle.image_memory.specs.Ranges.{meets};
ghost use Rattle.update_retired.specs.inside.Counts.{AreCounted, highs_of, how_many, lows_of};

use ks_base::Range;
use std::alloc::{AllocError, Global};
use std::marker::Model;

/// Ranges with the lows and the highs, each ascending, of those that aren't empty. Contracts see the ranges.
#[derive(Drop)]
pub(crate) struct Bounds<'a> {
    ranges: &'a [Range],
    lows: Vec<u32>,
    highs: Vec<u32>,
}

impl<'a> Model for Bounds<'a> {
    ghost use Rattle.std.specs.Prelude.{◌≡◌, List};
    ghost use Rattle.std.specs.List.Sorted.{IsNonDecreasing};
    ghost use Rattle.ks_base.specs.declared.places.Range.{Range};
    ghost use Rattle.update_retired.specs.inside.Counts.{AreCounted, highs_of, lows_of};

    ghost Value = { List Range };

    ghost view = { λ b. b.ranges.now };

    ghost invariant = { λ b. IsNonDecreasing b.lows.items × IsNonDecreasing b.highs.items
        × AreCounted (lows_of b.ranges.now) b.lows.items × AreCounted (highs_of b.ranges.now) b.highs.items };
}

impl<'a> Bounds<'a> {
    /// These ranges. `Err` comes only if memory runs out.
    pub(crate) fn new(alloc: Global, ranges: &'a [Range]) -> Result<Self, AllocError>
        ensures { IfOk result (λ bounds. bounds ≡ ranges.now) }
    {
        Ok(Bounds {
            ranges,
            lows: ascending(lows_of(alloc, ranges)?)?,
            highs: ascending(highs_of(alloc, ranges)?)?,
        })
    }

    /// At most how many of the ranges a range meets: those that begin below its end, but for those that end at or
    /// below its beginning. They are counted by halving.
    pub(crate) fn most_met(&self, range: Range) -> usize
        ensures { how_many (meets range) self.now ≤ result }
    {
        let begun = below(self.lows.as_slice(), u64::from(range.high));
        let over = below(self.highs.as_slice(), u64::from(range.low) + 1);
        begun.saturating_sub(over)
    }
}

/// The lows of the ranges that aren't empty.
fn lows_of(alloc: Global, ranges: &[Range]) -> Result<Vec<u32>, AllocError>
    ensures { IfOk result (λ lows. lows.items ≡ lows_of ranges.now) }
{
    ranges
        .iter()
        .filter(|range| range.low < range.high)
        .map(|range| range.low)
        .collect(alloc)
}

/// Their highs.
fn highs_of(alloc: Global, ranges: &[Range]) -> Result<Vec<u32>, AllocError>
    ensures { IfOk result (λ highs. highs.items ≡ highs_of ranges.now) }
{
    ranges
        .iter()
        .filter(|range| range.low < range.high)
        .map(|range| range.high)
        .collect(alloc)
}

/// Numbers in ascending order. Runs of them that ascend already are kept, and merged. `Err` comes only if memory runs
/// out.
fn ascending(mut numbers: Vec<u32>) -> Result<Vec<u32>, AllocError>
    ensures rise { IfOk result (λ sorted. IsSorted nat_cmp sorted.items) }
    ensures same { IfOk result (λ sorted. IsPermutation numbers.items sorted.items) }
{
    numbers.sort()?;
    Ok(numbers)
}

/// How many of ascending numbers are below a bound.
fn below(numbers: &[u32], bound: u64) -> usize
    requires { IsNonDecreasing numbers.now }
    ensures { result ≡ how_many (λ n. nat_lt n bound) numbers.now }
{
    numbers.partition_point(|n| u64::from(*n) < bound)
}
