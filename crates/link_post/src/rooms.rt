//! Room for a section among free ranges.
ghost use Rattle.std.specs.Prelude.{◌≡◌, ◌++◌, ◌<◌, ◌≤◌, ◌^◌, ◌+◌, take, drop};
ghost use Rattle.std.specs.Prelude.{true, Some, length, position, IfOk, OnOk};
ghost use Rattle.image_memory.specs.Ranges.{from_to};
ghost use Rattle.link_post.specs.Places.{round_up, start_in, unless_empty};
ghost use Rattle.link_post.specs.inside.Rooms.{fits, first_start, after_first};

use crate::types::SectionSize;
use ks_base::Range;
use std::alloc::AllocError;

/// No section begins at an address that isn't a multiple of this.
pub(crate) const LEAST_BOUNDARY: u32 = 16;

/// The lowest multiple of a unit at or above an address.
#[tactic(auto, using(crate::proofs::Rounding::rounded))]
pub fn round_up(address: u32, unit: u32) -> u64
    requires { 0 < unit }
    ensures value { result ≡ round_up address unit }
    ensures bound { result < 2 ^ 34 }
{
    let unit = u64::from(unit);
    (u64::from(address) + (unit - 1)) / unit * unit
}

/// The lowest address of a range at which a section may begin, or one above the range.
fn start_in(section: &SectionSize, range: &Range) -> u64
    ensures start { result ≡ start_in section.now range.now }
    ensures bound { result < 2 ^ 34 }
{
    round_up(range.low, section.align.max(LEAST_BOUNDARY))
}

/// Whether a section fits in a range.
pub(crate) fn fits(section: &SectionSize, range: &Range) -> bool
    ensures { result ≡ fits section.now range.now }
{
    start_in(section, range) + u64::from(section.size) <= u64::from(range.high)
}

/// Which of the ranges is the first in which a section fits.
fn first_fitting(free: &[Range], section: &SectionSize) -> Option<usize>
    ensures { result ≡ position (fits section.now) free.now }
{
    free.iter().position(|range| fits(section, range))
}

/// Puts a range at an index, where it isn't empty.
fn put_at(free: &mut Vec<Range>, i: usize, low: u32, high: u32) -> Result<(), AllocError>
    requires { i ≤ length free.old.items }
    ensures { OnOk result (free.new.items
        ≡ take i free.old.items ++ unless_empty (from_to low high) ++ drop i free.old.items) }
{
    if low < high {
        free.insert(i, Range { low, high })?;
    }
    Ok(())
}

/// Where a section begins in a range in which it fits.
fn base_in(section: &SectionSize, range: Range) -> u32
    requires { fits section.now range ≡ true }
    ensures start { result ≡ start_in section.now range }
    ensures bound { result + section.now.size ≤ range.high }
{
    start_in(section, &range) as u32
}

/// Takes the room of a section from range `i`, the first in which it fits. What is left of the range takes its place.
fn take_at(free: &mut Vec<Range>, i: usize, section: &SectionSize) -> Result<u32, AllocError>
    requires { position (fits section.now) free.old.items ≡ Some i }
    ensures start { IfOk result (λ base. first_start section.now free.old.items ≡ Some base) }
    ensures left { OnOk result (free.new.items ≡ after_first section.now free.old.items) }
{
    let range = free[i];
    let base = base_in(section, range);
    if section.size > 0 {
        free.remove(i);
        put_at(free, i, base + section.size, range.high)?;
        put_at(free, i, range.low, base)?;
    }
    Ok(base)
}

/// Takes the room of a section from the first range in which it fits; `None` where there is none.
#[tactic(auto, using(crate::proofs::Fitting::nowhere_start, crate::proofs::Fitting::nowhere_left))]
pub(crate) fn take_room(
    free: &mut Vec<Range>,
    section: &SectionSize,
) -> Result<Option<u32>, AllocError>
    ensures start { IfOk result (λ base. base ≡ first_start section.now free.old.items) }
    ensures left { OnOk result (free.new.items ≡ after_first section.now free.old.items) }
{
    match first_fitting(free.as_slice(), section) {
        Some(i) => Ok(Some(take_at(free, i, section)?)),
        None => Ok(None),
    }
}
