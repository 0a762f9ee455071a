//! How many pages pieces to come need that aren't there.
ghost use Rattle.std.specs.Prelude.{◌≡◌, ◌<◌, ◌++◌, ℕ, length, IfOk, OnOk};
ghost use Rattle.std.specs.List.{All, Contains, filter, flat_map};
ghost use Rattle.std.specs.List.Sorted.{IsStrictlyIncreasing};
ghost use Rattle.image_memory.specs.Ranges.{Ascends};
ghost use Rattle.image_memory.specs.Changes.{IsPlaceable};
ghost use Rattle.paged_memory.specs.Pages.{page_range};
ghost use Rattle.paged_memory.specs.inside.Missing.{is_missing, missing, numbers_in};

use crate::search::is_missing;
use crate::types::Page;
use ks_base::Range;
use std::alloc::{AllocError, Global};

/// How many pages ranges need that aren't there, each counted once. `Err` comes only if memory runs out.
pub(crate) fn count_missing(
    alloc: Global,
    ranges: &[Range],
    pages: &[Page],
) -> Result<usize, AllocError>
    requires placeable { All IsPlaceable ranges.now }
    requires ascend { Ascends page_range 0 pages.now }
    ensures { IfOk result (λ count. count ≡ missing ranges.now pages.now) }
{
    let numbers = each_once(page_numbers(alloc, ranges)?);
    Ok(missing_among(numbers.as_slice(), pages))
}

/// The numbers of the pages of which ranges have an address, one range after the other.
fn page_numbers(alloc: Global, ranges: &[Range]) -> Result<Vec<u32>, AllocError>
    requires { All IsPlaceable ranges.now }
    ensures { IfOk result (λ numbers. numbers.items ≡ flat_map numbers_in ranges.now) }
{
    let mut numbers = Vec::new(alloc);
    for range in ranges {
        push_numbers(&mut numbers, *range)?;
    }
    Ok(numbers)
}

/// Puts the numbers of a range's pages behind others.
fn push_numbers(numbers: &mut Vec<u32>, range: Range) -> Result<(), AllocError>
    requires { range.low < range.high }
    ensures { OnOk result (numbers.new.items ≡ numbers.old.items ++ numbers_in range) }
{
    let low = range.low / 4096;
    let end = (range.high - 1) / 4096 + 1;
    for number in low..end {
        numbers.push(number)?;
    }
    Ok(())
}

/// Numbers in ascending order, each once.
fn each_once(mut numbers: Vec<u32>) -> Vec<u32>
    ensures rise { IsStrictlyIncreasing result.items }
    ensures has { (number : ℕ) → Contains numbers.items number → Contains result.items number }
    ensures only { (number : ℕ) → Contains result.items number → Contains numbers.items number }
{
    numbers.sort_unstable();
    numbers.dedup();
    numbers
}

/// How many of some numbers no page has.
fn missing_among(numbers: &[u32], pages: &[Page]) -> usize
    requires { Ascends page_range 0 pages.now }
    ensures { result ≡ length (filter (is_missing pages.now) numbers.now) }
{
    numbers
        .iter()
        .filter(|number| is_missing(pages, **number))
        .count()
}
