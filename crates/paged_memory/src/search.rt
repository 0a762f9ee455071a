//! Finding a page by halving.
ghost use Rattle.std.specs.Prelude.{◌≡◌, ◌+◌, ◌-◌, ◌*◌, ◌≤◌, ◌<◌, ◌^◌, length, MatchResult, MatchOption, IsTrue};
ghost use Rattle.std.specs.Bool.{MatchBool};
ghost use Rattle.image_memory.specs.Ranges.{Ascends};
ghost use Rattle.paged_memory.specs.Pages.{page_range, IsHome, IsGap, IsNowhere};
ghost use Rattle.paged_memory.specs.inside.Missing.{is_missing};
ghost use Rattle.paged_memory.specs.inside.Opening.{IsPlaceOf};

use crate::steps::Steps;
use crate::types::Page;
use std::sync::ledger::Ledger;

/// The place of the page of a number among pages in ascending order; `Err` with the place that it would have.
pub(crate) fn place<L: Ledger>(
    pages: &[Page],
    number: u32,
    steps: &mut Steps<L>,
) -> Result<usize, usize>
    requires { Ascends page_range 0 pages.now }
    ensures found { MatchResult result (IsHome pages.now number) (IsGap pages.now number) }
    ensures rise { steps.old ≤ steps.new }
    ensures cost { 2 ^ (steps.new - steps.old) ≤ 2 * length pages.now + 1 }
{
    let mut low = 0;
    let mut high = pages.len();
    while low < high {
        let middle = low + (high - low) / 2;
        let here = number_of(&pages[middle], steps);
        if here < number {
            low = middle + 1;
        } else if number < here {
            high = middle;
        } else {
            return Ok(middle);
        }
    }
    Err(low)
}

/// The place of the page of a number, or the one that it would have: with no step counted.
pub(crate) fn place_of(pages: &[Page], number: u32) -> usize
    requires { Ascends page_range 0 pages.now }
    ensures { IsPlaceOf pages.now number result }
{
    pages.partition_point(|page| page.number < number)
}

/// The place of the page of a number; `None` where no page has it.
pub(crate) fn home_of(pages: &[Page], number: u32) -> Option<usize>
    requires { Ascends page_range 0 pages.now }
    ensures { MatchOption result (IsNowhere pages.now number) (IsHome pages.now number) }
{
    let at = place_of(pages, number);
    if is_at(pages, at, number) {
        Some(at)
    } else {
        None
    }
}

/// Whether the page at a place has a number.
#[inline(always)]
pub(crate) fn has_number(pages: &[Page], at: usize, number: u32) -> bool
    ensures { IsTrue result → IsHome pages.now number at }
{
    at < pages.len() && pages[at].number == number
}

/// Whether the page at the place of a number has it; else none does.
pub(crate) fn is_at(pages: &[Page], at: usize, number: u32) -> bool
    requires ascend { Ascends page_range 0 pages.now }
    requires place { IsPlaceOf pages.now number at }
    ensures { MatchBool result (IsHome pages.now number at) (IsGap pages.now number at) }
{
    at < pages.len() && pages[at].number == number
}

/// Whether no page has a number.
pub(crate) fn is_missing(pages: &[Page], number: u32) -> bool
    requires { Ascends page_range 0 pages.now }
    ensures { result ≡ is_missing pages.now number }
{
    home_of(pages, number).is_none()
}

/// The number of a page, which is compared: a step.
fn number_of<L: Ledger>(page: &Page, steps: &mut Steps<L>) -> u32
    ensures number { result ≡ page.now.number }
    ensures step { steps.new ≡ steps.old + 1 }
{
    steps.tick();
    page.number
}
