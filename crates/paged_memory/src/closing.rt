//! What is left of extents when one goes, and of the pages that know of it.
ghost use Rattle.std.specs.Prelude.{◌≡◌, ◌+◌, ◌≤◌, ◌<◌, length, map, vec_len, vec_capacity};
ghost use Rattle.std.specs.List.{Any, AllWithin};
ghost use Rattle.image_memory.specs.Ranges.{Ascends};
ghost use Rattle.paged_memory.specs.Pages.{extent_range, page_range, page_low, uncounting};
ghost use Rattle.paged_memory.specs.inside.Closing.{IsTaken, IsCounted, closed};

use crate::blocks::PAGE_LENGTH;
use crate::extents::begun;
use crate::types::{Extent, Page};

/// Takes the extent out that begins at a base.
pub(crate) fn take_extent(extents: &mut Vec<Extent>, base: u32) -> Extent
    requires ascend { Ascends extent_range 0 extents.old.items }
    requires there { Any (λ e. e.base ≡ base) extents.old.items }
    ensures { IsTaken extents.old.items extents.new.items base result }
{
    let at = begun(extents.as_slice(), u64::from(base));
    extents.remove(at)
}

/// Uncounts an extent that was taken, and drops the pages in which no other has a byte. The pages before `first` end at
/// or below it.
pub(crate) fn close_pages(pages: &mut Vec<Page>, first: usize, extent: Extent)
    requires first { first ≤ vec_len pages.old }
    requires below { AllWithin (λ page. (page_range page).high ≤ extent.base) pages.old.items 0 first }
    requires some { 0 < extent.length }
    requires counted { IsCounted extent pages.old.items }
    ensures items { pages.new.items ≡ closed extent pages.old.items }
    ensures len { vec_len pages.new ≤ vec_len pages.old }
    ensures capacity { vec_capacity pages.new ≡ vec_capacity pages.old }
{
    uncount_extent(pages.as_mut_slice(), first, extent);
    pages.retain(|page| page.first < page.last);
}

/// Uncounts an extent that was taken in each page.
fn uncount_extent(pages: &mut [Page], first: usize, extent: Extent)
    requires first { first ≤ length pages.old }
    requires below { AllWithin (λ page. (page_range page).high ≤ extent.base) pages.old 0 first }
    requires some { 0 < extent.length }
    requires counted { IsCounted extent pages.old }
    ensures { pages.new ≡ map (uncounting extent) pages.old }
{
    let mut i = first;
    while i < pages.len() {
        pages[i].uncount(extent);
        i += 1;
    }
}

impl Page {
    /// Uncounts an extent that was taken.
    fn uncount(&mut self, extent: Extent)
        requires first { (extent_range extent).high ≤ page_low self.old → 0 < self.old.first }
        requires last { extent.base < page_low self.old + 4096 → 0 < self.old.last }
        ensures { self.new ≡ uncounting extent self.old }
    {
        let low = self.low();
        if extent.end() <= low {
            self.first -= 1;
        }
        if u64::from(extent.base) < low + PAGE_LENGTH as u64 {
            self.last -= 1;
        }
    }
}
