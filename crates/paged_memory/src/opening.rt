//! New pages among those that there are, and what pages know of an extent that comes.
ghost use Rattle.std.specs.Prelude.{◌≡◌, ◌+◌, ◌-◌, ◌/◌, ◌≤◌, ◌<◌, ◌^◌, List, [], ◌∷◌, length, map};
ghost use Rattle.std.specs.Prelude.{vec_len, vec_capacity};
ghost use Rattle.std.specs.List.{All, AllWithin, Contains};
ghost use Rattle.ks_base.specs.declared.places.Range.{Range};
ghost use Rattle.image_memory.specs.Ranges.{Ascends, put_in};
ghost use Rattle.image_memory.specs.Changes.{IsPlaceable};
ghost use Rattle.paged_memory.specs.Pages.{extent_range, page_range, counting, overlaid_page, IsCovered, IsGap};
ghost use Rattle.paged_memory.specs.inside.Missing.{missing};
ghost use Rattle.paged_memory.specs.inside.Opening.{IsPlaceOf, IsOpened, IsOpenTo, AreLaid};

use crate::blocks::{Block, PAGE_LENGTH};
use crate::extents::begun;
use crate::pages::put_bytes;
use crate::search::{is_at, place_of};
use crate::types::{Extent, Page};
use image_memory::insert_spare;
use ks_base::Range;

/// Makes sure that there is each page of which a range has an address. What is enough for ranges with this one among
/// them stays enough.
pub(crate) fn open_pages(
    pages: &mut Vec<Page>,
    blocks: &mut Vec<Block>,
    extents: &[Extent],
    range: Range,
)
    requires ascend { Ascends extent_range 0 extents.now }
    requires laid { AreLaid extents.now pages.old.items }
    requires some { All (λ page. page.first < page.last) pages.old.items }
    requires covered { IsCovered extents.now pages.old.items }
    requires placeable { IsPlaceable range }
    requires blocks { missing (range ∷ []) pages.old.items ≤ vec_len blocks.old }
    requires room { vec_len pages.old + vec_len blocks.old ≤ vec_capacity pages.old }
    ensures open { IsOpenTo extents.now pages.old.items pages.new.items
        (range.low / 4096) ((range.high - 1) / 4096 + 1) }
    ensures blocks { (ranges : List Range) → Contains ranges range
        → missing ranges pages.old.items ≤ vec_len blocks.old
        → missing ranges pages.new.items ≤ vec_len blocks.new }
    ensures room { vec_len pages.new + vec_len blocks.new ≤ vec_capacity pages.new }
{
    let low = range.low / 4096;
    let end = (range.high - 1) / 4096 + 1;
    let mut at = place_of(pages.as_slice(), low);
    for number in low..end {
        open_page(pages, blocks, extents, at, number);
        at += 1;
    }
}

/// Makes sure that there is a page of a number at its place: one that is there already, or a new one, which takes a
/// block.
fn open_page(
    pages: &mut Vec<Page>,
    blocks: &mut Vec<Block>,
    extents: &[Extent],
    at: usize,
    number: u32,
)
    requires ascend { Ascends extent_range 0 extents.now }
    requires sorted { Ascends page_range 0 pages.old.items }
    requires place { IsPlaceOf pages.old.items number at }
    requires some { IsGap pages.old.items number at → 0 < vec_len blocks.old }
    requires room { vec_len pages.old + vec_len blocks.old ≤ vec_capacity pages.old }
    ensures opened { IsOpened extents.now pages.old.items pages.new.items number at }
    ensures spent { vec_len pages.new + vec_len blocks.new ≡ vec_len pages.old + vec_len blocks.old }
    ensures room { vec_len pages.new + vec_len blocks.new ≤ vec_capacity pages.new }
{
    if is_at(pages.as_slice(), at, number) {
        return;
    }
    let Some(bytes) = blocks.pop() else {
        unreachable!()
    };
    // A block has 4,096 bytes.
    let _count = bytes.as_slice();
    let place = begun(extents, u64::from(number) * PAGE_LENGTH as u64);
    let page = Page {
        number,
        first: place,
        last: place,
        bytes,
    };
    insert_spare(pages, at, page);
}

/// Lays a piece into its pages, which are there: they know its extent and have its bytes. The pages before `first` end
/// at or below it.
pub(crate) fn lay(pages: &mut [Page], first: usize, extent: Extent, bytes: &[u8])
    requires first { first ≤ length pages.old }
    requires ascend { Ascends page_range 0 pages.old }
    requires full { All (λ page. length page.bytes ≡ 4096) pages.old }
    requires below { AllWithin (λ page. (page_range page).high ≤ extent.base) pages.old 0 first }
    requires some { 0 < extent.length }
    requires few { All (λ page. (page.first + 1 < 2 ^ 64) × (page.last + 1 < 2 ^ 64)) pages.old }
    ensures { pages.new ≡ map (overlaid_page extent.base bytes.now) (map (counting extent) pages.old) }
{
    count_extent(pages, first, extent);
    put_bytes(pages, first, u64::from(extent.base), bytes);
}

/// Counts an extent that was added in each page.
fn count_extent(pages: &mut [Page], first: usize, extent: Extent)
    requires first { first ≤ length pages.old }
    requires below { AllWithin (λ page. (page_range page).high ≤ extent.base) pages.old 0 first }
    requires some { 0 < extent.length }
    requires few { All (λ page. (page.first + 1 < 2 ^ 64) × (page.last + 1 < 2 ^ 64)) pages.old }
    ensures { pages.new ≡ map (counting extent) pages.old }
{
    let mut i = first;
    while i < pages.len() {
        pages[i].count(extent);
        i += 1;
    }
}

impl Page {
    /// Counts an extent that was added.
    fn count(&mut self, extent: Extent)
        requires last { self.old.last + 1 < 2 ^ 64 }
        requires first { self.old.first + 1 < 2 ^ 64 }
        ensures { self.new ≡ counting extent self.old }
    {
        let low = self.low();
        if extent.end() <= low {
            self.first += 1;
        }
        if u64::from(extent.base) < low + PAGE_LENGTH as u64 {
            self.last += 1;
        }
    }
}

/// Puts an extent among others in order, where there is room for it.
pub(crate) fn put_extent(extents: &mut Vec<Extent>, extent: Extent)
    requires ascend { Ascends extent_range 0 extents.old.items }
    requires room { vec_len extents.old < vec_capacity extents.old }
    ensures items { extents.new.items ≡ put_in extent_range extent extents.old.items }
    ensures len { vec_len extents.new ≡ vec_len extents.old + 1 }
    ensures capacity { vec_capacity extents.old ≤ vec_capacity extents.new }
{
    let at = begun(extents.as_slice(), u64::from(extent.base) + 1);
    insert_spare(extents, at, extent);
}
