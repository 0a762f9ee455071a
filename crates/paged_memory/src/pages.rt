//! Pages in order: what they have, and what changes in them.
ghost use Rattle.std.specs.Prelude.{◌≡◌, ◌+◌, ◌*◌, ◌/◌, ◌%◌, ◌≤◌, ◌<◌, ◌^◌, ◌↔◌, length, map, IsTrue};
ghost use Rattle.std.specs.List.{All, AllWithin};
ghost use Rattle.image_memory.specs.Ranges.{Ascends, lies_in};
ghost use Rattle.image_memory.specs.Fetch.{shown};
ghost use Rattle.paged_memory.specs.Pages.{page_range, byte_of, stored_from, AreStored, IsHome, overlaid_page};

use crate::blocks::PAGE_LENGTH;
use crate::search::has_number;
use crate::types::Page;
use image_memory::{WINDOW_LENGTH, Window};

impl Page {
    /// The first address.
    pub(crate) fn low(&self) -> u64
        ensures low { result ≡ (page_range self.now).low }
        ensures small { result < 2 ^ 48 }
    {
        u64::from(self.number) * PAGE_LENGTH as u64
    }

    /// The byte at an address of the page.
    pub(crate) fn byte(&self, address: u32) -> u8
        requires { IsTrue (lies_in address (page_range self.now)) }
        ensures { result ≡ byte_of address self.now }
    {
        self.bytes.as_slice()[(address % 4096) as usize]
    }

    /// Puts bytes over those from an address of the page on.
    #[inline(always)]
    fn put(&mut self, start: u64, from: &[u8])
        requires here { self.old.number ≡ start / 4096 }
        requires within { start % 4096 + length from.now ≤ 4096 }
        requires full { length self.old.bytes ≡ 4096 }
        ensures { self.new ≡ overlaid_page start from.now self.old }
    {
        self.bytes.put((start % PAGE_LENGTH as u64) as usize, from);
    }

    /// Puts bytes over those that the page has from an address on.
    fn overlay(&mut self, start: u64, from: &[u8])
        requires { start < 2 ^ 32 }
        ensures { self.new ≡ overlaid_page start from.now self.old }
    {
        let low = self.low();
        self.bytes.overlay(low, start, from);
    }
}

/// Whether so many bytes from an address on lie in one page.
#[inline(always)]
pub(crate) fn fits_page(address: u64, count: usize) -> bool
    ensures { IsTrue result ↔ (address % 4096 + count ≤ 4096) }
{
    count <= PAGE_LENGTH - (address % PAGE_LENGTH as u64) as usize
}

/// Copies the bytes from an address on, all of which the page at a place has.
#[inline(always)]
pub(crate) fn copy_part(pages: &[Page], at: usize, address: u64, into: &mut [u8])
    requires ascend { Ascends page_range 0 pages.now }
    requires home { IsHome pages.now (address / 4096) at }
    requires within { address % 4096 + length into.old ≤ 4096 }
    ensures { into.new ≡ stored_from pages.now address (length into.old) }
{
    let rest = pages[at]
        .bytes
        .rest_from((address % PAGE_LENGTH as u64) as usize);
    into.copy_from_slice(&rest[..into.len()]);
}

/// Copies the bytes from an address on, which pages have from one at a place on.
pub(crate) fn copy_out(pages: &[Page], first: usize, address: u64, into: &mut [u8])
    requires ascend { Ascends page_range 0 pages.now }
    requires fits { address + length into.old < 2 ^ 64 }
    requires had { AreStored pages.now address (length into.old) }
    requires at { 0 < length into.old → IsHome pages.now (address / 4096) first }
    ensures { into.new ≡ stored_from pages.now address (length into.old) }
{
    let mut at = first;
    let mut done = 0;
    while done < into.len() {
        let offset = (address + done as u64) % PAGE_LENGTH as u64;
        let part = pages[at].bytes.rest_from(offset as usize);
        let count = part.len().min(into.len() - done);
        into[done..done + count].copy_from_slice(&part[..count]);
        done += count;
        at += 1;
    }
}

/// Fifteen bytes from an address on, all of which the page at a place has, as a window.
#[inline(always)]
pub(crate) fn whole_window(pages: &[Page], at: usize, address: u32) -> Window
    requires ascend { Ascends page_range 0 pages.now }
    requires home { IsHome pages.now (address / 4096) at }
    requires within { address % 4096 + 15 ≤ 4096 }
    ensures shown { result ≡ shown (stored_from pages.now address 15) }
    ensures short { result.length ≤ 15 }
{
    let rest = pages[at].bytes.rest_from((address % 4096) as usize);
    Window::of(&rest[..WINDOW_LENGTH])
}

/// The bytes from an address on as a window.
pub(crate) fn window_of(pages: &[Page], first: usize, address: u32, count: usize) -> Window
    requires ascend { Ascends page_range 0 pages.now }
    requires few { count ≤ 15 }
    requires had { AreStored pages.now address count }
    requires at { IsHome pages.now (address / 4096) first }
    ensures shown { result ≡ shown (stored_from pages.now address count) }
    ensures short { result.length ≤ 15 }
{
    let rest = pages[first].bytes.rest_from((address % 4096) as usize);
    if count <= rest.len() {
        return Window::of(&rest[..count]);
    }
    let mut filled = [0; WINDOW_LENGTH];
    copy_out(pages, first, u64::from(address), &mut filled[..count]);
    Window::of(&filled[..count])
}

/// Puts bytes over those that pages have from an address on. The pages before `first` end at or below it.
#[inline(always)]
pub(crate) fn put_bytes(pages: &mut [Page], first: usize, start: u64, from: &[u8])
    requires low { start < 2 ^ 32 }
    requires first { first ≤ length pages.old }
    requires ascend { Ascends page_range 0 pages.old }
    requires full { All (λ page. length page.bytes ≡ 4096) pages.old }
    requires below { AllWithin (λ page. (page_range page).high ≤ start) pages.old 0 first }
    ensures { pages.new ≡ map (overlaid_page start from.now) pages.old }
{
    if fits_page(start, from.len())
        && has_number(pages, first, (start / PAGE_LENGTH as u64) as u32)
    {
        pages[first].put(start, from);
    } else {
        put_along(pages, first, start, from);
    }
}

/// The same, page by page.
#[cold]
#[inline(never)]
fn put_along(pages: &mut [Page], first: usize, start: u64, from: &[u8])
    requires low { start < 2 ^ 32 }
    requires first { first ≤ length pages.old }
    requires ascend { Ascends page_range 0 pages.old }
    requires full { All (λ page. length page.bytes ≡ 4096) pages.old }
    requires below { AllWithin (λ page. (page_range page).high ≤ start) pages.old 0 first }
    ensures { pages.new ≡ map (overlaid_page start from.now) pages.old }
{
    let end = start + from.len() as u64;
    let mut i = first;
    while i < pages.len() && pages[i].low() < end {
        pages[i].overlay(start, from);
        i += 1;
    }
}
