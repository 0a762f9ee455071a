//! The bytes of pieces in pages.
ghost use Rattle.std.specs.Prelude.{◌≡◌, ◌+◌, ◌-◌, ◌*◌, ◌/◌, ◌%◌, ◌≤◌, ◌<◌, ◌^◌, List, [], ◌∷◌, length, max};
ghost use Rattle.std.specs.Prelude.{vec_len, vec_capacity, None, MatchOption, Some, Ok, IfSome, IfOk, OnOk, OnErr, MatchResult};
ghost use Rattle.std.specs.List.{All, AllWithin, Any, Contains, slice_get};
ghost use Rattle.std.specs.Option.{option_map};
ghost use Rattle.ks_base.specs.declared.places.Range.{Range};
ghost use Rattle.image_memory.specs.Ranges.{Ascends, Ascends-prop, MeetsNone};
ghost use Rattle.image_memory.specs.Contents.{ArePlaced, look_at, piece_range, shape_of};
ghost use Rattle.image_memory.specs.Changes.{with_piece, without_piece, IsPlaceable};
ghost use Rattle.image_memory.specs.Access.{first_fault, read_fault, write_fault, bytes_at, written};
ghost use Rattle.image_memory.specs.Fetch.{window_at, shown, HasCode};
ghost use Rattle.paged_memory.specs.Pages.{extent_range, extent_at, page_range, page_low, pieces_of, stored_from, ended, begun};
ghost use Rattle.paged_memory.specs.Pages.{IsCovered, IsHome, IsHolder, IsSpot, IsNear, IsUsable, extent_fault};
ghost use Rattle.paged_memory.specs.inside.Missing.{missing};

use crate::blocks::Block;
use crate::closing::{close_pages, take_extent};
use crate::extents::{first_fault, holder};
use crate::guesses::Guesses;
use crate::opening::{lay, open_pages, put_extent};
use crate::pages::{copy_out, copy_part, fits_page, put_bytes, whole_window, window_of};
use crate::room::count_missing;
use crate::search::{has_number, home_of, place, place_of};
use crate::steps::Steps;
use crate::types::{Extent, Page, Spot};
use image_memory::{Access, Kind, Piece, Pieces, RetiredRanges, WINDOW_LENGTH, Window};
use ks_base::{Fault, Range};
use std::alloc::{AllocError, Global};
use std::sync::ledger::Ledger;

/// Pieces: where each lies, in ascending order, and their bytes in pages in ascending order. Each page has a byte of a
/// piece, and knows which extents have one in it.
#[derive(Drop)]
pub(crate) struct PageTable {
    extents: Vec<Extent>,
    pages: Vec<Page>,
    blocks: Vec<Block>,
    guesses: Guesses,
    ghost ascend: { Ascends extent_range 0 extents.items } by { Ascends-prop extent_range 0 extents.items },
    ghost end_below: { All (λ e. (extent_range e).high ≤ 0xFFFF_0000) extents.items },
    ghost sorted: { Ascends page_range 0 pages.items } by { Ascends-prop page_range 0 pages.items },
    ghost pages_below: { All (λ page. (page_range page).high ≤ 0xFFFF_0000) pages.items },
    ghost full: { All (λ page. length page.bytes ≡ 4096) pages.items },
    ghost first: { All (λ page. page.first ≡ ended (page_low page) extents.items) pages.items },
    ghost last: { All (λ page. page.last ≡ begun (page_low page + 4096) extents.items) pages.items },
    ghost some: { All (λ page. page.first < page.last) pages.items },
    ghost covered: { IsCovered extents.items pages.items },
    ghost table_room: { vec_len pages + vec_len blocks ≤ vec_capacity pages },
}

impl PageTable {
    /// No piece.
    pub(crate) fn new(alloc: Global) -> Self
        ensures none { pieces_of result.extents.items result.pages.items ≡ [] }
    {
        PageTable {
            extents: Vec::new(alloc),
            pages: Vec::new(alloc),
            blocks: Vec::new(alloc),
            guesses: Guesses::new(),
        }
    }

    /// What blocks are allocated by.
    pub(crate) fn allocator(&self) -> Global {
        *self.pages.allocator()
    }

    /// The pieces, which may make up a memory; each one's bytes are gone once its pages have them. `Err` comes only if
    /// memory runs out.
    pub(crate) fn of(alloc: Global, pieces: Pieces) -> Result<Self, AllocError>
        requires { ArePlaced pieces }
        ensures { IfOk result (λ table. pieces_of table.extents.items table.pages.items ≡ pieces) }
    {
        let mut table = PageTable::new(alloc);
        for piece in pieces.into_vec() {
            table.append(&piece)?;
        }
        Ok(table)
    }

    /// Adds a piece that isn't empty, doesn't end above 0xFFFF0000 and meets none, and takes the memory that it needs.
    fn append(&mut self, piece: &Piece) -> Result<(), AllocError>
        requires full { 0 < length piece.now.bytes }
        requires below { (piece_range piece.now).high ≤ 0xFFFF_0000 }
        requires apart { MeetsNone extent_range (piece_range piece.now) self.old.extents.items }
        ensures { OnOk result (pieces_of self.new.extents.items self.new.pages.items
            ≡ with_piece piece.now (pieces_of self.old.extents.items self.old.pages.items)) }
    {
        self.make_room(&[piece.range()])?;
        self.add(piece);
        Ok(())
    }

    /// Takes so many more blocks, and room for their pages.
    fn add_blocks(&mut self, count: usize) -> Result<(), AllocError>
        ensures extents { self.new.extents ≡ self.old.extents }
        ensures pages { self.new.pages.items ≡ self.old.pages.items }
        ensures ok { OnOk result (vec_len self.new.blocks ≡ vec_len self.old.blocks + count) }
        ensures more { vec_len self.old.blocks ≤ vec_len self.new.blocks }
    {
        for _block in 0..count {
            self.add_block()?;
        }
        Ok(())
    }

    /// Takes one more block, and room for its page.
    fn add_block(&mut self) -> Result<(), AllocError>
        ensures extents { self.new.extents ≡ self.old.extents }
        ensures pages { self.new.pages.items ≡ self.old.pages.items }
        ensures ok { OnOk result (vec_len self.new.blocks ≡ vec_len self.old.blocks + 1) }
        ensures more { vec_len self.old.blocks ≤ vec_len self.new.blocks }
    {
        let alloc = *self.blocks.allocator();
        let count = self.blocks.len();
        self.pages.reserve(count + 1)?;
        self.blocks.push(Block::new(alloc)?)?;
        Ok(())
    }

    /// Takes the memory that pieces of these ranges need: a block for each page that isn't there, and room. What was
    /// spare before is used for it.
    pub(crate) fn make_room(&mut self, ranges: &[Range]) -> Result<(), AllocError>
        requires { All IsPlaceable ranges.now }
        ensures extents { self.new.extents.items ≡ self.old.extents.items }
        ensures pages { self.new.pages.items ≡ self.old.pages.items }
        ensures room { OnOk result (vec_len self.new.extents + length ranges.now ≤ vec_capacity self.new.extents) }
        ensures capacity { vec_capacity self.old.extents ≤ vec_capacity self.new.extents }
        ensures blocks { OnOk result (vec_len self.new.blocks
            ≡ max (vec_len self.old.blocks) (missing ranges.now self.old.pages.items)) }
        ensures more { vec_len self.old.blocks ≤ vec_len self.new.blocks }
    {
        self.extents.reserve(ranges.len())?;
        let wanted = count_missing(self.allocator(), ranges, self.pages.as_slice())?;
        let spare = self.blocks.len();
        self.add_blocks(wanted.saturating_sub(spare))
    }

    /// Where an address is found.
    fn spot<L: Ledger>(&self, address: u32, steps: &mut Steps<L>) -> Option<Spot>
        ensures found { MatchOption result (extent_at self.now.extents.items address ≡ None)
            (IsSpot self.now.extents.items self.now.pages.items address) }
        ensures rise { steps.old ≤ steps.new }
        ensures cost { 2 ^ (steps.new - steps.old) ≤ 2 * vec_len self.now.pages + 1 }
    {
        let Ok(at) = place(self.pages.as_slice(), address / 4096, steps) else {
            return None;
        };
        let extent = self.holder_at(at, address)?;
        Some(Spot { page: at, extent })
    }

    /// The place of the extent that has an address of the page at a place.
    fn holder_at(&self, at: usize, address: u32) -> Option<usize>
        requires { IsHome self.now.pages.items (address / 4096) at }
        ensures { MatchOption result (extent_at self.now.extents.items address ≡ None)
            (IsHolder self.now.extents.items address) }
    {
        let page = &self.pages[at];
        let extents = self.extents.as_slice();
        let among = holder(&extents[page.first..page.last], address)?;
        Some(page.first + among)
    }

    /// Where an address is found, if its page stands where it is guessed, and the first extent with a byte in the page has
    /// so many bytes from the address on, in the page. So it is with nearly all accesses.
    #[inline(always)]
    fn near(&self, address: u32, count: usize) -> Option<Spot>
        ensures { IfSome result (IsNear self.now.extents.items self.now.pages.items address count) }
    {
        if !fits_page(u64::from(address), count) {
            return None;
        }
        let number = address / 4096;
        let page = self.guesses.place(number);
        if !has_number(self.pages.as_slice(), page, number) {
            return None;
        }
        let extent = self.pages[page].first;
        if self.extents[extent].has(address, count) {
            Some(Spot { page, extent })
        } else {
            None
        }
    }

    /// The place of the page of an address, if so many bytes from the address on stand near and can be used.
    #[inline(always)]
    fn near_usable(&self, access: Access, address: u32, count: usize) -> Option<usize>
        ensures usable { IfSome result (IsUsable access self.now.extents.items self.now.pages.items address count) }
        ensures home { IfSome result (IsHome self.now.pages.items (address / 4096)) }
        ensures within { IfSome result (λ _. address % 4096 + count ≤ 4096) }
    {
        let spot = self.near(address, count)?;
        match access.fault(Some(self.extents[spot.extent].kind)) {
            Some(_) => None,
            None => Some(spot.page),
        }
    }

    /// Where an address is found, with no step counted.
    #[inline(always)]
    fn spot_at(&self, address: u32) -> Option<Spot>
        ensures { MatchOption result (extent_at self.now.extents.items address ≡ None)
            (IsSpot self.now.extents.items self.now.pages.items address) }
    {
        match self.near(address, 1) {
            Some(spot) => Some(spot),
            None => self.far(address),
        }
    }

    /// The same, by halving.
    #[cold]
    #[inline(never)]
    fn far(&self, address: u32) -> Option<Spot>
        ensures { MatchOption result (extent_at self.now.extents.items address ≡ None)
            (IsSpot self.now.extents.items self.now.pages.items address) }
    {
        let page = home_of(self.pages.as_slice(), address / 4096)?;
        let extent = self.holder_at(page, address)?;
        Some(Spot { page, extent })
    }

    /// The kind of the piece at an address, and the byte there.
    pub(crate) fn look<L: Ledger>(&self, address: u32, steps: &mut Steps<L>) -> Option<(Kind, u8)>
        ensures found { result ≡ look_at (pieces_of self.now.extents.items self.now.pages.items) address }
        ensures rise { steps.old ≤ steps.new }
        ensures cost { 2 ^ (steps.new - steps.old) ≤ 2 * vec_len self.now.pages + 1 }
    {
        let spot = self.spot(address, steps)?;
        let byte = self.pages[spot.page].byte(address);
        Some((self.extents[spot.extent].kind, byte))
    }

    /// The place of the page of an address, where so many bytes from the address on can be used; else why the first bad
    /// one of them can't.
    fn usable(&self, access: Access, address: u32, count: usize) -> Result<usize, Fault>
        ensures { MatchResult result
            (IsUsable access self.now.extents.items self.now.pages.items address count)
            (λ f. first_fault (extent_fault access self.now.extents.items) address count ≡ Some f) }
    {
        if count == 0 {
            return Ok(0);
        }
        let Some(spot) = self.spot_at(address) else {
            return Err(Fault::Unmapped);
        };
        let extents = self.extents.as_slice();
        match first_fault(extents, spot.extent, access, u64::from(address), count) {
            Some(fault) => Err(fault),
            None => Ok(spot.page),
        }
    }

    /// The kind of the piece at an address, and the byte there, with no step counted.
    pub(crate) fn look_at(&self, address: u32) -> Option<(Kind, u8)>
        ensures { result ≡ look_at (pieces_of self.now.extents.items self.now.pages.items) address }
    {
        let spot = self.spot_at(address)?;
        let byte = self.pages[spot.page].byte(address);
        Some((self.extents[spot.extent].kind, byte))
    }

    /// The kind and the range of the piece at an index, `None` exactly where there is none.
    pub(crate) fn shape_at(&self, i: u32) -> Option<(Kind, Range)>
        ensures { result ≡ option_map shape_of (slice_get (pieces_of self.now.extents.items self.now.pages.items) i) }
    {
        let extent = self.extents.as_slice().get(i as usize)?;
        Some((extent.kind, extent.range()))
    }

    /// Reads the bytes from an address on as data.
    #[inline(always)]
    pub(crate) fn read(&self, address: u32, into: &mut [u8]) -> Result<(), Fault>
        ensures ok { OnOk result (into.new
            ≡ bytes_at (pieces_of self.now.extents.items self.now.pages.items) address (length into.old)) }
        ensures err { OnErr result (into.new ≡ into.old) }
        ensures cause { MatchResult result
            (λ _. first_fault (read_fault (pieces_of self.now.extents.items self.now.pages.items)) address (length into.old) ≡ None)
            (λ f. first_fault (read_fault (pieces_of self.now.extents.items self.now.pages.items)) address (length into.old) ≡ Some f) }
    {
        match self.near_usable(Access::Read, address, into.len()) {
            Some(page) => {
                copy_part(self.pages.as_slice(), page, u64::from(address), into);
                Ok(())
            }
            None => self.read_along(address, into),
        }
    }

    /// The same, wherever the bytes stand.
    #[cold]
    #[inline(never)]
    fn read_along(&self, address: u32, into: &mut [u8]) -> Result<(), Fault>
        ensures ok { OnOk result (into.new
            ≡ bytes_at (pieces_of self.now.extents.items self.now.pages.items) address (length into.old)) }
        ensures err { OnErr result (into.new ≡ into.old) }
        ensures cause { MatchResult result
            (λ _. first_fault (read_fault (pieces_of self.now.extents.items self.now.pages.items)) address (length into.old) ≡ None)
            (λ f. first_fault (read_fault (pieces_of self.now.extents.items self.now.pages.items)) address (length into.old) ≡ Some f) }
    {
        match self.usable(Access::Read, address, into.len()) {
            Ok(page) => {
                copy_out(self.pages.as_slice(), page, u64::from(address), into);
                Ok(())
            }
            Err(fault) => Err(fault),
        }
    }

    /// Writes bytes as data from an address on.
    #[inline(always)]
    pub(crate) fn write(&mut self, address: u32, from: &[u8]) -> Result<(), Fault>
        ensures ok { OnOk result (pieces_of self.new.extents.items self.new.pages.items
            ≡ written address from.now (pieces_of self.old.extents.items self.old.pages.items)) }
        ensures err { OnErr result (self.new.pages.items ≡ self.old.pages.items) }
        ensures extents { self.new.extents ≡ self.old.extents }
        ensures blocks { self.new.blocks ≡ self.old.blocks }
        ensures missing { (ranges : List Range)
            → missing ranges self.new.pages.items ≡ missing ranges self.old.pages.items }
        ensures cause { MatchResult result
            (λ _. first_fault (write_fault (pieces_of self.old.extents.items self.old.pages.items)) address (length from.now) ≡ None)
            (λ f. first_fault (write_fault (pieces_of self.old.extents.items self.old.pages.items)) address (length from.now) ≡ Some f) }
    {
        match self.near_usable(Access::Write, address, from.len()) {
            Some(page) => {
                self.put(page, address, from);
                Ok(())
            }
            None => self.write_along(address, from),
        }
    }

    /// The same, wherever the bytes stand.
    #[cold]
    #[inline(never)]
    fn write_along(&mut self, address: u32, from: &[u8]) -> Result<(), Fault>
        ensures ok { OnOk result (pieces_of self.new.extents.items self.new.pages.items
            ≡ written address from.now (pieces_of self.old.extents.items self.old.pages.items)) }
        ensures err { OnErr result (self.new.pages.items ≡ self.old.pages.items) }
        ensures extents { self.new.extents ≡ self.old.extents }
        ensures blocks { self.new.blocks ≡ self.old.blocks }
        ensures missing { (ranges : List Range)
            → missing ranges self.new.pages.items ≡ missing ranges self.old.pages.items }
        ensures cause { MatchResult result
            (λ _. first_fault (write_fault (pieces_of self.old.extents.items self.old.pages.items)) address (length from.now) ≡ None)
            (λ f. first_fault (write_fault (pieces_of self.old.extents.items self.old.pages.items)) address (length from.now) ≡ Some f) }
    {
        match self.usable(Access::Write, address, from.len()) {
            Ok(page) => {
                self.put(page, address, from);
                Ok(())
            }
            Err(fault) => Err(fault),
        }
    }

    /// Writes bytes of code from an address on, which lie in one piece.
    pub(crate) fn poke(&mut self, address: u32, from: &[u8])
        requires { HasCode (pieces_of self.old.extents.items self.old.pages.items) address (length from.now) }
        ensures pieces { pieces_of self.new.extents.items self.new.pages.items
            ≡ written address from.now (pieces_of self.old.extents.items self.old.pages.items) }
        ensures extents { self.new.extents ≡ self.old.extents }
        ensures blocks { self.new.blocks ≡ self.old.blocks }
        ensures missing { (ranges : List Range)
            → missing ranges self.new.pages.items ≡ missing ranges self.old.pages.items }
    {
        if let Some(spot) = self.spot_at(address) {
            self.put(spot.page, address, from);
        }
    }

    /// Puts bytes over those that pages have from an address on. The pages before `first` end at or below it.
    #[inline(always)]
    fn put(&mut self, first: usize, address: u32, from: &[u8])
        requires first { first ≤ vec_len self.old.pages }
        requires below { AllWithin (λ page. (page_range page).high ≤ address) self.old.pages.items 0 first }
        ensures pieces { pieces_of self.new.extents.items self.new.pages.items
            ≡ written address from.now (pieces_of self.old.extents.items self.old.pages.items) }
        ensures extents { self.new.extents ≡ self.old.extents }
        ensures blocks { self.new.blocks ≡ self.old.blocks }
        ensures missing { (ranges : List Range)
            → missing ranges self.new.pages.items ≡ missing ranges self.old.pages.items }
    {
        put_bytes(self.pages.as_mut_slice(), first, u64::from(address), from);
    }

    /// The place of the page of an address, if fifteen bytes of code stand near from the address on and can be fetched.
    #[inline(always)]
    pub(crate) fn near_code(&self, pc: u32, retired: &RetiredRanges) -> Option<usize>
        ensures exact { IfSome result (λ _. Ok (shown (stored_from self.now.pages.items pc 15)) ≡ window_at (record {
          pieces = pieces_of self.now.extents.items self.now.pages.items;
          fences = retired.now.fences;
        }) pc) }
        ensures home { IfSome result (IsHome self.now.pages.items (pc / 4096)) }
        ensures within { IfSome result (λ _. pc % 4096 + 15 ≤ 4096) }
    {
        let limit = retired.limit(pc)?;
        if limit != WINDOW_LENGTH {
            return None;
        }
        let spot = self.near(pc, WINDOW_LENGTH)?;
        match self.extents[spot.extent].kind {
            Kind::Code => Some(spot.page),
            Kind::ReadOnly => None,
            Kind::Writable => None,
        }
    }

    /// Fifteen bytes of the page at a place from an address on, as a window.
    #[inline(always)]
    pub(crate) fn code_in(&self, page: usize, pc: u32) -> Window
        requires home { IsHome self.now.pages.items (pc / 4096) page }
        requires within { pc % 4096 + 15 ≤ 4096 }
        ensures { result ≡ shown (stored_from self.now.pages.items pc 15) }
    {
        whole_window(self.pages.as_slice(), page, pc)
    }

    /// What is fetched at an address among retired ranges.
    #[cold]
    #[inline(never)]
    pub(crate) fn window(&self, pc: u32, retired: &RetiredRanges) -> Result<Window, Fault>
        ensures exact { result ≡ window_at (record {
          pieces = pieces_of self.now.extents.items self.now.pages.items;
          fences = retired.now.fences;
        }) pc }
        ensures short { IfOk result (λ window. window.length ≤ 15) }
    {
        let Some(spot) = self.spot_at(pc) else {
            return Err(Fault::Unmapped);
        };
        let extent = self.extents[spot.extent];
        match extent.kind {
            Kind::Code => {
                let Some(limit) = retired.limit(pc) else {
                    return Err(Fault::Stray);
                };
                let count = limit.min((extent.end() - u64::from(pc)) as usize);
                Ok(window_of(self.pages.as_slice(), spot.page, pc, count))
            }
            Kind::ReadOnly => Err(Fault::Unmapped),
            Kind::Writable => Err(Fault::Unmapped),
        }
    }

    /// Adds a piece that isn't empty, doesn't end above 0xFFFF0000 and meets none. What is enough for ranges with its own
    /// among them stays enough.
    pub(crate) fn add(&mut self, piece: &Piece)
        requires full { 0 < length piece.now.bytes }
        requires below { (piece_range piece.now).high ≤ 0xFFFF_0000 }
        requires apart { MeetsNone extent_range (piece_range piece.now) self.old.extents.items }
        requires blocks { missing (piece_range piece.now ∷ []) self.old.pages.items ≤ vec_len self.old.blocks }
        requires room { vec_len self.old.extents < vec_capacity self.old.extents }
        ensures pieces { pieces_of self.new.extents.items self.new.pages.items
            ≡ with_piece piece.now (pieces_of self.old.extents.items self.old.pages.items) }
        ensures blocks { (ranges : List Range) → Contains ranges (piece_range piece.now)
            → missing ranges self.old.pages.items ≤ vec_len self.old.blocks
            → missing ranges self.new.pages.items ≤ vec_len self.new.blocks }
        ensures len { vec_len self.new.extents ≡ vec_len self.old.extents + 1 }
        ensures capacity { vec_capacity self.old.extents ≤ vec_capacity self.new.extents }
    {
        let extent = Extent::of(piece);
        let range = piece.range();
        let extents = self.extents.as_slice();
        open_pages(&mut self.pages, &mut self.blocks, extents, range);
        put_extent(&mut self.extents, extent);
        let first = place_of(self.pages.as_slice(), extent.base / 4096);
        lay(
            self.pages.as_mut_slice(),
            first,
            extent,
            piece.bytes.as_slice(),
        );
        self.guesses.learn(self.pages.as_slice(), first);
    }

    /// Takes the piece away that begins at a base, and the pages in which no other piece has a byte.
    pub(crate) fn remove(&mut self, base: u32)
        requires { Any (λ piece. piece.base ≡ base) (pieces_of self.old.extents.items self.old.pages.items) }
        ensures { pieces_of self.new.extents.items self.new.pages.items
            ≡ without_piece base (pieces_of self.old.extents.items self.old.pages.items) }
    {
        let extent = take_extent(&mut self.extents, base);
        let first = place_of(self.pages.as_slice(), extent.base / 4096);
        close_pages(&mut self.pages, first, extent);
        self.guesses.learn(self.pages.as_slice(), first);
    }
}
