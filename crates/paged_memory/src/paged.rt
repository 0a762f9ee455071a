//! A memory that keeps its bytes in pages.
ghost use Rattle.std.specs.Prelude.{◌≡◌, ◌+◌, ◌-◌, ◌*◌, ◌≤◌, ◌<◌, ◌^◌, ℕ, List, [], length, IfOk, vec_len};
ghost use Rattle.std.specs.Prelude.{vec_capacity};
ghost use Rattle.std.specs.List.{All};
ghost use Rattle.image_memory.specs.Ranges.{Ascends, Ascends-prop};
ghost use Rattle.image_memory.specs.Contents.{ArePlaced, fence_range, look_at};
ghost use Rattle.image_memory.specs.Changes.{IsPlaceable};
ghost use Rattle.paged_memory.specs.inside.Missing.{missing};
ghost use Rattle.paged_memory.specs.Pages.{pieces_of};
ghost use Rattle.paged_memory.specs.laws.PlacedLaws.{placed_of};
ghost use Rattle.paged_memory.specs.Windows.{HavePages};

use crate::steps::Steps;
use crate::table::PageTable;
use image_memory::{Kind, Piece, Pieces, RetiredRanges, Space, SpareRanges, Window, ranges_of};
use ks_base::{Fault, Range};
use std::alloc::{AllocError, Global};
use std::sync::ledger::Ledger;

/// A memory as pages of 4,096 bytes, sorted by their numbers and found by halving, if not where they are guessed to stand.
/// There is a page where a piece has a byte, and nowhere else; each knows which pieces those are.
#[derive(Drop)]
pub struct PagedSpace {
    table: PageTable,
    retired: RetiredRanges,
    spare_ranges: SpareRanges,
    ghost fenced: { Ascends fence_range 0 retired.fences } by { Ascends-prop fence_range 0 retired.fences },
    ghost placeable: { All IsPlaceable spare_ranges },
    ghost extent_room: { vec_len table.extents + length spare_ranges ≤ vec_capacity table.extents },
    ghost block_room: { missing spare_ranges table.pages.items ≤ vec_len table.blocks },
}

impl PagedSpace {
    /// A memory that holds the pieces, with no retired range and nothing spare. [`are_placed`] tells
    /// whether pieces may be handed in. `Err` comes only if memory runs out.
    ///
    /// [`are_placed`]: image_memory::are_placed
    pub fn new(alloc: Global, pieces: Pieces) -> Result<Self, AllocError>
        requires { ArePlaced pieces }
        ensures contents { IfOk result (λ space. ⟦<PagedSpace as Space>⟧.contents space
            ≡ record { pieces = pieces; fences = [] }) }
        ensures room { IfOk result (λ space. ⟦<PagedSpace as Space>⟧.room space
            ≡ record { ranges = []; fences = 0 }) }
    {
        let table = PageTable::of(alloc, pieces)?;
        Ok(PagedSpace {
            table,
            retired: RetiredRanges::new(alloc),
            spare_ranges: SpareRanges::new(alloc),
        })
    }

    /// The kind of the piece at an address, and the byte there, as `look` answers; `steps` grows by how many page numbers
    /// were compared. For n pages these are p where `2^p <= 2n + 1`.
    pub fn look_counted<L: Ledger>(&self, address: u32, steps: &mut Steps<L>) -> Option<(Kind, u8)>
        ensures found { result ≡ look_at (⟦<PagedSpace as Space>⟧.contents self.now).pieces address }
        ensures rise { steps.old ≤ steps.new }
        ensures cost { (numbers : List ℕ) → HavePages numbers (⟦<PagedSpace as Space>⟧.contents self.now).pieces
            → 2 ^ (steps.new - steps.old) ≤ 2 * length numbers + 1 }
    {
        self.table.look(address, steps)
    }
}

impl Space for PagedSpace {
    ghost contents = { λ space. record {
      pieces = pieces_of space.table.extents.items space.table.pages.items;
      fences = space.retired.fences;
    } };

    ghost room = { λ space. record { ranges = space.spare_ranges; fences = space.retired.spare } };

    ghost valid = { λ space. record {
      placed = placed_of space.table.extents.items space.table.pages.items space.table.ascend space.table.end_below;
      fenced = space.fenced;
    } };

    fn look(&self, address: u32) -> Option<(Kind, u8)> {
        self.table.look_at(address)
    }

    fn piece(&self, i: u32) -> Option<(Kind, Range)> {
        self.table.shape_at(i)
    }

    #[inline(always)]
    fn read(&self, address: u32, into: &mut [u8]) -> Result<(), Fault> {
        self.table.read(address, into)
    }

    #[inline(always)]
    fn write(&mut self, address: u32, from: &[u8]) -> Result<(), Fault> {
        self.table.write(address, from)
    }

    #[inline(always)]
    fn window(&self, pc: u32) -> Result<Window, Fault> {
        match self.table.near_code(pc, &self.retired) {
            Some(page) => Ok(self.table.code_in(page, pc)),
            None => self.table.window(pc, &self.retired),
        }
    }

    fn spliced(&self, pc: u32) -> bool {
        self.retired.is_home(pc)
    }

    fn reserve(&mut self, pieces: &Pieces, fences: u32) -> Result<(), AllocError> {
        let ranges = ranges_of(self.table.allocator(), pieces.as_slice())?;
        self.table.make_room(ranges.as_slice())?;
        self.retired.reserve(fences)?;
        self.spare_ranges = SpareRanges::from_vec(ranges.into_vec());
        Ok(())
    }

    fn add_piece(&mut self, piece: Piece) {
        self.spare_ranges.take_first(piece.range());
        self.table.add(&piece);
    }

    fn drop_piece(&mut self, base: u32) {
        self.table.remove(base);
        self.spare_ranges.clear();
    }

    fn poke_code(&mut self, address: u32, from: &[u8]) {
        self.table.poke(address, from);
    }

    fn fence(&mut self, range: Range, jump: bool) {
        self.retired.add(range, jump);
    }

    fn unfence(&mut self, range: Range) {
        self.retired.remove(range);
    }

    fn unfence_all(&mut self, ranges: &[Range]) {
        self.retired.remove_all(ranges);
    }
}
