//! A memory that keeps its pieces in one sorted list.
ghost use Rattle.std.specs.Prelude.{◌≡◌, ◌≤◌, ◌<◌, ◌+◌, ◌^◌, [], IfOk, IfSome, IsTrue};
ghost use Rattle.std.specs.Prelude.{vec_len, vec_capacity, length};
ghost use Rattle.std.specs.Option.{option_copied, option_map};
ghost use Rattle.std.specs.List.{AllWithin, All, Any, remove};
ghost use Rattle.ks_base.specs.declared.places.Range.{Range};
ghost use Rattle.image_memory.specs.Ranges.{Ascends, Ascends-prop, lies_in};
ghost use Rattle.image_memory.specs.Contents.{Contents, Room, IsValid, ArePlaced};
ghost use Rattle.image_memory.specs.Contents.{piece_range, fence_range, holding, look_at};
ghost use Rattle.image_memory.specs.Access.{access_fault, kind_of, first_fault};
ghost use Rattle.image_memory.specs.Access.{read_fault, bytes_at, written, after_write};
ghost use Rattle.image_memory.specs.Fetch.{code_from};
ghost use Rattle.image_memory.specs.Changes.{IsPlaceable, without_piece};

use crate::bytes::{copy_front, front};
use crate::changes::{put_spare, ranges_of};
use crate::lookup::{begun, piece_at};
use crate::retired::RetiredRanges;
use crate::space::Space;
use crate::spare::SpareRanges;
use crate::types::{Access, Kind, Piece, Pieces, Window};
use ks_base::{Fault, Range};
use std::alloc::{AllocError, Global};

/// A memory as two sorted lists: its pieces and its retired ranges, both found by halving.
#[derive(Drop)]
pub struct FlatSpace {
    pieces: Vec<Piece>,
    retired: RetiredRanges,
    spare_ranges: SpareRanges,
    ghost ascend: { Ascends piece_range 0 pieces.items } by { Ascends-prop piece_range 0 pieces.items },
    ghost end_below: { All (λ piece. (piece_range piece).high ≤ 0xFFFF_0000) pieces.items },
    ghost fenced: { Ascends fence_range 0 retired.fences } by { Ascends-prop fence_range 0 retired.fences },
    ghost placeable: { All IsPlaceable spare_ranges },
    ghost piece_room: { vec_len pieces + length spare_ranges ≤ vec_capacity pieces },
}

impl FlatSpace {
    /// A memory that holds the pieces, with no retired range and nothing spare. [`are_placed`] tells
    /// whether pieces may be handed in. `Err` comes only if memory runs out.
    ///
    /// [`are_placed`]: crate::are_placed
    pub fn new(alloc: Global, pieces: Pieces) -> Result<Self, AllocError>
        requires { ArePlaced pieces }
        ensures contents { IfOk result (λ space. ⟦<FlatSpace as Space>⟧.contents space
            ≡ record { pieces = pieces; fences = [] }) }
        ensures room { IfOk result (λ space. ⟦<FlatSpace as Space>⟧.room space
            ≡ record { ranges = []; fences = 0 }) }
    {
        Ok(FlatSpace {
            pieces: pieces.into_vec(),
            retired: RetiredRanges::new(alloc),
            spare_ranges: SpareRanges::new(alloc),
        })
    }

    /// How many pieces begin at or below an address.
    fn begun(&self, address: u64) -> usize
        ensures bound { result ≤ vec_len self.now.pieces }
        ensures below { AllWithin (λ piece. piece.base ≤ address) self.now.pieces.items 0 result }
        ensures above { AllWithin (λ piece. address < piece.base) self.now.pieces.items result
            (vec_len self.now.pieces) }
    {
        begun(self.pieces.as_slice(), address)
    }

    /// The place of the piece that begins at a base.
    fn place_of_piece(&self, base: u32) -> usize
        requires { Any (λ piece. piece.base ≡ base) self.now.pieces.items }
        ensures within { result < vec_len self.now.pieces }
        ensures taken { remove self.now.pieces.items result ≡ without_piece base self.now.pieces.items }
    {
        self.begun(u64::from(base)) - 1
    }

    /// The piece that has a byte at an address.
    fn piece_at(&self, address: u64) -> Option<&Piece>
        ensures piece { option_copied result ≡ holding self.now.pieces.items address }
        ensures holds { IfSome result (λ piece. IsTrue (lies_in address (piece_range piece.now))) }
    {
        piece_at(self.pieces.as_slice(), address)
    }

    /// Why the first bad byte of so many from an address on can't be used.
    fn first_fault(&self, access: Access, address: u64, count: usize) -> Option<Fault>
        requires { address + count < 2 ^ 64 }
        ensures { result ≡ first_fault
            (λ a. access_fault access (option_map kind_of (holding self.now.pieces.items a))) address count }
    {
        let mut done = 0;
        while done < count {
            let place = address + done as u64;
            let Some(piece) = self.piece_at(place) else {
                return Some(Fault::Unmapped);
            };
            if let Some(fault) = access.fault(Some(piece.kind)) {
                return Some(fault);
            }
            done += piece.rest_from(place).len().min(count - done);
        }
        None
    }

    /// Copies the bytes from an address on, each of which a piece holds.
    fn copy_out(&self, address: u64, into: &mut [u8])
        requires fits { address + length into.old < 2 ^ 64 }
        requires readable { first_fault (read_fault self.now.pieces.items) address (length into.old) ≡ None }
        ensures { into.new ≡ bytes_at self.now.pieces.items address (length into.old) }
    {
        let mut done = 0;
        while done < into.len() {
            let at = address + done as u64;
            let Some(piece) = self.piece_at(at) else {
                unreachable!()
            };
            done += copy_front(&mut into[done..], piece.rest_from(at));
        }
    }

    /// Puts bytes over those that pieces have from an address on.
    fn put_bytes(&mut self, address: u64, from: &[u8])
        requires { address < 2 ^ 32 }
        ensures contents { ⟦<FlatSpace as Space>⟧.contents self.new
            ≡ after_write (⟦<FlatSpace as Space>⟧.contents self.old) address from.now }
        ensures room { ⟦<FlatSpace as Space>⟧.room self.new ≡ ⟦<FlatSpace as Space>⟧.room self.old }
    {
        let alloc = *self.pieces.allocator();
        let first = self.begun(address).saturating_sub(1);
        overlay_pieces(alloc, self.pieces.as_mut_slice(), first, address, from);
    }

    /// The bytes from an address to the end of the code piece that holds it.
    fn code_from(&self, pc: u32) -> Option<&[u8]>
        ensures { option_copied result ≡ code_from self.now.pieces.items pc }
    {
        let piece = self.piece_at(u64::from(pc))?;
        piece.code_from(pc)
    }
}

/// Puts bytes over those that pieces have from an address on. The pieces before `first` end at or below
/// it.
fn overlay_pieces(alloc: Global, pieces: &mut [Piece], first: usize, start: u64, from: &[u8])
    requires low { start < 2 ^ 32 }
    requires first { first ≤ length pieces.old }
    requires ascend { Ascends piece_range 0 pieces.old }
    requires below { AllWithin (λ piece. (piece_range piece).high ≤ start) pieces.old 0 first }
    ensures { pieces.new ≡ written start from.now pieces.old }
{
    let end = start + from.len() as u64;
    let mut i = first;
    while i < pieces.len() && u64::from(pieces[i].base) < end {
        pieces[i].overlay(alloc, start, from);
        i += 1;
    }
}

impl Space for FlatSpace {
    ghost contents = { λ space. record { pieces = space.pieces.items; fences = space.retired.fences } };

    ghost room = { λ space. record { ranges = space.spare_ranges; fences = space.retired.spare } };

    ghost valid = { λ space. record {
      placed = record { ascend = space.ascend; end_below = space.end_below };
      fenced = space.fenced;
    } };

    fn look(&self, address: u32) -> Option<(Kind, u8)> {
        let address = u64::from(address);
        let piece = self.piece_at(address)?;
        let byte = piece.rest_from(address)[0];
        Some((piece.kind, byte))
    }

    fn piece(&self, i: u32) -> Option<(Kind, Range)> {
        let piece = self.pieces.as_slice().get(i as usize)?;
        Some((piece.kind, piece.range()))
    }

    fn read(&self, address: u32, into: &mut [u8]) -> Result<(), Fault> {
        let address = u64::from(address);
        if let Some(fault) = self.first_fault(Access::Read, address, into.len()) {
            return Err(fault);
        }
        self.copy_out(address, into);
        Ok(())
    }

    fn write(&mut self, address: u32, from: &[u8]) -> Result<(), Fault> {
        let address = u64::from(address);
        if let Some(fault) = self.first_fault(Access::Write, address, from.len()) {
            return Err(fault);
        }
        self.put_bytes(address, from);
        Ok(())
    }

    #[tactic(auto, unfolding(crate::specs::Fetch::window_at, crate::specs::Fetch::view))]
    fn window(&self, pc: u32) -> Result<Window, Fault> {
        let Some(bytes) = self.code_from(pc) else {
            return Err(Fault::Unmapped);
        };
        match self.retired.limit(pc) {
            Some(count) => Ok(Window::of(front(bytes, count))),
            None => Err(Fault::Stray),
        }
    }

    fn spliced(&self, pc: u32) -> bool {
        self.retired.is_home(pc)
    }

    fn reserve(&mut self, pieces: &Pieces, fences: u32) -> Result<(), AllocError> {
        let ranges = ranges_of(*self.pieces.allocator(), pieces.as_slice())?;
        self.pieces.reserve(ranges.len())?;
        self.retired.reserve(fences)?;
        self.spare_ranges = SpareRanges::from_vec(ranges.into_vec());
        Ok(())
    }

    fn add_piece(&mut self, piece: Piece) {
        self.spare_ranges.take_first(piece.range());
        put_spare(&mut self.pieces, piece);
    }

    fn drop_piece(&mut self, base: u32) {
        let at = self.place_of_piece(base);
        self.pieces.remove(at);
        self.spare_ranges.clear();
    }

    fn poke_code(&mut self, address: u32, from: &[u8]) {
        self.put_bytes(u64::from(address), from);
    }

    fn fence(&mut self, range: Range, jump: bool) {
        self.retired.add(range, jump);
    }

    fn unfence(&mut self, range: Range) {
        self.retired.remove(range);
    }

    fn unfence_all(&mut self, ranges: &[Range]) {
        self.retired.remove_all(ranges);
    }
}
