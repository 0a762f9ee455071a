//! What every representation of memory offers.
ghost use Rattle.std.specs.Prelude.{◌≡◌, ◌≤◌, ◌<◌, ◌-◌, [], length, map, OnOk, OnErr, IfOk, MatchResult};
ghost use Rattle.std.specs.List.{All, slice_get};
ghost use Rattle.std.specs.Option.{option_map};
ghost use Rattle.image_memory.specs.Ranges.{MeetsNone};
ghost use Rattle.image_memory.specs.Contents.{Contents, Room, IsValid, piece_range, shape_of, fence_range, look_at, spliced_at};
ghost use Rattle.image_memory.specs.Access.{first_fault, read_fault, write_fault, bytes_at, after_write};
ghost use Rattle.image_memory.specs.Fetch.{window_at, HasCode, TellsView};
ghost use Rattle.image_memory.specs.Changes.{ArePlaceable, FitsSpare, HasPiece, IsRetired, without_first};
ghost use Rattle.image_memory.specs.Changes.{after_add, after_drop, after_fence, after_unfence, after_unfence_all};

use crate::types::{Kind, Piece, Pieces, Window};
use ks_base::{Fault, Range};
use std::alloc::AllocError;

/// A memory: pieces in ascending order of base, and retired ranges in ascending order, each with
/// whether its low is a spliced home (`contents`); and what is kept spare for pieces and fences to come
/// (`room`). At every moment no piece is empty, none ends above 0xFFFF0000, no two pieces meet, no
/// retired range is empty and no two of these meet. Only `reserve` takes memory.
pub trait Space {
    ghost contents: { Self → Contents };

    ghost room: { Self → Room };

    /// The kind of the piece at an address, and the byte there; `None` exactly where no piece holds the
    /// address.
    fn look(&self, address: u32) -> Option<(Kind, u8)>
        ensures { result ≡ look_at (contents self.now).pieces address };

    /// The kind and the range of the piece at index `i`, counted from 0 in ascending order; `None` exactly where there is
    /// none.
    fn piece(&self, i: u32) -> Option<(Kind, Range)>
        ensures { result ≡ option_map shape_of (slice_get (contents self.now).pieces i) };

    /// Reads the bytes from an address on as data. [`Fault::Unmapped`] or [`Fault::CodeAccess`] exactly
    /// where the first byte that can't be read has no piece or is code; `into` is then as before.
    fn read(&self, address: u32, into: &mut [u8]) -> Result<(), Fault>
        ensures ok { OnOk result (into.new ≡ bytes_at (contents self.now).pieces address (length into.old)) }
        ensures err { OnErr result (into.new ≡ into.old) }
        ensures cause { MatchResult result
            (λ _. first_fault (read_fault (contents self.now).pieces) address (length into.old) ≡ None)
            (λ f. first_fault (read_fault (contents self.now).pieces) address (length into.old) ≡ Some f) };

    /// Writes bytes as data from an address on. [`Fault::Unmapped`], [`Fault::CodeAccess`] or
    /// [`Fault::ReadOnlyWrite`] exactly where the first byte that can't be written has no piece, is code
    /// or is in a read-only piece; nothing is written then.
    fn write(&mut self, address: u32, from: &[u8]) -> Result<(), Fault>
        ensures ok { OnOk result (contents self.new ≡ after_write (contents self.old) address from.now) }
        ensures err { OnErr result (contents self.new ≡ contents self.old) }
        ensures room { room self.new ≡ room self.old }
        ensures cause { MatchResult result
            (λ _. first_fault (write_fault (contents self.old).pieces) address (length from.now) ≡ None)
            (λ f. first_fault (write_fault (contents self.old).pieces) address (length from.now) ≡ Some f) };

    /// What is fetched at `pc`: at most 15 bytes of the code piece that holds it, which end before the
    /// next retired range. In a retired range it is the jump's five bytes, as far as the piece goes, at a
    /// spliced home, and [`Fault::Stray`] elsewhere. [`Fault::Unmapped`] exactly where no code piece
    /// holds `pc`.
    fn window(&self, pc: u32) -> Result<Window, Fault>
        ensures exact { result ≡ window_at (contents self.now) pc }
        ensures short { IfOk result (λ window. window.length ≤ 15) }
        ensures tells { TellsView (contents self.now) pc result };

    /// Whether `pc` is a spliced home.
    fn spliced(&self, pc: u32) -> bool
        ensures { result ≡ spliced_at (contents self.now).fences pc };

    /// Makes room for pieces and retired ranges to come: the spare ranges are then those of `pieces`, and at least
    /// `fences` retired ranges are spare. What the memory holds stays, whatever the answer is. `Err` comes only if
    /// memory runs out, and nothing is said of the room then.
    fn reserve(&mut self, pieces: &Pieces, fences: u32) -> Result<(), AllocError>
        requires { ArePlaceable pieces.now }
        ensures contents { contents self.new ≡ contents self.old }
        ensures ranges { OnOk result ((room self.new).ranges ≡ map piece_range pieces.now) }
        ensures fences { OnOk result (fences ≤ (room self.new).fences) };

    /// Adds a piece whose range is spare and meets no piece. The range, the first of the spare ones that is this
    /// one, is spare no longer.
    fn add_piece(&mut self, piece: Piece)
        requires spare { FitsSpare (room self.old) piece }
        requires apart { MeetsNone piece_range (piece_range piece) (contents self.old).pieces }
        ensures contents { contents self.new ≡ after_add (contents self.old) piece }
        ensures room { room self.new
            ≡ record (room self.old) { ranges = without_first (piece_range piece) (room self.old).ranges } };

    /// Takes away the piece that begins at a base. No range is spare then.
    fn drop_piece(&mut self, base: u32)
        requires { HasPiece (contents self.old) base }
        ensures contents { contents self.new ≡ after_drop (contents self.old) base }
        ensures room { room self.new ≡ record (room self.old) { ranges = [] } };

    /// Writes bytes of code, which all lie in one code piece, from an address on.
    fn poke_code(&mut self, address: u32, from: &[u8])
        requires { HasCode (contents self.old).pieces address (length from.now) }
        ensures contents { contents self.new ≡ after_write (contents self.old) address from.now }
        ensures room { room self.new ≡ room self.old };

    /// Retires a range, which isn't empty and meets no retired one. With `jump` its low is a spliced home. It takes one
    /// spare retired range.
    fn fence(&mut self, range: Range, jump: bool)
        requires spare { 0 < (room self.old).fences }
        requires full { range.low < range.high }
        requires apart { MeetsNone fence_range range (contents self.old).fences }
        ensures contents { contents self.new ≡ after_fence (contents self.old) (record { range = range; jump = jump }) }
        ensures room { room self.new ≡ record (room self.old) { fences = (room self.old).fences - 1 } };

    /// Ends the retirement of a range; its low is then no spliced home.
    fn unfence(&mut self, range: Range)
        requires { IsRetired (contents self.old) range }
        ensures contents { contents self.new ≡ after_unfence (contents self.old) range }
        ensures room { room self.new ≡ room self.old };

    /// Ends the retirement of ranges, in one pass over the retired ones, whatever their order; their lows are then no
    /// spliced homes.
    fn unfence_all(&mut self, ranges: &[Range])
        requires { All (IsRetired (contents self.old)) ranges.now }
        ensures contents { contents self.new ≡ after_unfence_all (contents self.old) ranges.now }
        ensures room { room self.new ≡ room self.old };

    ghost valid: { (space : Self) → IsValid (contents space) };
}
