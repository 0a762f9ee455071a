//! Bounds and conditions that the addresses and ranges of an image keep.
ghost use Rattle.std.specs.Prelude.{◌≡◌};
ghost use Rattle.image_file.specs.Rules.{is_aligned, is_arena_placed, meets_a_piece};
ghost use Rattle.image_memory.specs.Contents.{ArePlaced};

use image_memory::{END_LIMIT, Piece, meets};
use ks_base::Range;

/// The file begins with the bytes 4B 49 4D 31 ("KIM1"), read as a number.
pub(crate) const MAGIC: u32 = 0x314D_494B;

/// The lowest address of a region or stack.
pub(crate) const LOWEST: u32 = 0x1000;

/// All regions, the arena, and all stacks have at most so many bytes each.
pub(crate) const MEMORY_LIMIT: u32 = 16_777_216;

/// Whether an address is a multiple of 16.
pub(crate) fn is_aligned(address: u32) -> bool
    ensures { result ≡ is_aligned address }
{
    address % 16 == 0
}

/// Whether an arena is empty or lies where memory may lie.
pub(crate) fn is_arena_placed(low: u32, high: u32) -> bool
    ensures { result ≡ is_arena_placed low high }
{
    low == high || (low >= LOWEST && high <= END_LIMIT)
}

/// Whether a range shares an address with one of the pieces.
pub(crate) fn meets_a_piece(pieces: &[Piece], range: Range) -> bool
    requires { ArePlaced pieces.now }
    ensures { result ≡ meets_a_piece pieces.now range }
{
    for piece in pieces {
        if meets(range, piece.range()) {
            return true;
        }
    }
    false
}
