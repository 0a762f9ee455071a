//! Which ranges of addresses may be stacks of threads that are looked at.
ghost use Rattle.std.specs.Prelude.{◌≡◌, ◌≤◌, ◌%◌, ◌↔◌, IsTrue};
ghost use Rattle.std.specs.List.{Any};
ghost use Rattle.image_memory.specs.declared.types.Kind.TheVariants.{Writable};
ghost use Rattle.image_memory.specs.Contents.{piece_range};
ghost use Rattle.stack_scan.specs.Standing.{IsStack, LiesInWritable};

use image_memory::{Kind, Piece, Pieces};
use ks_base::Range;

/// Whether the bounds of a range of addresses are multiples of 4, and it lies in one writable piece.
pub fn is_stack(pieces: &Pieces, stack: Range) -> bool
    ensures { IsTrue result ↔ IsStack pieces.now stack }
{
    are_even(stack) && is_held(pieces.as_slice(), stack)
}

fn are_even(stack: Range) -> bool
    ensures { IsTrue result ↔ ((stack.low % 4 ≡ 0) × (stack.high % 4 ≡ 0)) }
{
    stack.low % 4 == 0 && stack.high % 4 == 0
}

fn is_held(pieces: &[Piece], stack: Range) -> bool
    ensures { IsTrue result ↔ Any (LiesInWritable stack) pieces.now }
{
    pieces.iter().any(|piece| lies_in_writable(piece, stack))
}

fn lies_in_writable(piece: &Piece, stack: Range) -> bool
    ensures { IsTrue result ↔ LiesInWritable stack piece.now }
{
    is_writable(piece.kind) && piece.base <= stack.low && ends_in(piece, stack.high)
}

fn is_writable(kind: Kind) -> bool
    ensures { IsTrue result ↔ (kind ≡ Writable) }
{
    kind == Kind::Writable
}

/// Whether an address isn't above a piece's end.
fn ends_in(piece: &Piece, high: u32) -> bool
    ensures { IsTrue result ↔ (high ≤ (piece_range piece.now).high) }
{
    high <= piece.base || (high - piece.base) as usize <= piece.bytes.len()
}
