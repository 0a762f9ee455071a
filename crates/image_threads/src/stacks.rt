//! Which ranges of addresses are stacks, and the bytes of a stack.
ghost use Rattle.std.specs.Prelude.{◌≡◌, ◌+◌, ◌&&◌, ◌↔◌, length, IsTrue};
ghost use Rattle.image_memory.specs.Contents.{piece_range};
ghost use Rattle.image_memory.specs.Access.{after_write};
ghost use Rattle.image_memory.specs.Ranges.{are_same};
ghost use Rattle.image_threads.specs.Spawning.{is_writable, is_stack, AreStacks};

use image_memory::{Kind, Piece, Pieces, Space};
use ks_base::{Range, Ranges};

/// Whether each of some ranges of addresses is a writable piece.
pub fn are_stacks(pieces: &Pieces, stacks: &Ranges) -> bool
    ensures { IsTrue result ↔ AreStacks pieces.now stacks.now }
{
    stacks
        .as_slice()
        .iter()
        .all(|stack| is_stack(pieces.as_slice(), *stack))
}

fn is_stack(pieces: &[Piece], stack: Range) -> bool
    ensures { result ≡ is_stack pieces.now stack }
{
    pieces.iter().any(|piece| has_range(piece, stack))
}

/// Whether a piece is writable and has these addresses.
fn has_range(piece: &Piece, stack: Range) -> bool
    ensures { result ≡ (is_writable piece.now.kind && are_same (piece_range piece.now) stack) }
{
    let count = piece.bytes.len() as u64;
    let high = u64::from(stack.high);
    is_writable(piece.kind)
        && piece.base == stack.low
        && count <= high
        && u64::from(stack.low) + count == high
}

fn is_writable(kind: Kind) -> bool
    ensures { result ≡ is_writable kind }
{
    matches!(kind, Kind::Writable)
}

/// Writes the bytes of a whole stack.
pub(crate) fn fill_stack<S: Space>(space: &mut S, stack: Range, bytes: &[u8])
    requires writable { IsTrue (is_stack (S.contents space.old).pieces stack) }
    requires whole { stack.low + length bytes.now ≡ stack.high }
    ensures contents { S.contents space.new ≡ after_write (S.contents space.old) stack.low bytes.now }
    ensures room { S.room space.new ≡ S.room space.old }
{
    match space.write(stack.low, bytes) {
        Ok(()) => {}
        Err(_) => unreachable!(),
    }
}
