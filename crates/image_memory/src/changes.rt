//! Putting pieces and ranges in their places, and taking them out.
ghost use Rattle.std.specs.Prelude.{◌≡◌, ◌≤◌, ◌<◌, ◌+◌, ◌^◌, insert, map, vec_len, vec_capacity, IfOk, OnOk, OnErr};
ghost use Rattle.std.specs.List.{All};
ghost use Rattle.image_memory.specs.Ranges.{Ascends};
ghost use Rattle.image_memory.specs.Contents.{piece_range};
ghost use Rattle.image_memory.specs.Changes.{with_piece};

use crate::lookup::begun;
use crate::types::Piece;
use ks_base::Ranges;
use std::alloc::{AllocError, Global};

/// Puts a piece among pieces that ascend, before the first that begins above it. Its place is found by halving.
/// If memory runs out the pieces are as before.
pub fn put_piece(pieces: &mut Vec<Piece>, piece: Piece) -> Result<(), AllocError>
    requires { Ascends piece_range 0 pieces.old.items }
    ensures ok { OnOk result (pieces.new.items ≡ with_piece piece pieces.old.items) }
    ensures err { OnErr result (pieces.new.items ≡ pieces.old.items) }
{
    pieces.reserve(1)?;
    put_spare(pieces, piece);
    Ok(())
}

/// Puts a piece where there is room for it.
pub(crate) fn put_spare(pieces: &mut Vec<Piece>, piece: Piece)
    requires ascend { Ascends piece_range 0 pieces.old.items }
    requires room { vec_len pieces.old < vec_capacity pieces.old }
    ensures items { pieces.new.items ≡ with_piece piece pieces.old.items }
    ensures len { vec_len pieces.new ≡ vec_len pieces.old + 1 }
    ensures capacity { vec_capacity pieces.old ≤ vec_capacity pieces.new }
{
    let at = begun(pieces.as_slice(), u64::from(piece.base));
    insert_spare(pieces, at, piece);
}

/// Puts an item at a place, before those from it on. There is room for it, so no memory is taken.
pub fn insert_spare<T: Drop>(items: &mut Vec<T>, at: usize, item: T)
    requires within { at ≤ vec_len items.old }
    requires room { vec_len items.old < vec_capacity items.old }
    ensures items { items.new.items ≡ insert items.old.items at item }
    ensures len { vec_len items.new ≡ vec_len items.old + 1 }
    ensures capacity { vec_capacity items.old ≤ vec_capacity items.new }
{
    // This can't fail, since there is room.
    let _ = items.insert(at, item);
}

/// The ranges of pieces, in their order. `Err` comes only if memory runs out.
pub fn ranges_of(alloc: Global, pieces: &[Piece]) -> Result<Ranges, AllocError>
    requires { All (λ piece. (piece_range piece).high < 2 ^ 32) pieces.now }
    ensures { IfOk result (λ ranges. ranges ≡ map piece_range pieces.now) }
{
    let mut ranges = Ranges::new(alloc);
    for piece in pieces {
        ranges.push(piece.range())?;
    }
    Ok(ranges)
}
