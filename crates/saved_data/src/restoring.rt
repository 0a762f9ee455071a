//! Bytes that are put back.
ghost use Rattle.std.specs.Prelude.{◌≡◌, IsTrue};
ghost use Rattle.image_memory.specs.Access.{after_write};
ghost use Rattle.image_memory.specs.Contents.{piece_range};
ghost use Rattle.image_threads.specs.Spawning.{is_stack};
ghost use Rattle.saved_data.specs.Saved.{CanBePutBack, put_back};

use image_memory::{Piece, Pieces, Space};

/// Writes the bytes of saved pieces where they lie, one piece after another. Nothing else changes. It takes no memory.
pub fn put_back<S: Space>(space: &mut S, saved: &Pieces)
    requires { CanBePutBack (S.contents space.old).pieces saved.now }
    ensures contents { S.contents space.new ≡ put_back (S.contents space.old) saved.now }
    ensures room { S.room space.new ≡ S.room space.old }
{
    for piece in saved.as_slice() {
        write_over(space, piece);
    }
}

/// Writes the bytes of a piece over those of the writable piece that lies there.
fn write_over<S: Space>(space: &mut S, piece: &Piece)
    requires { IsTrue (is_stack (S.contents space.old).pieces (piece_range piece.now)) }
    ensures contents { S.contents space.new ≡ after_write (S.contents space.old) piece.now.base piece.now.bytes }
    ensures room { S.room space.new ≡ S.room space.old }
{
    match space.write(piece.base, piece.bytes.as_slice()) {
        Ok(()) => {}
        Err(_) => unreachable!(),
    }
}
