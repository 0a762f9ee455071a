//! Whether pieces may make up a memory.
ghost use Rattle.std.specs.Prelude.{◌≡◌, ◌≤◌, ◌<◌, ◌+◌, ◌^◌, ◌↔◌, length, IsTrue};
ghost use Rattle.image_memory.specs.Contents.{ArePlaced, piece_range};

use crate::types::{END_LIMIT, Piece, Pieces};

/// Whether no piece is empty, none ends above 0xFFFF0000, and they ascend by base without meeting.
pub fn are_placed(pieces: &Pieces) -> bool
    ensures { IsTrue result ↔ ArePlaced pieces.now }
{
    let mut floor = 0;
    for piece in pieces.as_slice() {
        if !fits_from(piece, floor) {
            return false;
        }
        floor = u64::from(piece.base) + piece.bytes.len() as u64;
    }
    true
}

/// Whether a piece begins at or above an address, isn't empty, and doesn't end above the limit.
fn fits_from(piece: &Piece, floor: u64) -> bool
    ensures { IsTrue result ↔ ((floor ≤ piece.now.base) × (0 < length piece.now.bytes)
        × ((piece_range piece.now).high ≤ 0xFFFF_0000)) }
{
    let base = u64::from(piece.base);
    let limit = u64::from(END_LIMIT);
    let count = piece.bytes.len() as u64;
    if base < floor || base > limit || count == 0 {
        return false;
    }
    count <= limit - base
}
