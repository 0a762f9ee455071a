//! Finding a piece by an address.
ghost use Rattle.std.specs.Prelude.{◌≡◌, ◌≤◌, ◌<◌, length, IfSome, IsTrue};
ghost use Rattle.std.specs.Option.{option_copied};
ghost use Rattle.std.specs.List.{AllWithin};
ghost use Rattle.image_memory.specs.Ranges.{Ascends, lies_in};
ghost use Rattle.image_memory.specs.Contents.{piece_range, holding};

use crate::types::Piece;

/// How many pieces begin at or below an address.
pub(crate) fn begun(pieces: &[Piece], address: u64) -> usize
    requires { Ascends piece_range 0 pieces.now }
    ensures bound { result ≤ length pieces.now }
    ensures below { AllWithin (λ piece. piece.base ≤ address) pieces.now 0 result }
    ensures above { AllWithin (λ piece. address < piece.base) pieces.now result (length pieces.now) }
{
    pieces.partition_point(|piece| u64::from(piece.base) <= address)
}

/// The piece that has a byte at an address, `None` exactly where there is none. It is found by halving,
/// and takes no memory.
pub fn piece_at(pieces: &[Piece], address: u64) -> Option<&Piece>
    requires { Ascends piece_range 0 pieces.now }
    ensures piece { option_copied result ≡ holding pieces.now address }
    ensures holds { IfSome result (λ piece. IsTrue (lies_in address (piece_range piece.now))) }
{
    let begun = begun(pieces, address);
    if begun == 0 {
        return None;
    }
    let piece = &pieces[begun - 1];
    if piece.holds(address) {
        Some(piece)
    } else {
        None
    }
}
