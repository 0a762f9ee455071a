//! What holds of every list of pieces.
ghost use Rattle.std.specs.Prelude.{◌≡◌, ◌≤◌, ◌<◌, List};
ghost use Rattle.image_memory.specs.declared.types.Piece.{Piece};
ghost use Rattle.image_memory.specs.Ranges.{MeetsNone};
ghost use Rattle.image_memory.specs.Contents.{ArePlaced, piece_range};
ghost use Rattle.image_memory.specs.Changes.{IsPlaceable, with_piece};

/// Pieces that may make up a memory still may when a piece is put among them that isn't empty, doesn't end above
/// 0xFFFF0000 and meets none of them.
pub fn pieces_stay_placed()
    ensures { (piece : Piece) (pieces : List Piece) → ArePlaced pieces → IsPlaceable (piece_range piece)
        → MeetsNone piece_range (piece_range piece) pieces → ArePlaced (with_piece piece pieces) }
{}
