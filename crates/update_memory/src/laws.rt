//! What holds of memory to which pieces were added, and in which ranges were retired.
ghost use Rattle.std.specs.Prelude.{◌≡◌, ◌≤◌, ℕ, List, length, map};
ghost use Rattle.std.specs.List.{All, Contains};
ghost use Rattle.ks_base.specs.declared.places.Range.{Range};
ghost use Rattle.image_memory.specs.declared.types.Fence.{Fence};
ghost use Rattle.image_memory.specs.declared.types.Piece.{Piece};
ghost use Rattle.image_memory.specs.Contents.{Contents, IsValid, fence_range};
ghost use Rattle.image_memory.specs.Access.{bytes_at, written};
ghost use Rattle.image_memory.specs.Fetch.{HasCode};
ghost use Rattle.image_memory.specs.Changes.{ArePlaceable, without_ranges};
ghost use Rattle.splice_jump.specs.Jumps.{AreSpliced, jumped, jumped_memory, olds_at, unjumped};
ghost use Rattle.update_memory.specs.Added.{AreAddable, with_pieces};
ghost use Rattle.update_memory.specs.Retired.{AreRetirable, with_fences, with_ranges};
ghost use Rattle.update_memory.specs.Rows.{rows_of, olds_of};
ghost use Rattle.update_memory.specs.Withdrawn.{without_pieces, ranges_but, withdrawn_memory};
ghost use Rattle.update_memory.specs.declared.types.Jump.{Jump};

use image_memory::pieces_stay_placed;
use splice_jump::{code_stays_code, homes_stay_spliced, pieces_come_and_go_past_jumps};

/// Memory with pieces more is a memory, with the retired ranges that it had. Each piece that was there is there; where
/// bytes of one code piece were, they are, and homes stay spliced.
pub fn pieces_are_added()
    ensures valid { (contents : Contents) (pieces : List Piece) → IsValid contents → ArePlaceable pieces →
        AreAddable contents pieces → IsValid (with_pieces contents pieces) }
    ensures fences { (contents : Contents) (pieces : List Piece) →
        (with_pieces contents pieces).fences ≡ contents.fences }
    ensures kept { (contents : Contents) (pieces : List Piece) (piece : Piece) → Contains contents.pieces piece →
        Contains (with_pieces contents pieces).pieces piece }
    ensures given { (contents : Contents) (pieces : List Piece) (piece : Piece) → Contains pieces piece →
        Contains (with_pieces contents pieces).pieces piece }
    ensures code { (contents : Contents) (pieces : List Piece) (address count : ℕ) → IsValid contents →
        ArePlaceable pieces → AreAddable contents pieces → HasCode contents.pieces address count →
        HasCode (with_pieces contents pieces).pieces address count }
    ensures bytes { (contents : Contents) (pieces : List Piece) (address count : ℕ) → IsValid contents →
        ArePlaceable pieces → AreAddable contents pieces → HasCode contents.pieces address count →
        bytes_at (with_pieces contents pieces).pieces address count ≡ bytes_at contents.pieces address count }
    ensures spliced { (contents : Contents) (pieces : List Piece) (rows : List (ℕ × ℕ)) → IsValid contents →
        ArePlaceable pieces → AreAddable contents pieces → AreSpliced contents rows →
        AreSpliced (with_pieces contents pieces) rows }
{
    // Nothing is done here: the laws say that where one piece is added pieces stay placed, code stays code, and homes
    // stay spliced.
    pieces_stay_placed();
    code_stays_code();
    homes_stay_spliced();
}

/// Memory with retired ranges more is a memory, with the pieces that it had. The retired ranges are those that were
/// and those that are given, each put in its place; and each is there with whether its low is a spliced home.
pub fn ranges_are_retired()
    ensures valid { (contents : Contents) (fences : List Fence) → IsValid contents → AreRetirable contents fences →
        IsValid (with_fences contents fences) }
    ensures pieces { (contents : Contents) (fences : List Fence) →
        (with_fences contents fences).pieces ≡ contents.pieces }
    ensures ranges { (contents : Contents) (fences : List Fence) →
        map fence_range (with_fences contents fences).fences
        ≡ with_ranges (map fence_range contents.fences) (map fence_range fences) }
    ensures kept { (contents : Contents) (fences : List Fence) (fence : Fence) → Contains contents.fences fence →
        Contains (with_fences contents fences).fences fence }
    ensures given { (contents : Contents) (fences : List Fence) (fence : Fence) → Contains fences fence →
        Contains (with_fences contents fences).fences fence }
{}

/// Pieces that were added and ranges that were retired are taken away again, and what was there before is left. The
/// retired ranges of what is left are the bare ranges that are left.
pub fn changes_are_withdrawn()
    ensures pieces { (contents : Contents) (pieces : List Piece) → IsValid contents → ArePlaceable pieces →
        AreAddable contents pieces →
        without_pieces (map (λ piece. piece.base) pieces) (with_pieces contents pieces).pieces ≡ contents.pieces }
    ensures fences { (contents : Contents) (fences : List Fence) → IsValid contents → AreRetirable contents fences →
        without_ranges (map fence_range fences) (with_fences contents fences).fences ≡ contents.fences }
    ensures ranges { (contents : Contents) (fences : List Fence) → IsValid contents → AreRetirable contents fences →
        ranges_but (map fence_range fences) (with_ranges (map fence_range contents.fences) (map fence_range fences))
        ≡ map fence_range contents.fences }
    ensures bare { (taken : List Range) (fences : List Fence) →
        map fence_range (without_ranges taken fences) ≡ ranges_but taken (map fence_range fences) }
{}

/// It comes to the same whether pieces are taken away before or after bytes are written, for a write changes no base.
pub fn dropping_goes_past_writes()
    ensures written { (bases : List ℕ) (start : ℕ) (bytes : List ℕ) (pieces : List Piece) →
        without_pieces bases (written start bytes pieces) ≡ written start bytes (without_pieces bases pieces) }
    ensures jumped { (bases : List ℕ) (rows : List (ℕ × ℕ)) (pieces : List Piece) →
        without_pieces bases (jumped rows pieces) ≡ jumped rows (without_pieces bases pieces) }
    ensures unjumped { (bases : List ℕ) (olds : List (ℕ × List ℕ)) (pieces : List Piece) →
        without_pieces bases (unjumped olds pieces) ≡ unjumped olds (without_pieces bases pieces) }
{}

/// Memory from which pieces and retired ranges are taken away is a memory.
pub fn memory_stays_memory()
    ensures { (contents : Contents) (bases : List ℕ) (taken : List Range) → IsValid contents →
        IsValid (record {
          pieces = without_pieces bases contents.pieces;
          fences = without_ranges taken contents.fences;
        }) }
{}

/// Code that is left after pieces were taken away was there before, with the same bytes.
pub fn code_that_stays()
    ensures code { (contents : Contents) (bases : List ℕ) (address count : ℕ) → IsValid contents →
        HasCode (without_pieces bases contents.pieces) address count → HasCode contents.pieces address count }
    ensures bytes { (contents : Contents) (bases : List ℕ) (address count : ℕ) → IsValid contents →
        HasCode (without_pieces bases contents.pieces) address count →
        bytes_at (without_pieces bases contents.pieces) address count ≡ bytes_at contents.pieces address count }
{}

/// It comes to the same whether pieces are added before or after old bytes are put back over code, and before or after
/// jumps are written at spliced homes.
pub fn pieces_are_added_past_code()
    ensures old { (contents : Contents) (pieces : List Piece) (olds : List (ℕ × List ℕ)) → IsValid contents →
        ArePlaceable pieces → AreAddable contents pieces →
        All (λ old. HasCode contents.pieces old.0 (length old.1)) olds →
        (with_pieces (record contents { pieces = unjumped olds contents.pieces }) pieces).pieces
        ≡ unjumped olds (with_pieces contents pieces).pieces }
    ensures jumps { (contents : Contents) (pieces : List Piece) (rows : List (ℕ × ℕ)) → IsValid contents →
        ArePlaceable pieces → AreAddable contents pieces → AreSpliced contents rows →
        (with_pieces (jumped_memory rows contents) pieces).pieces ≡ jumped rows (with_pieces contents pieces).pieces }
{
    // Nothing is done here: the laws say what stays where one piece is added, and that it is added past jumps as
    // without them.
    pieces_stay_placed();
    code_stays_code();
    homes_stay_spliced();
    pieces_come_and_go_past_jumps();
}

/// An update's changes, all taken back, leave the memory that there was before: pieces that were added, ranges that
/// were retired, and jumps at homes that are spliced then, with the bytes that stood there before.
pub fn updates_are_withdrawn()
    ensures { (contents : Contents) (pieces : List Piece) (fences : List Fence) (jumps : List Jump) →
        IsValid contents → ArePlaceable pieces → AreAddable contents pieces → AreRetirable contents fences →
        AreSpliced (with_fences (with_pieces contents pieces) fences) (rows_of jumps) →
        olds_of jumps ≡ olds_at contents.pieces (rows_of jumps) →
        withdrawn_memory (map (λ piece. piece.base) pieces) (map fence_range fences) (olds_of jumps)
        (jumped_memory (rows_of jumps) (with_fences (with_pieces contents pieces) fences))
        ≡ contents }
{
    // Nothing is done here: the law says that pieces stay placed.
    pieces_stay_placed();
}
