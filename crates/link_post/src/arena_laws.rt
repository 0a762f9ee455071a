//! What holds of what is left of free ranges.
ghost use Rattle.std.specs.Prelude.{◌≡◌, ◌≤◌, ℕ, ◌&&◌, not, List, [], ◌∷◌, map, fold};
ghost use Rattle.std.specs.List.{list_any, All};
ghost use Rattle.std.specs.List.Sorted.{IsPermutation};
ghost use Rattle.ks_base.specs.declared.places.Range.{Range};
ghost use Rattle.image_memory.specs.declared.types.Piece.{Piece};
ghost use Rattle.image_memory.specs.Ranges.{Ascends, MeetsNone, lies_in};
ghost use Rattle.image_memory.specs.Contents.{piece_range};
ghost use Rattle.image_memory.specs.Changes.{with_piece};
ghost use Rattle.link_post.specs.Places.{without, is_one_of, NeverTouch};

/// In whichever order ranges are taken, the same is left.
pub fn order_has_no_say()
    ensures { (free a b : List Range) → IsPermutation a b → fold without free a ≡ fold without free b }
{}

/// Where pieces are put among others, all of them together leave of free ranges what the added ones leave of what the
/// others leave.
pub fn gaps_of_pieces()
    ensures { (free : List Range) (pieces more : List Piece)
        → fold without free (map piece_range (fold (λ pieces piece. with_piece piece pieces) pieces more))
        ≡ fold without (fold without free (map piece_range pieces)) (map piece_range more) }
{}

/// What pieces leave of free ranges that ascend below a limit ascends below it, and shares no address with a piece.
pub fn gaps_are_free()
    ensures ascend { (free : List Range) (pieces : List Piece) → Ascends (λ range. range) 0 free
        → Ascends (λ range. range) 0 (fold without free (map piece_range pieces)) }
    ensures below { (limit : ℕ) (free : List Range) (pieces : List Piece) → All (λ range. range.high ≤ limit) free
        → All (λ gap. gap.high ≤ limit) (fold without free (map piece_range pieces)) }
    ensures apart { (free : List Range) (pieces : List Piece)
        → All (λ gap. MeetsNone piece_range gap pieces) (fold without free (map piece_range pieces)) }
{}

/// An address lies in what is left of free ranges exactly where it lies in one of them and in none of the ranges that
/// were taken, or in none of the pieces; and of the gaps of one range each ends below where those after it begin, so
/// that no two touch.
pub fn gaps_are_all_that_is_free()
    ensures exactly { (free taken : List Range) (address : ℕ) → is_one_of address (fold without free taken)
        ≡ (is_one_of address free && not (is_one_of address taken)) }
    ensures pieces { (free : List Range) (pieces : List Piece) (address : ℕ)
        → is_one_of address (fold without free (map piece_range pieces))
        ≡ (is_one_of address free && not (list_any (λ piece. lies_in address (piece_range piece)) pieces)) }
    ensures between { (range : Range) (taken : List Range) → NeverTouch (fold without (range ∷ []) taken) }
{}
