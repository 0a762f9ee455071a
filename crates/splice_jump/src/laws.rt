//! What holds of memory with jumps.
ghost use Rattle.std.specs.Prelude.{◌≡◌, ◌≢◌, ℕ, ◌+◌, ◌≤◌, ◌<◌, ◌⊎◌, List, [], ◌∷◌, ◌++◌, length, map, Some, None};
ghost use Rattle.std.specs.Option.{option_map};
ghost use Rattle.std.specs.List.{All, Any};
ghost use Rattle.image_memory.specs.declared.types.Kind.TheVariants.{Code};
ghost use Rattle.image_memory.specs.declared.types.Fence.{Fence};
ghost use Rattle.image_memory.specs.declared.types.Piece.{Piece};
ghost use Rattle.image_memory.specs.Ranges.{MeetsNone};
ghost use Rattle.image_memory.specs.Contents.{Contents, IsValid, piece_range, holding, look_at};
ghost use Rattle.image_memory.specs.Access.{kind_of, write_fault, first_fault, byte_at, bytes_at, written, after_write};
ghost use Rattle.image_memory.specs.Fetch.{HasCode, code_from, view_at, jump_at};
ghost use Rattle.image_memory.specs.Changes.{with_piece, without_piece, after_add, after_fence};
ghost use Rattle.splice_jump.specs.Jump.{jump_bytes, five_at, with_jump, with_old};
ghost use Rattle.splice_jump.specs.Phases.{HomesAreNotLookedAt, JumpIsNeverHalf, LastBytesStand, WritesChangeTheirBytes};
ghost use Rattle.splice_jump.specs.Jumps.{jumped, jumped_memory, with_base, olds_at, unjumped, IsSpliced, AreSpliced};

/// In memory with jumps at spliced homes a thread meets at each address what it meets there in memory without them: at
/// a spliced home and elsewhere in a retired range no byte is looked at, and code that is met ends before the next one.
pub fn jumps_leave_views()
    ensures { (contents : Contents) (rows : List (ℕ × ℕ)) (pc : ℕ) → IsValid contents → AreSpliced contents rows →
        view_at (jumped_memory rows contents) pc ≡ view_at contents pc }
{}

/// At each of the homes stands the jump to its base.
pub fn jumps_stand()
    ensures { (contents : Contents) (rows : List (ℕ × ℕ)) → IsValid contents → AreSpliced contents rows →
        All (λ row. jump_at (jumped rows contents.pieces) row.0 ≡ jump_bytes row.0 row.1) rows }
{}

/// Jumps leave each piece its kind, its base and its length, and each byte but those five at the homes; so they leave
/// all that isn't code, and what is seen of it.
pub fn jumps_change_their_bytes_alone()
    ensures kinds { (rows : List (ℕ × ℕ)) (pieces : List Piece) →
        map kind_of (jumped rows pieces) ≡ map kind_of pieces }
    ensures ranges { (rows : List (ℕ × ℕ)) (pieces : List Piece) →
        map piece_range (jumped rows pieces) ≡ map piece_range pieces }
    ensures held { (rows : List (ℕ × ℕ)) (pieces : List Piece) (address : ℕ) →
        option_map kind_of (holding (jumped rows pieces) address) ≡ option_map kind_of (holding pieces address) }
    ensures looks { (rows : List (ℕ × ℕ)) (pieces : List Piece) (address : ℕ) →
        All (λ row. (address < row.0) ⊎ (row.0 + 5 ≤ address)) rows →
        look_at (jumped rows pieces) address ≡ look_at pieces address }
    ensures bytes { (rows : List (ℕ × ℕ)) (pieces : List Piece) (address : ℕ) →
        All (λ row. (address < row.0) ⊎ (row.0 + 5 ≤ address)) rows →
        byte_at (jumped rows pieces) address ≡ byte_at pieces address }
    ensures data_looks { (contents : Contents) (rows : List (ℕ × ℕ)) (address : ℕ) → IsValid contents →
        AreSpliced contents rows → code_from contents.pieces address ≡ None →
        look_at (jumped rows contents.pieces) address ≡ look_at contents.pieces address }
    ensures data_bytes { (contents : Contents) (rows : List (ℕ × ℕ)) (address : ℕ) → IsValid contents →
        AreSpliced contents rows → code_from contents.pieces address ≡ None →
        byte_at (jumped rows contents.pieces) address ≡ byte_at contents.pieces address }
{}

/// It comes to the same whether data that can be written are written before or after jumps at spliced homes, and before
/// or after old bytes are put back over code.
pub fn data_are_written_past_jumps()
    ensures jumps { (contents : Contents) (rows : List (ℕ × ℕ)) (start : ℕ) (bytes : List ℕ) → IsValid contents →
        AreSpliced contents rows → first_fault (write_fault contents.pieces) start (length bytes) ≡ None →
        written start bytes (jumped rows contents.pieces) ≡ jumped rows (written start bytes contents.pieces) }
    ensures old { (contents : Contents) (home start : ℕ) (old bytes : List ℕ) → IsValid contents →
        HasCode contents.pieces home (length old) →
        first_fault (write_fault contents.pieces) start (length bytes) ≡ None →
        with_old home old (written start bytes contents.pieces)
        ≡ written start bytes (with_old home old contents.pieces) }
{}

/// It comes to the same whether a piece that meets none is put among pieces before or after jumps at spliced homes, and
/// whether any piece is taken out before or after jumps.
pub fn pieces_come_and_go_past_jumps()
    ensures added { (contents : Contents) (rows : List (ℕ × ℕ)) (piece : Piece) → IsValid contents →
        AreSpliced contents rows → MeetsNone piece_range (piece_range piece) contents.pieces →
        with_piece piece (jumped rows contents.pieces) ≡ jumped rows (with_piece piece contents.pieces) }
    ensures dropped { (rows : List (ℕ × ℕ)) (base : ℕ) (pieces : List Piece) →
        without_piece base (jumped rows pieces) ≡ jumped rows (without_piece base pieces) }
{}

/// A jump at a home without one is a row more; a jump at a home that has one is that row with the other base.
pub fn jumps_are_added_and_replaced()
    ensures added { (rows : List (ℕ × ℕ)) (home base : ℕ) (pieces : List Piece) →
        jumped (rows ++ (home, base) ∷ []) pieces ≡ with_jump home base (jumped rows pieces) }
    ensures replaced { (contents : Contents) (rows : List (ℕ × ℕ)) (home base : ℕ) → IsValid contents →
        AreSpliced contents rows → Any (λ row. row.0 ≡ home) rows →
        with_jump home base (jumped rows contents.pieces) ≡ jumped (with_base home base rows) contents.pieces }
{}

/// The five old bytes, put back at the home of the last row, take that row away. Those of all rows, put back at their
/// homes, leave no jump.
pub fn jumps_are_taken_back()
    ensures last { (contents : Contents) (rows : List (ℕ × ℕ)) (home base : ℕ) → IsValid contents →
        AreSpliced contents (rows ++ (home, base) ∷ []) →
        with_old home (five_at contents.pieces home) (jumped (rows ++ (home, base) ∷ []) contents.pieces)
        ≡ jumped rows contents.pieces }
    ensures all { (contents : Contents) (rows : List (ℕ × ℕ)) → IsValid contents → AreSpliced contents rows →
        unjumped (olds_at contents.pieces rows) (jumped rows contents.pieces) ≡ contents.pieces }
{}

/// Bytes that lie in one piece of code are code, each of them, end at 0xFFFF0000 or below, and stay so whatever is
/// written: after a jump was written at a home, old bytes can be put back. They stay so when a piece is added that
/// meets none.
pub fn code_stays_code()
    ensures held { (contents : Contents) (start count address : ℕ) → IsValid contents →
        HasCode contents.pieces start count → start ≤ address → address < start + count →
        option_map kind_of (holding contents.pieces address) ≡ Some Code }
    ensures ends { (contents : Contents) (start count : ℕ) → IsValid contents → 0 < count →
        HasCode contents.pieces start count → start + count ≤ 0xFFFF_0000 }
    ensures stays { (pieces : List Piece) (start : ℕ) (bytes : List ℕ) (address count : ℕ) →
        HasCode pieces address count → HasCode (written start bytes pieces) address count }
    ensures added { (contents : Contents) (piece : Piece) (address count : ℕ) → IsValid contents →
        MeetsNone piece_range (piece_range piece) contents.pieces → HasCode contents.pieces address count →
        HasCode (with_piece piece contents.pieces) address count }
    ensures bytes { (contents : Contents) (piece : Piece) (address count : ℕ) → IsValid contents →
        MeetsNone piece_range (piece_range piece) contents.pieces → HasCode contents.pieces address count →
        bytes_at (with_piece piece contents.pieces) address count ≡ bytes_at contents.pieces address count }
{}

/// Memory with jumps is a memory. Homes stay spliced when jumps or other bytes are written, when a piece is added that
/// meets none, and when a range is retired; and with a row more, a row fewer or another base.
pub fn homes_stay_spliced()
    ensures valid { (contents : Contents) (rows : List (ℕ × ℕ)) → IsValid contents →
        IsValid (jumped_memory rows contents) }
    ensures jumped { (contents : Contents) (rows others : List (ℕ × ℕ)) → AreSpliced contents rows →
        AreSpliced (jumped_memory others contents) rows }
    ensures written { (contents : Contents) (rows : List (ℕ × ℕ)) (start : ℕ) (bytes : List ℕ) →
        AreSpliced contents rows → AreSpliced (after_write contents start bytes) rows }
    ensures added { (contents : Contents) (rows : List (ℕ × ℕ)) (piece : Piece) → IsValid contents →
        AreSpliced contents rows → MeetsNone piece_range (piece_range piece) contents.pieces →
        AreSpliced (after_add contents piece) rows }
    ensures fenced { (contents : Contents) (rows : List (ℕ × ℕ)) (fence : Fence) → AreSpliced contents rows →
        AreSpliced (after_fence contents fence) rows }
    ensures appended { (contents : Contents) (rows : List (ℕ × ℕ)) (home base : ℕ) → AreSpliced contents rows →
        IsSpliced contents home → All (λ row. row.0 ≢ home) rows →
        AreSpliced contents (rows ++ (home, base) ∷ []) }
    ensures shortened { (contents : Contents) (rows : List (ℕ × ℕ)) (home base : ℕ) →
        AreSpliced contents (rows ++ (home, base) ∷ []) → AreSpliced contents rows }
    ensures replaced { (contents : Contents) (rows : List (ℕ × ℕ)) (home base : ℕ) → AreSpliced contents rows →
        AreSpliced contents (with_base home base rows) }
{}

/// Whatever five bytes stand at a spliced home, a thread meets at each address what it met there, at another spliced
/// home it fetches the same jump, and each byte of data is as it was.
pub fn homes_are_not_looked_at()
    ensures { HomesAreNotLookedAt }
{}

/// Of bytes that are written twice at a home, the last stand there.
pub fn last_bytes_stand()
    ensures { LastBytesStand }
{}

/// In each phase of writing a jump the whole jump stands at its home, or the home's first byte traps: E9 never stands
/// before other bytes than the jump's own.
pub fn jump_is_never_half()
    ensures { JumpIsNeverHalf }
{}

/// Of the three writes that make a jump the first changes the home's first byte alone, the second at most the four
/// behind it, and the third the first byte again.
pub fn writes_change_their_bytes()
    ensures { WritesChangeTheirBytes }
{}
