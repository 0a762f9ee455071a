//! What holds of the room for a jump and of what is retired, for those who make an update.
ghost use Rattle.std.specs.Prelude.{◌≡◌, ◌≤◌, ◌<◌, ℕ, ◌+◌, List, None, map};
ghost use Rattle.std.specs.List.{All, IsDistinct};
ghost use Rattle.ks_base.specs.declared.places.Range.{Range};
ghost use Rattle.i386_reloc.specs.Normal.{same_bytes};
ghost use Rattle.image_memory.specs.Contents.{Contents};
ghost use Rattle.image_memory.specs.Fetch.{HasCode, view_at};
ghost use Rattle.symbol_table.specs.declared.symbols.Symbol.{Symbol};
ghost use Rattle.update_retired.specs.declared.types.OldFunction.{OldFunction};
ghost use Rattle.update_retired.specs.Room.{HaveOneShape, end_of_code, padded_end, room};
ghost use Rattle.update_retired.specs.Roomy.{HasRoom, PaddedTo};
ghost use Rattle.update_retired.specs.Retired.{retired_by, section_of};
ghost use Rattle.update_retired.specs.Overlaps.{LieApart, code_refusal};

use ia32_decode::instructions_have_bytes;

/// Where nothing in the code stands in an update's way, and its functions have distinct sections and aren't empty, what
/// it retires lies apart: no range is empty, no two meet, and none meets one that is retired already.
pub fn retired_code_lies_apart()
    ensures { (contents : Contents) (symbols : List Symbol) (retired : List Range) (olds : List OldFunction)
        → IsDistinct same_bytes (map section_of olds) → All (λ old. 0 < old.length) olds
        → code_refusal contents symbols retired olds ≡ None → LieApart (retired_by olds) retired }
{}

/// At a home as many bytes as there is room for, or fewer, lie in one code piece.
pub fn room_is_code()
    ensures { (contents : Contents) (symbols : List Symbol) (home length n : ℕ) → n ≤ room contents symbols home length
        → HasCode contents.pieces home n }
{}

/// The room at a home is the greatest number of bytes from there on that lie in one code piece, in the body and the
/// padding instructions that directly follow it, with no symbol's address above the home and below where they end. Each
/// smaller number of bytes lies so, too.
pub fn room_is_greatest()
    ensures enough { (contents : Contents) (symbols : List Symbol) (home length n : ℕ)
        → n ≤ room contents symbols home length → HasRoom contents symbols home length n }
    ensures greatest { (contents : Contents) (symbols : List Symbol) (home length n : ℕ)
        → HasRoom contents symbols home length n → n ≤ room contents symbols home length }
{
    // Nothing is done here: the law says that no instruction is empty.
    instructions_have_bytes();
}

/// From the end of a body padding instructions, one after another, lead to where the body ends with its padding, and to
/// no end above that in the home's code piece.
pub fn padded_end_is_greatest()
    ensures reached { (contents : Contents) (home length : ℕ)
        → PaddedTo contents (home + length) (padded_end contents home length) }
    ensures greatest { (contents : Contents) (home length end : ℕ) → PaddedTo contents (home + length) end
        → end ≤ end_of_code contents.pieces home → end ≤ padded_end contents home length }
{
    // Nothing is done here: the law says that no instruction is empty.
    instructions_have_bytes();
}

/// Two memories in which the same is met, and whose pieces differ in their bytes alone, have the same room for a jump.
pub fn room_is_met()
    ensures { (a b : Contents) → ((pc : ℕ) → view_at a pc ≡ view_at b pc) → HaveOneShape a b
        → (symbols : List Symbol) (home length : ℕ) → room a symbols home length ≡ room b symbols home length }
{}
