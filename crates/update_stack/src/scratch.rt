//! A scratch piece that comes to a system and goes from it.
ghost use Rattle.std.specs.Prelude.{◌≡◌, ◌≤◌, ◌<◌, List, [], ◌∷◌, Some, None, IfOk, OnOk, OnErr};
ghost use Rattle.std.specs.List.{All};
ghost use Rattle.ks_base.specs.Gives.{Gives};
ghost use Rattle.link_post.specs.Places.{LiesInOne};
ghost use Rattle.update_stack.specs.Scratch.{scratch_place};
ghost use Rattle.update_stack.specs.ScratchLaws.{ScratchComesAndGoes};
ghost use Rattle.ks_base.specs.declared.places.Range.{Range as RangeOf};
ghost use Rattle.image_memory.specs.Changes.{HasPiece, IsPlaceable};
ghost use Rattle.image_memory.specs.Contents.{piece_range};
ghost use Rattle.image_memory.specs.Ranges.{Ascends, MeetsNone};
ghost use Rattle.image_threads.specs.Program.{Program};
ghost use Rattle.update_memory.specs.Added.{with_pieces};
ghost use Rattle.update_memory.specs.Withdrawn.{without_pieces};
ghost use Rattle.update_stack.specs.AbstractMachine.{stack_piece};
ghost use Rattle.update_stack.specs.StandsFor.{seen};
ghost use Rattle.update_stack.specs.Systems.{Holds};
ghost use Rattle.update_stack.specs.declared.updates.Arena.{Arena as ArenaOf};
ghost use Rattle.update_stack.specs.declared.updates.Kept.{Kept as KeptOf};
ghost use Rattle.update_stack.specs.declared.updates.Update.{Update as Shown};
ghost use Rattle.update_stack.specs.inside.Scratching.{HoldsWith, HoldsWithout};

use image_memory::{Kind, Piece, Pieces, Space};
use image_threads::Machine;
use ks_base::{Bytes, Name, Range, Ranges, Refusal};
use link_post::{SectionSize, gaps_are_free, place, places_are_lowest};
use splice_jump::{
    code_stays_code, homes_stay_spliced, jumps_are_added_and_replaced, jumps_are_taken_back,
    jumps_change_their_bytes_alone,
};
use std::alloc::{AllocError, Global};
use update_memory::{
    add_pieces, changes_are_withdrawn, code_that_stays, dropping_goes_past_writes,
    memory_stays_memory, pieces_are_added, pieces_are_added_past_code, ranges_are_retired,
};

/// How many bytes a scratch piece has.
const SCRATCH_SIZE: u32 = 4_096;

/// A system to which a scratch piece comes, where no piece is, holds with it, as the machine with it.
pub(crate) fn scratch_pieces_come()
    ensures { (before after : Program) (arena : ArenaOf) (updates : List Shown) (kept : List KeptOf) (range : RangeOf)
        → Holds before arena updates kept → arena.scratch ≡ None → IsPlaceable range
        → MeetsNone piece_range range before.contents.pieces
        → seen after ≡ record (seen before) { contents = with_pieces before.contents (stack_piece range ∷ []) }
        → HoldsWith before after arena updates kept range }
{
    // Nothing is done here: the laws say what stays where a piece is added, and that it is added past jumps as without
    // them.
    pieces_are_added();
    ranges_are_retired();
    changes_are_withdrawn();
    code_that_stays();
    pieces_are_added_past_code();
    jumps_are_added_and_replaced();
    jumps_are_taken_back();
    jumps_change_their_bytes_alone();
    homes_stay_spliced();
    code_stays_code();
}

/// A system from which its scratch piece goes holds without it, as the machine without it.
pub(crate) fn scratch_pieces_go()
    ensures { (before after : Program) (arena : ArenaOf) (updates : List Shown) (kept : List KeptOf) (range : RangeOf)
        → Holds before arena updates kept → arena.scratch ≡ Some range
        → seen after ≡ record (seen before) {
          contents = record before.contents { pieces = without_pieces (range.low ∷ []) before.contents.pieces };
        }
        → HoldsWithout before after arena updates kept }
{
    // Nothing is done here: the laws say what is left where a piece goes, and that it goes past writes of code.
    memory_stays_memory();
    code_that_stays();
    dropping_goes_past_writes();
    code_stays_code();
}

/// A machine to which a scratch piece comes is built with it, and is as it was when that goes again.
pub fn scratch_comes_and_goes()
    ensures { ScratchComesAndGoes }
{
    // Nothing is done here: the laws say what is free, which place is chosen in it, and what is left where a piece comes
    // and goes.
    pieces_are_added();
    ranges_are_retired();
    changes_are_withdrawn();
    gaps_are_free();
    places_are_lowest();
}

/// Where a scratch piece goes: the lowest multiple of 16 at which it lies in one of the free ranges. It is refused with
/// [`Refusal::NoRoom`] where there is none, and with [`Refusal::Memory`] only if memory runs out.
#[tactic(auto, unfolding(link_post::specs::Places::placed))]
pub(crate) fn scratch_place(alloc: Global, free: &Ranges) -> Result<Range, Refusal>
    requires ascend { Ascends (λ range. range) 0 free.now }
    requires low { All (λ gap. gap.high ≤ 0xFFFF_0000) free.now }
    ensures place { Gives (λ range. range) result (scratch_place free.now) }
    ensures within { IfOk result (LiesInOne free.now) }
    ensures full { IfOk result (λ range. range.low < range.high) }
{
    // The law says that the bytes at the place that is chosen lie in one of the free ranges.
    places_are_lowest();
    let sizes = [SectionSize {
        name: Name::new(alloc),
        size: SCRATCH_SIZE,
        align: 16,
    }];
    let placement = place(alloc, &sizes, free)?;
    let base = placement.as_slice()[0].base;
    Ok(Range {
        low: base,
        high: base + SCRATCH_SIZE,
    })
}

/// A piece of zeros that may be written.
fn zeros_at(alloc: Global, range: Range) -> Result<Pieces, AllocError>
    requires { range.low < range.high }
    ensures { IfOk result (λ pieces. pieces ≡ stack_piece range ∷ []) }
{
    let mut bytes = Vec::new(alloc);
    bytes.resize((range.high - range.low) as usize, 0)?;
    let mut pieces = Pieces::new(alloc);
    pieces.push(Piece {
        kind: Kind::Writable,
        base: range.low,
        bytes: Bytes::from_vec(bytes),
    })?;
    Ok(pieces)
}

/// Puts a scratch piece into a program, where no piece is. If memory runs out what is seen of the program is as before.
pub(crate) fn put_scratch<S: Space>(
    alloc: Global,
    machine: &mut Machine<S>,
    range: Range,
) -> Result<(), AllocError>
    requires placeable { IsPlaceable range }
    requires apart { MeetsNone piece_range range machine.old.contents.pieces }
    ensures put { OnOk result (seen machine.new
        ≡ record (seen machine.old) { contents = with_pieces machine.old.contents (stack_piece range ∷ []) }) }
    ensures refused { OnErr result (seen machine.new ≡ seen machine.old) }
{
    let pieces = zeros_at(alloc, range)?;
    let space = machine.space_mut();
    space.reserve(&pieces, 0)?;
    add_pieces(space, pieces);
    Ok(())
}

/// Takes the piece away that begins at an address.
pub(crate) fn take_scratch<S: Space>(machine: &mut Machine<S>, base: u32)
    requires { HasPiece machine.old.contents base }
    ensures { seen machine.new ≡ record (seen machine.old) {
      contents = record machine.old.contents { pieces = without_pieces (base ∷ []) machine.old.contents.pieces };
    } }
{
    machine.space_mut().drop_piece(base);
}
