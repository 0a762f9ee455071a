//! The memory of a session: the regions of an image and its stacks.
ghost use Rattle.std.specs.Prelude.{◌≡◌, OnOk, IfOk};
ghost use Rattle.image_memory.specs.Contents.{ArePlaced};
ghost use Rattle.update_stack.specs.AbstractMachine.{stack_piece, all_pieces};
ghost use Rattle.update_stack.specs.laws.FirstPieces.{FitAmong};

use image_memory::{Kind, Piece, Pieces, pieces_stay_placed, put_piece};
use ks_base::{Bytes, Range, Ranges};
use std::alloc::{AllocError, Global};

/// Regions that ascend, and a writable piece of zeros for each stack put among them. `Err` comes only if memory runs
/// out.
pub(crate) fn all_pieces(
    alloc: Global,
    regions: &Pieces,
    stacks: &Ranges,
) -> Result<Pieces, AllocError>
    requires placed { ArePlaced regions.now }
    requires stacks { FitAmong regions.now stacks.now }
    ensures { IfOk result (λ pieces. pieces ≡ all_pieces regions.now stacks.now) }
{
    let mut pieces = regions.clone()?.into_vec();
    put_stacks(alloc, &mut pieces, stacks.as_slice())?;
    Ok(Pieces::from_vec(pieces))
}

/// Puts the pieces of stacks among pieces, the last stack first.
fn put_stacks(alloc: Global, pieces: &mut Vec<Piece>, stacks: &[Range]) -> Result<(), AllocError>
    requires placed { ArePlaced pieces.old.items }
    requires stacks { FitAmong pieces.old.items stacks.now }
    ensures { OnOk result (pieces.new.items ≡ all_pieces pieces.old.items stacks.now) }
{
    match stacks {
        [] => Ok(()),
        [stack, later @ ..] => {
            // Pieces among which one is put that meets none are apart as before.
            pieces_stay_placed();
            put_stacks(alloc, pieces, later)?;
            put_piece(pieces, stack_piece(alloc, *stack)?)
        }
    }
}

/// A stack at first.
fn stack_piece(alloc: Global, stack: Range) -> Result<Piece, AllocError>
    ensures { IfOk result (λ piece. piece ≡ stack_piece stack) }
{
    let mut bytes = Vec::new(alloc);
    bytes.resize(stack.high.saturating_sub(stack.low) as usize, 0)?;
    Ok(Piece {
        kind: Kind::Writable,
        base: stack.low,
        bytes: Bytes::from_vec(bytes),
    })
}
