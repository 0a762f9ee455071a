//! Why code stands in the way of an update.
ghost use Rattle.i386_reloc.specs.Rule.{Finds};
ghost use Rattle.i386_reloc.specs.Refused.{first_among};
ghost use Rattle.update_retired.specs.Retired.{AreBodies, AreInUse, IsBody, body_range};
ghost use Rattle.update_retired.specs.Overlaps.{code_refusal, room_refusal};
ghost use Rattle.image_memory.specs.Ranges.{MeetsNone};
ghost use Rattle.image_memory.specs.Contents.{fence_range};

use crate::jump_room::room_for_jump;
use crate::overlapping::check_overlaps;
use crate::types::OldFunction;
use image_memory::{JUMP_LENGTH, Space};
use ks_base::{Name, Ranges, Refusal};
use std::alloc::Global;
use symbol_table::SymbolTable;

/// Whether a function that takes the jump has room for it.
fn check_room<S: Space>(
    alloc: Global,
    space: &S,
    table: &SymbolTable,
    old: &OldFunction,
) -> Result<(), Refusal>
    requires body { IsBody old.now }
    requires in_use { MeetsNone fence_range (body_range old.now) (S.contents space.now).fences }
    ensures { Finds Refusal.Memory result (room_refusal (S.contents space.now) table.now.symbols old.now) }
{
    if !old.takes_jump() {
        return Ok(());
    }
    let room = room_for_jump(space, table, old.home, old.length);
    if room < JUMP_LENGTH as u32 {
        let section = Name::from_slice(alloc, old.section.as_slice())?;
        return Err(Refusal::TooSmall(section, room));
    }
    Ok(())
}

/// Whether each function that takes the jump has room for it.
fn check_rooms<S: Space>(
    alloc: Global,
    space: &S,
    table: &SymbolTable,
    olds: &[OldFunction],
) -> Result<(), Refusal>
    requires bodies { AreBodies olds.now }
    requires in_use { AreInUse (S.contents space.now) olds.now }
    ensures { Finds Refusal.Memory result (first_among (room_refusal (S.contents space.now) table.now.symbols)
        olds.now) }
{
    for old in olds {
        check_room(alloc, space, table, old)?;
    }
    Ok(())
}

/// Whether nothing of the running code stands in the way of an update, given the functions of its old object in order
/// and the ranges that are retired already, the oldest first.
///
/// [`Refusal::TooSmall`] comes with the section of the first function that is replaced in its first version and whose
/// home has less than five bytes of room for the jump, and with that room. [`Refusal::Overlap`] comes exactly where
/// there is no such function and what is to be retired of one meets another function's body or else a range that is
/// retired: with the lows of the first such range, in the functions' order, and of the first that it meets, the bodies
/// in the functions' order before the retired ranges. [`Refusal::Memory`] comes only if memory runs out.
#[tactic(auto, unfolding(crate::specs::Overlaps::code_refusal))]
pub fn code_refusal<S: Space>(
    alloc: Global,
    space: &S,
    table: &SymbolTable,
    retired: &Ranges,
    olds: &[OldFunction],
) -> Result<(), Refusal>
    requires bodies { AreBodies olds.now }
    requires in_use { AreInUse (S.contents space.now) olds.now }
    ensures { Finds Refusal.Memory result (code_refusal (S.contents space.now) table.now.symbols retired.now olds.now) }
{
    check_rooms(alloc, space, table, olds)?;
    check_overlaps(alloc, retired.as_slice(), olds)
}
