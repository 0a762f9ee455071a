//! Places for sections.
ghost use Rattle.std.specs.Prelude.{◌≡◌, ◌≢◌, ◌∷◌, ◌↔◌, List, Err, IsTrue, IfErr, OnOk};
ghost use Rattle.ks_base.specs.Gives.{Gives};
ghost use Rattle.image_memory.specs.Ranges.{Ascends};
ghost use Rattle.link_post.specs.declared.types.SectionSize.{SectionSize as Section};
ghost use Rattle.link_post.specs.Places.{placed};
ghost use Rattle.link_post.specs.inside.Rooms.{own, preceded};
ghost use Rattle.link_post.specs.inside.BlockLists.{ranges_of};

use crate::blocks::Block;
use crate::gaps::{blocks_of, take_from};
use crate::types::{Placed, Placement, SectionSize};
use ks_base::{Name, Ranges, Refusal};
use std::alloc::Global;

/// Whether no range is empty, and they ascend without meeting.
pub fn ascend(gaps: &Ranges) -> bool
    ensures { IsTrue result ↔ Ascends (λ range. range) 0 gaps.now }
{
    let mut floor = 0;
    for range in gaps.as_slice() {
        if range.low < floor || range.high <= range.low {
            return false;
        }
        floor = range.high;
    }
    true
}

/// Gives each section its place, in order: the lowest address of the gaps that is a multiple of 16 and of the
/// section's alignment and at which the section's bytes lie in one gap and are no bytes of an earlier one.
/// [`Refusal::NoRoom`] comes with the size of the first section that has no such address, and [`Refusal::Memory`] only
/// if memory runs out.
#[tactic(auto, unfolding(crate::specs::Places::placed))]
pub fn place(alloc: Global, sizes: &[SectionSize], gaps: &Ranges) -> Result<Placement, Refusal>
    requires { Ascends (λ range. range) 0 gaps.now }
    ensures { Gives (λ placement. placement) result (placed sizes.now gaps.now) }
{
    let mut free = blocks_of(alloc, gaps.as_slice())?;
    let mut placement = Placement::new(alloc);
    for section in sizes {
        place_section(alloc, &mut free, &mut placement, section)?;
    }
    Ok(placement)
}

/// Gives a section its place.
#[tactic(auto, using(crate::proofs::Lowest::after_ascends, crate::proofs::Lowest::lowest_is_first, crate::proofs::Lowest::without_is_after))]
fn place_section(
    alloc: Global,
    free: &mut Vec<Block>,
    placement: &mut Placement,
    section: &SectionSize,
) -> Result<(), Refusal>
    requires { Ascends own 0 (ranges_of free.old.items) }
    ensures ascend { OnOk result (Ascends own 0 (ranges_of free.new.items)) }
    ensures step { OnOk result ((rest : List Section)
        → preceded placement.old (placed (section.now ∷ rest) (ranges_of free.old.items))
        ≡ preceded placement.new (placed rest (ranges_of free.new.items))) }
    ensures refused { IfErr result (λ refusal. refusal ≢ Refusal.Memory → (rest : List Section)
        → placed (section.now ∷ rest) (ranges_of free.old.items) ≡ Err refusal) }
{
    match take_from(alloc, free, section)? {
        Some(base) => {
            let name = Name::from_slice(alloc, section.name.as_slice())?;
            placement.push(Placed {
                section: name,
                base,
            })?;
            Ok(())
        }
        None => Err(Refusal::NoRoom(section.size)),
    }
}
