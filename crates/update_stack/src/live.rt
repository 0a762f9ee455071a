//! What live updates come to: the newest base of each home, the ranges that they retired, what their pieces leave of
//! the arena, and their names.
ghost use Rattle.std.specs.Prelude.{◌≡◌, ℕ, List, ◌++◌, IfOk, OnOk, nat_eq};
ghost use Rattle.std.specs.List.{flat_map, list_any, position};
ghost use Rattle.std.specs.List.Sorted.{IsPermutation};
ghost use Rattle.indexmap.specs.IndexMap.{insert_all};
ghost use Rattle.i386_reloc.specs.Normal.{same_bytes};
ghost use Rattle.symbol_table.specs.Bodies.{newest};
ghost use Rattle.update_stack.specs.AbstractMachine.{AbstractMachine, bodies_in, jump_rows};
ghost use Rattle.update_stack.specs.Apply.{gaps_of};
ghost use Rattle.update_stack.specs.Scratch.{scratch_ranges};
ghost use Rattle.update_stack.specs.Stacked.{AreKept, IsBuilt};
ghost use Rattle.update_stack.specs.Systems.{arena_of, gaps_in, gaps_left, table_of};
ghost use Rattle.update_stack.specs.declared.updates.Kept.{Kept as KeptOf};

use crate::updates::{Arena, Kept, Update};
use indexmap::IndexMap;
use ks_base::{Name, Range, Ranges, Replaced};
use link_post::{order_has_no_say, without_all};
use std::alloc::{AllocError, Global};
use symbol_table::Bodies;

/// Homes with their newest bases, in the order in which the homes were replaced first.
type Bases = IndexMap<u32, u32>;

/// The newest base of each home that live updates replaced.
#[tactic(auto, using(crate::proofs::LiveLaws::homes_distinct))]
pub(crate) fn bodies_of(alloc: Global, updates: &[Update]) -> Result<Bodies, AllocError>
    ensures rows { IfOk result (λ bodies. IsPermutation (bodies_in (table_of updates.now)) bodies) }
    ensures newest { IfOk result
        (λ bodies. (home : ℕ) → newest bodies home ≡ newest (bodies_in (table_of updates.now)) home) }
{
    let bases = newest_bases(alloc, updates)?;
    let rows = rows_of(alloc, &bases)?;
    Ok(Bodies::new(rows))
}

/// The same, in the order of the table.
fn newest_bases(alloc: Global, updates: &[Update]) -> Result<Bases, AllocError>
    ensures { IfOk result (λ bases. bases.entries ≡ bodies_in (table_of updates.now)) }
{
    let mut bases = IndexMap::new(alloc);
    for update in updates {
        put_replaced(&mut bases, update.report.replaced.as_slice())?;
    }
    Ok(bases)
}

/// Puts the base of each replaced function in place of its home's, or after the others.
fn put_replaced(bases: &mut Bases, replaced: &[Replaced]) -> Result<(), AllocError>
    ensures { OnOk result (bases.new.entries ≡ insert_all nat_eq bases.old.entries (jump_rows replaced.now)) }
{
    for one in replaced {
        bases.insert(one.home, one.base)?;
    }
    Ok(())
}

/// The rows of a map.
fn rows_of(alloc: Global, bases: &Bases) -> Result<Vec<(u32, u32)>, AllocError>
    ensures { IfOk result (λ rows. rows.items ≡ bases.now.entries) }
{
    let mut rows = Vec::with_capacity(alloc, bases.len())?;
    for (home, base) in bases {
        rows.push((*home, *base))?;
    }
    Ok(rows)
}

/// The ranges that live updates retired, those of the oldest first.
pub(crate) fn retired_by(alloc: Global, kept: &[Kept]) -> Result<Ranges, AllocError>
    ensures { IfOk result (λ ranges. ranges ≡ flat_map (λ one. one.retired) kept.now) }
{
    let mut ranges = Vec::new(alloc);
    for one in kept {
        ranges.extend_from_slice(one.retired.as_slice())?;
    }
    Ok(Ranges::from_vec(ranges))
}

/// What the scratch piece and the pieces of live updates leave of an arena.
pub(crate) fn gaps_left(alloc: Global, arena: Arena, kept: &[Kept]) -> Result<Ranges, AllocError>
    ensures { IfOk result (λ gaps. gaps ≡ gaps_left arena kept.now) }
{
    let gaps = gaps_in(alloc, arena.range)?;
    let taken = taken_by(alloc, arena.scratch, kept)?;
    without_all(alloc, &gaps, taken.as_slice())
}

/// What is free of an arena in which nothing was placed.
fn gaps_in(alloc: Global, arena: Range) -> Result<Ranges, AllocError>
    ensures { IfOk result (λ gaps. gaps ≡ gaps_in arena) }
{
    let mut gaps = Ranges::new(alloc);
    if arena.low < arena.high {
        gaps.push(arena)?;
    }
    Ok(gaps)
}

/// The ranges of the scratch piece, if there is one, and of the pieces of live updates, those of the oldest first.
fn taken_by(alloc: Global, scratch: Option<Range>, kept: &[Kept]) -> Result<Vec<Range>, AllocError>
    ensures { IfOk result (λ ranges.
        ranges.items ≡ scratch_ranges scratch ++ flat_map (λ one. one.ranges) kept.now) }
{
    let mut ranges = Vec::new(alloc);
    if let Some(range) = scratch {
        ranges.push(range)?;
    }
    for one in kept {
        ranges.extend_from_slice(one.ranges.as_slice())?;
    }
    Ok(ranges)
}

/// What the ranges leave that are kept of live updates is what is free of the arena.
pub(crate) fn kept_ranges_leave_the_gaps()
    ensures { (k : AbstractMachine) (kept : List KeptOf) → IsBuilt k → AreKept k kept →
        gaps_left (arena_of k) kept ≡ gaps_of k }
{
    // Nothing is done here: the law says that the same is left in whichever order ranges are taken.
    order_has_no_say();
}

/// Whether a live update has a name.
pub(crate) fn is_taken(updates: &[Update], name: &Name) -> bool
    ensures { result ≡ list_any (λ update. same_bytes update.name name.now) updates.now }
{
    updates.iter().any(|update| has_name(update, name))
}

/// The place of the update of a name among live ones, `None` exactly where none has the name.
pub(crate) fn place_of(updates: &[Update], name: &Name) -> Option<usize>
    ensures { result ≡ position (λ update. same_bytes update.name name.now) updates.now }
{
    updates.iter().position(|update| has_name(update, name))
}

fn has_name(update: &Update, name: &Name) -> bool
    ensures { result ≡ same_bytes update.now.name name.now }
{
    update.name == *name
}
