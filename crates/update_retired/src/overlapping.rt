//! Code that overlaps what an update retires.
ghost use Rattle.std.specs.Prelude.{◌≡◌, ◌++◌, ◌&&◌, map, IfOk};
ghost use Rattle.std.specs.List.{find, Contains};
ghost use Rattle.i386_reloc.specs.Rule.{Finds};
ghost use Rattle.i386_reloc.specs.Refused.{first_among};
ghost use Rattle.image_memory.specs.Ranges.{meets};
ghost use Rattle.update_retired.specs.Retired.{AreBodies, IsBody, body_range};
ghost use Rattle.update_retired.specs.Overlaps.{is_other, other_bodies, overlap_refusal, overlap_with};
ghost use Rattle.update_retired.specs.inside.Counts.{all_ranges, own_count};

use crate::bounds::Bounds;
use crate::types::OldFunction;
use image_memory::meets;
use ks_base::{Range, Ranges, Refusal};
use std::alloc::{AllocError, Global};

/// Whether a function is that of another section.
fn is_other(old: &OldFunction, other: &OldFunction) -> bool
    ensures { result ≡ is_other old.now other.now }
{
    other.section != old.section
}

/// Whether a range meets the body of a function, which is that of another section.
fn meets_other(range: Range, old: &OldFunction, other: &OldFunction) -> bool
    requires { IsBody other.now }
    ensures { result ≡ (is_other old.now other.now && meets range (body_range other.now)) }
{
    is_other(old, other) && meets(range, other.body_range())
}

/// The first body of another function that a range meets.
fn body_met(range: Range, old: &OldFunction, olds: &[OldFunction]) -> Option<Range>
    requires { AreBodies olds.now }
    ensures { result ≡ find (meets range) (other_bodies old.now olds.now) }
{
    for other in olds {
        if meets_other(range, old, other) {
            return Some(other.body_range());
        }
    }
    None
}

/// The first of some ranges that a range meets.
fn range_met(range: Range, others: &[Range]) -> Option<Range>
    ensures { result ≡ find (meets range) others.now }
{
    others.iter().copied().find(|other| meets(range, *other))
}

/// The first that a range meets, of the bodies of other functions and then of the retired ranges.
#[tactic(auto, using(crate::proofs::OverlapLaws::find_laws))]
fn first_met(
    range: Range,
    old: &OldFunction,
    olds: &[OldFunction],
    retired: &[Range],
) -> Option<Range>
    requires { AreBodies olds.now }
    ensures { result ≡ find (meets range) (other_bodies old.now olds.now ++ retired.now) }
{
    match body_met(range, old, olds) {
        Some(body) => Some(body),
        None => range_met(range, retired),
    }
}

/// The overlap of a range with the first that it meets.
fn overlap_with(
    range: Range,
    old: &OldFunction,
    olds: &[OldFunction],
    retired: &[Range],
) -> Option<Refusal>
    requires { AreBodies olds.now }
    ensures { result ≡ overlap_with range (other_bodies old.now olds.now ++ retired.now) }
{
    match first_met(range, old, olds, retired) {
        Some(other) => Some(Refusal::Overlap {
            retired: range.low,
            other: other.low,
        }),
        None => None,
    }
}

/// How many of the bodies meet what is retired of a function because they are its own: its own, where it isn't empty.
fn own_count(old: &OldFunction) -> usize
    ensures { result ≡ own_count old.now }
{
    usize::from(old.length > 0)
}

/// Why what is retired of one of the functions stands in the way.
fn overlap(
    bounds: &Bounds<'_>,
    old: &OldFunction,
    olds: &[OldFunction],
    retired: &[Range],
) -> Option<Refusal>
    requires bodies { AreBodies olds.now }
    requires listed { Contains olds.now old.now }
    requires bounds { bounds.now ≡ all_ranges olds.now retired.now }
    ensures { result ≡ overlap_refusal retired.now olds.now old.now }
{
    if !old.fate.is_retired() {
        return None;
    }
    let range = old.retired_range();
    if bounds.most_met(range) <= own_count(old) {
        return None;
    }
    overlap_with(range, old, olds, retired)
}

/// The bodies of functions.
fn body_ranges(alloc: Global, olds: &[OldFunction]) -> Result<Ranges, AllocError>
    requires { AreBodies olds.now }
    ensures { IfOk result (λ ranges. ranges ≡ map body_range olds.now) }
{
    let mut ranges = Ranges::new(alloc);
    for old in olds {
        ranges.push(old.body_range())?;
    }
    Ok(ranges)
}

/// What is retired of a function may meet: the bodies, and the retired ranges.
fn all_ranges(alloc: Global, olds: &[OldFunction], retired: &[Range]) -> Result<Ranges, AllocError>
    requires { AreBodies olds.now }
    ensures { IfOk result (λ ranges. ranges ≡ all_ranges olds.now retired.now) }
{
    let mut ranges = body_ranges(alloc, olds)?;
    for range in retired {
        ranges.push(*range)?;
    }
    Ok(ranges)
}

/// Whether nothing that is retired of the functions overlaps other code; or the first overlap. For each function the
/// time is the logarithm of the number of the functions and of the retired ranges; they are walked through only for one
/// whose overlap is answered, or that has another one's section.
pub(crate) fn check_overlaps(
    alloc: Global,
    retired: &[Range],
    olds: &[OldFunction],
) -> Result<(), Refusal>
    requires { AreBodies olds.now }
    ensures { Finds Refusal.Memory result (first_among (overlap_refusal retired.now olds.now) olds.now) }
{
    let ranges = all_ranges(alloc, olds, retired)?;
    let bounds = Bounds::new(alloc, ranges.as_slice())?;
    for old in olds {
        if let Some(refusal) = overlap(&bounds, old, olds, retired) {
            return Err(refusal);
        }
    }
    Ok(())
}
