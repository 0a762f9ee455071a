//! What later updates have to do with one: whether they retired code of it, and whether they need what stands in its
//! pieces.
ghost use Rattle.std.specs.Prelude.{◌≡◌, ◌≢◌, ℕ, nat_lt, true, Some, None, MatchResult, IfOk, OnErr, option_map, is_some, ◌<◌, ◌+◌, length, drop};
ghost use Rattle.std.specs.List.{find, list_any};
ghost use Rattle.ks_base.specs.declared.refusals.Refusal.TheVariants.{Memory, Needed};
ghost use Rattle.image_memory.specs.Ranges.{Ascends};
ghost use Rattle.i386_reloc.specs.Refused.{first_among};
ghost use Rattle.stack_scan.specs.Standing.{in_one};
ghost use Rattle.update_stack.specs.Systems.{live_update, live_updates};
ghost use Rattle.update_stack.specs.Undo.{meets_one, retires_in, covered_by, is_need_in, first_need};

use crate::updates::{Kept, Update};
use ks_base::{Name, Range, Refusal};
use link_post::Needs;
use std::alloc::AllocError;

/// The items behind the one at a place.
pub(crate) fn behind<T>(items: &[T], at: usize) -> &[T]
    requires { at < length items.now }
    ensures { result.now ≡ drop (at + 1) items.now }
{
    items.split_at(at + 1).1
}

/// Whether none of some updates, with what is kept of them, retired code in one of some ranges: otherwise the first that
/// did is told.
pub(crate) fn check_covers(
    ranges: &[Range],
    updates: &[Update],
    kept: &[Kept],
) -> Result<(), Refusal>
    requires { Ascends (λ range. range) 0 ranges.now }
    ensures found { MatchResult result
        (λ _. find (retires_in ranges.now) (live_updates updates.now kept.now) ≡ None)
        (λ refusal. refusal ≢ Memory → option_map covered_by
        (find (retires_in ranges.now) (live_updates updates.now kept.now)) ≡ Some refusal) }
    ensures covered { OnErr result
        (is_some (find (retires_in ranges.now) (live_updates updates.now kept.now)) ≡ true) }
{
    for (update, one) in updates.iter().zip(kept) {
        if retires_in(ranges, one) {
            return Err(Refusal::Covered(update.name.clone()?));
        }
    }
    Ok(())
}

/// Whether none of some updates, with what is kept of them, has a field that needs an address in one of some ranges:
/// otherwise the first that has is told, with its first such field.
pub(crate) fn check_needs(
    ranges: &[Range],
    updates: &[Update],
    kept: &[Kept],
) -> Result<(), Refusal>
    requires { Ascends (λ range. range) 0 ranges.now }
    ensures found { MatchResult result
        (λ _. first_among (first_need ranges.now) (live_updates updates.now kept.now) ≡ None)
        (λ refusal. refusal ≢ Memory →
        first_among (first_need ranges.now) (live_updates updates.now kept.now) ≡ Some refusal) }
    ensures needed { OnErr result
        (is_some (first_among (first_need ranges.now) (live_updates updates.now kept.now)) ≡ true) }
{
    for (update, one) in updates.iter().zip(kept) {
        check_needs_of(ranges, update, one)?;
    }
    Ok(())
}

/// The same of one update.
fn check_needs_of(ranges: &[Range], update: &Update, one: &Kept) -> Result<(), Refusal>
    requires { Ascends (λ range. range) 0 ranges.now }
    ensures found { MatchResult result
        (λ _. first_need ranges.now (live_update update.now one.now) ≡ None)
        (λ refusal. refusal ≢ Memory →
        first_need ranges.now (live_update update.now one.now) ≡ Some refusal) }
    ensures needed { OnErr result
        (is_some (first_need ranges.now (live_update update.now one.now)) ≡ true) }
{
    for needs in one.needs.as_slice() {
        if let Some(offset) = first_field(ranges, needs) {
            return Err(needed_by(&update.name, &needs.section, offset)?);
        }
    }
    Ok(())
}

/// The refusal for a field of an update, by its section's name and its offset.
fn needed_by(update: &Name, section: &Name, offset: u32) -> Result<Refusal, AllocError>
    ensures { IfOk result (λ refusal. refusal ≡ Needed update.now section.now offset) }
{
    Ok(Refusal::Needed {
        update: update.clone()?,
        section: section.clone()?,
        offset,
    })
}

/// The offset of the first field of a section that needs an address in one of some ranges.
fn first_field(ranges: &[Range], needs: &Needs) -> Option<u32>
    requires { Ascends (λ range. range) 0 ranges.now }
    ensures { result ≡ option_map (λ need. need.offset) (find (is_need_in ranges.now) needs.now.fields) }
{
    let field = needs
        .fields
        .as_slice()
        .iter()
        .find(|need| in_one(ranges, need.s))?;
    Some(field.offset)
}

/// Whether an update retired code in one of some ranges.
fn retires_in(ranges: &[Range], one: &Kept) -> bool
    requires { Ascends (λ range. range) 0 ranges.now }
    ensures { result ≡ list_any (meets_one ranges.now) one.now.retired }
{
    one.retired
        .as_slice()
        .iter()
        .any(|range| meets_one(ranges, *range))
}

/// Whether a range meets one of some, which is found by halving.
fn meets_one(ranges: &[Range], range: Range) -> bool
    requires { Ascends (λ range. range) 0 ranges.now }
    ensures { result ≡ meets_one ranges.now range }
{
    range.low < range.high
        && first_above(ranges, range.low).is_some_and(|next| next.low < range.high)
}

/// Whether an address lies in one of some ranges, which is found by halving.
fn in_one(ranges: &[Range], address: u32) -> bool
    requires { Ascends (λ range. range) 0 ranges.now }
    ensures { result ≡ in_one ranges.now address }
{
    first_above(ranges, address).is_some_and(|next| next.low <= address)
}

/// The first of ascending ranges that ends above an address.
fn first_above(ranges: &[Range], address: u32) -> Option<Range>
    requires { Ascends (λ range. range) 0 ranges.now }
    ensures { result ≡ find (λ range. nat_lt address range.high) ranges.now }
{
    let at = ranges.partition_point(|range| range.high <= address);
    ranges.get(at).copied()
}
