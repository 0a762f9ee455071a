//! What is left of free ranges where others were taken.
ghost use Rattle.std.specs.Prelude.{◌≡◌, ◌+◌, ◌-◌, ◌^◌, ◌++◌, [], ◌∷◌, ◌<◌, max, nat_lt, if◌then◌else◌, fold, IfOk};
ghost use Rattle.std.specs.Prelude.{OnOk};
ghost use Rattle.std.specs.List.Sorted.{IsNonDecreasingBy};
ghost use Rattle.image_memory.specs.Ranges.{Ascends, from_to};
ghost use Rattle.link_post.specs.Places.{unless_empty, without};
ghost use Rattle.link_post.specs.inside.Sweeping.{Stands};

use image_memory::sorted;
use ks_base::{Range, Ranges};
use std::alloc::{AllocError, Global};

/// What is left of free ranges that ascend where others were taken, which may come in any order, meet, or be empty.
/// `Err` comes only if memory runs out. The time grows as n log n.
pub fn without_all(alloc: Global, free: &Ranges, taken: &[Range]) -> Result<Ranges, AllocError>
    requires { Ascends (λ range. range) 0 free.now }
    ensures { IfOk result (λ left. left ≡ fold without free.now taken.now) }
{
    let taken = sorted(alloc, taken)?;
    swept(alloc, free.as_slice(), taken.as_slice())
}

/// The same where the taken ones are in order, in one pass over both.
fn swept(alloc: Global, free: &[Range], taken: &[Range]) -> Result<Ranges, AllocError>
    requires ascend { Ascends (λ range. range) 0 free.now }
    requires rises { IsNonDecreasingBy (λ range. range.low) taken.now }
    ensures { IfOk result (λ left. left ≡ fold without free.now taken.now) }
{
    let mut left = Ranges::new(alloc);
    let mut at = Sweep { next: 0, reach: 0 };
    for range in free {
        at = leave(&mut left, *range, taken, at)?;
    }
    Ok(left)
}

/// How many of the taken ranges are passed, and the highest end of these.
#[derive(Clone, Copy)]
struct Sweep {
    next: usize,
    reach: u32,
}

/// Puts what is left of one range at the end, and passes the taken ones that begin below its end.
fn leave(left: &mut Ranges, range: Range, taken: &[Range], from: Sweep) -> Result<Sweep, AllocError>
    requires full { range.low < range.high }
    requires rises { IsNonDecreasingBy (λ range. range.low) taken.now }
    requires stands { Stands taken.now range.low from.next from.reach }
    ensures left { OnOk result (left.new ≡ left.old ++ fold without (range ∷ []) taken.now) }
    ensures stands { IfOk result (λ to. Stands taken.now range.high to.next to.reach) }
{
    let mut at = from;
    while at.next < taken.len() && taken[at.next].low < range.high {
        at = pass(left, range, taken[at.next], at)?;
    }
    put(left, range.low.max(at.reach), range.high)?;
    Ok(at)
}

/// Passes a range that is taken: what lies below it, above the end of those before it, is left.
fn pass(left: &mut Ranges, range: Range, taken: Range, at: Sweep) -> Result<Sweep, AllocError>
    requires { at.next < 2 ^ 64 - 1 }
    ensures next { IfOk result (λ to. to.next ≡ at.next + 1) }
    ensures reach { IfOk result (λ to.
        to.reach ≡ if nat_lt taken.low taken.high then max at.reach taken.high else at.reach) }
    ensures left { OnOk result (left.new ≡ left.old
        ++ (if nat_lt taken.low taken.high then unless_empty (from_to (max range.low at.reach) taken.low) else [])) }
{
    if taken.low >= taken.high {
        return Ok(Sweep {
            next: at.next + 1,
            reach: at.reach,
        });
    }
    put(left, range.low.max(at.reach), taken.low)?;
    Ok(Sweep {
        next: at.next + 1,
        reach: at.reach.max(taken.high),
    })
}

/// Puts a range at the end, where it isn't empty.
fn put(left: &mut Ranges, low: u32, high: u32) -> Result<(), AllocError>
    ensures { OnOk result (left.new ≡ left.old ++ unless_empty (from_to low high)) }
{
    if low < high {
        left.push(Range { low, high })?;
    }
    Ok(())
}
