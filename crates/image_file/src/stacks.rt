//! The stacks.
ghost use Rattle.std.specs.Prelude.{◌≡◌, ◌≤◌, ◌+◌, ◌-◌, ◌*◌, ◌<◌, ◌^◌, IfOk, IsTrue, length, []};
ghost use Rattle.std.specs.List.{All};
ghost use Rattle.image_memory.specs.Ranges.{Ascends};
ghost use Rattle.image_memory.specs.Contents.{ArePlaced};
ghost use Rattle.ks_base.specs.Gives.{Gives};
ghost use Rattle.image_file.specs.Fields.{field, items_at};
ghost use Rattle.image_file.specs.Rules.{own_range, stack_low_rules, stack_high_rules, total_of};
ghost use Rattle.image_file.specs.Keeps.{all_hold, keeps_stack};
ghost use Rattle.image_file.specs.Reading.{stack_after, stack_at, stack_width};

use crate::bounds::{LOWEST, MEMORY_LIMIT, is_aligned, meets_a_piece};
use crate::numbers::number_of;
use image_memory::{END_LIMIT, Piece, meets};
use ks_base::{ImageFault, Range, Ranges, Refusal};
use std::alloc::Global;

/// A stack has at least so many bytes.
const LEAST_STACK: u32 = 32;

/// The stacks of a file from an offset on, and the offset after them.
pub(crate) fn stacks_of(
    alloc: Global,
    bytes: &[u8],
    arena: Range,
    pieces: &[Piece],
    count: u32,
    first: u32,
) -> Result<(Ranges, u32), Refusal>
    requires count { count ≤ 64 }
    requires place { first ≤ 300000000 }
    requires placed { ArePlaced pieces.now }
    ensures exact { Gives (λ x. (x.0, x.1)) result
        (items_at count (stack_at bytes.now arena pieces.now) stack_width [] first) }
    ensures within { IfOk result (λ x. x.1 ≤ first + 8 * count) }
    ensures count { IfOk result (λ x. length x.0 ≡ count) }
    ensures kept { IfOk result (λ x. All (λ stack. IsTrue (keeps_stack arena pieces.now stack)) x.0) }
    ensures ascend { IfOk result (λ x. Ascends own_range 0 x.0) }
    ensures fit { IfOk result (λ x. total_of own_range x.0 ≤ 16777216) }
{
    let mut stacks = Ranges::new(alloc);
    let mut floor = 0;
    let mut total = 0;
    let mut offset = first;
    for _ in 0..count {
        let stack = stack_of(bytes, arena, pieces, floor, total, offset)?;
        floor = stack.high;
        total += stack.high - stack.low;
        offset += 8;
        stacks.push(stack)?;
    }
    Ok((stacks, offset))
}

/// The stack at an offset, where those before it end at `floor` and have `total` bytes.
#[tactic(auto, unfolding(crate::specs::Reading::stack_after))]
fn stack_of(
    bytes: &[u8],
    arena: Range,
    pieces: &[Piece],
    floor: u32,
    total: u32,
    offset: u32,
) -> Result<Range, Refusal>
    requires place { offset < 2 ^ 30 }
    requires small { total ≤ 16777216 }
    requires placed { ArePlaced pieces.now }
    ensures exact { Gives (λ stack. stack) result (stack_after bytes.now arena pieces.now floor total offset) }
    ensures some { IfOk result (λ stack. stack.low + 32 ≤ stack.high) }
    ensures sum { IfOk result (λ stack. total + (stack.high - stack.low) ≤ 16777216) }
    ensures above { IfOk result (λ stack. floor ≤ stack.low) }
    ensures kept { IfOk result (λ stack. IsTrue (keeps_stack arena pieces.now stack)) }
{
    let low = low_of(bytes, offset)?;
    let high = high_of(bytes, offset + 4, arena, pieces, floor, total, low)?;
    Ok(Range { low, high })
}

fn low_of(bytes: &[u8], offset: u32) -> Result<u32, Refusal>
    requires { offset < 2 ^ 31 }
    ensures exact { Gives (λ n. n) result (field bytes.now offset stack_low_rules) }
    ensures kept { IfOk result (λ n. IsTrue (all_hold (stack_low_rules n))) }
{
    let low = number_of(bytes, offset)?;
    if !is_aligned(low) {
        return Err(Refusal::BadImage(offset, ImageFault::Range));
    }
    if low < LOWEST {
        return Err(Refusal::BadImage(offset, ImageFault::Range));
    }
    Ok(low)
}

fn high_of(
    bytes: &[u8],
    offset: u32,
    arena: Range,
    pieces: &[Piece],
    floor: u32,
    total: u32,
    low: u32,
) -> Result<u32, Refusal>
    requires place { offset < 2 ^ 31 }
    requires small { total ≤ 16777216 }
    requires placed { ArePlaced pieces.now }
    ensures exact { Gives (λ n. n) result
        (field bytes.now offset (stack_high_rules arena pieces.now floor total low)) }
    ensures some { IfOk result (λ n. low + 32 ≤ n) }
    ensures sum { IfOk result (λ n. total + (n - low) ≤ 16777216) }
    ensures above { IfOk result (λ n. floor ≤ low) }
    ensures kept { IfOk result (λ n. IsTrue (all_hold (stack_high_rules arena pieces.now 0 0 low n))) }
{
    let high = number_of(bytes, offset)?;
    if high.saturating_sub(low) > MEMORY_LIMIT - total {
        return Err(Refusal::BadImage(offset, ImageFault::Limit));
    }
    if !is_aligned(high) || high.saturating_sub(low) < LEAST_STACK || high > END_LIMIT {
        return Err(Refusal::BadImage(offset, ImageFault::Range));
    }
    let stack = Range { low, high };
    if low < floor || meets(stack, arena) || meets_a_piece(pieces, stack) {
        return Err(Refusal::BadImage(offset, ImageFault::Order));
    }
    Ok(high)
}
