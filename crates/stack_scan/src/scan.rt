//! Where a thread stands.
ghost use Rattle.std.specs.Prelude.{◌≡◌, ◌≤◌};
ghost use Rattle.ia32_step.specs.Threads.{esp_of};
ghost use Rattle.ia32_step.specs.declared.types.State.TheVariants.{Running};
ghost use Rattle.stack_scan.specs.Standing.{HasStack, IsStack, stands, first_place, places};

use crate::places::{first_on_stack, first_register};
use crate::targets::Targets;
use crate::types::StackOut;
use ia32_step::{ESP, State, Thread};
use image_memory::Space;
use ks_base::{Place, Range, Standing};

/// Where a thread stands in one of some ranges of addresses: the first place that holds an address of one, and the
/// address. The places are pc; EAX, ECX, EDX, EBX, EBP, ESI and EDI; and the dwords of the stack at multiples of 4,
/// from ESP rounded down up to the stack's top. `None` comes where none of them holds one, and for a thread that
/// doesn't run. [`StackOut`] comes exactly where a thread runs and ESP is below its stack's low bound or above its
/// high one.
///
/// It takes no memory. The order of the ranges doesn't change the answer; but hand them sorted: where they ascend
/// without meeting each word of the stack is looked up by halving, and otherwise by a walk over all of them.
pub fn stands<S: Space>(
    thread: &Thread,
    space: &S,
    ranges: &[Range],
) -> Result<Option<Standing>, StackOut>
    requires { HasStack (S.contents space.now).pieces thread.now }
    ensures { result ≡ stands (S.contents space.now).pieces ranges.now thread.now }
{
    stands_among(thread, space, &Targets::new(ranges))
}

/// The same of ranges after the one pass over them.
pub(crate) fn stands_among<S: Space>(
    thread: &Thread,
    space: &S,
    targets: &Targets<'_>,
) -> Result<Option<Standing>, StackOut>
    requires { HasStack (S.contents space.now).pieces thread.now }
    ensures { result ≡ stands (S.contents space.now).pieces targets.now thread.now }
{
    match thread.state {
        State::Running => running_stands(thread, space, targets),
        State::Exited(_) | State::Stopped(_) => Ok(None),
    }
}

/// The same of a thread that runs.
fn running_stands<S: Space>(
    thread: &Thread,
    space: &S,
    targets: &Targets<'_>,
) -> Result<Option<Standing>, StackOut>
    requires runs { thread.now.state ≡ Running }
    requires stack { IsStack (S.contents space.now).pieces thread.now.stack }
    ensures { result ≡ stands (S.contents space.now).pieces targets.now thread.now }
{
    let esp = thread.registers[ESP];
    if esp < thread.stack.low || esp > thread.stack.high {
        return Err(StackOut {
            thread: thread.number,
            esp,
        });
    }
    match first_place(thread, space, targets) {
        None => Ok(None),
        Some((place, value)) => Ok(Some(Standing {
            thread: thread.number,
            place,
            value,
        })),
    }
}

/// The first place of a thread that holds an address of the targets, and the address.
fn first_place<S: Space>(thread: &Thread, space: &S, targets: &Targets<'_>) -> Option<(Place, u32)>
    requires stack { IsStack (S.contents space.now).pieces thread.now.stack }
    requires low { thread.now.stack.low ≤ esp_of thread.now }
    requires high { esp_of thread.now ≤ thread.now.stack.high }
    ensures { result ≡ first_place targets.now (places (S.contents space.now).pieces thread.now) }
{
    if targets.has(thread.pc) {
        return Some((Place::Pc, thread.pc));
    }
    if let Some(found) = first_register(&thread.registers, targets) {
        return Some(found);
    }
    let start = thread.registers[ESP] / 4 * 4;
    let count = (thread.stack.high - start) / 4;
    first_on_stack(space, start, count, targets)
}
