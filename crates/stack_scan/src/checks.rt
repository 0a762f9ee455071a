//! The first thread that stands in the way of a change of code.
ghost use Rattle.std.specs.Prelude.{◌≡◌};
ghost use Rattle.std.specs.Result.{result_err};
ghost use Rattle.std.specs.List.{All};
ghost use Rattle.stack_scan.specs.Standing.{HasStack, stands, standing_refused, thread_refusal};

use crate::scan::stands_among;
use crate::targets::Targets;
use ia32_step::Thread;
use image_memory::Space;
use ks_base::{Range, Refusal};

/// Whether no thread stands in one of some ranges of addresses. The answer is of the first thread, in their order, that
/// stands in one, or that runs with an ESP outside its stack: [`Refusal::StackOut`] with its number and its ESP where
/// that is below its stack's low bound or above its high one, and otherwise [`Refusal::Busy`] with where it stands.
///
/// It takes no memory. The order of the ranges doesn't change the answer; but hand them sorted, as to
/// [`stands`](crate::stands).
pub fn check_threads<S: Space>(
    threads: &[Thread],
    space: &S,
    ranges: &[Range],
) -> Result<(), Refusal>
    requires { All (HasStack (S.contents space.now).pieces) threads.now }
    ensures { result_err result ≡ thread_refusal (S.contents space.now).pieces ranges.now threads.now }
{
    let targets = Targets::new(ranges);
    for thread in threads {
        check_thread(thread, space, &targets)?;
    }
    Ok(())
}

/// Whether one thread stands in none of the targets.
fn check_thread<S: Space>(thread: &Thread, space: &S, targets: &Targets<'_>) -> Result<(), Refusal>
    requires { HasStack (S.contents space.now).pieces thread.now }
    ensures { result_err result ≡ standing_refused (stands (S.contents space.now).pieces targets.now thread.now) }
{
    match stands_among(thread, space, targets) {
        Err(out) => Err(Refusal::StackOut {
            thread: out.thread,
            esp: out.esp,
        }),
        Ok(None) => Ok(()),
        Ok(Some(standing)) => Err(Refusal::Busy(standing)),
    }
}
