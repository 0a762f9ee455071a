//! The run of one function on the scratch piece.
ghost use Rattle.std.specs.Prelude.{◌≡◌, ◌≤◌, ◌+◌, [], ◌∷◌, IsTrue, IfOk};
ghost use Rattle.image_threads.specs.Spawning.{is_stack};
ghost use Rattle.splice_jump.specs.declared.phase.Phase.TheVariants.{Done};
ghost use Rattle.update_stack.specs.Aside.{LeavesAside};
ghost use Rattle.update_stack.specs.HookRuns.{fresh_piece, hook_left, hook_run, scratch_range};

use ia32_step::State;
use image_memory::{Kind, Piece, Pieces, Space};
use image_threads::{first_bytes, first_thread};
use ks_base::{Bytes, Range};
use saved_data::{data_alone_differ, saved_data_come_back};
use std::alloc::{AllocError, Global};
use update_stack::{HookEnd, System};

/// A function may make at most so many steps.
const MOST_STEPS: u32 = 1_000_000;

/// A scratch piece as it is when a run begins, to be put back: zeros, and from 20 bytes below its end on the return
/// address, the argument 0 and zeros. `Err` comes only if memory runs out.
pub(crate) fn fresh_stack(alloc: Global, stack: Range) -> Result<Pieces, AllocError>
    requires { stack.low + 20 ≤ stack.high }
    ensures { IfOk result (λ saved. saved ≡ fresh_piece stack ∷ []) }
{
    let bytes = Bytes::from_vec(first_bytes(alloc, stack, 0)?);
    let mut saved = Pieces::new(alloc);
    saved.push(Piece {
        kind: Kind::Writable,
        base: stack.low,
        bytes,
    })?;
    Ok(saved)
}

/// Runs the function at an address on the scratch piece, which is set anew first. It takes no memory.
pub(crate) fn run_function<S: Space>(
    system: &mut System<S>,
    stack: Range,
    fresh_stack: &Pieces,
    address: u32,
) -> HookEnd
    requires done { system.old.phase ≡ Done }
    requires scratch { stack ≡ scratch_range stack.low }
    requires stands { IsTrue (is_stack system.old.machine.pieces stack) }
    requires fresh { fresh_stack.now ≡ fresh_piece stack ∷ [] }
    ensures left { hook_left system.new.machine result ≡ hook_run system.old.machine stack.low address }
    ensures aside { LeavesAside system.old.machine system.new.machine }
    ensures stands { IsTrue (is_stack system.new.machine.pieces stack) }
    ensures phase { system.new.phase ≡ Done }
{
    // The laws say that what such a thread writes is data.
    data_alone_differ();
    saved_data_come_back();
    let _program = system.machine();
    system.put_back(fresh_stack);
    let mut thread = first_thread(0, stack, address);
    for made in 0..MOST_STEPS {
        system.step_scratch(&mut thread);
        match thread.state {
            State::Running => {}
            State::Exited(_) => return HookEnd::Returned { steps: made + 1 },
            State::Stopped(fault) => {
                return HookEnd::Faulted {
                    fault,
                    pc: thread.pc,
                };
            }
        }
    }
    HookEnd::Unreturned
}
