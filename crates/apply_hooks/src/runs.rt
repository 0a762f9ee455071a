//! The runs of listed functions.
ghost use Rattle.std.specs.Prelude.{◌≡◌, ◌≢◌, ◌<◌, [], ◌∷◌, map, length, set, slice_get, None, Ok, Err, IsTrue, IfOk};
ghost use Rattle.std.specs.Prelude.{IfSome, MatchResult, OnErr};
ghost use Rattle.std.specs.Option.{option_map, unwrap_or};
ghost use Rattle.ks_base.specs.declared.refusals.Refusal.TheVariants.{Memory};
ghost use Rattle.image_threads.specs.Spawning.{is_stack};
ghost use Rattle.splice_jump.specs.declared.phase.Phase.TheVariants.{Done};
ghost use Rattle.update_stack.specs.Aside.{LeavesAside};
ghost use Rattle.update_stack.specs.HookRuns.{all_run, fresh_piece, ran_aside, scratch_range};
ghost use Rattle.apply_hooks.specs.Runs.{waiting, with_steps, LeavesRuns};

use crate::run::{fresh_stack, run_function};
use image_memory::{Pieces, Space};
use ks_base::{HookRun, HookRuns, Name, Range, Refusal};
use std::alloc::{AllocError, Global};
use std::mem::replace;
use update_plan::{Hook, Hooks};
use update_stack::{HookEnd, System, scratch_comes_and_goes};

/// How many bytes the scratch piece has.
const SCRATCH_SIZE: u32 = 4_096;

/// Runs functions one after another on a scratch piece, which comes first and goes afterwards, however they end. Answers
/// their runs. It is refused with [`Refusal::NoRoom`] where the scratch piece has no place, and with
/// [`Refusal::HookFault`] or [`Refusal::HookBudget`] by the first function that doesn't return; what was written stays.
/// [`Refusal::Memory`] comes only if memory runs out, and before the first step.
pub(crate) fn run_hooks<S: Space>(
    alloc: Global,
    system: &mut System<S>,
    hooks: &Hooks,
) -> Result<HookRuns, Refusal>
    requires done { system.old.phase ≡ Done }
    requires none { system.old.machine.scratch ≡ None }
    ensures ran { MatchResult result
        (λ runs. ran_aside hooks.now system.old.machine ≡ Ok (system.new.machine, runs))
        (λ refusal. refusal ≢ Memory → ran_aside hooks.now system.old.machine ≡ Err refusal) }
    ensures left { OnErr result (LeavesRuns system.old.machine system.new.machine) }
    ensures scratch { system.new.machine.scratch ≡ None }
    ensures phase { system.new.phase ≡ Done }
{
    // The law says that the scratch piece is a writable piece, and what is left when it goes.
    scratch_comes_and_goes();
    let runs = waiting_runs(alloc, hooks)?;
    let _program = system.machine();
    let base = system.add_scratch()?;
    let _program = system.machine();
    let stack = Range {
        low: base,
        high: base + SCRATCH_SIZE,
    };
    let ran = run_on(alloc, system, stack, hooks, runs);
    system.drop_scratch();
    ran
}

/// Functions that were not run yet. `Err` comes only if memory runs out.
fn waiting_runs(alloc: Global, hooks: &Hooks) -> Result<HookRuns, AllocError>
    ensures { IfOk result (λ runs. runs ≡ map waiting hooks.now) }
{
    let mut runs = HookRuns::new(alloc);
    for hook in hooks.as_slice() {
        runs.push(HookRun {
            function: Name::from_slice(alloc, hook.function.as_slice())?,
            steps: 0,
        })?;
    }
    Ok(runs)
}

/// The same on a scratch piece that is there.
fn run_on<S: Space>(
    alloc: Global,
    system: &mut System<S>,
    stack: Range,
    hooks: &Hooks,
    runs: HookRuns,
) -> Result<HookRuns, Refusal>
    requires done { system.old.phase ≡ Done }
    requires scratch { stack ≡ scratch_range stack.low }
    requires stands { IsTrue (is_stack system.old.machine.pieces stack) }
    requires waiting { runs ≡ map waiting hooks.now }
    ensures ran { MatchResult result
        (λ runs. all_run hooks.now stack.low system.old.machine [] ≡ Ok (system.new.machine, runs))
        (λ refusal. refusal ≢ Memory → all_run hooks.now stack.low system.old.machine [] ≡ Err refusal) }
    ensures aside { LeavesAside system.old.machine system.new.machine }
    ensures phase { system.new.phase ≡ Done }
{
    let fresh_stack = fresh_stack(alloc, stack)?;
    run_each(alloc, system, stack, &fresh_stack, hooks.as_slice(), runs)
}

/// The same where the bytes are at hand that the scratch piece has when a run begins. It takes no memory.
fn run_each<S: Space>(
    alloc: Global,
    system: &mut System<S>,
    stack: Range,
    fresh_stack: &Pieces,
    hooks: &[Hook],
    mut runs: HookRuns,
) -> Result<HookRuns, Refusal>
    requires done { system.old.phase ≡ Done }
    requires scratch { stack ≡ scratch_range stack.low }
    requires stands { IsTrue (is_stack system.old.machine.pieces stack) }
    requires fresh { fresh_stack.now ≡ fresh_piece stack ∷ [] }
    requires waiting { runs ≡ map waiting hooks.now }
    ensures ran { MatchResult result
        (λ runs. all_run hooks.now stack.low system.old.machine [] ≡ Ok (system.new.machine, runs))
        (λ refusal. all_run hooks.now stack.low system.old.machine [] ≡ Err refusal) }
    ensures aside { LeavesAside system.old.machine system.new.machine }
    ensures phase { system.new.phase ≡ Done }
{
    for at in 0..hooks.len() {
        match run_function(system, stack, fresh_stack, hooks[at].address) {
            HookEnd::Returned { steps } => set_steps(&mut runs, at, steps),
            HookEnd::Faulted { fault, pc } => {
                let function = take_name(alloc, &mut runs, at);
                return Err(Refusal::HookFault {
                    function,
                    fault,
                    pc,
                });
            }
            HookEnd::Unreturned => {
                return Err(Refusal::HookBudget(take_name(alloc, &mut runs, at)));
            }
        }
    }
    Ok(runs)
}

/// Notes how many steps the function at a place made. It takes no memory.
fn set_steps(runs: &mut HookRuns, at: usize, steps: u32)
    ensures { runs.new ≡ unwrap_or (option_map (λ run. set runs.old at (with_steps steps run))
        (slice_get runs.old at)) runs.old }
{
    if let Some(run) = runs.get_mut(at) {
        run.steps = steps;
    }
}

/// The name of the function at a place. It takes no memory.
fn take_name(alloc: Global, runs: &mut HookRuns, at: usize) -> Name
    requires { at < length runs.old }
    ensures { IfSome (slice_get runs.old at) (λ run. result ≡ run.function) }
{
    match runs.get_mut(at) {
        Some(run) => replace(&mut run.function, Name::new(alloc)),
        None => unreachable!(),
    }
}
