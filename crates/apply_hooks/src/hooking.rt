//! An update at which the functions run that the new object lists.
ghost use Rattle.std.specs.Prelude.{◌≡◌, ◌≢◌, None, Ok, Err, OnErr, MatchResult};
ghost use Rattle.ks_base.specs.declared.refusals.Refusal.TheVariants.{Memory};
ghost use Rattle.splice_jump.specs.declared.phase.Phase.TheVariants.{Done};
ghost use Rattle.update_stack.specs.Events.{Hooks, Hooked, answered, happened};
ghost use Rattle.update_stack.specs.Hooks.{run_listed};

use crate::laws::failed_hooks_are_taken_back;
use crate::list::lists_functions;
use crate::runs::run_hooks;
use image_memory::Space;
use ks_base::{HookReport, HookRuns, Name, Refusal};
use saved_data::{save, saved_data_come_back};
use std::alloc::Global;
use update_stack::{System, accepted_updates_lie_on_top};

/// Replaces functions of a program as [`System::apply`] does, and runs those that the new object lists in its section
/// `.ksplice_apply`, in their order: each on a scratch piece of 4,096 bytes, which is zeroed before, as a thread that is
/// none of the program's and was started with the argument 0, until it returns. Answers what the update did, and how many
/// steps each function made. Where the object has no such section it is an ordinary update.
///
/// It is refused by the first of these that holds, and all is then as before, byte for byte, what functions wrote among it:
///
/// - `post` is read, and its list of functions is broken; the offset is told ([`Refusal::BadHooks`]);
/// - all for which [`System::apply`] refuses, in its order;
/// - the arena has no room for the scratch piece ([`Refusal::NoRoom`]);
/// - a function stops, or has made 1,000,000 steps and hasn't returned; the first that does is told
///   ([`Refusal::HookFault`], [`Refusal::HookBudget`]).
///
/// [`Refusal::Memory`] may come in place of any answer up to the first function's first step, but only if memory runs out;
/// all is then as before.
pub fn apply_with_hooks<S: Space>(
    alloc: Global,
    system: &mut System<S>,
    name: &Name,
    pre: &[u8],
    post: &[u8],
) -> Result<HookReport, Refusal>
    requires done { system.old.phase ≡ Done }
    requires none { system.old.machine.scratch ≡ None }
    ensures answered { MatchResult result
        (λ done. answered system.old.machine (Hooks name.now pre.now post.now)
        ≡ Ok (happened system.new.machine (Hooked done)))
        (λ refusal. refusal ≢ Memory → answered system.old.machine (Hooks name.now pre.now post.now) ≡ Err refusal) }
    ensures scratch { system.new.machine.scratch ≡ None }
    ensures phase { system.new.phase ≡ system.old.phase }
    ensures refused { OnErr result (system.new ≡ system.old) }
{
    if lists_functions(alloc, post)? {
        return apply_listed(alloc, system, name, pre, post);
    }
    Ok(HookReport {
        report: system.apply(name, pre, post)?,
        hooks: HookRuns::new(alloc),
    })
}

/// The same where the new object lists functions.
fn apply_listed<S: Space>(
    alloc: Global,
    system: &mut System<S>,
    name: &Name,
    pre: &[u8],
    post: &[u8],
) -> Result<HookReport, Refusal>
    requires done { system.old.phase ≡ Done }
    requires none { system.old.machine.scratch ≡ None }
    ensures ran { MatchResult result
        (λ done. run_listed system.old.machine name.now pre.now post.now ≡ Ok (system.new.machine, done))
        (λ refusal. refusal ≢ Memory → run_listed system.old.machine name.now pre.now post.now ≡ Err refusal) }
    ensures scratch { system.new.machine.scratch ≡ None }
    ensures phase { system.new.phase ≡ system.old.phase }
    ensures refused { OnErr result (system.new ≡ system.old) }
{
    // The laws say that the machine without the update is the one before it, and that with what was saved of its data put
    // back all is as before.
    accepted_updates_lie_on_top();
    failed_hooks_are_taken_back();
    saved_data_come_back();
    let saved = save(alloc, system.machine().space())?;
    let (report, hooks) = system.apply_listing(name, pre, post)?;
    match run_hooks(alloc, system, &hooks) {
        Ok(hooks) => Ok(HookReport { report, hooks }),
        Err(refusal) => {
            system.withdraw();
            system.put_back(&saved);
            Err(refusal)
        }
    }
}
