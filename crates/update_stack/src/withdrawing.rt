//! What taking an update back from among others does.
ghost use Rattle.std.specs.Prelude.{◌≡◌, ◌≤◌, ◌<◌, ◌+◌, ◌^◌, ℕ, List, ◌++◌, length, take, drop, slice_get, Some, None};
ghost use Rattle.std.specs.List.{All, flat_map};
ghost use Rattle.image_threads.specs.Program.{Program};
ghost use Rattle.update_stack.specs.StandsFor.{seen};
ghost use Rattle.update_stack.specs.Undo.{cover_refusal};
ghost use Rattle.update_stack.specs.Systems.{Holds, live_update, machine_of};
ghost use Rattle.update_stack.specs.declared.updates.Arena.{Arena as ArenaOf};
ghost use Rattle.update_stack.specs.declared.updates.Kept.{Kept as KeptOf};
ghost use Rattle.update_stack.specs.declared.updates.Update.{Update as Shown};
ghost use Rattle.update_stack.specs.inside.TakingBack.{AtUpdate, CanBeTaken, after_taking, IsHeldWithout};

use crate::uncovered::uncovered_updates_can_go;
use crate::updates::Kept;
use image_memory::Space;
use image_threads::Machine;
use ks_base::ListOf;
use splice_jump::{
    code_stays_code, homes_stay_spliced, jumps_are_added_and_replaced, jumps_are_taken_back,
    jumps_change_their_bytes_alone,
};
use std::alloc::Global;
use std::mem;
use update_memory::{
    changes_are_withdrawn, code_that_stays, dropping_goes_past_writes, memory_stays_memory,
    withdraw,
};

/// Takes the item at a place out of a list. It takes no memory.
pub(crate) fn take_out<T: Drop>(alloc: Global, list: &mut ListOf<T>, at: usize) -> T
    requires { at < length list.old }
    ensures item { slice_get list.old at ≡ Some result }
    ensures rest { list.new ≡ take at list.old ++ drop (at + 1) list.old }
{
    let mut items = mem::replace(list, ListOf::new(alloc)).into_vec();
    let item = items.remove(at);
    *list = ListOf::from_vec(items);
    item
}

/// Takes away what an update changed: its jumps, its retired ranges, its pieces and its symbols, which stand before those
/// of the later ones. It takes no memory.
pub(crate) fn take_back<S: Space>(machine: &mut Machine<S>, one: &Kept, later: &[Kept])
    requires { CanBeTaken machine.old one.now later.now }
    ensures { seen machine.new ≡ after_taking one.now later.now (seen machine.old) }
{
    let pieces = one.pieces.as_slice();
    let retired = one.retired.as_slice();
    withdraw(machine.space_mut(), pieces, retired, one.jumps.as_slice());
    let table = machine.symbols_mut();
    let first = table.len() - count_of_symbols(one, later);
    table.remove_at(first as u32, one.symbol_count);
}

/// How many symbols an update and later ones added.
fn count_of_symbols(one: &Kept, later: &[Kept]) -> usize
    requires { length (one.now.symbols ++ flat_map (λ (k : KeptOf). k.symbols) later.now) < 2 ^ 64 }
    ensures { result ≡ length (one.now.symbols ++ flat_map (λ (k : KeptOf). k.symbols) later.now) }
{
    let mut count = one.symbols.len();
    for next in later {
        count += next.symbols.len();
    }
    count
}

/// What is kept of an update that no later one covers can be taken away, and the system holds then, as the machine without
/// that update.
pub(crate) fn updates_are_taken_back()
    ensures can { (program : Program) (arena : ArenaOf) (updates : List Shown) (kept : List KeptOf)
        (at : AtUpdate updates kept) → Holds program arena updates kept
        → cover_refusal (machine_of program arena updates kept) (live_update at.update at.one) ≡ None
        → CanBeTaken program at.one at.kept_later }
    ensures held { (before after : Program) (arena : ArenaOf) (updates : List Shown) (kept : List KeptOf)
        (at : AtUpdate updates kept) → Holds before arena updates kept
        → cover_refusal (machine_of before arena updates kept) (live_update at.update at.one) ≡ None
        → seen after ≡ after_taking at.one at.kept_later (seen before)
        → IsHeldWithout before after arena updates kept at }
{
    // Nothing is done here: the laws say that the update can go from among the others, what jumps and the other changes of
    // memory leave, and what taking them back restores.
    uncovered_updates_can_go();
    jumps_are_added_and_replaced();
    jumps_are_taken_back();
    jumps_change_their_bytes_alone();
    homes_stay_spliced();
    code_stays_code();
    changes_are_withdrawn();
    dropping_goes_past_writes();
    memory_stays_memory();
    code_that_stays();
}
