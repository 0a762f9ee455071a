//! Whether a new object lists functions.
ghost use Rattle.std.specs.Prelude.{◌≡◌, ◌≢◌, false, MatchResult};
ghost use Rattle.ks_base.specs.Gives.{Gives};
ghost use Rattle.ks_base.specs.declared.refusals.Refusal.TheVariants.{Memory};
ghost use Rattle.hook_list.specs.Listed.{listed};
ghost use Rattle.i386_reloc.specs.Sections.{sections_of};
ghost use Rattle.update_stack.specs.Hooks.{listed_in};
ghost use Rattle.apply_hooks.specs.Lists.{lists};

use hook_list::read_hooks;
use i386_reloc::{Normal, read_sections};
use ks_base::Refusal;
use std::alloc::Global;

/// Whether an object file has a list of functions; one that can't be read has none. [`Refusal::BadHooks`] comes exactly
/// where the list is broken, and [`Refusal::Memory`] only if memory runs out.
pub(crate) fn lists_functions(alloc: Global, post: &[u8]) -> Result<bool, Refusal>
    ensures { Gives (λ found. found) result (lists (listed_in (sections_of post.now))) }
{
    match read_sections(alloc, post) {
        Ok(object) => has_list(&object),
        Err(refusal) => check_memory(refusal),
    }
}

/// The same of an object that is read.
fn has_list(object: &Normal<'_>) -> Result<bool, Refusal>
    ensures { Gives (λ found. found) result (lists (listed object.now)) }
{
    match read_hooks(object) {
        Ok(list) => Ok(list.is_some()),
        Err(offset) => Err(Refusal::BadHooks(offset)),
    }
}

/// Lets every refusal pass but that of memory.
fn check_memory(refusal: Refusal) -> Result<bool, Refusal>
    ensures { MatchResult result (λ found. (found ≡ false) × (refusal ≢ Memory)) (λ other. other ≡ Memory) }
{
    if refusal.is_memory() {
        return Err(refusal);
    }
    drop(refusal);
    Ok(false)
}
