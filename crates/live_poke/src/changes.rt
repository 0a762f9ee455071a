//! Whether two objects differ in one function alone.
ghost use Rattle.std.specs.Prelude.{◌≡◌, ◌≢◌, not, MatchResult};
ghost use Rattle.std.specs.Result.{result_err};
ghost use Rattle.ks_base.specs.Gives.{Gives};
ghost use Rattle.ks_base.specs.declared.refusals.Refusal.TheVariants.{Memory, NotOneChanged};
ghost use Rattle.i386_reloc.specs.Refused.{refused_where};
ghost use Rattle.i386_reloc.specs.Rule.{Finds};
ghost use Rattle.update_plan.specs.OneFunction.{extract_of, is_one_changed};
ghost use Rattle.live_poke.specs.Poke.{change_refusal};

use extract_post::{Extract, extract, extract_is_computed};
use i386_reloc::read_sections;
use ks_base::Refusal;
use std::alloc::Global;

/// Whether an object file differs from another in one function, with none added and none dropped.
/// [`Refusal::NotOneChanged`] comes exactly where both are read and their difference can be made, and it is another;
/// [`Refusal::Memory`] only if memory runs out. What else is wrong with the objects isn't said here.
#[tactic(auto, unfolding(crate::specs::Poke::change_refusal))]
pub(crate) fn check_one_changed(alloc: Global, pre: &[u8], post: &[u8]) -> Result<(), Refusal>
    ensures { Finds Memory result (change_refusal pre.now post.now) }
{
    match extract_of(alloc, pre, post) {
        Ok(extract) => check_extract(&extract),
        Err(refusal) => check_memory(refusal),
    }
}

/// Lets every refusal pass but that of memory.
fn check_memory(refusal: Refusal) -> Result<(), Refusal>
    ensures { MatchResult result (λ _. refusal ≢ Memory) (λ other. other ≡ Memory) }
{
    if refusal.is_memory() {
        return Err(refusal);
    }
    drop(refusal);
    Ok(())
}

/// Whether what differs is one changed function alone.
fn check_extract(extract: &Extract) -> Result<(), Refusal>
    ensures { result_err result ≡ refused_where (not (is_one_changed extract.now)) NotOneChanged }
{
    if is_one_changed(extract) {
        Ok(())
    } else {
        Err(Refusal::NotOneChanged)
    }
}

/// Whether one function is changed, and none is added or dropped.
fn is_one_changed(extract: &Extract) -> bool
    ensures { result ≡ is_one_changed extract.now }
{
    extract.changed.len() == 1 && extract.added.is_empty() && extract.dropped.is_empty()
}

/// What differs between two object files.
#[tactic(auto, unfolding(update_plan::specs::OneFunction::extract_of))]
fn extract_of(alloc: Global, pre: &[u8], post: &[u8]) -> Result<Extract, Refusal>
    ensures { Gives (λ extract. extract) result (extract_of pre.now post.now) }
{
    let old = read_sections(alloc, pre)?;
    let new = read_sections(alloc, post)?;
    // The law says that the answer is the one that is computed.
    extract_is_computed();
    extract(alloc, &old, &new)
}
