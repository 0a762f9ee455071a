//! The reply to `diff`.
ghost use Rattle.std.specs.Prelude.{◌≢◌, Ok, Err, IfOk, IfErr};
ghost use Rattle.ks_base.specs.Gives.{Gives};
ghost use Rattle.extract_post.specs.Extract.{Extracts};
ghost use Rattle.ksplice_calls.specs.Reply.{IsDifference, Listed, both_sections};

use crate::listing::list_extract;
use extract_post::extract;
use i386_reloc::{Normal, read_sections};
use ks_base::{Line, Refusal};
use std::alloc::Global;

/// The difference of two object files: the lines of what an update from `pre` to `post` is made of. Refuses what is
/// wrong with `pre`, else what is wrong with `post`, else what is wrong with the two together.
pub fn compare<'a>(alloc: Global, pre: &'a [u8], post: &'a [u8]) -> Result<Line, Refusal>
    ensures ok { IfOk result (λ lines. IsDifference pre.now post.now (Ok lines)) }
    ensures refused { IfErr result (λ refusal. refusal ≢ Refusal.Memory → IsDifference pre.now post.now (Err refusal)) }
{
    let both = read_both(alloc, pre, post)?;
    difference(alloc, &both.0, &both.1)
}

/// The sections of both objects, the first one's read first.
#[tactic(auto, unfolding(crate::specs::Reply::both_sections))]
fn read_both<'a>(
    alloc: Global,
    pre: &'a [u8],
    post: &'a [u8],
) -> Result<(Normal<'a>, Normal<'a>), Refusal>
    ensures { Gives (λ both. both) result (both_sections pre.now post.now) }
{
    let old = read_sections(alloc, pre)?;
    let new = read_sections(alloc, post)?;
    Ok((old, new))
}

fn difference<'a>(alloc: Global, old: &Normal<'a>, new: &Normal<'a>) -> Result<Line, Refusal>
    ensures ok { IfOk result (λ lines. Listed old.now new.now lines) }
    ensures refused { IfErr result (λ refusal. refusal ≢ Refusal.Memory → Extracts old.now new.now (Err refusal)) }
{
    let extract = extract(alloc, old, new)?;
    Ok(list_extract(alloc, old, new, &extract)?)
}
