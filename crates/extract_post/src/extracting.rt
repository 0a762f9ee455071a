//! Extracts an update from two objects.
ghost use Rattle.std.specs.Prelude.{◌≢◌, Ok, Err, IfOk, IfErr};
ghost use Rattle.extract_post.specs.Extract.{Extracts};

use crate::changes::{differing_data, first_members};
use crate::interiors::first_broken;
use crate::linking::links;
use crate::members::member_nodes;
use crate::naming::{data_changed, interior, lists};
use crate::reaching::changed_sections;
use crate::types::Extract;
use i386_reloc::Normal;
use ks_base::Refusal;
use std::alloc::Global;

/// What an update from `pre` to `post` is made of. Refuses the first that holds of these: a section of `post` is in
/// `pre` too and has different data there (`DataChanged`); a reference of `post` from data to the interior of a
/// function can't be kept (`Interior`); no function differs and none is added (`NoChange`). `Memory` comes only if
/// memory runs out.
pub fn extract<'a>(alloc: Global, pre: &Normal<'a>, post: &Normal<'a>) -> Result<Extract, Refusal>
    ensures ok { IfOk result (λ extract. Extracts pre.now post.now (Ok extract)) }
    ensures refused { IfErr result
        (λ refusal. refusal ≢ Refusal.Memory → Extracts pre.now post.now (Err refusal)) }
{
    // What a Normal tells of its sections: they are few, and no two have one name.
    let _pre = pre.as_slice();
    let _post = post.as_slice();
    let old = links(alloc, pre)?;
    let new = links(alloc, post)?;
    let changed = changed_sections(alloc, pre, post, old.as_slice(), new.as_slice())?;
    let differing = differing_data(alloc, pre, post, &changed)?;
    if let Some(place) = differing.first() {
        return Err(data_changed(alloc, post, place)?);
    }
    let seeds = first_members(alloc, pre, post, &changed)?;
    let members = member_nodes(alloc, pre, post, old.as_slice(), new.as_slice(), &seeds)?;
    let broken = first_broken(alloc, pre, post, new.as_slice(), &members)?;
    if let Some((place, k)) = broken {
        return Err(interior(alloc, post, place, k)?);
    }
    if seeds.first().is_none() {
        return Err(Refusal::NoChange);
    }
    Ok(lists(alloc, pre, post, new.as_slice(), &members)?)
}
