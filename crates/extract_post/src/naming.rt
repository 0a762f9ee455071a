//! The names that an extract is made of, and the names that refusals give.
ghost use Rattle.std.specs.Prelude.{◌≡◌, ◌<◌, ◌+◌, ◌*◌, ◌^◌, IfOk, Some, length};
ghost use Rattle.std.specs.List.{slice_get};
ghost use Rattle.i386_reloc.specs.declared.types.NormalSection.{NormalSection};
ghost use Rattle.i386_reloc.specs.declared.types.Ref.{Ref};
ghost use Rattle.extract_post.specs.inside.Closures.{HasDistinctNames};
ghost use Rattle.extract_post.specs.inside.Edges.{links_in};
ghost use Rattle.extract_post.specs.inside.Marks.{TellMembers};
ghost use Rattle.extract_post.specs.Extract.{IsExtract};

use crate::carrying::carried;
use crate::marking::{Marks, name_of};
use crate::types::{Asked, Extract, Link, Wanted};
use i386_reloc::Normal;
use ks_base::Refusal;
use std::alloc::{AllocError, Global};

/// The refusal that names a section whose data differ.
pub(crate) fn data_changed(
    alloc: Global,
    post: &Normal<'_>,
    place: usize,
) -> Result<Refusal, AllocError>
    requires { place < length post.now }
    ensures { IfOk result (λ refusal. (section : NormalSection) → slice_get post.now place ≡ Some section
        → refusal ≡ Refusal.DataChanged section.name) }
{
    let section = &post.as_slice()[place];
    let name = name_of(alloc, section)?;
    Ok(Refusal::DataChanged(name))
}

/// The refusal that names a reference: number `k` of the section at a place.
pub(crate) fn interior(
    alloc: Global,
    post: &Normal<'_>,
    place: usize,
    k: usize,
) -> Result<Refusal, AllocError>
    requires place { place < length post.now }
    requires reference { (section : NormalSection) → slice_get post.now place ≡ Some section → k < length section.refs }
    ensures { IfOk result (λ refusal. (section : NormalSection) (r : Ref) → slice_get post.now place ≡ Some section
        → slice_get section.refs k ≡ Some r → refusal ≡ Refusal.Interior section.name r.offset) }
{
    let section = &post.as_slice()[place];
    let refs = section.refs.as_slice();
    let offset = refs[k].offset;
    let name = name_of(alloc, section)?;
    Ok(Refusal::Interior(name, offset))
}

/// The lists of an extract, by the marks of the members of both objects.
pub(crate) fn lists(
    alloc: Global,
    pre: &Normal<'_>,
    post: &Normal<'_>,
    links: &[Link],
    members: &Marks,
) -> Result<Extract, AllocError>
    requires few { 3 * (length pre.now + length post.now) < 2 ^ 32 }
    requires distinct { HasDistinctNames post.now }
    requires links { links.now ≡ links_in post.now }
    requires members { TellMembers pre.now post.now members.now }
    ensures { IfOk result (λ extract. IsExtract pre.now post.now extract) }
{
    let pre_members = members.part(alloc, post.len(), pre.len())?;
    let changed = Marks::of(alloc, Asked::InBoth(Wanted::Code), post, pre)?.and(members);
    let added = Marks::of(alloc, Asked::Alone(Wanted::Code), post, pre)?.and(members);
    let carried = carried(alloc, pre, post, links, members)?;
    let new_data = Marks::of(alloc, Asked::Alone(Wanted::Data), post, pre)?;
    let dropped = Marks::of(alloc, Asked::Alone(Wanted::Code), pre, post)?.and(&pre_members);
    Ok(Extract {
        changed: changed.names(alloc, post.as_slice())?,
        added: added.names(alloc, post.as_slice())?,
        carried: carried.names(alloc, post.as_slice())?,
        new_data: new_data.names(alloc, post.as_slice())?,
        dropped: dropped.names(alloc, pre.as_slice())?,
    })
}
