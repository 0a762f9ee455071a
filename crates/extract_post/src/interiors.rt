//! References of data to the interior of functions that an update can't keep.
ghost use Rattle.std.specs.Prelude.{◌≡◌, Some, IfOk, length, position};
ghost use Rattle.std.specs.List.{slice_get};
ghost use Rattle.i386_reloc.specs.Places.{reference_at};
ghost use Rattle.extract_post.specs.Members.{Member};
ghost use Rattle.extract_post.specs.inside.Closures.{HasDistinctNames};
ghost use Rattle.extract_post.specs.inside.Edges.{links_in};
ghost use Rattle.extract_post.specs.inside.Found.{Broken};
ghost use Rattle.extract_post.specs.inside.Marks.{breaks_at, breaks, TellEach, TellDataOf, FirstBreak};

use crate::linking::place_of_target;
use crate::marking::Marks;
use crate::reaching::reached;
use crate::types::{Asked, Link, Wanted};
use i386_reloc::{Normal, NormalSection, Ref};
use std::alloc::{AllocError, Global};

/// The places of the first broken reference's section and of itself in it, `None` where none is broken.
pub(crate) fn first_broken(
    alloc: Global,
    pre: &Normal<'_>,
    post: &Normal<'_>,
    links: &[Link],
    members: &Marks,
) -> Result<Option<(usize, usize)>, AllocError>
    requires distinct { HasDistinctNames post.now }
    requires links { links.now ≡ links_in post.now }
    requires members { TellEach (Member pre.now post.now) post.now members.now }
    ensures { IfOk result (λ found. Broken pre.now post.now found) }
{
    let in_both = Marks::of(alloc, Asked::InBoth(Wanted::Data), post, pre)?;
    let alone = Marks::of(alloc, Asked::Alone(Wanted::Data), post, pre)?;
    let old = data_of(alloc, post, links, &in_both)?;
    let new = data_of(alloc, post, links, &alone)?;
    let changed = Marks::of(alloc, Asked::InBoth(Wanted::Code), post, pre)?.and(members);
    let stays = Marks::of(alloc, Asked::Here(Wanted::Code), post, pre)?.without(members);
    Ok(first_break(post, &old, &new, &changed, &stays))
}

/// Which sections are marked ones of data, or read-only data that a marked one reaches.
fn data_of(
    alloc: Global,
    post: &Normal<'_>,
    links: &[Link],
    starts: &Marks,
) -> Result<Marks, AllocError>
    requires distinct { HasDistinctNames post.now }
    requires links { links.now ≡ links_in post.now }
    requires starts { length starts.now ≡ length post.now }
    ensures { IfOk result (λ marks. TellDataOf post.now starts.now marks) }
{
    let wanted = Marks::of(alloc, Asked::Here(Wanted::ReadOnly), post, post)?.or(starts);
    Ok(reached(alloc, post, links, starts)?.and(&wanted))
}

/// What the references of a section are tested by: whether the section is old data and whether it is new, and which
/// sections are changed and which stay.
#[derive(Clone, Copy)]
struct Trial<'m> {
    from_old: bool,
    from_new: bool,
    changed: &'m Marks,
    stays: &'m Marks,
}

impl<'m> Trial<'m> {
    /// Whether a reference to the interior of the section at a place breaks: from old data to a changed section, or
    /// from new data to one that stays.
    fn breaks_at(&self, place: Option<usize>) -> bool
        ensures { result ≡ breaks_at self.now.from_old self.now.from_new self.now.changed.now self.now.stays.now place }
    {
        match place {
            Some(place) => self.from_old && self.changed.has(place)
                || self.from_new && self.stays.has(place),
            None => false,
        }
    }
}

/// Whether a reference goes to an interior and breaks: the reference `k` of the section at a place.
fn breaks(post: &Normal<'_>, trial: &Trial<'_>, place: usize, k: usize, r: &Ref<'_>) -> bool
    requires { reference_at post.now place k ≡ Some r.now }
    ensures { result ≡ breaks post.now trial.now.from_old trial.now.from_new trial.now.changed.now trial.now.stays.now
        r.now }
{
    r.is_interior() && trial.breaks_at(place_of_target(post, place, k, r))
}

/// The first reference of the section at a place that breaks, as its place among them.
#[tactic(auto, using(crate::proofs::Targets::reference_here))]
fn first_in(
    post: &Normal<'_>,
    trial: &Trial<'_>,
    place: usize,
    section: &NormalSection<'_>,
) -> Option<usize>
    requires { slice_get post.now place ≡ Some section.now }
    ensures { result ≡ position (breaks post.now trial.now.from_old trial.now.from_new trial.now.changed.now
        trial.now.stays.now) section.now.refs }
{
    let refs = section.refs.as_slice();
    for k in 0..refs.len() {
        if breaks(post, trial, place, k, &refs[k]) {
            return Some(k);
        }
    }
    None
}

/// The first reference that breaks, as the places of its section and of itself in it.
fn first_break(
    post: &Normal<'_>,
    old: &Marks,
    new: &Marks,
    changed: &Marks,
    stays: &Marks,
) -> Option<(usize, usize)>
    ensures { FirstBreak post.now old.now new.now changed.now stays.now result }
{
    let sections = post.as_slice();
    for i in 0..sections.len() {
        let trial = Trial {
            from_old: old.has(i),
            from_new: new.has(i),
            changed,
            stays,
        };
        if let Some(k) = first_in(post, &trial, i, &sections[i]) {
            return Some((i, k));
        }
    }
    None
}
