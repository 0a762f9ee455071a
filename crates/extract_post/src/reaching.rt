//! Which sections reach marked ones, and which are reached from marked ones.
ghost use Rattle.std.specs.Prelude.{◌≡◌, IfOk, List, length};
ghost use Rattle.i386_reloc.specs.declared.types.NormalSection.{NormalSection};
ghost use Rattle.i386_reloc.specs.Places.{place_named};
ghost use Rattle.extract_post.specs.Members.{is_changed_read_only};
ghost use Rattle.extract_post.specs.inside.Closures.{HasDistinctNames};
ghost use Rattle.extract_post.specs.inside.Edges.{links_in};
ghost use Rattle.extract_post.specs.inside.Marks.{TellReaching, TellReached, TellChanged, tests, marked_at, is_other};

use crate::edges::{backward_edges, forward_edges};
use crate::marking::Marks;
use crate::types::{Asked, Link, Wanted};
use i386_reloc::Normal;
use reachability::reached_along;
use section_equal::same_sections;
use std::alloc::{AllocError, Global};

/// Which sections are marked or reach a marked one, by the links of their references.
#[tactic(auto, using(crate::proofs::Walks::backward_within))]
fn reaching(
    alloc: Global,
    normal: &Normal<'_>,
    links: &[Link],
    seeds: &Marks,
) -> Result<Marks, AllocError>
    requires distinct { HasDistinctNames normal.now }
    requires links { links.now ≡ links_in normal.now }
    requires seeds { length seeds.now ≡ length normal.now }
    ensures { IfOk result (λ marks. TellReaching normal.now seeds.now marks) }
{
    let edges = backward_edges(alloc, links)?;
    let marks = reached_along(alloc, normal.len(), edges.as_slice(), seeds.as_slice())?;
    Ok(Marks::new(marks))
}

/// Which sections are marked or reached from a marked one, by the links of their references.
#[tactic(auto, using(crate::proofs::Walks::forward_within))]
pub(crate) fn reached(
    alloc: Global,
    normal: &Normal<'_>,
    links: &[Link],
    seeds: &Marks,
) -> Result<Marks, AllocError>
    requires distinct { HasDistinctNames normal.now }
    requires links { links.now ≡ links_in normal.now }
    requires seeds { length seeds.now ≡ length normal.now }
    ensures { IfOk result (λ marks. TellReached normal.now seeds.now marks) }
{
    let edges = forward_edges(alloc, links)?;
    let marks = reached_along(alloc, normal.len(), edges.as_slice(), seeds.as_slice())?;
    Ok(Marks::new(marks))
}

/// The marks of the first object's sections, at the sections of the second that have their names.
fn at_names(
    alloc: Global,
    pre: &Normal<'_>,
    post: &Normal<'_>,
    marks: &Marks,
) -> Result<Marks, AllocError>
    ensures { IfOk result (λ moved. moved ≡ tests (λ name. marked_at marks.now (place_named pre.now name)) post.now) }
{
    let mut moved = Vec::new(alloc);
    for section in post.as_slice() {
        moved.push(marks.has_at(pre.place(section.name.as_slice())))?;
    }
    Ok(Marks::new(moved))
}

/// Which sections of an object are read-only data and marked, or reach such a one in it.
fn reaching_read_only(
    alloc: Global,
    of: &Normal<'_>,
    links: &[Link],
    other: &Marks,
) -> Result<Marks, AllocError>
    requires distinct { HasDistinctNames of.now }
    requires links { links.now ≡ links_in of.now }
    ensures { IfOk result (λ marks. (pre post : List NormalSection) → other.now ≡ tests (is_other pre post) of.now
        → TellReaching of.now (tests (is_changed_read_only of.now pre post) of.now) marks) }
{
    let seeds = Marks::of(alloc, Asked::Here(Wanted::ReadOnly), of, of)?.and(other);
    reaching(alloc, of, links, &seeds)
}

/// Which sections of the second object aren't the same in the first, or reach, in either, read-only data of it that
/// isn't the same in both.
pub(crate) fn changed_sections<'a>(
    alloc: Global,
    pre: &Normal<'a>,
    post: &Normal<'a>,
    pre_links: &[Link],
    post_links: &[Link],
) -> Result<Marks, AllocError>
    requires pre_distinct { HasDistinctNames pre.now }
    requires post_distinct { HasDistinctNames post.now }
    requires pre_links { pre_links.now ≡ links_in pre.now }
    requires post_links { post_links.now ≡ links_in post.now }
    ensures { IfOk result (λ marks. TellChanged pre.now post.now marks) }
{
    let same = same_sections(alloc, pre, post)?;
    let old_other = Marks::unmarked(alloc, same.pre.as_slice())?;
    let new_other = Marks::unmarked(alloc, same.post.as_slice())?;
    let old = reaching_read_only(alloc, pre, pre_links, &old_other)?;
    let new = reaching_read_only(alloc, post, post_links, &new_other)?;
    let moved = at_names(alloc, pre, post, &old)?;
    Ok(new_other.or(&new).or(&moved))
}
