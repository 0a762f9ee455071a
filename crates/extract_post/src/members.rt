//! Which functions an update is about.
ghost use Rattle.std.specs.Prelude.{◌≡◌, ◌<◌, ◌+◌, ◌*◌, ◌^◌, IfOk, length};
ghost use Rattle.extract_post.specs.inside.Closures.{HasDistinctNames};
ghost use Rattle.extract_post.specs.inside.Edges.{links_in};
ghost use Rattle.extract_post.specs.inside.Seeds.{IsSeed};
ghost use Rattle.extract_post.specs.inside.Marks.{TellWhich, TellMembers};

use crate::marking::Marks;
use crate::member_edges::member_edges;
use crate::types::Link;
use i386_reloc::Normal;
use reachability::reached_along;
use std::alloc::{AllocError, Global};

/// Which code sections of both objects are members, by the marks of the first ones among the second object's sections.
/// The marks of the second object's sections come first, then those of the first's.
#[tactic(auto, using(crate::proofs::Numbered::members_within))]
pub(crate) fn member_nodes(
    alloc: Global,
    pre: &Normal<'_>,
    post: &Normal<'_>,
    pre_links: &[Link],
    post_links: &[Link],
    first: &Marks,
) -> Result<Marks, AllocError>
    requires few { 3 * (length pre.now + length post.now) < 2 ^ 32 }
    requires pre_distinct { HasDistinctNames pre.now }
    requires post_distinct { HasDistinctNames post.now }
    requires pre_links { pre_links.now ≡ links_in pre.now }
    requires post_links { post_links.now ≡ links_in post.now }
    requires first { TellWhich (IsSeed pre.now post.now) post.now first.now }
    ensures { IfOk result (λ nodes. TellMembers pre.now post.now nodes) }
{
    let edges = member_edges(alloc, pre, post, pre_links, post_links)?;
    let count = 3 * (pre.len() + post.len());
    let seeds = first.part(alloc, 0, count)?;
    let nodes = reached_along(alloc, count, edges.as_slice(), seeds.as_slice())?;
    Ok(Marks::new(nodes))
}
