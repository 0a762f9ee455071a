//! The read-only data and texts that an update carries with it.
ghost use Rattle.std.specs.Prelude.{◌≡◌, IfOk};
ghost use Rattle.extract_post.specs.inside.Edges.{links_in};
ghost use Rattle.extract_post.specs.inside.Closures.{HasDistinctNames};
ghost use Rattle.extract_post.specs.Members.{Member, IsCarried};
ghost use Rattle.extract_post.specs.inside.Marks.{TellWhich, TellEach};

use crate::marking::Marks;
use crate::reaching::reached;
use crate::types::{Asked, Link, Wanted};
use i386_reloc::Normal;
use std::alloc::{AllocError, Global};

/// Which sections of the second object are carried, by the marks of its members.
pub(crate) fn carried(
    alloc: Global,
    pre: &Normal<'_>,
    post: &Normal<'_>,
    links: &[Link],
    members: &Marks,
) -> Result<Marks, AllocError>
    requires distinct { HasDistinctNames post.now }
    requires links { links.now ≡ links_in post.now }
    requires members { TellEach (Member pre.now post.now) post.now members.now }
    ensures { IfOk result (λ marks. TellWhich (IsCarried pre.now post.now) post.now marks) }
{
    let functions = Marks::of(alloc, Asked::Here(Wanted::Code), post, pre)?.and(members);
    let starts = Marks::of(alloc, Asked::Alone(Wanted::Data), post, pre)?.or(&functions);
    let constants = Marks::of(alloc, Asked::Here(Wanted::Constant), post, pre)?;
    Ok(reached(alloc, post, links, &starts)?.and(&constants))
}
