//! Which sections of the second object differ from the first's.
ghost use Rattle.std.specs.Prelude.{IfOk};
ghost use Rattle.extract_post.specs.Extract.{DataDiffers};
ghost use Rattle.extract_post.specs.inside.Seeds.{IsSeed};
ghost use Rattle.extract_post.specs.inside.Marks.{TellWhich, TellChanged};

use crate::marking::Marks;
use crate::types::{Asked, Wanted};
use i386_reloc::Normal;
use std::alloc::{AllocError, Global};

/// Which sections of both objects have different data in the second.
pub(crate) fn differing_data(
    alloc: Global,
    pre: &Normal<'_>,
    post: &Normal<'_>,
    changed: &Marks,
) -> Result<Marks, AllocError>
    requires { TellChanged pre.now post.now changed.now }
    ensures { IfOk result (λ marks. TellWhich (DataDiffers pre.now post.now) post.now marks) }
{
    let data = Marks::of(alloc, Asked::InBoth(Wanted::Data), post, pre)?.and(changed);
    Ok(Marks::of(alloc, Asked::OtherClass, post, pre)?.or(&data))
}

/// Which code sections of the second object differ from the first's, or aren't in it.
pub(crate) fn first_members(
    alloc: Global,
    pre: &Normal<'_>,
    post: &Normal<'_>,
    changed: &Marks,
) -> Result<Marks, AllocError>
    requires { TellChanged pre.now post.now changed.now }
    ensures { IfOk result (λ marks. TellWhich (IsSeed pre.now post.now) post.now marks) }
{
    let code = Marks::of(alloc, Asked::InBoth(Wanted::Code), post, pre)?.and(changed);
    Ok(Marks::of(alloc, Asked::Alone(Wanted::Code), post, pre)?.or(&code))
}
