//! Places for the sections of all objects.
ghost use Rattle.std.specs.Prelude.{◌≡◌, ◌≤◌, ◌<◌, ◌++◌, ◌∷◌, [], IfOk, IfSome};
ghost use Rattle.std.specs.Option.{IfNone};
ghost use Rattle.image_link.specs.Places.{behind, ends_after, laid_out, lengths_of, next_place, places_from, total_length};
ghost use Rattle.image_link.specs.inside.Filling.{AreAllPlaced};
ghost use Rattle.image_link.specs.inside.Laying.{seen};
ghost use Rattle.image_link.specs.inside.Linkable.{AreLinkable, IsLinkable};

use crate::ends::{RegionEnds, first_ends, next_place};
use crate::laid::LaidObject;
use i386_reloc::{Normal, NormalSection};
use ks_base::Name;
use link_post::{Placed, Placement};
use std::alloc::{AllocError, Global};

/// All objects with the places of their sections, `None` exactly where the lengths of the regions sum to too much.
pub(crate) fn lay_out<'p, 'a>(
    alloc: Global,
    objects: &'p [Normal<'a>],
) -> Result<Option<Vec<LaidObject<'p, 'a>>>, AllocError>
    ensures laid { IfOk result (λ found. IfSome found (λ laid. laid.items ≡ laid_out objects.now)) }
    ensures short { IfOk result (λ found. IfSome found (λ _. total_length objects.now ≤ 16777216)) }
    ensures linkable { IfOk result (λ found. IfSome found (λ _. AreLinkable objects.now)) }
    ensures none { IfOk result (λ found. IfNone found (16777216 < total_length objects.now)) }
{
    let mut laid = Vec::new(alloc);
    let mut ends = first_ends();
    for object in objects {
        match places_of(alloc, object, ends)? {
            None => return Ok(None),
            Some((placement, behind)) => {
                laid.push(LaidObject::new(object, placement))?;
                ends = behind;
            }
        }
    }
    Ok(Some(laid))
}

/// The places of an object's sections behind those so far, and the ends behind them; `None` exactly where the lengths of
/// the regions then sum to too much.
fn places_of(
    alloc: Global,
    object: &Normal<'_>,
    first: RegionEnds,
) -> Result<Option<(Placement, RegionEnds)>, AllocError>
    requires { lengths_of (seen first) ≤ 16777216 }
    ensures places { IfOk result (λ found. IfSome found (λ placed.
        placed.0 ≡ places_from (seen first) object.now)) }
    ensures ends { IfOk result (λ found. IfSome found (λ placed.
        seen placed.1 ≡ ends_after (seen first) object.now)) }
    ensures short { IfOk result (λ found. IfSome found (λ placed. lengths_of (seen placed.1) ≤ 16777216)) }
    ensures all { IfOk result (λ found. IfSome found (λ placed. AreAllPlaced object.now placed.0)) }
    ensures linkable { IfOk result (λ found. IfSome found (λ _. IsLinkable object.now)) }
    ensures none { IfOk result (λ found. IfNone found
        (16777216 < lengths_of (ends_after (seen first) object.now))) }
{
    let mut placement = Placement::new(alloc);
    let mut ends = first;
    for section in object.as_slice() {
        match add_place(alloc, &mut placement, ends, section)? {
            None => return Ok(None),
            Some(behind) => ends = behind,
        }
    }
    Ok(Some((placement, ends)))
}

/// Adds the place of a section behind those so far, and gives the ends behind it; `None` exactly where the lengths of
/// the regions then sum to too much.
fn add_place(
    alloc: Global,
    placement: &mut Placement,
    ends: RegionEnds,
    section: &NormalSection<'_>,
) -> Result<Option<RegionEnds>, AllocError>
    ensures place { IfOk result (λ found. IfSome found (λ _.
        placement.new ≡ placement.old ++ next_place (seen ends) section.now ∷ [])) }
    ensures ends { IfOk result (λ found. IfSome found (λ after. seen after ≡ behind (seen ends) section.now)) }
    ensures short { IfOk result (λ found. IfSome found (λ after. lengths_of (seen after) ≤ 16777216)) }
    ensures none { IfOk result (λ found. IfNone found (16777216 < lengths_of (behind (seen ends) section.now))) }
{
    let Some(next) = next_place(ends, section) else {
        return Ok(None);
    };
    placement.push(Placed {
        section: Name::from_slice(alloc, section.name.as_slice())?,
        base: next.base,
    })?;
    Ok(Some(next.ends))
}
