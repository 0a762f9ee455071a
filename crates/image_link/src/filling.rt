//! The linked bytes of a section, by the places of the sections to which its references go.
ghost use Rattle.std.specs.Prelude.{◌≡◌, Some, IfOk, OnOk};
ghost use Rattle.std.specs.List.{fold, slice_get};
ghost use Rattle.i386_reloc.specs.Places.{references_in, reference_at};
ghost use Rattle.link_post.specs.Linked.{filled, linked};
ghost use Rattle.image_link.specs.inside.Filling.{address_at, base_at, OfNames};

use crate::laid::LaidObject;
use i386_reloc::{Class, NormalSection, Ref, Target, field_value};
use ks_base::Name;
use link_post::{Placed, put_word, value_in};
use std::alloc::{AllocError, Global};
use symbol_table::{Unknown, Values};

/// The bytes of the section of a name at its place, the fields of its references filled. The place of the section to
/// which a reference goes is known, and no section is looked up by its name.
#[tactic(auto, unfolding(link_post::specs::Linked::linked))]
pub(crate) fn linked_bytes(
    alloc: Global,
    laid: &LaidObject<'_, '_>,
    values: &Values,
    name: &[u8],
) -> Result<Vec<u8>, AllocError>
    requires { OfNames values.now.entries }
    ensures { IfOk result (λ bytes. bytes.items
        ≡ linked laid.now.object laid.now.places values.now.entries name.now) }
{
    let object = laid.object();
    let Some(place) = object.place(name) else {
        return Ok(Vec::new(alloc));
    };
    let Some(section) = object.as_slice().get(place) else {
        return Ok(Vec::new(alloc));
    };
    if let Class::Zero = section.class {
        return vec![in alloc; 0; section.size as usize];
    }
    let filling = Filling {
        laid,
        values,
        place,
        base: base_at(laid.placement().as_slice(), Some(place)).unwrap_or(0),
    };
    filling.bytes_of(alloc, section)
}

/// Where the section at a place of an object was placed.
fn base_at(placement: &[Placed], place: Option<usize>) -> Option<u32>
    ensures { result ≡ base_at placement.now place }
{
    let placed = placement.get(place?)?;
    Some(placed.base)
}

/// The address of what a reference goes to, which is the section at a place or an outside name.
fn address_at(
    alloc: Global,
    placement: &[Placed],
    values: &Values,
    place: Option<usize>,
    target: &Target<'_>,
) -> Result<Option<u32>, AllocError>
    ensures { IfOk result (λ address. address ≡ address_at placement.now values.now.entries place target.now) }
{
    match target {
        Target::Outside(name) => {
            let which = Unknown::Outside(Name::from_slice(alloc, name.as_slice())?);
            Ok(value_in(values, &which))
        }
        Target::Section(_) => Ok(base_at(placement, place)),
        Target::Text { offset, .. } => match base_at(placement, place) {
            Some(base) => Ok(Some(base.wrapping_add(*offset))),
            None => Ok(None),
        },
    }
}

/// What the fields of the section at a place of an object are filled from.
#[derive(Drop)]
struct Filling<'f, 'p, 'a> {
    laid: &'f LaidObject<'p, 'a>,
    values: &'f Values,
    place: usize,
    base: u32,
}

impl<'f, 'p, 'a> Filling<'f, 'p, 'a> {
    /// The bytes of the section.
    fn bytes_of(&self, alloc: Global, section: &NormalSection<'_>) -> Result<Vec<u8>, AllocError>
        requires section { slice_get self.now.laid.now.object self.now.place ≡ Some section.now }
        requires values { OfNames self.now.values.now.entries }
        ensures { IfOk result (λ bytes. bytes.items ≡ fold
            (filled self.now.laid.now.object self.now.laid.now.places self.now.values.now.entries self.now.base)
            section.now.bytes section.now.refs) }
    {
        let refs = section.refs.as_slice();
        let mut bytes = Vec::from_slice(alloc, section.bytes.as_slice())?;
        for k in 0..refs.len() {
            self.fill_field(alloc, &mut bytes, k, &refs[k])?;
        }
        Ok(bytes)
    }

    /// Fills the field of reference `k`.
    fn fill_field(
        &self,
        alloc: Global,
        bytes: &mut Vec<u8>,
        k: usize,
        r: &Ref<'_>,
    ) -> Result<(), AllocError>
        requires reference { reference_at self.now.laid.now.object self.now.place k ≡ Some r.now }
        requires values { OfNames self.now.values.now.entries }
        ensures { OnOk result (bytes.new.items ≡ filled self.now.laid.now.object self.now.laid.now.places
            self.now.values.now.entries self.now.base bytes.old.items r.now) }
    {
        let target = self.laid.object().target_place(self.place, k);
        let placement = self.laid.placement().as_slice();
        let address = address_at(alloc, placement, self.values, target, &r.target)?;
        let p = self.base.wrapping_add(r.offset);
        put_word(
            bytes.as_mut_slice(),
            r.offset as usize,
            field_value(r.form, address.unwrap_or(0), r.addend, p),
        );
        Ok(())
    }
}
