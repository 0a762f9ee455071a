//! Outside names that no symbol has.
ghost use Rattle.std.specs.Prelude.{◌≡◌, IfOk};
ghost use Rattle.std.specs.List.{find, flat_map};
ghost use Rattle.image_link.specs.Refused.{outside_names, outside_names_of, outside_of};
ghost use Rattle.image_link.specs.inside.Missing.{is_missing};

use i386_reloc::{Normal, NormalSection, Ref, Target};
use ks_base::Name;
use link_post::solved_as;
use std::alloc::{AllocError, Global};
use symbol_table::{Unknown, Values};

/// The first outside name without a value to which a reference goes, object by object and section by section.
pub(crate) fn first_missing(
    alloc: Global,
    objects: &[Normal<'_>],
    values: &Values,
) -> Result<Option<Name>, AllocError>
    ensures { IfOk result (λ name. name ≡ find (is_missing values.now.entries) (outside_names objects.now)) }
{
    for object in objects {
        let found = missing_in_object(alloc, object.as_slice(), values)?;
        if found.is_some() {
            return Ok(found);
        }
    }
    Ok(None)
}

/// The first of an object.
fn missing_in_object(
    alloc: Global,
    sections: &[NormalSection<'_>],
    values: &Values,
) -> Result<Option<Name>, AllocError>
    ensures { IfOk result (λ name. name
        ≡ find (is_missing values.now.entries) (flat_map outside_names_of sections.now)) }
{
    for section in sections {
        let found = missing_in_section(alloc, section.refs.as_slice(), values)?;
        if found.is_some() {
            return Ok(found);
        }
    }
    Ok(None)
}

/// The first of a section.
fn missing_in_section(
    alloc: Global,
    refs: &[Ref<'_>],
    values: &Values,
) -> Result<Option<Name>, AllocError>
    ensures { IfOk result (λ name. name ≡ find (is_missing values.now.entries) (flat_map outside_of refs.now)) }
{
    for r in refs {
        let found = missing_of(alloc, r, values)?;
        if found.is_some() {
            return Ok(found);
        }
    }
    Ok(None)
}

/// The outside name of a reference, if it has no value.
fn missing_of(alloc: Global, r: &Ref<'_>, values: &Values) -> Result<Option<Name>, AllocError>
    ensures { IfOk result (λ name. name ≡ find (is_missing values.now.entries) (outside_of r.now)) }
{
    match &r.target {
        Target::Outside(name) => {
            let which = Unknown::Outside(Name::from_slice(alloc, name.as_slice())?);
            if solved_as(values, &which).is_some() {
                return Ok(None);
            }
            Ok(Some(Name::from_slice(alloc, name.as_slice())?))
        }
        Target::Section(_) => Ok(None),
        Target::Text { .. } => Ok(None),
    }
}
