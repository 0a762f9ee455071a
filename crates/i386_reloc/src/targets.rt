//! Where the sections stand to which references go.
ghost use Rattle.std.specs.Prelude.{◌≡◌, map, All, IfOk};
ghost use Rattle.i386_reloc.specs.inside.Fields.{IsField};
ghost use Rattle.i386_reloc.specs.inside.Targets.{place_by_index};

use crate::source::Source;
use elf32_object::types::Reloc;
use ks_base::ListOf;
use std::alloc::{AllocError, Global};

/// For each field of loaded section `i` the place of the section to which its reference goes. It is found by that
/// section's index, and no name is compared.
pub(crate) fn places(
    alloc: Global,
    source: &Source<'_, '_>,
    i: u32,
    fields: &[Reloc],
) -> Result<ListOf<Option<u32>>, AllocError>
    requires { All (IsField source.now.object.now i) fields.now }
    ensures { IfOk result (λ places. places ≡ map (place_by_index source.now.object.now) fields.now) }
{
    let mut places = Vec::with_capacity(alloc, fields.len())?;
    for r in fields {
        places.push(place(source, i, *r))?;
    }
    Ok(ListOf::from_vec(places))
}

/// The place to which a field's reference goes, `None` where its symbol lies in no section.
fn place(source: &Source<'_, '_>, i: u32, r: Reloc) -> Option<u32>
    requires { IsField source.now.object.now i r }
    ensures { result ≡ place_by_index source.now.object.now r }
{
    let symbol = source.symbol(r.symbol);
    if symbol.is_outside() {
        return None;
    }
    Some(source.section(symbol.section).place)
}
