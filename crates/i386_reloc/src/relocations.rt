//! The relocations of a section.
ghost use Rattle.std.specs.Prelude.{◌≡◌, true, IfOk, All};
ghost use Rattle.elf32_object.specs.Fields.{is_loaded};
ghost use Rattle.i386_reloc.specs.References.{relocations_of};
ghost use Rattle.i386_reloc.specs.inside.Fields.{IsPlaced};

use elf32_object::Object;
use elf32_object::types::Reloc;
use std::alloc::{AllocError, Global};

/// The relocations of a loaded section, in the order of their sections and, in each of these, of their entries.
#[tactic(auto, using(crate::proofs::RelocationLists::take_relocation))]
pub(crate) fn relocations(
    alloc: Global,
    object: &Object<'_>,
    i: u32,
) -> Result<Vec<Reloc>, AllocError>
    requires { is_loaded object.now i ≡ true }
    ensures items { IfOk result (λ list. list.items ≡ relocations_of object.now i) }
    ensures placed { IfOk result (λ list. All (λ r. IsPlaced object.now i r) list.items) }
{
    let mut list = Vec::new(alloc);
    for k in 0..object.reloc_count(i) {
        list.push(object.reloc(i, k))?;
    }
    Ok(list)
}
