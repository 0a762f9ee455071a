//! The relocations of a section that change a field, by offset.
ghost use Rattle.std.specs.Prelude.{◌≡◌, ◌<◌, ℕ, IfOk, All};
ghost use Rattle.std.specs.List.{filter};
ghost use Rattle.std.specs.List.Sorted.{IsNonDecreasingBy, IsPermutation};
ghost use Rattle.elf32_object.specs.Rules.{has_field};
ghost use Rattle.i386_reloc.specs.References.{by_offset};

use elf32_object::types::Reloc;
use std::alloc::{AllocError, Global};

/// The relocations that change a field, by offset.
pub(crate) fn fields(alloc: Global, relocations: &[Reloc]) -> Result<Vec<Reloc>, AllocError>
    ensures same { IfOk result (λ fields. IsPermutation (filter has_field relocations.now) fields.items) }
    ensures rises { IfOk result (λ fields. IsNonDecreasingBy (λ r. r.offset) fields.items) }
    ensures sorted { IfOk result (λ fields. (bound : ℕ)
        → All (λ r. r.offset < bound) fields.items → fields.items ≡ by_offset relocations.now bound) }
{
    let mut fields = unsorted(alloc, relocations)?;
    fields.sort_by_key(|r| r.offset)?;
    Ok(fields)
}

fn unsorted(alloc: Global, relocations: &[Reloc]) -> Result<Vec<Reloc>, AllocError>
    ensures { IfOk result (λ fields. fields.items ≡ filter has_field relocations.now) }
{
    let mut fields = Vec::new(alloc);
    for r in relocations {
        if r.has_field() {
            fields.push(*r)?;
        }
    }
    Ok(fields)
}
