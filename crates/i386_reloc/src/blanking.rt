//! Bytes with zeros in the fields that relocations change.
ghost use Rattle.std.specs.Prelude.{◌≡◌, ◌≤◌, ◌<◌, ◌+◌, ◌&&◌, nat_le, nat_lt, ℕ};
ghost use Rattle.std.specs.Prelude.{length, slice_index_or, if◌then◌else◌, IfOk, All};
ghost use Rattle.i386_reloc.specs.References.{blanked_from};

use elf32_object::types::Reloc;
use std::alloc::{AllocError, Global};

/// A copy of a section's bytes with zeros in its fields.
pub(crate) fn blanked(alloc: Global, bytes: &[u8], fields: &[Reloc]) -> Result<Vec<u8>, AllocError>
    requires { All (λ r. r.offset + 4 ≤ length bytes.now) fields.now }
    ensures { IfOk result (λ copy. copy.items ≡ blanked_from 0 fields.now bytes.now) }
{
    let mut copy = Vec::from_slice(alloc, bytes)?;
    for r in fields {
        blank(copy.as_mut_slice(), r.offset as usize);
    }
    Ok(copy)
}

/// Puts zeros into the four bytes at a place.
fn blank(bytes: &mut [u8], place: usize)
    requires { place + 4 ≤ length bytes.old }
    ensures { (k : ℕ) (d : ℕ) → k < length bytes.old → slice_index_or bytes.new k d
        ≡ (if nat_le place k && nat_lt k (place + 4) then 0 else slice_index_or bytes.old k d) }
{
    bytes[place] = 0;
    bytes[place + 1] = 0;
    bytes[place + 2] = 0;
    bytes[place + 3] = 0;
}
