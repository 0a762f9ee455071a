//! The running code of a section that was linked is the section's code.
ghost use Rattle.std.specs.Prelude.{ℕ, List, All};
ghost use Rattle.i386_reloc.specs.Normal.{loaded_sections};
ghost use Rattle.linked_code.specs.Standing.{HasBlankFields, LinkedCodeRunsAlike};

use crate::decoding::fields_decode_alike;
use ia32_decode::{decoding_rests_on_its_bytes, instructions_have_bytes};

/// Where the bytes of a code section of an object, with other numbers in place of the zeros in the fields of its
/// references, stand as code that is in use, the running instructions are the section's, one by one: they agree, their
/// references hold what stands in the fields, and each place stands for the number of its offset.
pub fn linked_code_runs_alike()
    ensures { LinkedCodeRunsAlike }
{
    // Nothing is done here: the laws say what decoding rests on.
    fields_decode_alike();
    decoding_rests_on_its_bytes();
    instructions_have_bytes();
}

/// The sections of an object that is read have zeros in the fields of their references.
pub fn sections_have_blank_fields()
    ensures { (object : List ℕ) → All HasBlankFields (loaded_sections object) }
{}
