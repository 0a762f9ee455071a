//! The loaded sections of an object file, as objects are compared, matched and linked.
ghost use Rattle.ks_base.specs.Gives.{Gives};
ghost use Rattle.i386_reloc.specs.Sections.{sections_of};

use crate::reading::normalise;
use crate::refused::object_refusal;
use crate::sections::Normal;
use elf32_object::read_object;
use ks_base::Refusal;
use std::alloc::Global;

/// The loaded sections of an object file. Refuses what is wrong with the file's form, else what is wrong with its
/// sections. [`Refusal::Memory`] comes only if memory runs out.
#[tactic(auto, unfolding(crate::specs::Sections::sections_of))]
pub fn read_sections(alloc: Global, bytes: &[u8]) -> Result<Normal<'_>, Refusal>
    ensures { Gives (λ sections. sections) result (sections_of bytes.now) }
{
    match read_object(alloc, bytes) {
        Ok(object) => normalise(alloc, &object),
        Err(fault) => Err(object_refusal(fault)),
    }
}
