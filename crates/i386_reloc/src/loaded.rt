//! Loaded sections and their classes.
ghost use Rattle.std.specs.Prelude.{◌≡◌, ◌<◌, false, MatchOption};
ghost use Rattle.elf32_object.specs.Fields.{section_count, is_loaded};
ghost use Rattle.i386_reloc.specs.inside.Loaded.{IsLoadedSection};
ghost use Rattle.i386_reloc.specs.Classes.{class_by};

use crate::types::Class;
use elf32_object::Object;
use elf32_object::elf::{SHF_EXECINSTR, SHF_MERGE, SHF_STRINGS, SHF_WRITE, SHT_NOBITS};
use elf32_object::types::Section;

/// The section at an index, `None` exactly where it isn't loaded.
#[tactic(auto, using(crate::proofs::LoadedBelow::not_loaded_null, crate::proofs::LoadedBelow::few_bytes))]
pub(crate) fn loaded_section<'a>(object: &Object<'a>, i: u32) -> Option<Section<'a>>
    requires { i < section_count object.now }
    ensures { MatchOption result (is_loaded object.now i ≡ false) (λ s. IsLoadedSection object.now i s) }
{
    if i == 0 {
        return None;
    }
    let section = object.section(i);
    if section.loaded { Some(section) } else { None }
}

/// The class of a loaded section.
pub(crate) fn class_of(section: &Section<'_>) -> Class
    ensures { result ≡ class_by section.now.kind section.now.flags section.now.entry }
{
    if section.kind == SHT_NOBITS {
        Class::Zero
    } else if section.flags & SHF_EXECINSTR != 0 {
        Class::Code
    } else if section.flags & SHF_WRITE != 0 {
        Class::Writable
    } else if section.flags & SHF_MERGE != 0
        && section.flags & SHF_STRINGS != 0
        && section.entry == 1
    {
        Class::Strings
    } else {
        Class::ReadOnly
    }
}
