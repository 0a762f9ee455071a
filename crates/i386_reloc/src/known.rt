//! What references need of an object's sections and symbols.
ghost use Rattle.std.specs.Prelude.{◌≡◌, ◌||◌, ◌==◌, if◌then◌else◌};
ghost use Rattle.i386_reloc.specs.References.{symbol_type, symbol_binding};

use crate::span::Span;
use crate::texts::Texts;
use crate::types::Class;
use elf32_object::elf::{SHN_COMMON, SHN_UNDEF, STT_SECTION};

/// The type of a symbol with this `st_info` (System V gABI, chapter 4, "Symbol Table", `ELF32_ST_TYPE`).
pub(crate) fn symbol_type(info: u8) -> u8
    ensures { result ≡ symbol_type info }
{
    info % 16
}

/// The binding of a symbol with this `st_info` (`ELF32_ST_BIND`).
pub(crate) fn symbol_binding(info: u8) -> u8
    ensures { result ≡ symbol_binding info }
{
    info / 16
}

/// A loaded section to which references may lead.
#[derive(Drop)]
pub struct Known<'a> {
    /// The section's name.
    pub name: Span<'a>,
    /// The section's class.
    pub class: Class,
    /// The section's texts, where it holds texts.
    pub texts: Texts<'a>,
    /// How many loaded sections stand before it.
    pub place: u32,
}

/// A symbol that references may name.
#[derive(Drop)]
pub struct Named<'a> {
    /// The symbol's name.
    pub name: Span<'a>,
    /// `st_value`.
    pub value: u32,
    /// `st_info`.
    pub info: u8,
    /// `st_shndx`.
    pub section: u16,
}

impl<'a> Named<'a> {
    /// Whether the symbol lies in no section of this object: it is undefined or common.
    pub fn is_outside(&self) -> bool
        ensures { result ≡ (self.now.section == SHN_UNDEF || self.now.section == SHN_COMMON) }
    {
        self.section == SHN_UNDEF || self.section == SHN_COMMON
    }

    /// Whether it is the symbol of a section.
    pub fn is_section_symbol(&self) -> bool
        ensures { result ≡ (symbol_type self.now.info == STT_SECTION) }
    {
        symbol_type(self.info) == STT_SECTION
    }

    /// Where the text begins that it names with an addend, in a section of texts.
    pub fn text_offset(&self, addend: u32) -> u32
        ensures { result ≡ (if symbol_type self.now.info == STT_SECTION then addend else self.now.value) }
    {
        if self.is_section_symbol() {
            addend
        } else {
            self.value
        }
    }
}
