//! What an object file is read as, and why one is refused.

use crate::elf::{R_386_32, R_386_PC32, R_386_PLT32};
use std::alloc::AllocError;

/// Which limit of this reader an object passes.
#[derive(Clone, Copy, PartialEq, Eq)]
pub enum Large {
    /// The file has more than 8,388,608 bytes.
    Bytes,
    /// The section header table has more than 4,096 entries.
    Sections,
    /// The symbol table has more than 65,536 entries.
    Symbols,
    /// The relocation sections of loaded sections have more than 262,144 entries in all.
    Relocations,
    /// The name of a section or symbol has more than 4,096 bytes.
    Name,
    /// The loaded sections have more than 8,388,608 bytes in all.
    Content,
}

/// Why bytes are not read as an object: the first rule that they break.
#[derive(Clone, Copy, PartialEq, Eq)]
pub enum ObjectFault {
    /// The file doesn't begin with the ELF magic number.
    NotElf,
    /// It is an ELF file, but not a relocatable one for the i386.
    NotRel386,
    /// A field of the ELF header, by its offset; or the file's length, where it ends inside the header.
    BadHeader(u32),
    /// A section, by its index.
    BadSection(u32),
    /// A symbol, by its index.
    BadSymbol(u32),
    /// A relocation: the index of its section, and that of its entry there.
    BadReloc(u32, u32),
    /// A limit is passed.
    TooLarge(Large),
    /// Memory ran out.
    Memory,
}

impl From<AllocError> for ObjectFault {
    ghost use Rattle.std.specs.Prelude.{◌≡◌};
    ghost use Rattle.elf32_object.specs.declared.types.ObjectFault.TheVariants.{Memory};

    ghost from_gives = { λ _ fault. fault ≡ Memory };

    fn from(_error: AllocError) -> ObjectFault {
        ObjectFault::Memory
    }
}

/// The entry of the section header table that a section has (System V gABI, chapter 4, "Sections"). The
/// field `sh_addr` is not looked at.
#[derive(Clone, Copy, PartialEq, Eq)]
pub struct SectionHeader {
    /// `sh_name`: where the name begins in the section name table.
    pub name: u32,
    /// `sh_type`.
    pub kind: u32,
    /// `sh_flags`.
    pub flags: u32,
    /// `sh_offset`.
    pub offset: u32,
    /// `sh_size`, in bytes.
    pub size: u32,
    /// `sh_link`.
    pub link: u32,
    /// `sh_info`.
    pub info: u32,
    /// `sh_addralign`.
    pub align: u32,
    /// `sh_entsize`.
    pub entry: u32,
}

/// An entry of the symbol table (System V gABI, chapter 4, "Symbol Table").
#[derive(Clone, Copy, PartialEq, Eq)]
pub struct SymbolEntry {
    /// `st_name`: where the name begins in the symbol table's string table.
    pub name: u32,
    /// `st_value`.
    pub value: u32,
    /// `st_size`.
    pub size: u32,
    /// `st_info`: the binding in the high four bits, the type in the low four.
    pub info: u8,
    /// `st_shndx`.
    pub section: u16,
}

/// An entry of a relocation section without addends (System V gABI, chapter 4, "Relocation").
#[derive(Clone, Copy, PartialEq, Eq)]
pub struct Reloc {
    /// `r_offset`: where the field begins in the section that is changed.
    pub offset: u32,
    /// The symbol's index, from `r_info`.
    pub symbol: u32,
    /// The relocation's type, from `r_info`.
    pub kind: u8,
    /// The index of the relocation section.
    pub from: u32,
    /// The entry's index in that section.
    pub index: u32,
}

impl Reloc {
    ghost use Rattle.std.specs.Prelude.{◌≡◌};
    ghost use Rattle.elf32_object.specs.Rules.{has_field};

    /// Whether the relocation changes a field of four bytes (Intel386 supplement, "Relocation Types").
    pub fn has_field(self) -> bool
        ensures { result ≡ has_field self }
    {
        self.kind == R_386_32 || self.kind == R_386_PC32 || self.kind == R_386_PLT32
    }
}

/// A section of an object. It borrows from the file.
#[derive(Clone, Copy)]
pub struct Section<'a> {
    /// The section's name, without the zero that ends it.
    pub name: &'a [u8],
    /// `sh_type`.
    pub kind: u32,
    /// `sh_flags`.
    pub flags: u32,
    /// `sh_addralign`.
    pub align: u32,
    /// `sh_entsize`.
    pub entry: u32,
    /// `sh_size`, in bytes.
    pub size: u32,
    /// The section's bytes in the file: none for the types `SHT_NULL` and `SHT_NOBITS`.
    pub bytes: &'a [u8],
    /// Whether the section is part of the running program.
    pub loaded: bool,
}

/// A symbol of an object. It borrows from the file.
#[derive(Clone, Copy)]
pub struct Symbol<'a> {
    /// The symbol's name, without the zero that ends it.
    pub name: &'a [u8],
    /// `st_value`.
    pub value: u32,
    /// `st_size`.
    pub size: u32,
    /// `st_info`.
    pub info: u8,
    /// `st_shndx`.
    pub section: u16,
}
