//! The numbers of the format, named as in the System V gABI (chapter 4, "Object Files") and its supplement for the
//! Intel386. The definitions state these numbers once more (`specs/Numbers.antt`), so that a wrong one here is found.

// "ELF Header": places in e_ident, and the values that a 32-bit little-endian file has there.
pub(crate) const EI_CLASS: usize = 4;

pub(crate) const EI_DATA: usize = 5;

pub(crate) const EI_VERSION: usize = 6;

pub(crate) const ELFCLASS32: u8 = 1;

pub(crate) const ELFDATA2LSB: u8 = 1;

pub(crate) const EV_CURRENT: u8 = 1;

// "ELF Header": offsets of its fields, values of e_type and e_machine, and the sizes of the header and of a section's.
pub(crate) const E_TYPE: usize = 16;

pub(crate) const E_MACHINE: usize = 18;

pub(crate) const E_VERSION: usize = 20;

pub(crate) const E_SHOFF: usize = 32;

pub(crate) const E_EHSIZE: usize = 40;

pub(crate) const E_SHENTSIZE: usize = 46;

pub(crate) const E_SHNUM: usize = 48;

pub(crate) const E_SHSTRNDX: usize = 50;

pub(crate) const ET_REL: u16 = 1;

pub(crate) const EM_386: u16 = 3;

pub(crate) const EHDR_SIZE: u16 = 52;

pub(crate) const SHDR_SIZE: u16 = 40;

// "Sections": types and flags.
pub(crate) const SHT_NULL: u32 = 0;

pub(crate) const SHT_PROGBITS: u32 = 1;

pub(crate) const SHT_SYMTAB: u32 = 2;

pub(crate) const SHT_STRTAB: u32 = 3;

pub(crate) const SHT_RELA: u32 = 4;

pub const SHT_NOBITS: u32 = 8;

pub(crate) const SHT_REL: u32 = 9;

pub(crate) const SHT_INIT_ARRAY: u32 = 14;

pub(crate) const SHT_FINI_ARRAY: u32 = 15;

pub const SHF_WRITE: u32 = 1;

pub(crate) const SHF_ALLOC: u32 = 2;

pub const SHF_EXECINSTR: u32 = 4;

pub const SHF_MERGE: u32 = 0x10;

pub const SHF_STRINGS: u32 = 0x20;

pub(crate) const SHF_TLS: u32 = 0x400;

pub(crate) const SHF_COMPRESSED: u32 = 0x800;

// "Sections": special section indices.
pub const SHN_UNDEF: u16 = 0;

pub const SHN_ABS: u16 = 0xfff1;

pub const SHN_COMMON: u16 = 0xfff2;

// "Symbol Table": the size of an entry, bindings and types.
pub(crate) const SYM_SIZE: u32 = 16;

pub const STB_GLOBAL: u8 = 1;

pub const STB_WEAK: u8 = 2;

pub const STT_OBJECT: u8 = 1;

pub const STT_FUNC: u8 = 2;

pub const STT_SECTION: u8 = 3;

// "Relocation": the size of an entry without addend; the supplement's types that are read.
pub(crate) const REL_SIZE: u32 = 8;

pub const R_386_NONE: u8 = 0;

pub const R_386_32: u8 = 1;

pub(crate) const R_386_PC32: u8 = 2;

pub(crate) const R_386_PLT32: u8 = 4;
