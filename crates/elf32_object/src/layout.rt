//! The sections of a file whose header is in order.

ghost use Rattle.std.specs.Prelude.{◌≡◌, ◌+◌, ◌*◌, ◌≤◌, ◌<◌, ◌||◌, true, length};
ghost use Rattle.elf32_object.specs.declared.elf.TheConstants.{SHDR_SIZE};
ghost use Rattle.elf32_object.specs.Fields.{section_table, section_count, section_header, is_section, has_flag};
ghost use Rattle.elf32_object.specs.Fields.{has_no_bytes, lies_in_file, holds_program, ends_in, section_names};
ghost use Rattle.elf32_object.specs.Fields.{section_name, section_bytes, is_unwind_table, is_loaded, is_symbol_table};
ghost use Rattle.elf32_object.specs.Fields.{is_string_table, patches_loaded, entry_count, relocation};

use crate::elf::{
    REL_SIZE, SHDR_SIZE, SHF_ALLOC, SHT_FINI_ARRAY, SHT_INIT_ARRAY, SHT_NOBITS, SHT_NULL,
    SHT_PROGBITS, SHT_REL, SHT_STRTAB, SHT_SYMTAB,
};
use crate::reading::{entry_at, header_at, piece, word};
use crate::strings::{Strings, text};
use crate::types::{Reloc, SectionHeader};

/// Where `sh_offset` begins in an entry of the section header table.
const OFFSET_FIELD: usize = 16;

/// Whether a section's flags have one.
pub(crate) fn has_flag(flags: u32, flag: u32) -> bool
    ensures { result ≡ has_flag flag flags }
{
    flags & flag != 0
}

/// Whether a section of this type has no bytes in the file.
pub(crate) fn has_no_bytes(header: SectionHeader) -> bool
    ensures { result ≡ has_no_bytes header }
{
    header.kind == SHT_NULL || header.kind == SHT_NOBITS
}

/// Whether a section of this type holds a part of the program.
pub(crate) fn holds_program(header: SectionHeader) -> bool
    ensures { result ≡ holds_program header }
{
    header.kind == SHT_PROGBITS
        || header.kind == SHT_NOBITS
        || header.kind == SHT_INIT_ARRAY
        || header.kind == SHT_FINI_ARRAY
}

/// Whether the bytes that a header names lie in the file.
pub(crate) fn lies_in_file(bytes: &[u8], header: SectionHeader) -> bool
    ensures { result ≡ lies_in_file bytes.now header }
{
    u64::from(header.offset) + u64::from(header.size) <= bytes.len() as u64
}

/// Whether a header is that of a string table whose bytes lie in the file.
pub(crate) fn is_string_table(bytes: &[u8], header: SectionHeader) -> bool
    ensures { result ≡ is_string_table bytes.now header }
{
    header.kind == SHT_STRTAB && lies_in_file(bytes, header)
}

/// A file whose header is in order: where its sections' headers and names stand.
#[derive(Clone, Copy)]
pub(crate) struct Layout<'a> {
    pub bytes: &'a [u8],
    pub table: u32,
    pub count: u32,
    pub names: Strings<'a>,
    ghost table_is: { table ≡ section_table bytes.now },
    ghost count_is: { count ≡ section_count bytes.now },
    ghost few: { count ≤ 4096 },
    ghost table_in_file: { table + SHDR_SIZE * count ≤ length bytes.now },
    ghost names_are: { names.bytes.now ≡ section_names bytes.now },
}

impl<'a> Layout<'a> {
    /// The header of a section.
    #[tactic(auto, unfolding(crate::specs::Fields::section_header))]
    pub fn header(&self, i: u32) -> SectionHeader
        requires { i < self.now.count }
        ensures { result ≡ section_header self.now.bytes.now i }
    {
        header_at(
            self.bytes,
            self.table as usize + usize::from(SHDR_SIZE) * i as usize,
        )
    }

    /// Where a section's bytes begin in the file: of its header only this field is read.
    #[tactic(auto, unfolding(crate::specs::Fields::section_header, crate::specs::Fields::section_header_at))]
    fn offset(&self, i: u32) -> u32
        requires { i < self.now.count }
        ensures { result ≡ (section_header self.now.bytes.now i).offset }
    {
        word(
            self.bytes,
            self.table as usize + usize::from(SHDR_SIZE) * i as usize + OFFSET_FIELD,
        )
    }

    /// Whether a number is the index of a section.
    #[tactic(auto, unfolding(crate::specs::Fields::is_section))]
    pub fn is_section(&self, i: u32) -> bool
        ensures test { result ≡ is_section self.now.bytes.now i }
        ensures within { result ≡ true → i < self.now.count }
    {
        0 < i && i < self.count
    }

    /// Whether a section's name is that of the unwind table.
    #[tactic(auto, unfolding(crate::specs::Fields::is_unwind_table))]
    pub fn is_unwind_table(&self, i: u32) -> bool
        requires { i < self.now.count }
        ensures { result ≡ is_unwind_table self.now.bytes.now i }
    {
        let names = self.names.bytes;
        match names.get(self.header(i).name as usize..) {
            Some(name) => name.starts_with(b".eh_frame\0"),
            None => false,
        }
    }

    /// Whether a number is the index of a section that is part of the running program.
    #[tactic(auto, unfolding(crate::specs::Fields::is_loaded))]
    pub fn is_loaded(&self, i: u32) -> bool
        ensures test { result ≡ is_loaded self.now.bytes.now i }
        ensures within { result ≡ true → i < self.now.count }
    {
        if !self.is_section(i) {
            return false;
        }
        let header = self.header(i);
        has_flag(header.flags, SHF_ALLOC)
            && 0 < header.size
            && holds_program(header)
            && !self.is_unwind_table(i)
    }

    /// Whether a number is the index of a symbol table.
    #[tactic(auto, unfolding(crate::specs::Fields::is_symbol_table))]
    pub fn is_symbol_table(&self, i: u32) -> bool
        ensures { result ≡ is_symbol_table self.now.bytes.now i }
    {
        self.is_section(i) && self.header(i).kind == SHT_SYMTAB
    }

    /// Whether a number is the index of a relocation section of a loaded section.
    #[tactic(auto, unfolding(crate::specs::Fields::patches_loaded))]
    pub fn patches_loaded(&self, i: u32) -> bool
        ensures { result ≡ patches_loaded self.now.bytes.now i }
    {
        self.is_section(i) && self.header(i).kind == SHT_REL && self.is_loaded(self.header(i).info)
    }

    /// How many relocations of a loaded section a section has.
    #[tactic(auto, unfolding(crate::specs::Fields::entry_count))]
    pub fn entry_count(&self, i: u32) -> u32
        requires { i < self.now.count }
        ensures { result ≡ entry_count self.now.bytes.now i }
    {
        if self.patches_loaded(i) {
            self.header(i).size / REL_SIZE
        } else {
            0
        }
    }

    /// A section's name.
    #[tactic(auto, unfolding(crate::specs::Fields::section_name), using(crate::proofs::Zeros::ends_within))]
    pub fn name(&self, i: u32) -> &'a [u8]
        requires within { i < self.now.count }
        requires ends { ends_in (section_names self.now.bytes.now) (section_header self.now.bytes.now i).name ≡ true }
        ensures { result.now ≡ section_name self.now.bytes.now i }
    {
        text(self.names.bytes, self.header(i).name)
    }

    /// A section's bytes.
    #[tactic(auto, unfolding(crate::specs::Fields::section_bytes))]
    pub fn content(&self, i: u32) -> &'a [u8]
        requires within { i < self.now.count }
        requires in_file { (has_no_bytes (section_header self.now.bytes.now i)
            || lies_in_file self.now.bytes.now (section_header self.now.bytes.now i)) ≡ true }
        ensures { result.now ≡ section_bytes self.now.bytes.now i }
    {
        let header = self.header(i);
        if has_no_bytes(header) {
            return &[];
        }
        piece(self.bytes, header.offset, header.size)
    }

    /// An entry of a relocation section.
    #[tactic(auto, unfolding(crate::specs::Fields::relocation))]
    pub fn entry(&self, i: u32, k: u32) -> Reloc
        requires within { i < self.now.count }
        requires in_file { (section_header self.now.bytes.now i).offset + REL_SIZE * (k + 1)
            ≤ length self.now.bytes.now }
        ensures { result ≡ relocation self.now.bytes.now i k }
    {
        entry_at(
            self.bytes,
            self.offset(i) as usize + REL_SIZE as usize * k as usize,
            i,
            k,
        )
    }
}
