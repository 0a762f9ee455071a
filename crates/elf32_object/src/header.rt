//! Checks the ELF header (System V gABI, chapter 4, "ELF Header").

ghost use Rattle.std.specs.Prelude.{◌≡◌, ◌+◌, ◌*◌, ◌≤◌, ◌<◌, ◌&&◌, true, nat_le, nat_lt, length, OnOk, IfOk};
ghost use Rattle.elf32_object.specs.Fields.{section_table, section_count, name_table};
ghost use Rattle.elf32_object.specs.Fields.{section_header, is_string_table, lies_in_file};
ghost use Rattle.elf32_object.specs.Below.{first_of};
ghost use Rattle.elf32_object.specs.Rules.{is_relocatable_386, kind_fault, header_fault};
ghost use Rattle.elf32_object.specs.Rule.{Finds};

use crate::elf::{
    E_EHSIZE, E_MACHINE, E_SHENTSIZE, E_SHNUM, E_SHOFF, E_SHSTRNDX, E_TYPE, E_VERSION, EHDR_SIZE,
    EI_CLASS, EI_DATA, EI_VERSION, ELFCLASS32, ELFDATA2LSB, EM_386, ET_REL, EV_CURRENT, SHDR_SIZE,
};
use crate::layout::{Layout, is_string_table};
use crate::reading::{half, header_at, piece, word};
use crate::strings::Strings;
use crate::types::{Large, ObjectFault};

/// How many bytes a file may have.
const MOST_BYTES: usize = 8_388_608;

/// How many entries the section header table may have.
const MOST_SECTIONS: u16 = 4096;

/// Whether the file is a 32-bit little-endian relocatable file for the i386.
#[tactic(auto, unfolding(crate::specs::Rules::is_relocatable_386))]
fn is_relocatable_386(bytes: &[u8]) -> bool
    requires { EHDR_SIZE ≤ length bytes.now }
    ensures { result ≡ is_relocatable_386 bytes.now }
{
    bytes[EI_CLASS] == ELFCLASS32
        && bytes[EI_DATA] == ELFDATA2LSB
        && bytes[EI_VERSION] == EV_CURRENT
        && half(bytes, E_TYPE) == ET_REL
        && half(bytes, E_MACHINE) == EM_386
}

/// Checks the file's size and kind.
#[tactic(auto, unfolding(crate::specs::Rules::kind_fault))]
fn check_kind(bytes: &[u8]) -> Result<(), ObjectFault>
    ensures finds { Finds ObjectFault.Memory result (kind_fault bytes.now) }
    ensures whole { OnOk result (EHDR_SIZE ≤ length bytes.now) }
{
    if bytes.len() > MOST_BYTES {
        return Err(ObjectFault::TooLarge(Large::Bytes));
    }
    if !bytes.starts_with(b"\x7fELF") {
        return Err(ObjectFault::NotElf);
    }
    if bytes.len() < usize::from(EHDR_SIZE) {
        return Err(ObjectFault::BadHeader(bytes.len() as u32));
    }
    if !is_relocatable_386(bytes) {
        return Err(ObjectFault::NotRel386);
    }
    Ok(())
}

/// Whether the section header table lies in the file.
#[tactic(auto, unfolding(crate::specs::Fields::section_table, crate::specs::Fields::section_count))]
fn has_section_table(bytes: &[u8]) -> bool
    requires { EHDR_SIZE ≤ length bytes.now }
    ensures { result ≡ nat_le (section_table bytes.now + SHDR_SIZE * section_count bytes.now) (length bytes.now) }
{
    u64::from(word(bytes, E_SHOFF)) + u64::from(SHDR_SIZE) * u64::from(half(bytes, E_SHNUM))
        <= bytes.len() as u64
}

/// Whether the section that is to have the sections' names is a string table in the file.
#[tactic(auto, unfolding(crate::specs::Fields::section_table, crate::specs::Fields::section_count, crate::specs::Fields::name_table, crate::specs::Fields::section_header))]
fn has_name_table(bytes: &[u8]) -> bool
    requires whole { EHDR_SIZE ≤ length bytes.now }
    requires in_file { section_table bytes.now + SHDR_SIZE * section_count bytes.now ≤ length bytes.now }
    ensures { result ≡ (nat_lt (name_table bytes.now) (section_count bytes.now)
        && is_string_table bytes.now (section_header bytes.now (name_table bytes.now))) }
{
    let names = half(bytes, E_SHSTRNDX);
    if names >= half(bytes, E_SHNUM) {
        return false;
    }
    is_string_table(
        bytes,
        header_at(
            bytes,
            word(bytes, E_SHOFF) as usize + usize::from(SHDR_SIZE) * usize::from(names),
        ),
    )
}

/// Checks the fields of the ELF header.
#[tactic(auto, unfolding(crate::specs::Rules::header_fault, crate::specs::Fields::section_count))]
fn check_header(bytes: &[u8]) -> Result<(), ObjectFault>
    requires { EHDR_SIZE ≤ length bytes.now }
    ensures { Finds ObjectFault.Memory result (header_fault bytes.now) }
{
    if word(bytes, E_VERSION) != u32::from(EV_CURRENT) {
        return Err(ObjectFault::BadHeader(E_VERSION as u32));
    }
    if half(bytes, E_EHSIZE) != EHDR_SIZE {
        return Err(ObjectFault::BadHeader(E_EHSIZE as u32));
    }
    if half(bytes, E_SHENTSIZE) != SHDR_SIZE {
        return Err(ObjectFault::BadHeader(E_SHENTSIZE as u32));
    }
    if half(bytes, E_SHNUM) == 0 {
        return Err(ObjectFault::BadHeader(E_SHNUM as u32));
    }
    if half(bytes, E_SHNUM) > MOST_SECTIONS {
        return Err(ObjectFault::TooLarge(Large::Sections));
    }
    if !has_section_table(bytes) {
        return Err(ObjectFault::BadHeader(E_SHOFF as u32));
    }
    if !has_name_table(bytes) {
        return Err(ObjectFault::BadHeader(E_SHSTRNDX as u32));
    }
    Ok(())
}

/// Where the sections' headers and names stand in a file whose header is in order.
#[tactic(auto, unfolding(crate::specs::Fields::section_table, crate::specs::Fields::section_count, crate::specs::Fields::name_table, crate::specs::Fields::section_header, crate::specs::Fields::section_names))]
fn layout_of(bytes: &[u8]) -> Layout<'_>
    requires whole { EHDR_SIZE ≤ length bytes.now }
    requires few { section_count bytes.now ≤ 4096 }
    requires in_file { section_table bytes.now + SHDR_SIZE * section_count bytes.now ≤ length bytes.now }
    requires named { name_table bytes.now < section_count bytes.now }
    requires names_in_file { lies_in_file bytes.now (section_header bytes.now (name_table bytes.now)) ≡ true }
    ensures { result.bytes.now ≡ bytes.now }
{
    let table = word(bytes, E_SHOFF);
    let names = header_at(
        bytes,
        table as usize + usize::from(SHDR_SIZE) * usize::from(half(bytes, E_SHSTRNDX)),
    );
    Layout {
        bytes,
        table,
        count: u32::from(half(bytes, E_SHNUM)),
        names: Strings::new(piece(bytes, names.offset, names.size)),
    }
}

/// Checks the file's kind and its header, and finds the sections' headers and names.
#[tactic(auto, using(crate::proofs::Whole::header_few, crate::proofs::Whole::header_table, crate::proofs::Whole::header_named, crate::proofs::Whole::header_names_lie))]
pub(crate) fn read_layout(bytes: &[u8]) -> Result<Layout<'_>, ObjectFault>
    ensures finds { Finds ObjectFault.Memory result (first_of (kind_fault bytes.now) (header_fault bytes.now)) }
    ensures same_bytes { IfOk result (λ layout. layout.bytes.now ≡ bytes.now) }
{
    check_kind(bytes)?;
    check_header(bytes)?;
    Ok(layout_of(bytes))
}
