//! Reads the fields of an object file at a place.

ghost use Rattle.std.specs.Prelude.{◌≡◌, ◌+◌, ◌≤◌, length, take, drop};
ghost use Rattle.elf32_object.specs.Fields.{half_at, word_at, section_header_at, symbol_entry_at, relocation_at};

use crate::types::{Reloc, SectionHeader, SymbolEntry};
use byteorder::{ByteOrder, LittleEndian};

/// The number of two bytes at a place.
#[tactic(auto, unfolding(crate::specs::Fields::half_at))]
pub(crate) fn half(bytes: &[u8], place: usize) -> u16
    requires { place + 2 ≤ length bytes.now }
    ensures { result ≡ half_at bytes.now place }
{
    LittleEndian::read_u16(&bytes[place..])
}

/// The number of four bytes at a place.
#[tactic(auto, unfolding(crate::specs::Fields::word_at))]
pub(crate) fn word(bytes: &[u8], place: usize) -> u32
    requires { place + 4 ≤ length bytes.now }
    ensures { result ≡ word_at bytes.now place }
{
    LittleEndian::read_u32(&bytes[place..])
}

/// The bytes of this number from an offset on.
pub(crate) fn piece(bytes: &[u8], offset: u32, size: u32) -> &[u8]
    requires { offset + size ≤ length bytes.now }
    ensures { result.now ≡ take size (drop offset bytes.now) }
{
    &bytes[offset as usize..offset as usize + size as usize]
}

/// The section header at a place.
#[tactic(auto, unfolding(crate::specs::Fields::section_header_at))]
pub(crate) fn header_at(bytes: &[u8], place: usize) -> SectionHeader
    requires { place + 40 ≤ length bytes.now }
    ensures { result ≡ section_header_at bytes.now place }
{
    SectionHeader {
        name: word(bytes, place),
        kind: word(bytes, place + 4),
        flags: word(bytes, place + 8),
        offset: word(bytes, place + 16),
        size: word(bytes, place + 20),
        link: word(bytes, place + 24),
        info: word(bytes, place + 28),
        align: word(bytes, place + 32),
        entry: word(bytes, place + 36),
    }
}

/// The symbol table's entry at a place.
#[tactic(auto, unfolding(crate::specs::Fields::symbol_entry_at))]
pub(crate) fn symbol_at(bytes: &[u8], place: usize) -> SymbolEntry
    requires { place + 16 ≤ length bytes.now }
    ensures { result ≡ symbol_entry_at bytes.now place }
{
    SymbolEntry {
        name: word(bytes, place),
        value: word(bytes, place + 4),
        size: word(bytes, place + 8),
        info: bytes[place + 12],
        section: half(bytes, place + 14),
    }
}

/// The relocation at a place: entry `index` of section `from`.
#[tactic(auto, unfolding(crate::specs::Fields::relocation_at))]
pub(crate) fn entry_at(bytes: &[u8], place: usize, from: u32, index: u32) -> Reloc
    requires { place + 8 ≤ length bytes.now }
    ensures { result ≡ relocation_at bytes.now place from index }
{
    let info = word(bytes, place + 4);
    Reloc {
        offset: word(bytes, place),
        symbol: info / 256,
        kind: (info % 256) as u8,
        from,
        index,
    }
}
