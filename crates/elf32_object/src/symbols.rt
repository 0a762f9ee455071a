//! The symbol table of a file.

ghost use Rattle.std.specs.Prelude.{◌≡◌, ◌+◌, ◌*◌, ◌/◌, ◌≤◌, ◌<◌, ◌||◌, not};
ghost use Rattle.std.specs.Prelude.{nat_le, true, length, Some, None, unwrap_or};
ghost use Rattle.elf32_object.specs.declared.elf.TheConstants.{SYM_SIZE};
ghost use Rattle.elf32_object.specs.Fields.{section_header, symbol_table, symbol_count, ends_in, symbol_entry};
ghost use Rattle.elf32_object.specs.Fields.{symbol_names, symbol_name, section_count, lies_in_file, is_loaded};
ghost use Rattle.elf32_object.specs.Below.{first_below};
ghost use Rattle.elf32_object.specs.Rules.{section_fault, is_section_of_symbol, symbol_fault};
ghost use Rattle.elf32_object.specs.Rule.{Finds};

use crate::elf::{SHN_ABS, SHN_COMMON, SHN_UNDEF, SYM_SIZE};
use crate::layout::Layout;
use crate::reading::{piece, symbol_at};
use crate::strings::{Strings, is_name, text};
use crate::types::{Large, ObjectFault, SymbolEntry};

/// Where a file's symbols stand, and their names.
#[derive(Clone, Copy)]
pub(crate) struct Symbols<'a> {
    pub bytes: &'a [u8],
    pub place: u32,
    pub count: u32,
    pub names: Strings<'a>,
    ghost count_is: { count ≡ symbol_count bytes.now },
    ghost few: { count ≤ 65536 },
    ghost place_is: { 0 < count → place ≡ (section_header bytes.now (unwrap_or (symbol_table bytes.now) 0)).offset },
    ghost in_file: { place + SYM_SIZE * count ≤ length bytes.now },
    ghost names_are: { 0 < count → names.bytes.now ≡ symbol_names bytes.now },
}

impl<'a> Symbols<'a> {
    /// An entry of the symbol table.
    #[tactic(auto, unfolding(crate::specs::Fields::symbol_entry))]
    pub fn entry(&self, k: u32) -> SymbolEntry
        requires { k < self.now.count }
        ensures { result ≡ symbol_entry self.now.bytes.now k }
    {
        symbol_at(
            self.bytes,
            self.place as usize + SYM_SIZE as usize * k as usize,
        )
    }

    /// A symbol's name.
    #[tactic(auto, unfolding(crate::specs::Fields::symbol_name), using(crate::proofs::Zeros::ends_within))]
    pub fn name(&self, k: u32) -> &'a [u8]
        requires within { k < self.now.count }
        requires ends { ends_in (symbol_names self.now.bytes.now) (symbol_entry self.now.bytes.now k).name ≡ true }
        ensures { result.now ≡ symbol_name self.now.bytes.now k }
    {
        text(self.names.bytes, self.entry(k).name)
    }
}

/// The first symbol table, where there is one.
#[tactic(auto, unfolding(crate::specs::Fields::symbol_table))]
fn symbol_table(layout: &Layout<'_>) -> Option<u32>
    ensures { result ≡ symbol_table layout.now.bytes.now }
{
    for i in 0..layout.count {
        if layout.is_symbol_table(i) {
            return Some(i);
        }
    }
    None
}

/// The symbols of the first symbol table.
#[tactic(auto, unfolding(crate::specs::Fields::symbol_count, crate::specs::Fields::symbol_names))]
fn symbols_in<'a>(layout: &Layout<'a>, i: u32) -> Symbols<'a>
    requires first { symbol_table layout.now.bytes.now ≡ Some i }
    requires within { i < layout.now.count }
    requires few { (section_header layout.now.bytes.now i).size / SYM_SIZE ≤ 65536 }
    requires in_file { lies_in_file layout.now.bytes.now (section_header layout.now.bytes.now i) ≡ true }
    requires link { (section_header layout.now.bytes.now i).link < layout.now.count }
    requires names_in_file { lies_in_file layout.now.bytes.now
        (section_header layout.now.bytes.now (section_header layout.now.bytes.now i).link) ≡ true }
    ensures { result.bytes.now ≡ layout.now.bytes.now }
{
    let header = layout.header(i);
    let names = layout.header(header.link);
    Symbols {
        bytes: layout.bytes,
        place: header.offset,
        count: header.size / SYM_SIZE,
        names: Strings::new(piece(layout.bytes, names.offset, names.size)),
    }
}

/// The symbols of a file whose sections are in order: none where it has no symbol table.
#[tactic(auto, unfolding(crate::specs::Fields::symbol_count))]
pub(crate) fn symbols_of<'a>(layout: &Layout<'a>) -> Symbols<'a>
    requires { first_below (section_fault layout.now.bytes.now) (section_count layout.now.bytes.now) ≡ None }
    ensures { result.bytes.now ≡ layout.now.bytes.now }
{
    match symbol_table(layout) {
        Some(i) => symbols_in(layout, i),
        None => Symbols {
            bytes: layout.bytes,
            place: 0,
            count: 0,
            names: Strings::new(&[]),
        },
    }
}

/// Whether a symbol may name this section: none, an absolute value, a common block, or a section of the file.
fn is_section_of_symbol(layout: &Layout<'_>, section: u16) -> bool
    ensures { result ≡ is_section_of_symbol layout.now.bytes.now section }
{
    section == SHN_UNDEF
        || section == SHN_ABS
        || section == SHN_COMMON
        || u32::from(section) < layout.count
}

/// Whether a symbol of a loaded section stands in it or at its end.
fn stands_within(layout: &Layout<'_>, entry: SymbolEntry) -> bool
    ensures { result ≡ (not (is_loaded layout.now.bytes.now entry.section)
        || nat_le entry.value (section_header layout.now.bytes.now entry.section).size) }
{
    let section = u32::from(entry.section);
    !layout.is_loaded(section) || entry.value <= layout.header(section).size
}

/// Checks a symbol.
#[tactic(auto, unfolding(crate::specs::Fields::symbol_name), using(crate::proofs::Zeros::ends_within, crate::proofs::Rules::symbol_fault_at))]
fn check_symbol(layout: &Layout<'_>, symbols: &Symbols<'_>, k: u32) -> Result<(), ObjectFault>
    requires above_null { 0 < k }
    requires within { k < symbols.now.count }
    requires same_bytes { symbols.now.bytes.now ≡ layout.now.bytes.now }
    ensures { Finds ObjectFault.Memory result (symbol_fault layout.now.bytes.now k) }
{
    let entry = symbols.entry(k);
    if !symbols.names.has_end(entry.name) {
        return Err(ObjectFault::BadSymbol(k));
    }
    if !is_name(symbols.names.bytes, entry.name) {
        return Err(ObjectFault::TooLarge(Large::Name));
    }
    if !is_section_of_symbol(layout, entry.section) || !stands_within(layout, entry) {
        return Err(ObjectFault::BadSymbol(k));
    }
    Ok(())
}

/// Checks the symbols, in their order.
pub(crate) fn check_symbols(layout: &Layout<'_>, symbols: &Symbols<'_>) -> Result<(), ObjectFault>
    requires { symbols.now.bytes.now ≡ layout.now.bytes.now }
    ensures { Finds ObjectFault.Memory result
        (first_below (symbol_fault layout.now.bytes.now) (symbol_count layout.now.bytes.now)) }
{
    for k in 1..symbols.count {
        check_symbol(layout, symbols, k)?;
    }
    Ok(())
}
