//! An object file that keeps every rule.

ghost use Rattle.std.specs.Prelude.{◌≡◌, ℕ, ◌<◌, ◌≤◌, ◌+◌, ◌==◌, true, false, length, None};
ghost use Rattle.elf32_object.specs.declared.types.Reloc.{Reloc};
ghost use Rattle.elf32_object.specs.Numbers.{SHT_NOBITS};
ghost use Rattle.elf32_object.specs.Rules.{object_fault, is_alignment, is_section_of_symbol, has_field, meets};
ghost use Rattle.elf32_object.specs.Fields.{has_no_bytes, section_count, section_header, section_name};
ghost use Rattle.elf32_object.specs.Fields.{section_bytes, is_loaded, symbol_count, symbol_entry};
ghost use Rattle.elf32_object.specs.Fields.{symbol_name, relocations_below, IsRelocation};

use crate::layout::Layout;
use crate::rows::Spot;
use crate::symbols::Symbols;
use crate::table::{count_of, relocation_of};
use crate::types::{Reloc, Section, Symbol};
use std::marker::Model;

/// An object file that keeps every rule. It borrows from the file, and contracts see the file's bytes.
#[derive(Drop)]
pub struct Object<'a> {
    pub(crate) layout: Layout<'a>,
    pub(crate) symbols: Symbols<'a>,
    pub(crate) rows: Vec<Vec<Spot>>,
}

impl<'a> Model for Object<'a> {
    ghost use Rattle.std.specs.Prelude.{List, ℕ};
    ghost use Rattle.elf32_object.specs.inside.Kept.{IsKept};
    ghost use Rattle.elf32_object.specs.inside.Rows.{rows_of};

    ghost Value = { List ℕ };

    ghost view = { λ o. o.layout.bytes.now };

    ghost invariant = { λ o. IsKept o.layout.bytes.now o.symbols.bytes.now (rows_of o.rows.items) };
}

impl<'a> Object<'a> {
    /// How many sections the object has, section 0 with them.
    pub fn section_count(&self) -> u32
        ensures count { result ≡ section_count self.now }
        ensures few { result ≤ 4096 }
        ensures kept { object_fault self.now ≡ None }
    {
        self.layout.count
    }

    /// A section. Its name, its bytes and whether it is loaded are as the definitions say, the other fields as in its
    /// header.
    pub fn section(&self, i: u32) -> Section<'a>
        requires above_null { 0 < i }
        requires within { i < section_count self.now }
        ensures name { result.name.now ≡ section_name self.now i }
        ensures kind { result.kind ≡ (section_header self.now i).kind }
        ensures flags { result.flags ≡ (section_header self.now i).flags }
        ensures align { result.align ≡ (section_header self.now i).align }
        ensures entry { result.entry ≡ (section_header self.now i).entry }
        ensures size { result.size ≡ (section_header self.now i).size }
        ensures bytes { result.bytes.now ≡ section_bytes self.now i }
        ensures loaded { result.loaded ≡ is_loaded self.now i }
        ensures short_name { length result.name.now ≤ 4096 }
        ensures whole { has_no_bytes (section_header self.now i) ≡ false → length result.bytes.now ≡ result.size }
        ensures aligned { result.loaded ≡ true → is_alignment result.align ≡ true }
        ensures small { result.loaded ≡ true → result.size ≤ 8388608 }
    {
        let header = self.layout.header(i);
        Section {
            name: self.layout.name(i),
            kind: header.kind,
            flags: header.flags,
            align: header.align,
            entry: header.entry,
            size: header.size,
            bytes: self.layout.content(i),
            loaded: self.layout.is_loaded(i),
        }
    }

    /// How many symbols the object has, symbol 0 with them.
    pub fn symbol_count(&self) -> u32
        ensures count { result ≡ symbol_count self.now }
        ensures few { result ≤ 65536 }
    {
        self.symbols.count
    }

    /// A symbol. Its name is as the definition says, the other fields as in its entry.
    pub fn symbol(&self, k: u32) -> Symbol<'a>
        requires above_null { 0 < k }
        requires within { k < symbol_count self.now }
        ensures name { result.name.now ≡ symbol_name self.now k }
        ensures value { result.value ≡ (symbol_entry self.now k).value }
        ensures size { result.size ≡ (symbol_entry self.now k).size }
        ensures info { result.info ≡ (symbol_entry self.now k).info }
        ensures section { result.section ≡ (symbol_entry self.now k).section }
        ensures short_name { length result.name.now ≤ 4096 }
        ensures known_section { is_section_of_symbol self.now result.section ≡ true }
        ensures within { is_loaded self.now result.section ≡ true
            → result.value ≤ (section_header self.now result.section).size }
    {
        let entry = self.symbols.entry(k);
        Symbol {
            name: self.symbols.name(k),
            value: entry.value,
            size: entry.size,
            info: entry.info,
            section: entry.section,
        }
    }

    /// How many relocations a loaded section has.
    pub fn reloc_count(&self, section: u32) -> u32
        requires { is_loaded self.now section ≡ true }
        ensures count { result ≡ relocations_below self.now section (section_count self.now) }
        ensures few { result ≤ 262144 }
    {
        count_of(&self.layout, &self.rows, section)
    }

    /// A relocation of a loaded section, by its number: they are counted from 0 in the order of their sections and, in
    /// each of these, of their entries.
    pub fn reloc(&self, section: u32, k: u32) -> Reloc
        requires loaded { is_loaded self.now section ≡ true }
        requires within { k < relocations_below self.now section (section_count self.now) }
        ensures relocation { IsRelocation self.now section k result }
        ensures symbol { result.symbol < symbol_count self.now }
        ensures filled { ((section_header self.now section).kind == SHT_NOBITS) ≡ false }
        ensures begins { result.offset < (section_header self.now section).size }
        ensures field { has_field result ≡ true → result.offset + 4 ≤ length (section_bytes self.now section) }
        ensures apart { (j : ℕ) (other : Reloc) → j < k → IsRelocation self.now section j other
            → has_field result ≡ true → has_field other ≡ true → meets result.offset other.offset ≡ false }
    {
        relocation_of(&self.layout, &self.rows, section, k)
    }
}
