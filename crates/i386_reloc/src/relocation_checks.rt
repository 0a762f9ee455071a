//! Why a relocation of a loaded section is refused.
ghost use Rattle.std.specs.Prelude.{◌≡◌, ◌≤◌, ◌<◌, ◌+◌, ◌==◌, ◌||◌, ◌&&◌, if◌then◌else◌};
ghost use Rattle.std.specs.Prelude.{not, nat_lt, true, length, OnOk, All};
ghost use Rattle.elf32_object.specs.Fields.{section_bytes, symbol_count, is_loaded, ends_in};
ghost use Rattle.elf32_object.specs.Rule.{Finds};
ghost use Rattle.elf32_object.specs.Rules.{has_field};
ghost use Rattle.i386_reloc.specs.Classes.{is_code_class, is_strings, is_strings_class};
ghost use Rattle.i386_reloc.specs.References.{is_absolute, symbol_of, text_offset};
ghost use Rattle.i386_reloc.specs.Refused.{first_among, names_strings, kind_fault};
ghost use Rattle.i386_reloc.specs.Refused.{target_fault, text_fault, relocation_fault_of};
ghost use Rattle.i386_reloc.specs.inside.Fields.{IsPlaced, has_target};
ghost use Rattle.i386_reloc.specs.inside.Loaded.{IsLoadedSection};

use crate::known::Named;
use crate::loaded::class_of;
use crate::references::addend;
use crate::source::Source;
use crate::types::Class;
use elf32_object::elf::{R_386_32, R_386_NONE, SHN_ABS, SHN_COMMON, SHN_UNDEF};
use elf32_object::types::{Reloc, Section};
use ks_base::{Name, Refusal};
use std::alloc::Global;

/// Refuses the first relocation of loaded section `i` that makes no reference. One of type `R_386_NONE` is passed over.
pub(crate) fn check_relocations(
    alloc: Global,
    source: &Source<'_, '_>,
    i: u32,
    section: &Section<'_>,
    relocations: &[Reloc],
) -> Result<(), Refusal>
    requires section { IsLoadedSection source.now.object.now i section.now }
    requires placed { All (IsPlaced source.now.object.now i) relocations.now }
    ensures { Finds Refusal.Memory result (first_among (relocation_fault_of source.now.object.now i) relocations.now) }
{
    for r in relocations {
        check_relocation(alloc, source, i, section, *r)?;
    }
    Ok(())
}

/// Refuses a relocation for its type and where it stands, for its symbol, or for its text, in this order.
#[tactic(auto, unfolding(crate::specs::Refused::relocation_fault_of))]
fn check_relocation(
    alloc: Global,
    source: &Source<'_, '_>,
    i: u32,
    section: &Section<'_>,
    r: Reloc,
) -> Result<(), Refusal>
    requires section { IsLoadedSection source.now.object.now i section.now }
    requires placed { IsPlaced source.now.object.now i r }
    ensures { Finds Refusal.Memory result (relocation_fault_of source.now.object.now i r) }
{
    if r.kind == R_386_NONE {
        return Ok(());
    }
    check_kind(alloc, source, i, section, r)?;
    check_target(alloc, source, i, section, r)?;
    check_text(alloc, source, i, section, r)
}

fn check_kind(
    alloc: Global,
    source: &Source<'_, '_>,
    i: u32,
    section: &Section<'_>,
    r: Reloc,
) -> Result<(), Refusal>
    requires section { IsLoadedSection source.now.object.now i section.now }
    requires symbol { r.symbol < symbol_count source.now.object.now }
    ensures finds { Finds Refusal.Memory result (kind_fault source.now.object.now i r) }
    ensures field { OnOk result (has_field r ≡ true) }
{
    if !is_known(class_of(section), r, names_strings(source, r)) {
        return Err(Refusal::UnknownReloc {
            section: Name::from_slice(alloc, section.name)?,
            entry: r.index,
            kind: r.kind,
        });
    }
    Ok(())
}

/// Whether a relocation's type is read, and stands where it may: in a section of this class, with or without a symbol
/// in a section of texts.
fn is_known(class: Class, r: Reloc, names_strings: bool) -> bool
    ensures { result ≡ (has_field r && not (is_strings_class class) && (is_absolute r || is_code_class class)
        && (is_absolute r || not names_strings)) }
{
    r.has_field()
        && !class.is_strings()
        && (r.kind == R_386_32 || class.is_code())
        && (r.kind == R_386_32 || !names_strings)
}

/// Whether a relocation's symbol lies in a section of texts.
fn names_strings(source: &Source<'_, '_>, r: Reloc) -> bool
    requires { r.symbol < symbol_count source.now.object.now }
    ensures { result ≡ names_strings source.now.object.now r }
{
    r.symbol > 0 && source.is_strings(source.symbol(r.symbol).section)
}

fn check_target(
    alloc: Global,
    source: &Source<'_, '_>,
    i: u32,
    section: &Section<'_>,
    r: Reloc,
) -> Result<(), Refusal>
    requires section { IsLoadedSection source.now.object.now i section.now }
    requires symbol { r.symbol < symbol_count source.now.object.now }
    ensures finds { Finds Refusal.Memory result (target_fault source.now.object.now i r) }
    ensures above_null { OnOk result (0 < r.symbol) }
{
    if !has_target(source, r) {
        return Err(Refusal::BadTarget(Name::from_slice(alloc, section.name)?, r.index));
    }
    Ok(())
}

/// Whether a relocation's symbol can be a target.
fn has_target(source: &Source<'_, '_>, r: Reloc) -> bool
    requires { r.symbol < symbol_count source.now.object.now }
    ensures { result ≡ has_target source.now.object.now r }
{
    r.symbol > 0 && leads(source, source.symbol(r.symbol))
}

fn leads(source: &Source<'_, '_>, symbol: &Named<'_>) -> bool
    ensures { result ≡ (if symbol.now.section == SHN_UNDEF
        || symbol.now.section == SHN_COMMON then nat_lt 0 (length symbol.now.name)
        else not (symbol.now.section == SHN_ABS) && is_loaded source.now.object.now symbol.now.section) }
{
    if symbol.is_outside() {
        !symbol.name.as_slice().is_empty()
    } else {
        symbol.section != SHN_ABS && source.is_loaded(symbol.section)
    }
}

fn check_text(
    alloc: Global,
    source: &Source<'_, '_>,
    i: u32,
    section: &Section<'_>,
    r: Reloc,
) -> Result<(), Refusal>
    requires section { IsLoadedSection source.now.object.now i section.now }
    requires above_null { 0 < r.symbol }
    requires symbol { r.symbol < symbol_count source.now.object.now }
    requires within { r.offset + 4 ≤ length (section_bytes source.now.object.now i) }
    ensures { Finds Refusal.Memory result (text_fault source.now.object.now i r) }
{
    if !has_end(source, r, addend(source, i, section, r)) {
        return Err(Refusal::BadString(Name::from_slice(alloc, section.name)?, r.index));
    }
    Ok(())
}

/// Whether a text that a relocation names with this addend ends in its section.
fn has_end(source: &Source<'_, '_>, r: Reloc, addend: u32) -> bool
    requires above_null { 0 < r.symbol }
    requires symbol { r.symbol < symbol_count source.now.object.now }
    ensures { result ≡ (not (is_strings source.now.object.now (symbol_of source.now.object.now r).section)
        || ends_in (section_bytes source.now.object.now (symbol_of source.now.object.now r).section)
        (text_offset (symbol_of source.now.object.now r) addend)) }
{
    let symbol = source.symbol(r.symbol);
    if !source.is_strings(symbol.section) {
        return true;
    }
    let known = source.section(symbol.section);
    known.texts.ends(symbol.text_offset(addend))
}
