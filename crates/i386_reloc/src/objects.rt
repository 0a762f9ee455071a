//! The object symbols of each section.
ghost use Rattle.std.specs.Prelude.{◌≡◌, ◌<◌, ℕ, ◌+◌, ◌&&◌, ◌==◌, ◌++◌, ◌∷◌, []};
ghost use Rattle.std.specs.Prelude.{if◌then◌else◌, IfOk, OnOk, length, slice_index_or, List};
ghost use Rattle.elf32_object.specs.Fields.{section_count, symbol_count};
ghost use Rattle.i386_reloc.specs.inside.Objects.{AreLeft, AreObjects, object_with};
ghost use Rattle.i386_reloc.specs.References.{symbol_type, is_global, objects_of};
ghost use Rattle.i386_reloc.specs.declared.types.ObjectSymbol.{ObjectSymbol as Seen};

use crate::known::{Named, symbol_binding, symbol_type};
use crate::source::Source;
use crate::span::Span;
use crate::types::{ObjectSymbol, Objects};
use elf32_object::Object;
use elf32_object::elf::{STB_GLOBAL, STB_WEAK, STT_OBJECT};
use ks_base::ListOf;
use std::alloc::{AllocError, Global};
use std::mem;

/// The object symbols of each section, by its index, from one pass over the symbols.
pub(crate) fn gather_objects<'a>(
    alloc: Global,
    source: &Source<'_, 'a>,
) -> Result<Vec<Objects<'a>>, AllocError>
    ensures { IfOk result (λ table. AreObjects source.now.object.now (symbol_count source.now.object.now) table.items) }
{
    let mut table = no_objects(alloc, source.object)?;
    for k in 0..source.object.symbol_count() {
        gather_object(&mut table, source, k)?;
    }
    Ok(table)
}

/// An empty list for each section.
fn no_objects<'a>(alloc: Global, object: &Object<'a>) -> Result<Vec<Objects<'a>>, AllocError>
    ensures { IfOk result (λ table. AreObjects object.now 0 table.items) }
{
    let mut table = Vec::new(alloc);
    for _ in 0..object.section_count() {
        table.push(ListOf::new(alloc))?;
    }
    Ok(table)
}

/// Takes symbol `k` into the table. Symbol 0 is none.
fn gather_object<'a>(
    table: &mut Vec<Objects<'a>>,
    source: &Source<'_, 'a>,
    k: u32,
) -> Result<(), AllocError>
    requires within { k < symbol_count source.now.object.now }
    requires before { AreObjects source.now.object.now k table.old.items }
    ensures { OnOk result (AreObjects source.now.object.now (k + 1) table.new.items) }
{
    if k == 0 {
        return Ok(());
    }
    note(table, source.symbol(k))
}

/// Notes a symbol at its section, where it is an object.
fn note<'a>(table: &mut Vec<Objects<'a>>, symbol: &Named<'a>) -> Result<(), AllocError>
    ensures len { OnOk result (length table.new.items ≡ length table.old.items) }
    ensures each { OnOk result ((i : ℕ) (d : List Seen) → i < length table.old.items
        → slice_index_or table.new.items i d ≡ (if symbol_type symbol.now.info == STT_OBJECT && symbol.now.section == i
        then slice_index_or table.old.items i d
        ++ object_with symbol.now.name symbol.now.value symbol.now.info ∷ []
        else slice_index_or table.old.items i d)) }
{
    let section = usize::from(symbol.section);
    if symbol_type(symbol.info) != STT_OBJECT || section >= table.len() {
        return Ok(());
    }
    table[section].push(object_symbol(symbol))
}

/// A symbol as it is compared.
fn object_symbol<'a>(symbol: &Named<'a>) -> ObjectSymbol<'a>
    ensures { result ≡ object_with symbol.now.name symbol.now.value symbol.now.info }
{
    ObjectSymbol {
        name: Span::new(symbol.name.as_slice()),
        value: symbol.value,
        global: is_global(symbol.info),
    }
}

/// Whether a symbol with this `st_info` is seen from other objects.
pub(crate) fn is_global(info: u8) -> bool
    ensures { result ≡ is_global info }
{
    symbol_binding(info) == STB_GLOBAL || symbol_binding(info) == STB_WEAK
}

/// Takes the object symbols of section `i` out of the table.
pub(crate) fn take_objects<'a>(
    alloc: Global,
    object: &Object<'a>,
    table: &mut Vec<Objects<'a>>,
    i: u32,
) -> Objects<'a>
    requires within { i < section_count object.now }
    requires before { AreLeft object.now i table.old.items }
    ensures objects { result ≡ objects_of object.now i }
    ensures left { AreLeft object.now (i + 1) table.new.items }
{
    mem::replace(&mut table[i as usize], ListOf::new(alloc))
}
