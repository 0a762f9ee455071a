//! The function symbols of each section.
ghost use Rattle.std.specs.Prelude.{◌≡◌, ◌<◌, ℕ, ◌+◌, ◌&&◌, ◌==◌, if◌then◌else◌, IfOk, length, slice_index_or};
ghost use Rattle.elf32_object.specs.Fields.{symbol_count};
ghost use Rattle.i386_reloc.specs.References.{symbol_type};
ghost use Rattle.i386_reloc.specs.inside.Functions.{AreFunctions, functions_with};

use crate::known::{Named, symbol_type};
use crate::source::Source;
use elf32_object::elf::STT_FUNC;
use std::alloc::{AllocError, Global};

/// The function symbols of a section, as far as symbols were looked at.
#[derive(Clone, Copy)]
pub struct Functions {
    /// The index of the first symbol at the section's start.
    pub first: Option<u32>,
    /// Whether a symbol stands after the start.
    pub inner: bool,
}

impl Functions {
    const NONE: Functions = Functions {
        first: None,
        inner: false,
    };

    /// These, and function symbol `k` with its value.
    fn with(self, k: u32, value: u32) -> Functions
        ensures { result ≡ functions_with self k value }
    {
        if value == 0 {
            Functions {
                first: self.first.or(Some(k)),
                inner: self.inner,
            }
        } else {
            Functions {
                first: self.first,
                inner: true,
            }
        }
    }
}

/// The function symbols of each section, by its index, from one pass over the symbols.
#[tactic(auto, using(crate::proofs::FunctionSymbols::are_no_functions))]
pub(crate) fn gather(alloc: Global, source: &Source<'_, '_>) -> Result<Vec<Functions>, AllocError>
    ensures { IfOk result (λ table.
        AreFunctions source.now.object.now (symbol_count source.now.object.now) table.items) }
{
    let mut table = vec![in alloc; Functions::NONE; source.object.section_count() as usize]?;
    for k in 0..source.object.symbol_count() {
        gather_symbol(table.as_mut_slice(), source, k);
    }
    Ok(table)
}

/// Takes symbol `k` into the table. Symbol 0 is none.
#[tactic(auto, using(crate::proofs::FunctionSymbols::are_functions_null, crate::proofs::FunctionSymbols::are_functions_more))]
fn gather_symbol(table: &mut [Functions], source: &Source<'_, '_>, k: u32)
    requires within { k < symbol_count source.now.object.now }
    requires before { AreFunctions source.now.object.now k table.old }
    ensures { AreFunctions source.now.object.now (k + 1) table.new }
{
    if k > 0 {
        note(table, k, source.symbol(k));
    }
}

/// Notes symbol `k` at its section, where it is a function.
fn note(table: &mut [Functions], k: u32, symbol: &Named<'_>)
    ensures { (i : ℕ) (d : Functions) → i < length table.old
        → slice_index_or table.new i d ≡ (if symbol_type symbol.now.info == STT_FUNC && symbol.now.section == i
        then functions_with (slice_index_or table.old i d) k symbol.now.value
        else slice_index_or table.old i d) }
{
    let section = usize::from(symbol.section);
    if symbol_type(symbol.info) == STT_FUNC && section < table.len() {
        table[section] = table[section].with(k, symbol.value);
    }
}
