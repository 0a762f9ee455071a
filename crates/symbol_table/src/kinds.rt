//! The three kinds of symbol that are looked up by name.
ghost use Rattle.std.specs.Prelude.{◌≡◌, ◌==◌, IfOk, nat_lt, length};
ghost use Rattle.std.specs.List.{slice_get, filter, list_any};
ghost use Rattle.std.specs.List.Sorted.{IsPermutation, IsSortedBy};
ghost use Rattle.symbol_table.specs.Symbols.{addresses_of, global_addresses};
ghost use Rattle.symbol_table.specs.inside.Kinds.{is_of_kind, is_listed};
ghost use Rattle.symbol_table.specs.declared.entries.Index.TheVariants.{Globals, Names};
ghost use Rattle.symbol_table.specs.inside.Entries.{name_less, HasAll};
ghost use Rattle.symbol_table.specs.inside.Names.{kind_address, found_at, is_named_at, stands_at};
ghost use Rattle.symbol_table.specs.inside.Blocks.{InBlocks};

use crate::addresses::{Addresses, put_in_order};
use crate::blocks::block_begin;
use crate::entries::Entry;
use crate::names::{entries_at, entries_named};
use crate::symbols::Symbol;
use ks_base::Name;
use std::alloc::{AllocError, Global};

/// What a lookup by name asks for.
#[derive(Clone, Copy)]
pub(crate) enum Kind {
    Function,
    Global,
    Data,
}

/// Whether a symbol is of a kind.
fn is_of_kind(symbol: &Symbol, kind: Kind) -> bool
    ensures { result ≡ is_of_kind kind symbol.now }
{
    match kind {
        Kind::Function => symbol.function,
        Kind::Global => symbol.global,
        Kind::Data => !symbol.function,
    }
}

/// The address of the symbol at a place, where it is of a kind.
fn kind_address(symbols: &[Symbol], place: usize, kind: Kind) -> Option<u32>
    ensures { result ≡ kind_address kind (slice_get symbols.now place) }
{
    let symbol = symbols.get(place)?;
    if is_of_kind(symbol, kind) {
        Some(symbol.address)
    } else {
        None
    }
}

/// The addresses of the symbols of a kind and a name, of entries in order of the names.
fn found_in_block(
    alloc: Global,
    symbols: &[Symbol],
    entries: &[Entry],
    kind: Kind,
    name: &Name,
) -> Result<Vec<u32>, AllocError>
    requires { IsSortedBy (name_less symbols.now) entries.now }
    ensures { IfOk result (λ found. found.items ≡ found_at symbols.now kind name.now entries.now) }
{
    entries_named(symbols, entries, name.as_slice())
        .iter()
        .filter_map(|entry| kind_address(symbols, entry.place, kind))
        .collect(alloc)
}

/// The addresses of the symbols of a kind and a name.
fn addresses_found(
    alloc: Global,
    symbols: &[Symbol],
    entries: &[Entry],
    kind: Kind,
    name: &Name,
) -> Result<Vec<u32>, AllocError>
    requires { InBlocks (name_less symbols.now) entries.now }
    ensures { IfOk result (λ found. IsPermutation (found_at symbols.now kind name.now entries.now) found.items) }
{
    let mut found = Vec::new(alloc);
    let mut end = entries.len();
    while end > 0 {
        let begin = block_begin(end);
        let block = found_in_block(alloc, symbols, &entries[begin..end], kind, name)?;
        found.extend_from_slice(block.as_slice())?;
        end = begin;
    }
    Ok(found)
}

/// The distinct addresses of the symbols of a kind and a name, ascending.
pub(crate) fn addresses_of(
    alloc: Global,
    symbols: &[Symbol],
    entries: &[Entry],
    kind: Kind,
    name: &Name,
) -> Result<Addresses, AllocError>
    requires { HasAll Names symbols.now entries.now }
    ensures { IfOk result (λ found. found ≡ addresses_of (is_listed kind name.now) symbols.now) }
{
    put_in_order(addresses_found(alloc, symbols, entries, kind, name)?)
}

/// Whether an entry of a name stands at an address, of entries in order of the names.
fn stands_in_block(symbols: &[Symbol], entries: &[Entry], name: &Name, address: u32) -> bool
    requires { IsSortedBy (name_less symbols.now) entries.now }
    ensures { result ≡ nat_lt 0 (length
        (filter (stands_at address) (filter (is_named_at symbols.now name.now) entries.now))) }
{
    let named = entries_named(symbols, entries, name.as_slice());
    !entries_at(named, address).is_empty()
}

/// Whether a name has a global symbol at an address, by the index of the global symbols.
pub(crate) fn is_global(symbols: &[Symbol], entries: &[Entry], name: &Name, address: u32) -> bool
    requires { HasAll Globals symbols.now entries.now }
    ensures { result ≡ list_any (λ a. address == a) (global_addresses symbols.now name.now) }
{
    let mut end = entries.len();
    while end > 0 {
        let begin = block_begin(end);
        if stands_in_block(symbols, &entries[begin..end], name, address) {
            return true;
        }
        end = begin;
    }
    false
}
