//! The indices of the symbols: entries that lead to symbols, in blocks that are in order.
ghost use Rattle.std.specs.Prelude.{◌≡◌, ◌+◌, ◌<◌, ◌≤◌, ◌++◌, ◌-◌, take, length, vec_len, vec_capacity, IfOk};
ghost use Rattle.std.specs.List.{slice_get};
ghost use Rattle.std.specs.List.Sorted.{IsPermutation, IsSortedBy};
ghost use Rattle.std.specs.Ordering.{is_lt};
ghost use Rattle.symbol_table.specs.inside.Blocks.{InBlocks};
ghost use Rattle.symbol_table.specs.inside.Entries.{is_in, entry_at, entries_from, name_of, order_at};
ghost use Rattle.symbol_table.specs.inside.Entries.{address_order, address_less, entry_less, HasAll};

use crate::blocks::block_begin;
use crate::symbols::Symbol;
use std::alloc::{AllocError, Global};
use std::cmp::Ordering;

/// An entry of an index: the address of a symbol, and the symbol's place in the table.
#[derive(Clone, Copy)]
pub(crate) struct Entry {
    pub(crate) address: u32,
    pub(crate) place: usize,
}

/// An index: of the functions or of the data in order of the addresses, or of the global or of all symbols in order of
/// the names, and those of one name in order of the addresses.
#[derive(Clone, Copy)]
pub(crate) enum Index {
    Functions,
    Data,
    Globals,
    Names,
}

/// Whether an index has a symbol.
fn is_in(index: Index, symbol: &Symbol) -> bool
    ensures { result ≡ is_in index symbol.now }
{
    match index {
        Index::Functions => symbol.function,
        Index::Data => !symbol.function,
        Index::Globals => symbol.global,
        Index::Names => true,
    }
}

/// The name of the symbol at a place, without bytes where there is none.
fn name_at(symbols: &[Symbol], place: usize) -> &[u8]
    ensures { result.now ≡ name_of (slice_get symbols.now place) }
{
    match symbols.get(place) {
        Some(symbol) => symbol.name.as_slice(),
        None => &[],
    }
}

/// How the name of an entry's symbol stands to a name.
pub(crate) fn order_at(symbols: &[Symbol], entry: &Entry, name: &[u8]) -> Ordering
    ensures { result ≡ order_at symbols.now name.now entry.now }
{
    name_at(symbols, entry.place).cmp(name)
}

/// How an entry stands to another by address, and at one address the last symbol before the first.
pub(crate) fn address_order(entry: &Entry, other: &Entry) -> Ordering
    ensures order { result ≡ address_order entry.now other.now }
    ensures less { is_lt result ≡ address_less entry.now other.now }
{
    entry
        .address
        .cmp(&other.address)
        .then(other.place.cmp(&entry.place))
}

/// How the names of two entries' symbols stand.
fn name_order(symbols: &[Symbol], entry: &Entry, other: &Entry) -> Ordering
    ensures { result ≡ order_at symbols.now (name_of (slice_get symbols.now other.now.place)) entry.now }
{
    order_at(symbols, entry, name_at(symbols, other.place))
}

/// How an entry of an index stands to another.
fn entry_order(index: Index, symbols: &[Symbol], entry: &Entry, other: &Entry) -> Ordering
    ensures { is_lt result ≡ entry_less index symbols.now entry.now other.now }
{
    let by_address = address_order(entry, other);
    match index {
        Index::Functions => by_address,
        Index::Data => by_address,
        Index::Globals => name_order(symbols, entry, other).then(by_address),
        Index::Names => name_order(symbols, entry, other).then(by_address),
    }
}

/// Puts entries in the order of an index.
fn sort_entries(entries: &mut [Entry], index: Index, symbols: &[Symbol])
    ensures same { IsPermutation entries.old entries.new }
    ensures ascend { IsSortedBy (entry_less index symbols.now) entries.new }
{
    entries.sort_unstable_by(|entry, other| entry_order(index, symbols, entry, other));
}

/// Puts the last block of entries in order, where one more entry stands at the end than was in blocks.
fn sort_last_block(entries: &mut [Entry], index: Index, symbols: &[Symbol])
    requires some { 0 < length entries.old }
    requires blocks { InBlocks (entry_less index symbols.now) (take (length entries.old - 1) entries.old) }
    ensures same { IsPermutation entries.old entries.new }
    ensures blocks { InBlocks (entry_less index symbols.now) entries.new }
{
    let begin = block_begin(entries.len());
    sort_entries(&mut entries[begin..], index, symbols);
}

/// Puts the entry of a symbol at the end, where the index has the symbol.
fn push_symbol(entries: &mut Vec<Entry>, index: Index, symbol: &Symbol, place: usize)
    requires room { vec_len entries.old < vec_capacity entries.old }
    ensures items { entries.new.items ≡ entries.old.items ++ entry_at index symbol.now place }
    ensures len { vec_len entries.new ≤ vec_len entries.old + 1 }
    ensures capacity { vec_capacity entries.old ≤ vec_capacity entries.new }
{
    if is_in(index, symbol) {
        let address = symbol.address;
        entries.push_reserved(Entry { address, place });
    }
}

/// Notes the last of the symbols in an index that has all before it.
pub(crate) fn note_last(entries: &mut Vec<Entry>, index: Index, symbols: &[Symbol])
    requires some { 0 < length symbols.now }
    requires before { HasAll index (take (length symbols.now - 1) symbols.now) entries.old.items }
    requires room { vec_len entries.old < vec_capacity entries.old }
    ensures all { HasAll index symbols.now entries.new.items }
    ensures len { vec_len entries.new ≤ vec_len entries.old + 1 }
    ensures capacity { vec_capacity entries.old ≤ vec_capacity entries.new }
{
    let place = symbols.len() - 1;
    let count = entries.len();
    push_symbol(entries, index, &symbols[place], place);
    if count < entries.len() {
        sort_last_block(entries.as_mut_slice(), index, symbols);
    }
}

/// Makes the entries those of all symbols of an index, in the symbols' order.
fn list_symbols(entries: &mut Vec<Entry>, index: Index, symbols: &[Symbol])
    requires room { length symbols.now ≤ vec_capacity entries.old }
    ensures items { entries.new.items ≡ entries_from index 0 symbols.now }
    ensures len { vec_len entries.new ≤ length symbols.now }
    ensures capacity { vec_capacity entries.old ≤ vec_capacity entries.new }
{
    entries.clear();
    for place in 0..symbols.len() {
        push_symbol(entries, index, &symbols[place], place);
    }
}

/// Makes the entries those of all symbols of an index, in order.
pub(crate) fn list_entries(entries: &mut Vec<Entry>, index: Index, symbols: &[Symbol])
    requires room { length symbols.now ≤ vec_capacity entries.old }
    ensures all { HasAll index symbols.now entries.new.items }
    ensures len { vec_len entries.new ≤ length symbols.now }
    ensures capacity { vec_capacity entries.old ≤ vec_capacity entries.new }
{
    list_symbols(entries, index, symbols);
    sort_entries(entries.as_mut_slice(), index, symbols);
}

/// The entries of all symbols of an index, in order, with room for those of as many symbols.
pub(crate) fn entries_of(
    alloc: Global,
    index: Index,
    symbols: &[Symbol],
) -> Result<Vec<Entry>, AllocError>
    ensures all { IfOk result (λ entries. HasAll index symbols.now entries.items) }
    ensures len { IfOk result (λ entries. vec_len entries ≤ length symbols.now) }
    ensures capacity { IfOk result (λ entries. length symbols.now ≤ vec_capacity entries) }
{
    let mut entries = Vec::with_capacity(alloc, symbols.len())?;
    list_entries(&mut entries, index, symbols);
    Ok(entries)
}
