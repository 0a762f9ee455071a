//! The function that an address lies in.
ghost use Rattle.std.specs.Prelude.{◌≡◌, ◌≤◌, IfSome, if◌then◌else◌};
ghost use Rattle.std.specs.List.Sorted.{IsSortedBy};
ghost use Rattle.std.specs.Option.{option_copied};
ghost use Rattle.symbol_table.specs.inside.Blocks.{InBlocks};
ghost use Rattle.symbol_table.specs.declared.entries.Index.TheVariants.{Functions};
ghost use Rattle.symbol_table.specs.Symbols.{function_below};
ghost use Rattle.symbol_table.specs.inside.Entries.{address_less, HasAll};
ghost use Rattle.symbol_table.specs.inside.Functions.{greater_entry, entry_below};

use crate::blocks::block_begin;
use crate::entries::{Entry, address_order};
use crate::symbols::Symbol;

/// Of two entries the one that isn't less.
fn greater_of(entry: Entry, other: Entry) -> Entry
    ensures { result ≡ (if address_less other entry then entry else other) }
{
    if address_order(&other, &entry).is_lt() {
        entry
    } else {
        other
    }
}

/// Of two entries, which may be missing, the one that isn't less.
fn greater_entry(entry: Option<Entry>, other: Option<Entry>) -> Option<Entry>
    ensures { result ≡ greater_entry entry other }
{
    match (entry, other) {
        (Some(entry), Some(other)) => Some(greater_of(entry, other)),
        (None, other) => other,
        (entry, None) => entry,
    }
}

/// Of entries in order the greatest at or below an address.
fn last_in_block(entries: &[Entry], address: u32) -> Option<Entry>
    requires { IsSortedBy address_less entries.now }
    ensures { result ≡ entry_below address entries.now }
{
    let after = entries.partition_point(|entry| entry.address <= address);
    if after == 0 {
        None
    } else {
        Some(entries[after - 1])
    }
}

/// The greatest entry at or below an address, of entries in blocks in order of the addresses.
fn last_entry(entries: &[Entry], address: u32) -> Option<Entry>
    requires { InBlocks address_less entries.now }
    ensures found { result ≡ entry_below address entries.now }
    ensures below { IfSome result (λ entry. entry.address ≤ address) }
{
    let mut last = None;
    let mut end = entries.len();
    while end > 0 {
        let begin = block_begin(end);
        last = greater_entry(last_in_block(&entries[begin..end], address), last);
        end = begin;
    }
    last
}

/// Of the function symbols at or below an address the one with the greatest address, and of several there the first.
pub(crate) fn function_below<'a>(
    symbols: &'a [Symbol],
    entries: &[Entry],
    address: u32,
) -> Option<&'a Symbol>
    requires { HasAll Functions symbols.now entries.now }
    ensures found { option_copied result ≡ function_below symbols.now address }
    ensures below { IfSome result (λ symbol. symbol.now.address ≤ address) }
{
    match last_entry(entries, address) {
        Some(entry) => symbols.get(entry.place),
        None => None,
    }
}
