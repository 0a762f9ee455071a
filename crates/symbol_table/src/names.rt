//! The entries of a name, of entries in order of the names.
ghost use Rattle.std.specs.Prelude.{◌≡◌, ◌≤◌, true, false, length};
ghost use Rattle.std.specs.List.{filter};
ghost use Rattle.std.specs.List.Sorted.{IsPartitionPoint, IsSortedBy, IsNonDecreasingBy};
ghost use Rattle.symbol_table.specs.inside.Entries.{name_less};
ghost use Rattle.symbol_table.specs.inside.Names.{is_before, is_not_after, is_named_at, stands_at};

use crate::entries::{Entry, order_at};
use crate::symbols::Symbol;

/// Whether an entry's symbol comes before a name.
fn is_before(symbols: &[Symbol], entry: &Entry, name: &[u8]) -> bool
    ensures { result ≡ is_before symbols.now name.now entry.now }
{
    order_at(symbols, entry, name).is_lt()
}

/// Whether an entry's symbol comes no later than a name.
fn is_not_after(symbols: &[Symbol], entry: &Entry, name: &[u8]) -> bool
    ensures { result ≡ is_not_after symbols.now name.now entry.now }
{
    order_at(symbols, entry, name).is_le()
}

/// How many of the entries come before a name.
fn begin_of(symbols: &[Symbol], entries: &[Entry], name: &[u8]) -> usize
    requires { IsSortedBy (name_less symbols.now) entries.now }
    ensures bound { result ≤ length entries.now }
    ensures point { IsPartitionPoint (λ entry. is_before symbols.now name.now entry ≡ true)
        (λ entry. is_before symbols.now name.now entry ≡ false) entries.now result }
{
    entries.partition_point(|entry| is_before(symbols, entry, name))
}

/// How many of the entries come no later than a name.
fn end_of(symbols: &[Symbol], entries: &[Entry], name: &[u8]) -> usize
    requires { IsSortedBy (name_less symbols.now) entries.now }
    ensures bound { result ≤ length entries.now }
    ensures point { IsPartitionPoint (λ entry. is_not_after symbols.now name.now entry ≡ true)
        (λ entry. is_not_after symbols.now name.now entry ≡ false) entries.now result }
{
    entries.partition_point(|entry| is_not_after(symbols, entry, name))
}

/// The entries of a name, in order of the addresses.
pub(crate) fn entries_named<'a>(
    symbols: &[Symbol],
    entries: &'a [Entry],
    name: &[u8],
) -> &'a [Entry]
    requires { IsSortedBy (name_less symbols.now) entries.now }
    ensures named { result.now ≡ filter (is_named_at symbols.now name.now) entries.now }
    ensures rise { IsNonDecreasingBy (λ entry. entry.address) result.now }
{
    let begin = begin_of(symbols, entries, name);
    let end = end_of(symbols, entries, name);
    &entries[begin..end]
}

/// The entries at an address, of entries in order of the addresses.
pub(crate) fn entries_at(entries: &[Entry], address: u32) -> &[Entry]
    requires { IsNonDecreasingBy (λ entry. entry.address) entries.now }
    ensures { result.now ≡ filter (stands_at address) entries.now }
{
    let begin = entries.partition_point(|entry| entry.address < address);
    let end = entries.partition_point(|entry| entry.address <= address);
    &entries[begin..end]
}
