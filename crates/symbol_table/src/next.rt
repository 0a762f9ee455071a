//! The least address above an address.
ghost use Rattle.std.specs.Prelude.{◌≡◌, nat_lt};
ghost use Rattle.std.specs.List.Sorted.{IsSortedBy};
ghost use Rattle.symbol_table.specs.inside.Blocks.{InBlocks};
ghost use Rattle.symbol_table.specs.inside.Entries.{address_less};
ghost use Rattle.symbol_table.specs.inside.Next.{any_address, lesser, IsNext};

use crate::blocks::block_begin;
use crate::entries::Entry;

/// The lesser of two addresses that may be missing.
pub(crate) fn lesser(address: Option<u32>, other: Option<u32>) -> Option<u32>
    ensures { result ≡ lesser address other }
{
    match (address, other) {
        (Some(address), Some(other)) => Some(address.min(other)),
        (None, other) => other,
        (address, None) => address,
    }
}

/// Of entries in order of the addresses the least address above an address.
fn next_in_block(entries: &[Entry], address: u32) -> Option<u32>
    requires { IsSortedBy address_less entries.now }
    ensures { IsNext address (any_address entries.now) result }
{
    let after = entries.partition_point(|entry| entry.address <= address);
    if after < entries.len() {
        Some(entries[after].address)
    } else {
        None
    }
}

/// The least address above an address, of entries in blocks in order of the addresses.
pub(crate) fn next_of(entries: &[Entry], address: u32) -> Option<u32>
    requires { InBlocks address_less entries.now }
    ensures { IsNext address (any_address entries.now) result }
{
    let mut next = None;
    let mut end = entries.len();
    while end > 0 {
        let begin = block_begin(end);
        next = lesser(next_in_block(&entries[begin..end], address), next);
        end = begin;
    }
    next
}
