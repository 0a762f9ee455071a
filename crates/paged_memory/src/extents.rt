//! Where pieces lie: what one extent answers by itself, and finding among them.
ghost use Rattle.std.specs.Prelude.{◌≡◌, ◌+◌, ◌-◌, ◌≤◌, ◌<◌, ◌^◌, length, MatchOption, Some, IsTrue};
ghost use Rattle.std.specs.List.{AllWithin};
ghost use Rattle.image_memory.specs.Ranges.{Ascends, lies_in};
ghost use Rattle.image_memory.specs.Contents.{piece_range};
ghost use Rattle.image_memory.specs.Access.{access_fault, first_fault};
ghost use Rattle.paged_memory.specs.Pages.{extent_range, extent_of, extent_fault, begun, HoldsNone, Holds};

use crate::types::Extent;
use image_memory::{Access, Piece};
use ks_base::{Fault, Range};

impl Extent {
    /// Where a piece lies.
    pub(crate) fn of(piece: &Piece) -> Self
        requires { (piece_range piece.now).high < 2 ^ 32 }
        ensures { result ≡ extent_of piece.now }
    {
        Extent {
            kind: piece.kind,
            base: piece.base,
            length: piece.bytes.len() as u32,
        }
    }

    /// The addresses of the piece.
    pub(crate) fn range(&self) -> Range
        requires { (extent_range self.now).high < 2 ^ 32 }
        ensures { result ≡ extent_range self.now }
    {
        Range {
            low: self.base,
            high: self.base + self.length,
        }
    }

    /// Whether the piece has a byte at an address.
    pub(crate) fn holds(&self, address: u32) -> bool
        ensures { result ≡ lies_in address (extent_range self.now) }
    {
        self.base <= address && address - self.base < self.length
    }

    /// Whether the piece has so many bytes from an address on.
    #[inline(always)]
    pub(crate) fn has(&self, address: u32, count: usize) -> bool
        requires { count ≤ 4096 }
        ensures { IsTrue result → (self.now.base ≤ address) × (address + count ≤ (extent_range self.now).high) }
    {
        self.base <= address && (address - self.base) as usize + count <= self.length as usize
    }

    /// The address after the last byte.
    pub(crate) fn end(&self) -> u64
        ensures { result ≡ (extent_range self.now).high }
    {
        u64::from(self.base) + u64::from(self.length)
    }

    /// Why the piece's data can't be used that way.
    fn fault(&self, access: Access) -> Option<Fault>
        ensures { result ≡ access_fault access (Some self.now.kind) }
    {
        access.fault(Some(self.kind))
    }
}

/// The place of the extent that has an address; `None` where none has it. The first one is tried, and then it is found by
/// halving.
pub(crate) fn holder(extents: &[Extent], address: u32) -> Option<usize>
    requires { Ascends extent_range 0 extents.now }
    ensures { MatchOption result (HoldsNone extents.now address) (Holds extents.now address) }
{
    let Some(first) = extents.first() else {
        return None;
    };
    if first.holds(address) {
        return Some(0);
    }
    halved(extents, address)
}

/// The same, by halving.
#[inline(never)]
fn halved(extents: &[Extent], address: u32) -> Option<usize>
    requires { Ascends extent_range 0 extents.now }
    ensures { MatchOption result (HoldsNone extents.now address) (Holds extents.now address) }
{
    let begun = begun(extents, u64::from(address) + 1);
    if begun == 0 {
        return None;
    }
    if extents[begun - 1].holds(address) {
        Some(begun - 1)
    } else {
        None
    }
}

/// How many extents in order begin below an address.
pub(crate) fn begun(extents: &[Extent], address: u64) -> usize
    requires { Ascends extent_range 0 extents.now }
    ensures count { result ≡ begun address extents.now }
    ensures bound { result ≤ length extents.now }
    ensures below { AllWithin (λ e. e.base < address) extents.now 0 result }
    ensures above { AllWithin (λ e. address ≤ e.base) extents.now result (length extents.now) }
{
    extents.partition_point(|extent| u64::from(extent.base) < address)
}

/// Why the first bad byte of so many from an address on can't be used. The extents before `first` end at or below the
/// address, and those from it on above it.
pub(crate) fn first_fault(
    extents: &[Extent],
    first: usize,
    access: Access,
    address: u64,
    count: usize,
) -> Option<Fault>
    requires ascend { Ascends extent_range 0 extents.now }
    requires within { first ≤ length extents.now }
    requires before { AllWithin (λ e. (extent_range e).high ≤ address) extents.now 0 first }
    requires from { AllWithin (λ e. address < (extent_range e).high) extents.now first (length extents.now) }
    requires low { address < 2 ^ 32 }
    ensures { result ≡ first_fault (extent_fault access extents.now) address count }
{
    let mut next = first;
    let mut done = 0;
    while done < count {
        if next == extents.len() {
            return Some(Fault::Unmapped);
        }
        let extent = extents[next];
        if u64::from(extent.base) > address + done as u64 {
            return Some(Fault::Unmapped);
        }
        if let Some(fault) = extent.fault(access) {
            return Some(fault);
        }
        done = (extent.end() - address) as usize;
        next += 1;
    }
    None
}
