//! What pieces, retired ranges and windows answer by themselves.
ghost use Rattle.std.specs.Prelude.{◌≡◌, ◌+◌, ◌-◌, ◌<◌, ◌≤◌, ◌^◌, ◌&&◌, ◌==◌};
ghost use Rattle.std.specs.Prelude.{length, drop, IsTrue};
ghost use Rattle.std.specs.Option.{option_copied};
ghost use Rattle.image_memory.specs.Ranges.{lies_in};
ghost use Rattle.image_memory.specs.Contents.{piece_range};
ghost use Rattle.image_memory.specs.Access.{access_fault, overlaid_piece, written};
ghost use Rattle.image_memory.specs.Fetch.{code_in, shown};

use crate::bytes::overlay;
use crate::types::{Access, Fence, Kind, Piece, WINDOW_LENGTH, Window};
use ks_base::{Bytes, Fault, Range};
use std::alloc::Global;
use std::mem;

impl Access {
    /// Why data of a piece of a kind, or of no piece, can't be used that way.
    pub fn fault(self, kind: Option<Kind>) -> Option<Fault>
        ensures { result ≡ access_fault self kind }
    {
        match (self, kind) {
            (_, None) => Some(Fault::Unmapped),
            (_, Some(Kind::Code)) => Some(Fault::CodeAccess),
            (Access::Write, Some(Kind::ReadOnly)) => Some(Fault::ReadOnlyWrite),
            (Access::Read, Some(Kind::ReadOnly)) => None,
            (_, Some(Kind::Writable)) => None,
        }
    }
}

impl Piece {
    /// The addresses of its bytes.
    pub fn range(&self) -> Range
        requires { (piece_range self.now).high < 2 ^ 32 }
        ensures { result ≡ piece_range self.now }
    {
        Range {
            low: self.base,
            high: self.base + self.bytes.len() as u32,
        }
    }

    /// Whether the piece has a byte at an address.
    pub(crate) fn holds(&self, address: u64) -> bool
        ensures { result ≡ lies_in address (piece_range self.now) }
    {
        let base = u64::from(self.base);
        base <= address && address - base < self.bytes.len() as u64
    }

    /// The bytes from an address of the piece to its end.
    pub(crate) fn rest_from(&self, address: u64) -> &[u8]
        requires { IsTrue (lies_in address (piece_range self.now)) }
        ensures rest { result.now ≡ drop (address - self.now.base) self.now.bytes }
        ensures full { length result.now + address ≡ (piece_range self.now).high }
        ensures some { 0 < length result.now }
    {
        let offset = (address - u64::from(self.base)) as usize;
        &self.bytes.as_slice()[offset..]
    }

    /// The bytes from an address of the piece to its end, where it is code.
    pub(crate) fn code_from(&self, pc: u32) -> Option<&[u8]>
        requires { IsTrue (lies_in pc (piece_range self.now)) }
        ensures { option_copied result ≡ code_in pc (Some self.now) }
    {
        match self.kind {
            Kind::Code => Some(self.rest_from(u64::from(pc))),
            Kind::ReadOnly => None,
            Kind::Writable => None,
        }
    }

    /// Puts bytes over those that the piece has from an address on.
    pub(crate) fn overlay(&mut self, alloc: Global, start: u64, from: &[u8])
        requires { start < 2 ^ 32 }
        ensures { self.new ≡ overlaid_piece start from.now self.old }
    {
        let mut bytes = mem::replace(&mut self.bytes, Bytes::new(alloc)).into_vec();
        overlay(bytes.as_mut_slice(), u64::from(self.base), start, from);
        self.bytes = Bytes::from_vec(bytes);
    }
}

impl Fence {
    /// Whether a jump stands at the address, at the range's low.
    pub(crate) fn is_home(&self, pc: u32) -> bool
        ensures { result ≡ (self.now.jump && (self.now.range.low == pc)) }
    {
        self.jump && self.range.low == pc
    }
}

impl Window {
    /// At most 15 bytes as a window.
    pub fn of(bytes: &[u8]) -> Self
        requires { length bytes.now ≤ 15 }
        ensures { result ≡ shown bytes.now }
    {
        if bytes.len() == WINDOW_LENGTH {
            return Window::whole(bytes);
        }
        let mut filled = [0; WINDOW_LENGTH];
        filled[..bytes.len()].copy_from_slice(bytes);
        Window {
            bytes: filled,
            length: bytes.len() as u32,
        }
    }

    /// Fifteen bytes as a window, as nearly all are: a copy of a known length is quick.
    fn whole(bytes: &[u8]) -> Self
        requires { length bytes.now ≡ 15 }
        ensures { result ≡ shown bytes.now }
    {
        let mut filled = [0; WINDOW_LENGTH];
        filled.copy_from_slice(bytes);
        Window {
            bytes: filled,
            length: WINDOW_LENGTH as u32,
        }
    }
}
