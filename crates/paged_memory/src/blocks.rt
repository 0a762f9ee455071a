//! Blocks of bytes that pages are made of.
ghost use Rattle.std.specs.Prelude.{◌≡◌, ◌+◌, ◌<◌, ◌^◌, ◌≤◌, ◌++◌, length, take, drop, IfOk};
ghost use Rattle.image_memory.specs.Access.{overlaid};

use image_memory::overlay;
use std::alloc::{AllocError, Global};
use std::marker::Model;

/// How many bytes a page has.
pub(crate) const PAGE_LENGTH: usize = 4096;

/// The bytes of a page.
#[derive(Drop)]
pub(crate) struct Block {
    bytes: Box<[u8; PAGE_LENGTH]>,
}

impl Model for Block {
    ghost use Rattle.std.specs.Prelude.{◌≡◌, ℕ, List, length};

    ghost Value = { List ℕ };

    ghost view = { λ b. b.bytes.value };

    ghost invariant = { λ b. length b.bytes.value ≡ 4096 };
}

impl Block {
    /// A block of zeros. `Err` comes only if memory runs out.
    pub(crate) fn new(alloc: Global) -> Result<Self, AllocError>
        ensures { IfOk result (λ block. length block ≡ 4096) }
    {
        Ok(Block {
            bytes: Box::new(alloc, [0; PAGE_LENGTH])?,
        })
    }

    /// The bytes in order.
    pub(crate) fn as_slice(&self) -> &[u8]
        ensures bytes { result.now ≡ self.now }
        ensures count { length result.now ≡ 4096 }
    {
        &self.bytes[..]
    }

    /// The bytes from an offset on.
    pub(crate) fn rest_from(&self, offset: usize) -> &[u8]
        requires { offset < 4096 }
        ensures rest { result.now ≡ drop offset self.now }
        ensures count { length result.now + offset ≡ 4096 }
    {
        &self.as_slice()[offset..]
    }

    /// Puts bytes over those from an offset on.
    #[inline(always)]
    pub(crate) fn put(&mut self, offset: usize, from: &[u8])
        requires { offset + length from.now ≤ 4096 }
        ensures { self.new ≡ take offset self.old ++ (from.now ++ drop (length from.now) (drop offset self.old)) }
    {
        self.bytes[offset..offset + from.len()].copy_from_slice(from);
    }

    /// Puts bytes, whose first one has the address `start`, over those of the block, whose first one has the
    /// address `at`.
    pub(crate) fn overlay(&mut self, at: u64, start: u64, from: &[u8])
        requires at_low { at < 2 ^ 48 }
        requires start_low { start < 2 ^ 32 }
        ensures { self.new ≡ overlaid start from.now at self.old }
    {
        overlay(&mut self.bytes[..], at, start, from);
    }
}
