//! The texts of a section.
ghost use Rattle.std.specs.Prelude.{◌≡◌, ◌<◌, ◌≤◌, ◌^◌, ◌-◌, nat_lt, length};
ghost use Rattle.std.specs.Prelude.{take, drop, true, false, IfOk, MatchOption};
ghost use Rattle.std.specs.List.Sorted.{IsNonDecreasingBy, IsPartitionPoint};
ghost use Rattle.elf32_object.specs.Fields.{ends_in};
ghost use Rattle.i386_reloc.specs.References.{text_through};
ghost use Rattle.i386_reloc.specs.inside.Zeros.{zeros_of};

use std::alloc::{AllocError, Global};
use std::marker::Model;

/// The bytes of a section of texts, and where zeros stand among them.
#[derive(Drop)]
pub struct Texts<'a> {
    bytes: &'a [u8],
    zeros: Vec<u32>,
}

impl<'a> Model for Texts<'a> {
    ghost use Rattle.std.specs.Prelude.{◌≡◌, List, ℕ};
    ghost use Rattle.i386_reloc.specs.inside.Zeros.{zeros_of};

    ghost Value = { List ℕ };

    ghost view = { λ t. t.bytes.now };

    ghost invariant = { λ t. t.zeros.items ≡ zeros_of t.bytes.now };
}

impl<'a> Texts<'a> {
    /// The texts of these bytes.
    pub fn new(alloc: Global, bytes: &'a [u8]) -> Result<Texts<'a>, AllocError>
        requires { length bytes.now < 2 ^ 32 }
        ensures { IfOk result (λ texts. texts ≡ bytes.now) }
    {
        Ok(Texts {
            bytes,
            zeros: zeros(alloc, bytes)?,
        })
    }

    /// Whether a zero ends the text that begins at an offset. The time is logarithmic in the number of zeros.
    pub fn ends(&self, offset: u32) -> bool
        ensures { result ≡ ends_in self.now offset }
    {
        self.end(offset).is_some()
    }

    /// The text that begins at an offset, its zero with it, at the same cost.
    pub fn text(&self, offset: u32) -> &'a [u8]
        requires { ends_in self.now offset ≡ true }
        ensures { result.now ≡ text_through self.now offset }
    {
        match self.end(offset) {
            Some(end) => &self.bytes[offset as usize..end],
            None => unreachable!(),
        }
    }

    /// Where the text that begins at an offset ends, after its zero.
    fn end(&self, offset: u32) -> Option<usize>
        ensures { MatchOption result (ends_in self.now offset ≡ false)
            (λ end. (offset ≤ end) × (end ≤ length self.now) × (ends_in self.now offset ≡ true)
            × (take (end - offset) (drop offset self.now) ≡ text_through self.now offset)) }
    {
        let place = first_from(&self.zeros, offset);
        if place < self.zeros.len() {
            Some(self.zeros[place] as usize + 1)
        } else {
            None
        }
    }
}

/// The index of the first place that isn't before an offset, or the length.
fn first_from(places: &[u32], offset: u32) -> usize
    requires { IsNonDecreasingBy (λ x. x) places.now }
    ensures { IsPartitionPoint (λ y. nat_lt y offset ≡ true) (λ y. nat_lt y offset ≡ false) places.now result }
{
    places.partition_point(|place| *place < offset)
}

/// The places of the zeros.
#[tactic(auto, using(elf32_object::specs::laws::BelowLaws::all_below_more), unfolding(crate::specs::inside::Zeros::zeros_of))]
fn zeros(alloc: Global, bytes: &[u8]) -> Result<Vec<u32>, AllocError>
    requires { length bytes.now < 2 ^ 32 }
    ensures { IfOk result (λ zeros. zeros.items ≡ zeros_of bytes.now) }
{
    let mut zeros = Vec::new(alloc);
    for (i, byte) in bytes.iter().enumerate() {
        if *byte == 0 {
            zeros.push(i as u32)?;
        }
    }
    Ok(zeros)
}
