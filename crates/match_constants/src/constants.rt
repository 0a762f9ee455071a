//! What stands in read-only memory.
ghost use Rattle.std.specs.Prelude.{◌≡◌, ◌≤◌, ◌<◌, ◌+◌, ◌==◌, ◌||◌, length};
ghost use Rattle.std.specs.List.{list_any, AllWithin};
ghost use Rattle.std.specs.List.Sorted.{IsNonDecreasingBy};
ghost use Rattle.i386_reloc.specs.Normal.{HasFieldsInOrder};
ghost use Rattle.match_constants.specs.Constants.{constant_at, covers, lie_in_constants, stand_but_for_fields};

use i386_reloc::{FIELD_LENGTH, NormalSection, Ref};
use image_memory::{Kind, Space};

/// The byte of read-only memory at an address, `None` where none stands there.
#[tactic(auto, using(crate::proofs::Bounds::nothing_high))]
pub(crate) fn constant_at<S: Space>(space: &S, address: u64) -> Option<u8>
    ensures { result ≡ constant_at (S.contents space.now).pieces address }
{
    if address > u64::from(u32::MAX) {
        return None;
    }
    match space.look(address as u32) {
        Some((Kind::ReadOnly, byte)) => Some(byte),
        _ => None,
    }
}

/// How many references begin at or below a place.
fn begun(refs: &[Ref<'_>], place: usize) -> usize
    requires { IsNonDecreasingBy (λ r. r.offset) refs.now }
    ensures bound { result ≤ length refs.now }
    ensures below { AllWithin (λ r. r.offset ≤ place) refs.now 0 result }
    ensures above { AllWithin (λ r. place < r.offset) refs.now result (length refs.now) }
{
    refs.partition_point(|r| r.offset as usize <= place)
}

/// Whether the field of one of some references covers a place in their section.
fn is_covered(refs: &[Ref<'_>], place: usize) -> bool
    requires { IsNonDecreasingBy (λ r. r.offset) refs.now }
    ensures { result ≡ list_any (covers place) refs.now }
{
    let count = begun(refs, place);
    if count == 0 {
        return false;
    }
    place < refs[count - 1].offset as usize + FIELD_LENGTH as usize
}

/// Whether a byte is that of a section at a place, or a field covers the place.
fn is_byte_or_field(refs: &[Ref<'_>], own: u8, place: usize, byte: u8) -> bool
    requires { IsNonDecreasingBy (λ r. r.offset) refs.now }
    ensures { result ≡ (byte == own || list_any (covers place) refs.now) }
{
    byte == own || is_covered(refs, place)
}

/// How a section lies at an address.
#[derive(Clone, Copy, PartialEq, Eq)]
pub struct Lies {
    /// All of it lies in read-only memory.
    pub whole: bool,
    /// All of it lies there, and its bytes outside the fields of references are those of memory.
    pub equal: bool,
}

/// How a section lies at an address. Each of its bytes is looked at once.
pub fn lies_at<S: Space>(space: &S, section: &NormalSection<'_>, address: u32) -> Lies
    requires { HasFieldsInOrder section.now }
    ensures whole { result.whole ≡ lie_in_constants (S.contents space.now).pieces address (length section.now.bytes) }
    ensures equal { result.equal
        ≡ stand_but_for_fields (S.contents space.now).pieces address
        section.now.refs section.now.bytes (length section.now.bytes) }
{
    let bytes = section.bytes.as_slice();
    let refs = section.refs.as_slice();
    let mut equal = true;
    for i in 0..bytes.len() {
        let Some(byte) = constant_at(space, address as u64 + i as u64) else {
            return Lies {
                whole: false,
                equal: false,
            };
        };
        equal &= is_byte_or_field(refs, bytes[i], i, byte);
    }
    Lies { whole: true, equal }
}
