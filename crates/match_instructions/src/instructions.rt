//! The instructions of a code section of an object, each with the references that begin in it.
ghost use Rattle.std.specs.Prelude.{◌≡◌, ◌≤◌, ◌<◌, ◌+◌, ◌-◌, ◌^◌, ℕ, Some, take, drop, length};
ghost use Rattle.std.specs.List.{filter, list_any, slice_get};
ghost use Rattle.i386_reloc.specs.declared.types.Ref.{Ref};
ghost use Rattle.std.specs.List.Sorted.{IsNonDecreasingBy};
ghost use Rattle.i386_reloc.specs.Normal.{HasFieldsInOrder};
ghost use Rattle.ia32_decode.specs.Decode.{decoded_from};
ghost use Rattle.match_instructions.specs.Instructions.{after, displacement_in, direct_branch, target_of};
ghost use Rattle.match_instructions.specs.PreCode.{code_bytes, is_field_at, stands_on_field, is_kept_with};
ghost use Rattle.match_instructions.specs.PreCode.{begins_from, begins_before, references_in};
ghost use Rattle.match_instructions.specs.PreCode.{pre_instruction_at};
ghost use Rattle.match_instructions.specs.PreCode.{fits_form, may_stand, may_all_stand};

use i386_reloc::{Form, NormalSection, Ref};
use ia32_decode::{
    Branch, Decoded, Field, decode, decoding_rests_on_its_bytes, instructions_have_bytes,
    is_padding,
};
use std::marker::Model;

/// An instruction of a code section of an object. A clause sees it with the references whose fields begin in it.
#[derive(Drop)]
pub struct PreInstruction<'s, 'a> {
    place: u32,
    decoded: Decoded,
    bytes: &'s [u8],
    references: &'s [Ref<'a>],
    kept: bool,
}

impl<'s, 'a> Model for PreInstruction<'s, 'a> {
    ghost use Rattle.std.specs.Prelude.{◌≡◌, ◌<◌, ◌+◌, ◌^◌, Some};
    ghost use Rattle.ia32_decode.specs.Decode.{decoded_from};
    ghost use Rattle.match_instructions.specs.Instructions.{Instruction};

    ghost Value = { Instruction };

    ghost view = { λ i. record {
      place = i.place;
      decoded = i.decoded;
      bytes = i.bytes.now;
      references = i.references.now;
      kept = i.kept;
    } };

    ghost invariant = { λ i. (i.place + i.decoded.length < 2 ^ 32) × (decoded_from i.bytes.now ≡ Some i.decoded) };
}

impl<'s, 'a> PreInstruction<'s, 'a> {
    /// Its offset in the section.
    pub fn place(&self) -> u32
        ensures { result ≡ self.now.place }
    {
        self.place
    }

    /// What its bytes spell.
    pub fn decoded(&self) -> &Decoded
        ensures { result.now ≡ self.now.decoded }
    {
        &self.decoded
    }

    /// Its bytes, with zeros in the fields of references.
    pub fn bytes(&self) -> &'s [u8]
        ensures bytes { result.now ≡ self.now.bytes }
        ensures spelt { decoded_from result.now ≡ Some self.now.decoded }
    {
        self.bytes
    }

    /// The references whose fields begin in it, by offset.
    pub fn references(&self) -> &'s [Ref<'a>]
        ensures { result.now ≡ self.now.references }
    {
        self.references
    }

    /// Whether it is kept: it isn't padding, or a reference stands on a field of it.
    pub(crate) fn is_kept(&self) -> bool
        ensures { result ≡ self.now.kept }
    {
        self.kept
    }

    /// The offset after it.
    pub(crate) fn after(&self) -> u32
        ensures { result ≡ after self.now }
    {
        self.place + self.decoded.length
    }

    /// The direct branch that it is, `None` where it is none.
    pub fn branch(&self) -> Option<Branch>
        ensures { result ≡ direct_branch self.now }
    {
        self.decoded.branch()
    }

    /// Where it goes, if it is a direct branch without a reference: an offset in the section, modulo 2 to the 32nd.
    pub fn target(&self) -> u32
        ensures { result ≡ target_of self.now }
    {
        self.after().wrapping_add(displacement(self.branch()))
    }

    /// Whether a reference stands on its displacement, or on the address that follows an opcode A0 to A3.
    pub fn is_on_displacement(&self, r: &Ref<'_>) -> bool
        ensures { result ≡ is_field_at self.now.place r.now.offset self.now.decoded.fields.disp }
    {
        is_field_at(self.place, r.offset, self.decoded.fields.disp)
    }

    /// Whether each of its references stands on a field on which it may.
    pub(crate) fn may_all_stand(&self) -> bool
        ensures { result ≡ may_all_stand self.now }
    {
        self.references.iter().all(|r| self.may_stand(r))
    }

    fn may_stand(&self, r: &Ref<'_>) -> bool
        ensures { result ≡ may_stand self.now r.now }
    {
        stands_on_field(self.place, &self.decoded, r) && fits_form(r.form, self.branch())
    }
}

/// How far a direct branch goes from the place after it, 0 where there is none.
pub(crate) fn displacement(branch: Option<Branch>) -> u32
    ensures { result ≡ displacement_in branch }
{
    match branch {
        Some(branch) => branch.displacement,
        None => 0,
    }
}

/// Whether a reference of a form fits an instruction that is this direct branch, or none.
fn fits_form(form: Form, branch: Option<Branch>) -> bool
    ensures { result ≡ fits_form form branch }
{
    match form {
        Form::Relative => branch.is_some(),
        Form::Absolute => branch.is_none(),
    }
}

/// Whether a field is the four bytes from `at` on, in an instruction that begins at `begin`.
fn is_field_at(begin: u32, at: u32, field: Option<Field>) -> bool
    ensures { result ≡ is_field_at begin at field }
{
    match field {
        Some(field) => {
            u64::from(begin) + u64::from(field.offset) == u64::from(at) && field.width == 4
        }
        None => false,
    }
}

/// Whether a reference stands on a displacement, an address or an immediate of four bytes.
fn stands_on_field(offset: u32, decoded: &Decoded, r: &Ref<'_>) -> bool
    ensures { result ≡ stands_on_field offset decoded.now r.now }
{
    is_field_at(offset, r.offset, decoded.fields.disp)
        || is_field_at(offset, r.offset, decoded.fields.imm)
}

/// Whether one of the references stands on a displacement, an address or an immediate of four bytes.
fn has_field(offset: u32, decoded: &Decoded, references: &[Ref<'_>]) -> bool
    ensures { result ≡ list_any (stands_on_field offset decoded.now) references.now }
{
    references
        .iter()
        .any(|r| stands_on_field(offset, decoded, r))
}

/// Whether an instruction is kept.
fn is_kept(offset: u32, decoded: &Decoded, references: &[Ref<'_>]) -> bool
    ensures { result ≡ is_kept_with offset decoded.now references.now }
{
    !is_padding(decoded) || has_field(offset, decoded, references)
}

/// How many references stand before an offset.
fn count_before(references: &[Ref<'_>], offset: u32) -> usize
    requires { IsNonDecreasingBy (λ r. r.offset) references.now }
    ensures within { result ≤ length references.now }
    ensures before { take result references.now ≡ filter (begins_before offset) references.now }
    ensures from { drop result references.now ≡ filter (begins_from offset) references.now }
{
    references.partition_point(|r| r.offset < offset)
}

/// The references at an offset and after it.
fn references_from<'s, 'a>(references: &'s [Ref<'a>], offset: u32) -> &'s [Ref<'a>]
    requires { IsNonDecreasingBy (λ r. r.offset) references.now }
    ensures which { result.now ≡ filter (begins_from offset) references.now }
    ensures order { IsNonDecreasingBy (λ r. r.offset) result.now }
{
    &references[count_before(references, offset)..]
}

/// The references before an offset.
fn references_before<'s, 'a>(references: &'s [Ref<'a>], offset: u32) -> &'s [Ref<'a>]
    requires { IsNonDecreasingBy (λ r. r.offset) references.now }
    ensures { result.now ≡ filter (begins_before offset) references.now }
{
    &references[..count_before(references, offset)]
}

/// The references whose fields begin in `length` bytes from an offset on.
#[tactic(auto, using(crate::proofs::Splits::in_both))]
fn references_in<'s, 'a>(references: &'s [Ref<'a>], offset: u32, length: u32) -> &'s [Ref<'a>]
    requires order { IsNonDecreasingBy (λ r. r.offset) references.now }
    requires low { offset + length < 2 ^ 32 }
    ensures { result.now ≡ references_in references.now offset length }
{
    references_before(references_from(references, offset), offset + length)
}

/// As many of the section's bytes as its size.
fn code_bytes<'s>(section: &'s NormalSection<'_>) -> &'s [u8]
    ensures which { result.now ≡ code_bytes section.now }
    ensures small { length result.now < 2 ^ 32 }
{
    let bytes = section.bytes.as_slice();
    &bytes[..bytes.len().min(section.size as usize)]
}

/// The bytes from an offset on, none where it lies past the end.
fn from(bytes: &[u8], offset: usize) -> &[u8]
    ensures which { result.now ≡ drop offset bytes.now }
    ensures size { length result.now ≡ length bytes.now - offset }
{
    &bytes[offset.min(bytes.len())..]
}

/// The bytes of an instruction, of some that begin with it.
pub(crate) fn own_bytes<'w>(window: &'w [u8], decoded: &Decoded) -> &'w [u8]
    requires { decoded_from window.now ≡ Some decoded.now }
    ensures which { result.now ≡ take decoded.now.length window.now }
    ensures spelt { decoded_from result.now ≡ Some decoded.now }
{
    // Nothing is done here: the laws say that the instruction rests on these bytes alone, and that all of them are there.
    decoding_rests_on_its_bytes();
    instructions_have_bytes();
    &window[..decoded.length as usize]
}

/// The instruction of a section at an offset, `None` exactly where the bytes of its code from there on spell none.
#[tactic(auto, unfolding(crate::specs::PreCode::pre_instruction_at))]
pub fn pre_instruction_at<'s, 'a>(
    section: &'s NormalSection<'a>,
    offset: u32,
) -> Option<PreInstruction<'s, 'a>>
    requires { HasFieldsInOrder section.now }
    ensures at { result ≡ pre_instruction_at section.now offset }
{
    let rest = from(code_bytes(section), offset as usize);
    let decoded = decode(rest)?;
    let references = references_in(section.refs.as_slice(), offset, decoded.length);
    let kept = is_kept(offset, &decoded, references);
    Some(PreInstruction {
        place: offset,
        bytes: own_bytes(rest, &decoded),
        decoded,
        references,
        kept,
    })
}

/// Which reference of a section is the first of those that begin in one of its instructions, counted from 0. The others
/// of the instruction follow it.
pub fn first_reference(section: &NormalSection<'_>, instruction: &PreInstruction<'_, '_>) -> usize
    requires order { HasFieldsInOrder section.now }
    requires at { pre_instruction_at section.now instruction.now.place ≡ Some instruction.now }
    ensures there { (j : ℕ) (r : Ref) → slice_get instruction.now.references j ≡ Some r
        → slice_get section.now.refs (result + j) ≡ Some r }
    ensures few { result + length instruction.now.references < 2 ^ 64 }
{
    let references = section.refs.as_slice();
    let first = count_before(references, instruction.place());
    // Of those from there on, the instruction's are the first.
    let _count = count_before(&references[first..], instruction.after());
    first
}
