//! Making wide forms of instructions, and finding the fields in them that belong to references.
ghost use Rattle.std.specs.Prelude.{◌≡◌, ◌≤◌, ◌+◌, Some, length, take};
ghost use Rattle.std.specs.List.{list_any};
ghost use Rattle.ia32_decode.specs.Decode.{decoded_from};
ghost use Rattle.ia32_decode.specs.Wide.{wide_bytes, wide_fields};
ghost use Rattle.match_constants.specs.Constants.{covers};
ghost use Rattle.run_pre_match.specs.WideForms.{form_fields, field_for, offset_in, moved_references, has_four};
ghost use Rattle.run_pre_match.specs.inside.Forms.{bytes_in, fields_in, covers_in};

use crate::forms::Form;
use i386_reloc::{FIELD_LENGTH, Ref};
use ia32_decode::{
    Decoded, Field, Fields, has_short_number, instructions_have_bytes,
    others_are_their_own_wide_form, widen,
};
use match_instructions::PreInstruction;

/// The first `count` of some bytes, or all where there are no more.
pub(crate) fn front(bytes: &[u8], count: usize) -> &[u8]
    ensures { result.now ≡ take count bytes.now }
{
    &bytes[..count.min(bytes.len())]
}

impl<'w> Form<'w> {
    /// The wide form of an instruction.
    pub(crate) fn of(bytes: &'w [u8], decoded: &Decoded) -> Form<'w>
        requires { decoded_from bytes.now ≡ Some decoded.now }
        ensures bytes { bytes_in result ≡ wide_bytes bytes.now decoded.now }
        ensures fields { fields_in result ≡ wide_fields bytes.now decoded.now }
        ensures short { length (bytes_in result) ≤ 24 }
    {
        // Nothing is done here: the laws say what an instruction without short numbers is, and how long one is.
        others_are_their_own_wide_form();
        instructions_have_bytes();
        if has_short_number(bytes, decoded) {
            return Form::Made(widen(bytes, decoded));
        }
        Form::Own(&bytes[..decoded.length as usize], decoded.fields)
    }

    /// Its bytes.
    pub(crate) fn bytes(&self) -> &[u8]
        ensures { result.now ≡ bytes_in self.now }
    {
        match self {
            Form::Own(bytes, _) => bytes,
            Form::Made(wide) => front(&wide.bytes, wide.length as usize),
        }
    }

    /// Where its parts are.
    pub(crate) fn fields(&self) -> &Fields
        ensures { result.now ≡ fields_in self.now }
    {
        match self {
            Form::Own(_, fields) => fields,
            Form::Made(wide) => &wide.fields,
        }
    }
}

/// The field that belongs to a reference of an object's instruction, of fields laid out as those of the instruction.
pub(crate) fn field_for(pre: &PreInstruction<'_, '_>, r: &Ref<'_>, fields: &Fields) -> Option<Field>
    ensures { result ≡ field_for pre.now r.now fields.now }
{
    if pre.is_on_displacement(r) {
        fields.disp
    } else {
        fields.imm
    }
}

/// Where a field begins, 0 where there is none.
pub(crate) fn offset_in(field: Option<Field>) -> u32
    ensures { result ≡ offset_in field }
{
    match field {
        Some(field) => field.offset,
        None => 0,
    }
}

/// Whether a field has four bytes.
pub(crate) fn has_four(field: Option<Field>) -> bool
    ensures { result ≡ has_four field }
{
    match field {
        Some(field) => field.width == FIELD_LENGTH,
        None => false,
    }
}

/// Whether the field of a reference covers a place, in an instruction whose parts stand so.
fn covers_place(pre: &PreInstruction<'_, '_>, fields: &Fields, place: usize, r: &Ref<'_>) -> bool
    ensures { result ≡ covers_in pre.now fields.now place r.now }
{
    let begin = pre.place() as usize + offset_in(field_for(pre, r, fields)) as usize;
    begin <= place && place < begin + FIELD_LENGTH as usize
}

/// Whether that of one of its references does, which are few.
fn any_covers(pre: &PreInstruction<'_, '_>, fields: &Fields, place: usize) -> bool
    ensures { result ≡ list_any (covers_in pre.now fields.now place) pre.now.references }
{
    pre.references()
        .iter()
        .any(|r| covers_place(pre, fields, place, r))
}

/// Whether a place of the wide form of an instruction lies in the field of one of its references.
pub(crate) fn is_in_field(pre: &PreInstruction<'_, '_>, fields: &Fields, place: usize) -> bool
    requires { fields.now ≡ form_fields pre.now }
    ensures { result ≡ list_any (covers place) (moved_references pre.now) }
{
    any_covers(pre, fields, place)
}
