//! Decoding one instruction.
ghost use Rattle.std.specs.Prelude.{◌≡◌, ◌≤◌, ◌<◌, ◌&&◌, length, IfSome, IfNone};
ghost use Rattle.ia32_decode.specs.declared.types.Decoded.{Decoded};
ghost use Rattle.ia32_decode.specs.Encoding.{head_of};
ghost use Rattle.ia32_decode.specs.Table.{digit_allowed, line_of};
ghost use Rattle.ia32_decode.specs.Decode.{front_of, opcode_end_of, form_addressing, form_accepts, number_in};
ghost use Rattle.ia32_decode.specs.Decode.{value_in, fields_of, read_front, decoded_from, Spells};

use crate::addressing::{Addressing, absent_addressing, addressing_at, field, sign_extended};
use crate::heads::{Head, any_head, byte_at, dword_at, listed_head, word_at};
use crate::instructions::{Parts, build, named_operand};
use crate::layouts::{allows, shape_at, trailing_width, width};
use crate::opcode_table::{Follows, Form, Line, Shape, line_at};
use crate::types::{Decoded, Fields};

/// The bytes that count: an instruction has at most 15.
fn front(window: &[u8]) -> &[u8]
    ensures value { result.now ≡ front_of window.now }
    ensures bound { length result.now ≤ 15 }
{
    if window.len() <= 15 {
        window
    } else {
        &window[..15]
    }
}

/// The offset after the last opcode byte, where the opcode without FB ends at `end`.
fn opcode_end(form: Form, end: u32) -> u32
    requires { end ≤ 17 }
    ensures value { result ≡ opcode_end_of form end }
    ensures bound { result ≤ 18 }
{
    match form {
        Form::EndBranch => end + 1,
        _ => end,
    }
}

/// What the ModRM byte says, where the form has one.
#[inline(always)]
fn addressing(form: Form, window: &[u8], at: u32) -> Addressing
    requires { at ≤ 18 }
    ensures value { result ≡ form_addressing form window.now at }
    ensures bound { result.end ≤ 24 }
{
    match form {
        Form::ModRm | Form::Memory => addressing_at(window, at),
        _ => absent_addressing(at),
    }
}

/// Whether a form takes the prefixes, the operand, and the byte FB.
fn form_takes(form: Form, window: &[u8], head: &Head, addressing: &Addressing) -> bool
    ensures { result ≡ form_accepts form window.now head.now addressing.now }
{
    match form {
        Form::Unlisted => false,
        Form::Plain => true,
        Form::Register => true,
        Form::Branch => !head.prefixes.operand_size,
        Form::ModRm => true,
        Form::Memory => !addressing.is_register,
        Form::EndBranch => head.prefixes.repeat && byte_at(window, head.end) == 0xFB,
    }
}

/// Whether a line of a shape takes what follows its opcode.
fn takes(shape: Shape, window: &[u8], head: &Head, addressing: &Addressing) -> bool
    ensures { result ≡ (form_accepts shape.form window.now head.now addressing.now
        && digit_allowed shape.digits addressing.now.digit) }
{
    form_takes(shape.form, window, head, addressing) && allows(shape.digits, addressing.digit)
}

/// The number of so many bytes at an offset.
fn number(window: &[u8], at: u32, width: u32) -> u32
    requires { at ≤ 24 }
    ensures { result ≡ number_in window.now at width }
{
    match width {
        0 => 0,
        1 => u32::from(byte_at(window, at)),
        2 => word_at(window, at),
        4 => dword_at(window, at),
        _ => 0,
    }
}

/// The number at the end.
fn trailing_value(follows: Follows, window: &[u8], at: u32, width: u32) -> u32
    requires { at ≤ 24 }
    ensures { result ≡ value_in follows window.now at width }
{
    match follows {
        Follows::SignedByte => sign_extended(byte_at(window, at)),
        _ => number(window, at, width),
    }
}

/// The fields of an address that follows the opcode.
fn address_fields(end: u32, addressing: &Addressing, width: u32) -> Fields
    ensures { result ≡ fields_of Follows.Address end addressing.now width }
{
    Fields {
        opcode_end: end,
        disp: field(addressing.end, width),
        imm: None,
    }
}

/// The fields of a displacement and an immediate.
fn operand_fields(end: u32, addressing: &Addressing, width: u32) -> Fields
    ensures { result ≡ fields_of Follows.Nothing end addressing.now width }
{
    Fields {
        opcode_end: end,
        disp: addressing.displacement,
        imm: field(addressing.end, width),
    }
}

/// Where the parts are.
fn fields(follows: Follows, end: u32, addressing: &Addressing, width: u32) -> Fields
    ensures { result ≡ fields_of follows end addressing.now width }
{
    match follows {
        Follows::Address => address_fields(end, addressing, width),
        _ => operand_fields(end, addressing, width),
    }
}

/// The instruction of a line and a head, of at most 15 bytes. It is made last and in one place, once it is known to be
/// whole: it is large, and each function that handed it on would copy it. It is inlined at both calls: what is known of
/// the head at the first one settles many of its tests.
#[inline(always)]
#[tactic(auto, unfolding(crate::specs::Decode::read_front, crate::specs::Decode::read_line, crate::specs::Decode::read_with, crate::specs::Decode::assembled))]
fn read_line(window: &[u8], line: Line, head: &Head) -> Option<Decoded>
    requires head { head.now ≡ head_of window.now }
    requires line { line ≡ line_of head.now.escaped head.now.opcode }
    requires end { head.now.end ≤ 17 }
    ensures { result ≡ read_front window.now }
{
    let shape = shape_at(line);
    let end = opcode_end(shape.form, head.end);
    let addressing = addressing(shape.form, window, end);
    if !takes(shape, window, head, &addressing) {
        return None;
    }
    let width = width(shape.sizing, head.opcode, head.prefixes.operand_size);
    let count = trailing_width(shape.follows, width, addressing.digit);
    if (addressing.end + count) as usize > window.len() {
        return None;
    }
    let parts = Parts {
        opcode: head.opcode,
        width,
        digit: addressing.digit,
        operand: named_operand(shape.form, head.opcode, addressing.operand),
        value: trailing_value(shape.follows, window, addressing.end, count),
    };
    Some(Decoded {
        length: addressing.end + count,
        instr: build(line, &parts),
        fields: fields(shape.follows, end, &addressing, count),
        prefixes: head.prefixes,
    })
}

/// The instruction at the start of at most 15 bytes. Most begin with their opcode, which then stands in a row of the
/// table: prefixes and 0F don't.
#[inline(always)]
fn read(window: &[u8]) -> Option<Decoded>
    requires { length window.now ≤ 15 }
    ensures { result ≡ read_front window.now }
{
    let opcode = byte_at(window, 0);
    match line_at(false, opcode) {
        Line::NoLine => {
            let head = any_head(window);
            read_line(window, line_at(head.escaped, head.opcode), &head)
        }
        line => read_line(window, line, &listed_head(window, opcode)),
    }
}

/// The instruction that the first bytes of the window spell, `None` exactly where no line of the opcode table spells
/// one in at most 15 bytes. It takes no memory.
#[inline(never)]
pub fn decode(window: &[u8]) -> Option<Decoded>
    ensures exact { result ≡ decoded_from window.now }
    ensures found { IfSome result (λ decoded. Spells window.now decoded) }
    ensures none { IfNone result ((decoded : Decoded) → Spells window.now decoded → ⊥) }
    ensures some_bytes { IfSome result (λ decoded. 0 < decoded.length) }
    ensures short { IfSome result (λ decoded. decoded.length ≤ 15) }
    ensures within { IfSome result (λ decoded. decoded.length ≤ length window.now) }
{
    read(front(window))
}
