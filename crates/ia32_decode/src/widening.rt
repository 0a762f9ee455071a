//! The wide form of an instruction.
ghost use Rattle.std.specs.Prelude.{◌≡◌, ◌≤◌, ◌<◌, ◌+◌, ◌++◌, [], false, Some, IfSome, length, take, drop, set};
ghost use Rattle.std.specs.Prelude.{◌-◌, ◌%◌};
ghost use Rattle.ia32_decode.specs.Decode.{decoded_from};
ghost use Rattle.ia32_decode.specs.Wide.{sign_extended, widened, wide_opcode, has_wide_opcode, wide_head};
ghost use Rattle.ia32_decode.specs.Wide.{begin_of, fields_begin, is_short, with_wide_mode, wide_addressing, field_bytes};
ghost use Rattle.ia32_decode.specs.Wide.{wide_displacement, has_short_number, wide_bytes, padded};
ghost use Rattle.ia32_decode.specs.Wide.{wide_of};

use crate::addressing::field;
use crate::heads::byte_at;
use crate::layouts::full_width;
use crate::types::{Decoded, Field, Fields, Wide};
use std::marker::Model;

/// The bytes of a wide form as far as they are put together.
#[derive(Drop)]
struct Form {
    bytes: [u8; 24],
    length: u32,
}

impl Model for Form {
    ghost use Rattle.std.specs.Prelude.{ℕ, List, take, ◌≡◌, ◌≤◌};
    ghost use Rattle.ia32_decode.specs.Wide.{padded};

    ghost Value = { List ℕ };

    ghost view = { λ f. take f.length f.bytes };

    ghost invariant = { λ f. (f.length ≤ 24) × (f.bytes ≡ padded (take f.length f.bytes)) };
}

impl Form {
    /// No byte yet.
    fn new() -> Self
        ensures { result ≡ [] }
    {
        Form {
            bytes: [0; 24],
            length: 0,
        }
    }

    /// How many bytes there are.
    fn len(&self) -> u32
        ensures value { result ≡ length self.now }
        ensures bound { result ≤ 24 }
    {
        self.length
    }

    /// The bytes, with zeros behind them.
    fn padded(&self) -> [u8; 24]
        ensures { result ≡ padded self.now }
    {
        self.bytes
    }

    /// Puts bytes behind those that are there.
    fn push(&mut self, part: &[u8])
        requires { length self.old + length part.now ≤ 24 }
        ensures { self.new ≡ self.old ++ part.now }
    {
        let at = self.length as usize;
        self.bytes[at..at + part.len()].copy_from_slice(part);
        self.length += part.len() as u32;
    }

    /// Puts another byte in the place of one that is there.
    fn set(&mut self, at: u32, byte: u8)
        requires { at < length self.old }
        ensures { self.new ≡ set self.old at byte }
    {
        self.bytes[at as usize] = byte;
    }

    /// Puts a number behind what is there: one of a byte sign-extended to so many bytes, any other as it stands.
    fn push_number(&mut self, number: &[u8], count: u32)
        requires some { 0 < count }
        requires few { count ≤ 4 }
        requires number { length number.now ≤ 4 }
        requires room { length self.old + 4 ≤ 24 }
        ensures { self.new ≡ self.old ++ widened count number.now }
    {
        match number {
            [byte] => self.push(&spread(*byte)[..count as usize]),
            _ => self.push(number),
        }
    }
}

/// A byte, sign-extended to four.
fn spread(byte: u8) -> [u8; 4]
    ensures { result ≡ sign_extended 4 byte }
{
    if byte < 0x80 {
        [byte, 0, 0, 0]
    } else {
        [byte, 0xFF, 0xFF, 0xFF]
    }
}

/// Whether a field has one byte.
fn is_short(field: Option<Field>) -> bool
    ensures { result ≡ is_short field }
{
    match field {
        Some(field) => field.width == 1,
        None => false,
    }
}

/// The first bytes of a window.
fn first_bytes(window: &[u8], count: u32) -> &[u8]
    requires { count ≤ length window.now }
    ensures value { result.now ≡ take count window.now }
    ensures length { length result.now ≡ count }
{
    &window[..count as usize]
}

/// The bytes of a window from one offset to another.
fn bytes_between(window: &[u8], from: u32, to: u32) -> &[u8]
    requires order { from ≤ to }
    requires within { to ≤ length window.now }
    ensures value { result.now ≡ take (to - from) (drop from window.now) }
    ensures length { length result.now ≡ to - from }
{
    &window[from as usize..to as usize]
}

/// The bytes of a field, none where there is no field.
fn field_bytes(window: &[u8], field: Option<Field>) -> &[u8]
    requires { IfSome field (λ f. f.offset + f.width ≤ length window.now) }
    ensures { result.now ≡ field_bytes window.now field }
{
    match field {
        Some(field) => {
            &window[field.offset as usize..field.offset as usize + field.width as usize]
        }
        None => &window[..0],
    }
}

/// Where a field begins, or else what follows.
fn begin(field: Option<Field>, next: u32) -> u32
    ensures { result ≡ begin_of field next }
{
    match field {
        Some(field) => field.offset,
        None => next,
    }
}

/// Where the first field of an instruction begins; where it has none, where it ends.
fn fields_begin(decoded: &Decoded) -> u32
    ensures { result ≡ fields_begin decoded.now }
{
    begin(
        decoded.fields.disp,
        begin(decoded.fields.imm, decoded.length),
    )
}

/// The opcode with an immediate of full width in place of one with a byte; every other opcode is itself.
fn wide_opcode(opcode: u8) -> u8
    ensures { result ≡ wide_opcode opcode }
{
    match opcode {
        0x83 => 0x81,
        0x6A => 0x68,
        _ => opcode,
    }
}

/// Whether an opcode has an immediate of one byte, where another has one of full width.
fn has_wide_opcode(opcode: u8) -> bool
    ensures { result ≡ has_wide_opcode opcode }
{
    opcode == 0x83 || opcode == 0x6A
}

/// Whether an instruction has a number of one byte that its wide form has at full width: its opcode is 83 or 6A, or it
/// has a displacement of one byte. Every other instruction is its own wide form. It takes no memory.
pub fn has_short_number(window: &[u8], decoded: &Decoded) -> bool
    ensures { result ≡ has_short_number window.now decoded.now }
{
    has_wide_opcode(byte_at(window, decoded.prefixes.count)) || is_short(decoded.fields.disp)
}

impl Form {
    /// The prefixes and the opcode.
    fn push_head(&mut self, window: &[u8], decoded: &Decoded)
        requires decoded { decoded_from window.now ≡ Some decoded.now }
        requires empty { self.old ≡ [] }
        ensures { self.new ≡ wide_head window.now decoded.now }
    {
        let at = decoded.prefixes.count;
        self.push(first_bytes(window, decoded.fields.opcode_end));
        self.set(at, wide_opcode(byte_at(window, at)));
    }

    /// The ModRM and SIB bytes, if there are any.
    fn push_addressing(&mut self, window: &[u8], decoded: &Decoded)
        requires decoded { decoded_from window.now ≡ Some decoded.now }
        requires head { self.old ≡ wide_head window.now decoded.now }
        ensures { self.new ≡ wide_head window.now decoded.now ++ wide_addressing window.now decoded.now }
    {
        let at = decoded.fields.opcode_end;
        self.push(bytes_between(window, at, fields_begin(decoded)));
        if is_short(decoded.fields.disp) {
            self.set(at, 0x80 + byte_at(window, at) % 0x40);
        }
    }

    /// The displacement, if there is one.
    fn push_displacement(&mut self, window: &[u8], decoded: &Decoded)
        requires decoded { decoded_from window.now ≡ Some decoded.now }
        requires before { self.old ≡ wide_head window.now decoded.now ++ wide_addressing window.now decoded.now }
        ensures { self.new ≡ wide_head window.now decoded.now ++ wide_addressing window.now decoded.now
            ++ wide_displacement window.now decoded.now }
    {
        self.push_number(field_bytes(window, decoded.fields.disp), 4);
    }

    /// The immediate, if there is one.
    fn push_immediate(&mut self, window: &[u8], decoded: &Decoded)
        requires decoded { decoded_from window.now ≡ Some decoded.now }
        requires before { self.old ≡ wide_head window.now decoded.now ++ wide_addressing window.now decoded.now
            ++ wide_displacement window.now decoded.now }
        ensures { self.new ≡ wide_bytes window.now decoded.now }
    {
        let number = field_bytes(window, decoded.fields.imm);
        if has_wide_opcode(byte_at(window, decoded.prefixes.count)) {
            self.push_number(
                number,
                full_width(decoded.prefixes.operand_size).byte_count(),
            );
        } else {
            self.push(number);
        }
    }
}

/// The wide form of the instruction that was decoded from a window: the same bytes with opcode 83 replaced by 81 and 6A
/// by 68, the immediate sign-extended to four bytes, or to two with prefix 66, and with mod 01 replaced by mod 10, the
/// displacement sign-extended to four bytes (Intel SDM volume 2, section 2.1.5 and appendix A). It takes no memory.
pub fn widen(window: &[u8], decoded: &Decoded) -> Wide
    requires { decoded_from window.now ≡ Some decoded.now }
    ensures { result ≡ wide_of window.now decoded.now }
{
    if !has_short_number(window, decoded) {
        return unchanged(window, decoded);
    }
    let mut form = Form::new();
    form.push_head(window, decoded);
    form.push_addressing(window, decoded);
    let displacement = form.len();
    form.push_displacement(window, decoded);
    let immediate = form.len();
    form.push_immediate(window, decoded);
    let length = form.len();
    Wide {
        bytes: form.padded(),
        length,
        fields: Fields {
            opcode_end: decoded.fields.opcode_end,
            disp: field(displacement, immediate - displacement),
            imm: field(immediate, length - immediate),
        },
    }
}

/// The wide form of an instruction that has no short number: the instruction itself.
fn unchanged(window: &[u8], decoded: &Decoded) -> Wide
    requires decoded { decoded_from window.now ≡ Some decoded.now }
    requires none { has_short_number window.now decoded.now ≡ false }
    ensures { result ≡ wide_of window.now decoded.now }
{
    let mut form = Form::new();
    form.push(first_bytes(window, decoded.length));
    Wide {
        bytes: form.padded(),
        length: decoded.length,
        fields: decoded.fields,
    }
}
