//! The ModRM byte with its SIB byte and displacement, in 32-bit addressing.
ghost use Rattle.std.specs.Prelude.{◌≡◌, ◌≤◌, ◌+◌, ◌/◌};
ghost use Rattle.ia32_decode.specs.Encoding.{byte_in, extended, scale_of, has_sib, sib_length};
ghost use Rattle.ia32_decode.specs.Encoding.{base_number, lacks_base, base_of, index_of, displacement_width};
ghost use Rattle.ia32_decode.specs.Encoding.{displacement_of, field_of, operand_of, addressing_with, addressing_of};
ghost use Rattle.ia32_decode.specs.Encoding.{no_addressing};

use crate::heads::{byte_at, dword_at};
use crate::types::{Field, Index, Memory, Operand, Register, Scale};

/// What the scale bits multiply by.
static SCALES: [Scale; 4] = [Scale::One, Scale::Two, Scale::Four, Scale::Eight];

/// What a ModRM byte says, with what belongs to it.
#[derive(Clone, Copy)]
pub(crate) struct Addressing {
    /// mod is 11.
    pub is_register: bool,
    /// The middle field: a digit or a register's number.
    pub digit: u8,
    /// What mod and rm name.
    pub operand: Operand,
    /// Where the displacement is.
    pub displacement: Option<Field>,
    /// The offset after all of it.
    pub end: u32,
}

/// A byte, sign-extended to 32 bits.
pub(crate) fn sign_extended(byte: u8) -> u32
    ensures { result ≡ extended byte }
{
    if byte < 0x80 {
        u32::from(byte)
    } else {
        u32::from(byte) + 0xFFFF_FF00
    }
}

/// What the highest two bits of a SIB byte multiply the index by.
#[tactic(auto, unfolding(crate::specs::Encoding::scale_of))]
fn scale(sib: u8) -> Scale
    ensures { result ≡ scale_of sib }
{
    SCALES[(sib / 64) as usize]
}

/// Whether a ModRM byte takes a SIB byte.
fn takes_sib(modrm: u8) -> bool
    ensures { result ≡ has_sib modrm }
{
    modrm / 64 != 3 && modrm % 8 == 4
}

/// How many SIB bytes there are.
fn sib_bytes(modrm: u8) -> u32
    ensures value { result ≡ sib_length modrm }
    ensures bound { result ≤ 1 }
{
    if takes_sib(modrm) { 1 } else { 0 }
}

/// The number of the base register.
fn base_field(modrm: u8, sib: u8) -> u8
    ensures { result ≡ base_number modrm sib }
{
    if takes_sib(modrm) { sib % 8 } else { modrm % 8 }
}

/// Whether there is no base.
fn is_baseless(modrm: u8, sib: u8) -> bool
    ensures { result ≡ lacks_base modrm sib }
{
    modrm / 64 == 0 && base_field(modrm, sib) == 5
}

/// The base register.
fn base(modrm: u8, sib: u8) -> Option<Register>
    ensures { result ≡ base_of modrm sib }
{
    if is_baseless(modrm, sib) {
        None
    } else {
        Some(Register::from_number(base_field(modrm, sib)))
    }
}

/// The index.
fn index(modrm: u8, sib: u8) -> Index
    ensures { result ≡ index_of modrm sib }
{
    if takes_sib(modrm) && sib / 8 % 8 != 4 {
        Index {
            register: Register::from_number(sib / 8 % 8),
            scale: scale(sib),
        }
    } else {
        Index {
            register: Register::Eax,
            scale: Scale::Zero,
        }
    }
}

/// How many bytes the displacement has.
fn displacement_bytes(modrm: u8, sib: u8) -> u32
    ensures value { result ≡ displacement_width modrm sib }
    ensures bound { result ≤ 4 }
{
    if modrm / 64 == 1 {
        1
    } else if modrm / 64 == 2 || is_baseless(modrm, sib) {
        4
    } else {
        0
    }
}

/// A displacement of so many bytes.
fn displacement(window: &[u8], at: u32, width: u32) -> u32
    requires { at ≤ 90 }
    ensures { result ≡ displacement_of window.now at width }
{
    if width == 1 {
        sign_extended(byte_at(window, at))
    } else if width == 4 {
        dword_at(window, at)
    } else {
        0
    }
}

/// The bytes of a number, none where it has none.
pub(crate) fn field(at: u32, width: u32) -> Option<Field>
    ensures { result ≡ field_of at width }
{
    if width == 0 {
        None
    } else {
        Some(Field { offset: at, width })
    }
}

/// What mod and rm name.
fn operand(modrm: u8, memory: Memory) -> Operand
    ensures { result ≡ operand_of modrm memory }
{
    if modrm / 64 == 3 {
        Operand::Register(Register::from_number(modrm % 8))
    } else {
        Operand::Memory(memory)
    }
}

/// What a ModRM byte says, with the byte after it, and a displacement at an offset.
#[inline(always)]
#[tactic(auto, unfolding(crate::specs::Encoding::addressing_with))]
fn addressing_parts(window: &[u8], modrm: u8, sib: u8, at: u32) -> Addressing
    requires { at ≤ 30 }
    ensures value { result ≡ addressing_with window.now modrm sib at }
    ensures bound { result.end ≤ at + 4 }
{
    let width = displacement_bytes(modrm, sib);
    let memory = Memory {
        base: base(modrm, sib),
        index: index(modrm, sib),
        displacement: displacement(window, at, width),
    };
    Addressing {
        is_register: modrm / 64 == 3,
        digit: modrm / 8 % 8,
        operand: operand(modrm, memory),
        displacement: field(at, width),
        end: at + width,
    }
}

/// What a ModRM byte says that names a register. It is what the general way would find, which asks in vain for a SIB
/// byte and a displacement.
#[tactic(auto, unfolding(crate::specs::Encoding::addressing_with))]
fn register_parts(window: &[u8], modrm: u8, at: u32) -> Addressing
    requires { modrm / 64 ≡ 3 }
    ensures value { result ≡ addressing_with window.now modrm (byte_in window.now at) at }
    ensures bound { result.end ≡ at }
{
    Addressing {
        is_register: true,
        digit: modrm / 8 % 8,
        operand: Operand::Register(Register::from_number(modrm % 8)),
        displacement: None,
        end: at,
    }
}

/// The ModRM byte at an offset, with its SIB byte and displacement.
#[inline(always)]
pub(crate) fn addressing_at(window: &[u8], at: u32) -> Addressing
    requires { at ≤ 20 }
    ensures value { result ≡ addressing_of window.now at }
    ensures bound { result.end ≤ at + 6 }
{
    let modrm = byte_at(window, at);
    if modrm / 64 == 3 {
        register_parts(window, modrm, at + 1)
    } else {
        let sib = byte_at(window, at + 1);
        addressing_parts(window, modrm, sib, at + 1 + sib_bytes(modrm))
    }
}

/// The addressing of an instruction without a ModRM byte.
#[tactic(auto, unfolding(crate::specs::Encoding::no_addressing))]
pub(crate) fn absent_addressing(at: u32) -> Addressing
    ensures value { result ≡ no_addressing at }
    ensures bound { result.end ≡ at }
{
    Addressing {
        is_register: true,
        digit: 0,
        operand: Operand::Register(Register::Eax),
        displacement: None,
        end: at,
    }
}
