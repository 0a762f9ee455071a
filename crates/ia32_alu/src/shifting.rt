//! Shifts and rotations.
ghost use Rattle.std.specs.Prelude.{◌≡◌, ◌<◌, ◌==◌, ◌*◌, ◌^◌, ◌&&◌, nat_lt};
ghost use Rattle.std.specs.Int.{bit_at};
ghost use Rattle.ia32_alu.specs.declared.types.Width.TheVariants.{Dword};
ghost use Rattle.ia32_alu.specs.declared.types.Shift.TheVariants.{Rol, Ror};
ghost use Rattle.ia32_alu.specs.Numbers.{size, unsigned, wrapped, highest, differ};
ghost use Rattle.ia32_alu.specs.Shifts.{shifted_left, shifted_right, shifted_right_signed, rotated_left};
ghost use Rattle.ia32_alu.specs.Shifts.{rotated_right, moved, shift_of};

use crate::settling::flags as flags_of_result;
use crate::types::{Flags, Shift, Width};
use crate::widths::{bit_count, cut, cut_wide, is_negative, signed_value, wrap};

/// The operand times a power of two, with nothing lost.
fn widened(width: Width, a: u32, by: u32) -> u64
    requires { by < 32 }
    ensures { result ≡ unsigned (size width) a * 2 ^ by }
{
    u64::from(cut(width, a)) << by
}

/// The bit just above the width, where some bits of the operand are left.
fn is_carried(width: Width, wide: u64, by: u32) -> bool
    ensures { result ≡ (nat_lt by (size width) && bit_at wide (size width) == 1) }
{
    let bits = bit_count(width);
    by < bits && (wide >> bits) % 2 == 1
}

/// After one place the highest bit and the carry differ.
fn is_turned(width: Width, value: u32, carry: bool, by: u32) -> bool
    ensures { result ≡ (by == 1 && differ (highest (size width) value) carry) }
{
    by == 1 && is_negative(width, value) != carry
}

/// To the left, filling with zeros.
#[tactic(auto, unfolding(crate::specs::Shifts::shifted_left))]
fn shift_left(width: Width, a: u32, by: u32) -> (u32, Flags)
    requires { by < 32 }
    ensures value { result ≡ shifted_left (size width) a by }
    ensures small { result.0 < 2 ^ size width }
{
    let wide = widened(width, a, by);
    let value = cut_wide(width, wide);
    let carry = is_carried(width, wide, by);
    let overflow = is_turned(width, value, carry, by);
    (value, flags_of_result(width, value, carry, overflow))
}

/// To the right, filling with zeros.
#[tactic(auto, unfolding(crate::specs::Shifts::shifted_right))]
fn shift_right(width: Width, a: u32, by: u32) -> (u32, Flags)
    requires some { 0 < by }
    requires few { by < 32 }
    ensures value { result ≡ shifted_right (size width) a by }
    ensures small { result.0 < 2 ^ size width }
{
    let value = cut(width, a) >> by;
    let carry = by < bit_count(width) && (cut(width, a) >> (by - 1)) % 2 == 1;
    let overflow = by == 1 && is_negative(width, a);
    (value, flags_of_result(width, value, carry, overflow))
}

/// To the right, filling with the sign bit.
#[tactic(auto, unfolding(crate::specs::Shifts::shifted_right_signed))]
fn shift_right_signed(width: Width, a: u32, by: u32) -> (u32, Flags)
    requires some { 0 < by }
    requires few { by < 32 }
    ensures value { result ≡ shifted_right_signed (size width) a by }
    ensures small { result.0 < 2 ^ size width }
{
    let number = signed_value(width, a);
    let value = wrap(width, number >> by);
    let carry = is_odd(number >> (by - 1));
    (value, flags_of_result(width, value, carry, false))
}

/// The lowest bit of an integer is set.
#[tactic(auto, unfolding(crate::specs::Numbers::wrapped))]
fn is_odd(z: i64) -> bool
    ensures { result ≡ (wrapped 1 z == 1) }
{
    z.cast_unsigned() % 2 == 1
}

/// 32 bits rotated to the left.
#[tactic(auto, unfolding(crate::specs::Shifts::rotated_left))]
fn rotate_left(a: u32, by: u32, flags: Flags) -> (u32, Flags)
    ensures value { result ≡ rotated_left a by flags }
    ensures small { result.0 < 2 ^ 32 }
{
    let value = a.rotate_left(by);
    let carry = value % 2 == 1;
    let overflow = is_turned(Width::Dword, value, carry, by);
    (
        value,
        Flags {
            cf: carry,
            of: overflow,
            ..flags
        },
    )
}

/// 32 bits rotated to the right.
#[tactic(auto, unfolding(crate::specs::Shifts::rotated_right))]
fn rotate_right(a: u32, by: u32, flags: Flags) -> (u32, Flags)
    ensures value { result ≡ rotated_right a by flags }
    ensures small { result.0 < 2 ^ 32 }
{
    let value = a.rotate_right(by);
    let carry = is_negative(Width::Dword, value);
    let overflow = by == 1 && carry != ((value >> 30) % 2 == 1);
    (
        value,
        Flags {
            cf: carry,
            of: overflow,
            ..flags
        },
    )
}

/// By a count that isn't 0.
fn move_bits(op: Shift, width: Width, a: u32, by: u32, flags: Flags) -> (u32, Flags)
    requires left { op ≡ Rol → width ≡ Dword }
    requires right { op ≡ Ror → width ≡ Dword }
    requires some { 0 < by }
    requires few { by < 32 }
    ensures value { result ≡ moved op (size width) a by flags }
    ensures small { result.0 < 2 ^ size width }
{
    match op {
        Shift::Rol => rotate_left(a, by, flags),
        Shift::Ror => rotate_right(a, by, flags),
        Shift::Shl => shift_left(width, a, by),
        Shift::Shr => shift_right(width, a, by),
        Shift::Sar => shift_right_signed(width, a, by),
    }
}

/// A shift or a rotation: its value, below 2 to the width, and the flags after it. The count's lowest five bits count;
/// where they are 0 nothing changes. Rotations are of 32 bits alone.
pub fn shift(op: Shift, width: Width, a: u32, count: u8, flags: Flags) -> (u32, Flags)
    requires left { op ≡ Rol → width ≡ Dword }
    requires right { op ≡ Ror → width ≡ Dword }
    ensures value { result ≡ shift_of op (size width) a count flags }
    ensures small { result.0 < 2 ^ size width }
{
    let by = u32::from(count) % 32;
    if by == 0 {
        (cut(width, a), flags)
    } else {
        move_bits(op, width, a, by, flags)
    }
}
