//! Operations on two operands and on one.
ghost use Rattle.std.specs.Prelude.{◌≡◌, ◌^◌, ◌-◌, bit_and, bit_or, bit_xor, ◌<◌};
ghost use Rattle.ia32_alu.specs.Numbers.{size, unsigned};
ghost use Rattle.ia32_alu.specs.Arithmetic.{bitwise, keeping_carry, binary_of, unary_of};

use crate::adding::{add, subtract};
use crate::settling::flags as flags_of_result;
use crate::types::{Binary, Flags, Unary, Width};
use crate::widths::cut;

/// The bitwise and.
#[tactic(auto, unfolding(crate::specs::Arithmetic::bitwise))]
fn and(width: Width, a: u32, b: u32) -> (u32, Flags)
    ensures value { result ≡ bitwise bit_and (size width) a b }
    ensures small { result.0 < 2 ^ size width }
{
    let value = cut(width, a) & cut(width, b);
    (value, flags_of_result(width, value, false, false))
}

/// The bitwise or.
#[tactic(auto, unfolding(crate::specs::Arithmetic::bitwise))]
fn or(width: Width, a: u32, b: u32) -> (u32, Flags)
    ensures value { result ≡ bitwise bit_or (size width) a b }
    ensures small { result.0 < 2 ^ size width }
{
    let value = cut(width, a) | cut(width, b);
    (value, flags_of_result(width, value, false, false))
}

/// The bitwise exclusive or.
#[tactic(auto, unfolding(crate::specs::Arithmetic::bitwise))]
fn exclusive_or(width: Width, a: u32, b: u32) -> (u32, Flags)
    ensures value { result ≡ bitwise bit_xor (size width) a b }
    ensures small { result.0 < 2 ^ size width }
{
    let value = cut(width, a) ^ cut(width, b);
    (value, flags_of_result(width, value, false, false))
}

/// The operand with each bit inverted.
fn complement(width: Width, a: u32) -> u32
    ensures value { result ≡ 2 ^ size width - 1 - unsigned (size width) a }
    ensures small { result < 2 ^ size width }
{
    cut(width, !a)
}

/// Each flag but the carry flag of a result.
fn with_carry_of(flags: Flags, given: (u32, Flags)) -> (u32, Flags)
    ensures { result ≡ keeping_carry flags given }
{
    let (value, changed) = given;
    (
        value,
        Flags {
            cf: flags.cf,
            ..changed
        },
    )
}

/// An operation on two operands: its value, below 2 to the width, and the flags after it. Of the operands the lowest
/// bits count. CMP and TEST give the first operand. The flags are those before, which ADC and SBB read.
pub fn binary(op: Binary, width: Width, a: u32, b: u32, flags: Flags) -> (u32, Flags)
    ensures value { result ≡ binary_of op (size width) a b flags }
    ensures small { result.0 < 2 ^ size width }
{
    match op {
        Binary::Add => add(width, a, b, false),
        Binary::Or => or(width, a, b),
        Binary::Adc => add(width, a, b, flags.cf),
        Binary::Sbb => subtract(width, a, b, flags.cf),
        Binary::And => and(width, a, b),
        Binary::Sub => subtract(width, a, b, false),
        Binary::Xor => exclusive_or(width, a, b),
        Binary::Cmp => (cut(width, a), subtract(width, a, b, false).1),
        Binary::Test => (cut(width, a), and(width, a, b).1),
    }
}

/// An operation on one operand: its value, below 2 to the width, and the flags after it.
pub fn unary(op: Unary, width: Width, a: u32, flags: Flags) -> (u32, Flags)
    ensures value { result ≡ unary_of op (size width) a flags }
    ensures small { result.0 < 2 ^ size width }
{
    match op {
        Unary::Inc => with_carry_of(flags, add(width, a, 1, false)),
        Unary::Dec => with_carry_of(flags, subtract(width, a, 1, false)),
        Unary::Not => (complement(width, a), flags),
        Unary::Neg => subtract(width, 0, a, false),
    }
}
