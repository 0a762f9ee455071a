//! The flags of a result.
ghost use Rattle.std.specs.Prelude.{◌≡◌, ◌^◌, ◌<◌};
ghost use Rattle.ia32_alu.specs.Numbers.{size, fits_unsigned, fits_signed, even_parity, flags_of};
ghost use Rattle.ia32_alu.specs.Arithmetic.{settled};

use crate::types::{Flags, Width};
use crate::widths::{half, is_negative, modulus, wrap};

/// The lowest byte has an even number of ones.
#[tactic(auto, unfolding(crate::specs::Numbers::even_parity))]
fn has_even_parity(value: u32) -> bool
    ensures { result ≡ even_parity value }
{
    (value % 0x100).count_ones() % 2 == 0
}

/// The flags of a result, beside a carry and an overflow.
#[tactic(auto, unfolding(crate::specs::Numbers::flags_of))]
pub(crate) fn flags(width: Width, value: u32, carry: bool, overflow: bool) -> Flags
    ensures { result ≡ flags_of (size width) value carry overflow }
{
    Flags {
        cf: carry,
        pf: has_even_parity(value),
        zf: value == 0,
        sf: is_negative(width, value),
        of: overflow,
    }
}

/// An unsigned number of this width.
#[tactic(auto, unfolding(crate::specs::Numbers::fits_unsigned))]
pub(crate) fn fits_as_unsigned(width: Width, z: i64) -> bool
    ensures { result ≡ fits_unsigned (size width) z }
{
    0 <= z && z < modulus(width)
}

/// A signed number of this width.
#[tactic(auto, unfolding(crate::specs::Numbers::fits_signed))]
pub(crate) fn fits_as_signed(width: Width, z: i64) -> bool
    ensures { result ≡ fits_signed (size width) z }
{
    -half(width) <= z && z < half(width)
}

/// The result of one computation, made on the operands as unsigned numbers and as signed ones.
#[tactic(auto, unfolding(crate::specs::Arithmetic::settled))]
pub(crate) fn settle(width: Width, unsigned: i64, signed: i64) -> (u32, Flags)
    ensures value { result ≡ settled (size width) unsigned signed }
    ensures small { result.0 < 2 ^ size width }
{
    let value = wrap(width, unsigned);
    let carry = !fits_as_unsigned(width, unsigned);
    let overflow = !fits_as_signed(width, signed);
    (value, flags(width, value, carry, overflow))
}
