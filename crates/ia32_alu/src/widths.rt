//! How wide operands are, and their bits as a number.
ghost use Rattle.std.specs.Prelude.{◌≡◌, ◌<◌, ◌≤◌, ◌*◌, ◌^◌, ◌-◌, ℤ, ◌≤ℤ◌, ◌<ℤ◌, neg_ℤ, pos, not};
ghost use Rattle.ia32_alu.specs.Widths.{byte_count, is_dword};
ghost use Rattle.ia32_alu.specs.Numbers.{size, unsigned, highest, signed, wrapped, fits_unsigned};

use crate::types::Width;

impl Width {
    /// How many bytes an operand has.
    pub fn byte_count(self) -> u32
        ensures { result ≡ byte_count self }
    {
        match self {
            Width::Byte => 1,
            Width::Word => 2,
            Width::Dword => 4,
        }
    }

    /// Whether an operand has 32 bits.
    pub fn is_dword(self) -> bool
        ensures { result ≡ is_dword self }
    {
        match self {
            Width::Byte | Width::Word => false,
            Width::Dword => true,
        }
    }
}

/// How many bits there are.
pub(crate) fn bit_count(width: Width) -> u32
    ensures value { result ≡ size width }
    ensures bound { result ≤ 32 }
{
    match width {
        Width::Byte => 8,
        Width::Word => 16,
        Width::Dword => 32,
    }
}

/// The lowest bits, as an unsigned number.
pub(crate) fn cut(width: Width, a: u32) -> u32
    ensures value { result ≡ unsigned (size width) a }
    ensures small { result < 2 ^ size width }
{
    match width {
        Width::Byte => a % 0x100,
        Width::Word => a % 0x1_0000,
        Width::Dword => a,
    }
}

/// The lowest bits of a wide number.
pub(crate) fn cut_wide(width: Width, a: u64) -> u32
    ensures value { result ≡ unsigned (size width) a }
    ensures small { result < 2 ^ size width }
{
    match width {
        Width::Byte => (a % 0x100) as u32,
        Width::Word => (a % 0x1_0000) as u32,
        Width::Dword => (a % 0x1_0000_0000) as u32,
    }
}

/// Twice the lowest bits of a wide number.
pub(crate) fn cut_double(width: Width, a: u64) -> u64
    ensures value { result ≡ unsigned (2 * size width) a }
    ensures small { result < 2 ^ (2 * size width) }
{
    match width {
        Width::Byte => a % 0x1_0000,
        Width::Word => a % 0x1_0000_0000,
        Width::Dword => a,
    }
}

/// The first number that is too large.
pub(crate) fn modulus(width: Width) -> i64
    ensures { result ≡ pos (2 ^ size width) }
{
    match width {
        Width::Byte => 0x100,
        Width::Word => 0x1_0000,
        Width::Dword => 0x1_0000_0000,
    }
}

/// An unsigned number that is too large.
#[tactic(auto, unfolding(crate::specs::Numbers::fits_unsigned))]
pub(crate) fn is_wide(width: Width, n: u64) -> bool
    ensures { result ≡ not (fits_unsigned (size width) (pos n)) }
{
    match width {
        Width::Byte => n >= 0x100,
        Width::Word => n >= 0x1_0000,
        Width::Dword => n >= 0x1_0000_0000,
    }
}

/// The first signed number that is too large.
pub(crate) fn half(width: Width) -> i64
    ensures { result ≡ pos (2 ^ (size width - 1)) }
{
    match width {
        Width::Byte => 0x80,
        Width::Word => 0x8000,
        Width::Dword => 0x8000_0000,
    }
}

/// The highest bit.
#[tactic(auto, unfolding(crate::specs::Numbers::highest))]
pub(crate) fn is_negative(width: Width, a: u32) -> bool
    ensures { result ≡ highest (size width) a }
{
    match width {
        Width::Byte => a % 0x100 >= 0x80,
        Width::Word => a % 0x1_0000 >= 0x8000,
        Width::Dword => a >= 0x8000_0000,
    }
}

/// The lowest bits, as a signed number.
#[tactic(auto, unfolding(crate::specs::Numbers::highest, crate::specs::Numbers::signed))]
pub(crate) fn signed_value(width: Width, a: u32) -> i64
    ensures value { result ≡ signed (size width) a }
    ensures low { neg_ℤ (pos 0x8000_0000) ≤ℤ result }
    ensures high { result <ℤ pos 0x8000_0000 }
{
    match width {
        Width::Byte => i64::from(((a % 0x100) as u8).cast_signed()),
        Width::Word => i64::from(((a % 0x1_0000) as u16).cast_signed()),
        Width::Dword => i64::from(a.cast_signed()),
    }
}

/// Twice the lowest bits of a wide number, as a signed number.
#[tactic(auto, unfolding(crate::specs::Numbers::highest, crate::specs::Numbers::signed))]
pub(crate) fn signed_double(width: Width, a: u64) -> i64
    ensures { result ≡ signed (2 * size width) a }
{
    match width {
        Width::Byte => i64::from(((a % 0x1_0000) as u16).cast_signed()),
        Width::Word => i64::from(((a % 0x1_0000_0000) as u32).cast_signed()),
        Width::Dword => a.cast_signed(),
    }
}

/// The lowest bits of an integer.
#[tactic(auto, unfolding(crate::specs::Numbers::wrapped))]
pub(crate) fn wrap(width: Width, z: i64) -> u32
    ensures value { result ≡ wrapped (size width) z }
    ensures small { result < 2 ^ size width }
{
    match width {
        Width::Byte => (z.cast_unsigned() % 0x100) as u32,
        Width::Word => (z.cast_unsigned() % 0x1_0000) as u32,
        Width::Dword => (z.cast_unsigned() % 0x1_0000_0000) as u32,
    }
}

/// Twice the lowest bits of an integer.
#[tactic(auto, unfolding(crate::specs::Numbers::wrapped))]
pub(crate) fn wrap_double(width: Width, z: i64) -> u64
    ensures value { result ≡ wrapped (2 * size width) z }
    ensures small { result < 2 ^ (2 * size width) }
{
    match width {
        Width::Byte => z.cast_unsigned() % 0x1_0000,
        Width::Word => z.cast_unsigned() % 0x1_0000_0000,
        Width::Dword => z.cast_unsigned(),
    }
}
