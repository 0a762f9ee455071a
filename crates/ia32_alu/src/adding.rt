//! Sums and differences.
ghost use Rattle.std.specs.Prelude.{◌≡◌, ◌<◌, ◌^◌};
ghost use Rattle.ia32_alu.specs.Numbers.{size};
ghost use Rattle.ia32_alu.specs.Arithmetic.{sum_of, difference_of};

use crate::settling::settle;
use crate::types::{Flags, Width};
use crate::widths::{cut, signed_value};

/// The sum of two operands and a carry.
#[tactic(auto, unfolding(crate::specs::Arithmetic::sum_of))]
pub(crate) fn add(width: Width, a: u32, b: u32, carry: bool) -> (u32, Flags)
    ensures value { result ≡ sum_of (size width) a b carry }
    ensures small { result.0 < 2 ^ size width }
{
    let unsigned = i64::from(cut(width, a)) + i64::from(cut(width, b)) + i64::from(carry);
    let signed = signed_value(width, a) + signed_value(width, b) + i64::from(carry);
    settle(width, unsigned, signed)
}

/// The difference of two operands, less a borrow.
#[tactic(auto, unfolding(crate::specs::Arithmetic::difference_of))]
pub(crate) fn subtract(width: Width, a: u32, b: u32, borrow: bool) -> (u32, Flags)
    ensures value { result ≡ difference_of (size width) a b borrow }
    ensures small { result.0 < 2 ^ size width }
{
    let unsigned = i64::from(cut(width, a)) - i64::from(cut(width, b)) - i64::from(borrow);
    let signed = signed_value(width, a) - signed_value(width, b) - i64::from(borrow);
    settle(width, unsigned, signed)
}
