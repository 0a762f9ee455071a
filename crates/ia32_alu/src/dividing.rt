//! Quotients.
ghost use Rattle.std.specs.Prelude.{◌≡◌, ◌≢◌, true, false, pos, ◌<◌, ◌^◌, IfSome};
ghost use Rattle.ia32_alu.specs.Numbers.{size, signed};
ghost use Rattle.ia32_alu.specs.Products.{divided, quotient_of};

use crate::settling::fits_as_signed;
use crate::types::Width;
use crate::widths::{cut, cut_double, cut_wide, is_wide, signed_double, signed_value, wrap};

/// The quotient and remainder of unsigned numbers.
#[tactic(auto, unfolding(crate::specs::Numbers::wrapped))]
fn divide_unsigned(width: Width, dividend: u64, divisor: u32) -> Option<(u32, u32)>
    requires { divisor ≢ 0 }
    ensures value { result ≡ divided false (size width) (pos dividend) (pos divisor) }
    ensures small { IfSome result (λ both. (both.0 < 2 ^ size width) × (both.1 < 2 ^ size width)) }
{
    let quotient = dividend / u64::from(divisor);
    let remainder = dividend % u64::from(divisor);
    if is_wide(width, quotient) {
        None
    } else {
        Some((cut_wide(width, quotient), cut_wide(width, remainder)))
    }
}

/// The quotient and remainder of signed numbers.
fn divide_signed(width: Width, dividend: i64, divisor: i64) -> Option<(u32, u32)>
    requires { divisor ≢ pos 0 }
    ensures value { result ≡ divided true (size width) dividend divisor }
    ensures small { IfSome result (λ both. (both.0 < 2 ^ size width) × (both.1 < 2 ^ size width)) }
{
    let quotient = dividend.checked_div(divisor)?;
    if fits_as_signed(width, quotient) {
        Some((wrap(width, quotient), wrap(width, dividend % divisor)))
    } else {
        None
    }
}

/// DIV, or IDIV where `signed`: the quotient, rounded toward zero, and the remainder, which has the dividend's sign,
/// each cut to the width. The dividend is the lowest bits of `high_low`, twice as many as the width, the divisor the
/// lowest bits of `by`. None exactly where the divisor is 0 or the quotient doesn't fit the width.
#[tactic(auto, unfolding(crate::specs::Products::quotient_of))]
pub fn divide(signed: bool, width: Width, high_low: u64, by: u32) -> Option<(u32, u32)>
    ensures value { result ≡ quotient_of signed (size width) high_low by }
    ensures small { IfSome result (λ both. (both.0 < 2 ^ size width) × (both.1 < 2 ^ size width)) }
{
    if cut(width, by) == 0 {
        None
    } else if signed {
        divide_signed(
            width,
            signed_double(width, high_low),
            signed_value(width, by),
        )
    } else {
        divide_unsigned(width, cut_double(width, high_low), cut(width, by))
    }
}
