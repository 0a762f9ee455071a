//! Products.
ghost use Rattle.std.specs.Prelude.{◌≡◌, ◌*◌, true, false, ◌<◌, ◌^◌};
ghost use Rattle.ia32_alu.specs.Numbers.{size};
ghost use Rattle.ia32_alu.specs.Products.{product_of, product_flags};

use crate::settling::fits_as_signed;
use crate::types::{Flags, Width};
use crate::widths::{cut, cut_double, is_wide, signed_value, wrap_double};

/// Where the product is wide CF and OF are set.
fn flags_of_product(wide: bool) -> Flags
    ensures { result ≡ product_flags wide }
{
    Flags {
        cf: wide,
        pf: false,
        zf: false,
        sf: false,
        of: wide,
    }
}

/// The product of signed numbers.
#[tactic(auto, unfolding(crate::specs::Products::product_of))]
fn multiply_signed(width: Width, a: u32, b: u32) -> (u64, Flags)
    ensures value { result ≡ product_of true (size width) a b }
    ensures small { result.0 < 2 ^ (2 * size width) }
{
    let product = signed_value(width, a) * signed_value(width, b);
    let wide = !fits_as_signed(width, product);
    (wrap_double(width, product), flags_of_product(wide))
}

/// The product of unsigned numbers.
#[tactic(auto, unfolding(crate::specs::Products::product_of, crate::specs::Numbers::wrapped))]
fn multiply_unsigned(width: Width, a: u32, b: u32) -> (u64, Flags)
    ensures value { result ≡ product_of false (size width) a b }
    ensures small { result.0 < 2 ^ (2 * size width) }
{
    let product = u64::from(cut(width, a)) * u64::from(cut(width, b));
    let wide = is_wide(width, product);
    (cut_double(width, product), flags_of_product(wide))
}

/// MUL, or IMUL where `signed`: the product of the operands' lowest bits in twice as many bits, and the flags after it.
/// CF and OF are set where the product doesn't fit the operands' width.
pub fn multiply(signed: bool, width: Width, a: u32, b: u32) -> (u64, Flags)
    ensures value { result ≡ product_of signed (size width) a b }
    ensures small { result.0 < 2 ^ (2 * size width) }
{
    if signed {
        multiply_signed(width, a, b)
    } else {
        multiply_unsigned(width, a, b)
    }
}
