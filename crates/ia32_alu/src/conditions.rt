//! Conditions on the flags.
ghost use Rattle.std.specs.Prelude.{◌≡◌, ◌<◌, slice_index_or, false};
ghost use Rattle.ia32_alu.specs.Conditions.{even_conditions, condition_of};

use crate::types::Flags;

/// The even conditions, by half their number.
fn even_condition(half: u8, flags: Flags) -> bool
    requires { half < 8 }
    ensures { result ≡ slice_index_or (even_conditions flags) half false }
{
    match half {
        0 => flags.of,
        1 => flags.cf,
        2 => flags.zf,
        3 => flags.cf || flags.zf,
        4 => flags.sf,
        5 => flags.pf,
        6 => flags.sf != flags.of,
        _ => flags.zf || flags.sf != flags.of,
    }
}

/// Whether a condition holds, by its number: O, NO, B, AE, E, NE, BE, A, S, NS, P, NP, L, GE, LE and G.
#[tactic(auto, unfolding(crate::specs::Conditions::condition_of))]
pub fn condition(nibble: u8, flags: Flags) -> bool
    requires { nibble < 16 }
    ensures { result ≡ condition_of nibble flags }
{
    let holds = even_condition(nibble / 2, flags);
    if nibble % 2 == 0 { holds } else { !holds }
}
