//! Registers by number, and what one is multiplied by.
ghost use Rattle.std.specs.Prelude.{◌≡◌, ◌≤◌, ◌<◌};
ghost use Rattle.ia32_decode.specs.Encoding.{register_of, register_number, factor_of};

use crate::types::{Register, Scale};

impl Register {
    /// The register that the lowest three bits of a number name.
    #[tactic(auto, unfolding(crate::specs::Encoding::register_of))]
    pub fn from_number(number: u8) -> Register
        ensures { result ≡ register_of number }
    {
        match number % 8 {
            0 => Register::Eax,
            1 => Register::Ecx,
            2 => Register::Edx,
            3 => Register::Ebx,
            4 => Register::Esp,
            5 => Register::Ebp,
            6 => Register::Esi,
            _ => Register::Edi,
        }
    }

    /// The register's number, 0 to 7.
    pub fn number(self) -> u8
        ensures value { result ≡ register_number self }
        ensures bound { result < 8 }
    {
        match self {
            Register::Eax => 0,
            Register::Ecx => 1,
            Register::Edx => 2,
            Register::Ebx => 3,
            Register::Esp => 4,
            Register::Ebp => 5,
            Register::Esi => 6,
            Register::Edi => 7,
        }
    }
}

impl Scale {
    /// The number that it multiplies by: 0, 1, 2, 4 or 8.
    pub fn factor(self) -> u32
        ensures value { result ≡ factor_of self }
        ensures bound { result ≤ 8 }
    {
        match self {
            Scale::Zero => 0,
            Scale::One => 1,
            Scale::Two => 2,
            Scale::Four => 4,
            Scale::Eight => 8,
        }
    }
}
