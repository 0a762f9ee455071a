//! Against a processor: each row is what an instruction gave that was run natively on an x86-64.
//!
//! Flags are named by the letters O, S, Z, P and C. Left out, since the manual leaves them undefined: OF of a shift or
//! rotation by more than one place, CF of SHL and SHR by the width or more, SF, ZF and PF of a product.
use crate::flags::{defined_of, flags};
use ia32_alu::Binary::{Adc, Add, And, Cmp, Or, Sbb, Sub, Test, Xor};
use ia32_alu::Shift::{Rol, Ror, Sar, Shl, Shr};
use ia32_alu::Unary::{Dec, Inc, Neg, Not};
use ia32_alu::Width::{Byte, Dword, Word};
use ia32_alu::{
    Binary, Flags, Shift, Unary, Width, binary, condition, divide, multiply, shift, unary,
};

type Text = &'static str;

/// Operation, width, two operands, flags before, value and flags after.
static BINARY: [(Binary, Width, u32, u32, Text, u32, Text); 33] = [
    (Add, Byte, 0x7F, 0x01, "", 0x80, "OS"),
    (Add, Byte, 0x180, 0x280, "", 0x00, "OZPC"),
    (Add, Word, 0xFFFF, 0x01, "OSZPC", 0x00, "ZPC"),
    (Add, Dword, 0x7FFFFFFF, 0x7FFFFFFF, "", 0xFFFFFFFE, "OS"),
    (Add, Dword, 0xFFFFFFFF, 0xFFFFFFFF, "", 0xFFFFFFFE, "SC"),
    (Adc, Byte, 0xFF, 0xFF, "C", 0xFF, "SPC"),
    (Adc, Word, 0x7FFF, 0x8000, "C", 0x00, "ZPC"),
    (Adc, Dword, 0xFFFFFFFF, 0x00, "C", 0x00, "ZPC"),
    (Adc, Dword, 0x80000000, 0x80000000, "", 0x00, "OZPC"),
    (Sub, Byte, 0x00, 0x01, "", 0xFF, "SPC"),
    (Sub, Byte, 0x80, 0x01, "", 0x7F, "O"),
    (Sub, Word, 0x1234, 0x1234, "", 0x00, "ZP"),
    (Sub, Dword, 0x7FFFFFFF, 0xFFFFFFFF, "", 0x80000000, "OSPC"),
    (Sbb, Byte, 0x00, 0xFF, "C", 0x00, "ZPC"),
    (Sbb, Byte, 0x80, 0x7F, "C", 0x00, "OZP"),
    (Sbb, Word, 0x00, 0x00, "C", 0xFFFF, "SPC"),
    (Sbb, Dword, 0x80000000, 0x00, "C", 0x7FFFFFFF, "OP"),
    (Cmp, Byte, 0x80, 0x01, "", 0x80, "O"),
    (Cmp, Byte, 0x101, 0x02, "", 0x01, "SPC"),
    (Cmp, Dword, 0x03, 0x80000000, "", 0x03, "OSPC"),
    (Cmp, Dword, 0xFFFFFFFF, 0x01, "OSZPC", 0xFFFFFFFF, "S"),
    (And, Byte, 0xF0, 0xCF, "OSZPC", 0xC0, "SP"),
    (And, Word, 0xAAAA, 0x5555, "", 0x00, "ZP"),
    (And, Dword, 0xF0F0F0F0, 0x80000003, "OC", 0x80000000, "SP"),
    (Or, Byte, 0x50, 0x0F, "OSZPC", 0x5F, "P"),
    (Or, Word, 0x8000, 0x101, "", 0x8101, "S"),
    (Or, Dword, 0x00, 0x00, "OC", 0x00, "ZP"),
    (Xor, Byte, 0xFF, 0x01, "OSZPC", 0xFE, "S"),
    (Xor, Word, 0x1234, 0x1234, "", 0x00, "ZP"),
    (Xor, Dword, 0x80000000, 0x1010101, "OC", 0x81010101, "S"),
    (Test, Byte, 0x81, 0x80, "OSZPC", 0x81, "S"),
    (Test, Word, 0xFF, 0xFF00, "", 0xFF, "ZP"),
    (Test, Dword, 0x80000007, 0xFFFFFFFF, "OC", 0x80000007, "S"),
];

/// Operation, width, operand, flags before, value and flags after.
static UNARY: [(Unary, Width, u32, Text, u32, Text); 16] = [
    (Inc, Byte, 0x7F, "", 0x80, "OS"),
    (Inc, Byte, 0xFF, "C", 0x00, "ZPC"),
    (Inc, Word, 0xFFFF, "", 0x00, "ZP"),
    (Inc, Dword, 0x7FFFFFFF, "C", 0x80000000, "OSPC"),
    (Dec, Byte, 0x80, "", 0x7F, "O"),
    (Dec, Byte, 0x00, "", 0xFF, "SP"),
    (Dec, Word, 0x01, "C", 0x00, "ZPC"),
    (Dec, Dword, 0x80000000, "OSZPC", 0x7FFFFFFF, "OPC"),
    (Not, Byte, 0x0F, "", 0xF0, ""),
    (Not, Word, 0xFFFF, "OSZPC", 0x00, "OSZPC"),
    (Not, Dword, 0x12345678, "OZC", 0xEDCBA987, "OZC"),
    (Neg, Byte, 0x80, "", 0x80, "OSC"),
    (Neg, Byte, 0x00, "OSZPC", 0x00, "ZP"),
    (Neg, Word, 0x01, "", 0xFFFF, "SPC"),
    (Neg, Dword, 0x80000000, "", 0x80000000, "OSPC"),
    (Neg, Dword, 0xFFFFFFFF, "", 0x01, "C"),
];

/// Shift, width, operand, count, flags before, value, flags after, and which flags are defined.
static SHIFTS: [(Shift, Width, u32, u8, Text, u32, Text, Text); 26] = [
    (Shl, Byte, 0x81, 1, "", 0x02, "OC", "OSZPC"),
    (Shl, Byte, 0x81, 7, "", 0x80, "S", "SZPC"),
    (Shl, Byte, 0x01, 8, "", 0x00, "ZP", "SZP"),
    (Shl, Byte, 0xFF, 9, "", 0x00, "ZP", "SZP"),
    (Shl, Word, 0xFFFF, 16, "", 0x00, "ZP", "SZP"),
    (Shl, Dword, 0xC0000001, 1, "", 0x80000002, "SC", "OSZPC"),
    (Shl, Dword, 0x03, 31, "", 0x80000000, "SPC", "SZPC"),
    (Shl, Dword, 0x03, 33, "", 0x06, "P", "OSZPC"),
    (
        Shl, Dword, 0x80000000, 0, "OSZPC", 0x80000000, "OSZPC", "OSZPC",
    ),
    (Shr, Byte, 0x81, 1, "", 0x40, "OC", "OSZPC"),
    (Shr, Byte, 0x81, 8, "", 0x00, "ZP", "SZP"),
    (Shr, Byte, 0xFF, 20, "OSZPC", 0x00, "ZP", "SZP"),
    (Shr, Word, 0x8000, 15, "", 0x01, "", "SZPC"),
    (Shr, Dword, 0x80000001, 1, "", 0x40000000, "OPC", "OSZPC"),
    (Shr, Dword, 0xC0000000, 31, "", 0x01, "C", "SZPC"),
    (Shr, Dword, 0xC0000000, 63, "", 0x01, "C", "SZPC"),
    (Shr, Dword, 0x05, 0, "OC", 0x05, "OC", "OSZPC"),
    (Sar, Byte, 0x81, 1, "", 0xC0, "SPC", "OSZPC"),
    (Sar, Byte, 0x80, 7, "", 0xFF, "SP", "SZPC"),
    (Sar, Byte, 0x80, 8, "", 0xFF, "SPC", "SZPC"),
    (Sar, Byte, 0x81, 31, "", 0xFF, "SPC", "SZPC"),
    (Sar, Byte, 0x7F, 9, "OSZPC", 0x00, "ZP", "SZPC"),
    (Sar, Word, 0x8001, 2, "", 0xE000, "SP", "SZPC"),
    (Sar, Dword, 0x80000000, 31, "", 0xFFFFFFFF, "SP", "SZPC"),
    (
        Sar, Dword, 0xFFFFFFFE, 1, "OSZPC", 0xFFFFFFFF, "SP", "OSZPC",
    ),
    (Sar, Dword, 0x80000000, 0, "O", 0x80000000, "O", "OSZPC"),
];

/// The same of rotations, which are of 32 bits.
static ROTATIONS: [(Shift, u32, u8, Text, u32, Text, Text); 9] = [
    (Rol, 0x80000001, 1, "", 0x03, "OC", "OSZPC"),
    (Rol, 0x40000000, 1, "OSZP", 0x80000000, "OSZP", "OSZPC"),
    (Rol, 0x12345678, 8, "SZP", 0x34567812, "SZP", "SZPC"),
    (Rol, 0xFFFFFFFF, 0, "OSZPC", 0xFFFFFFFF, "OSZPC", "OSZPC"),
    (Rol, 0x80000000, 33, "SZPC", 0x01, "OSZPC", "OSZPC"),
    (Ror, 0x01, 1, "", 0x80000000, "OC", "OSZPC"),
    (Ror, 0x80000000, 1, "SZP", 0x40000000, "OSZP", "OSZPC"),
    (Ror, 0x12345678, 8, "OSZPC", 0x78123456, "SZP", "SZPC"),
    (Ror, 0xC0000000, 32, "SC", 0xC0000000, "SC", "OSZPC"),
];

/// Signed or not, width, two operands, product, and which of OF and CF are set after it.
static PRODUCTS: [(bool, Width, u32, u32, u64, Text); 11] = [
    (false, Byte, 0xFF, 0xFF, 0xFE01, "OC"),
    (false, Byte, 0x10, 0x0F, 0xF0, ""),
    (false, Word, 0x100, 0x100, 0x10000, "OC"),
    (
        false,
        Dword,
        0xFFFFFFFF,
        0xFFFFFFFF,
        0xFFFFFFFE00000001,
        "OC",
    ),
    (false, Dword, 0xFFFFFFFF, 0x01, 0xFFFFFFFF, ""),
    (true, Byte, 0xFF, 0x80, 0x80, "OC"),
    (true, Byte, 0x80, 0x80, 0x4000, "OC"),
    (true, Word, 0xFFFF, 0x7FFF, 0xFFFF8001, ""),
    (
        true,
        Dword,
        0x80000000,
        0x80000000,
        0x4000000000000000,
        "OC",
    ),
    (true, Dword, 0xFFFFFFFF, 0xFFFFFFFF, 0x1, ""),
    (true, Dword, 0x80000000, 0x01, 0xFFFFFFFF80000000, ""),
];

/// Signed or not, width, dividend, divisor, and the quotient and the remainder, if there is one.
static QUOTIENTS: [(bool, Width, u64, u32, Option<(u32, u32)>); 16] = [
    (false, Byte, 0xFEFF, 0xFF, Some((0xFF, 0xFE))),
    (false, Byte, 0xFF00, 0xFF, None),
    (
        false,
        Dword,
        0xFFFFFFFEFFFFFFFF,
        0xFFFFFFFF,
        Some((0xFFFFFFFF, 0xFFFFFFFE)),
    ),
    (false, Dword, 0x100000000, 0x01, None),
    (false, Dword, 0x64, 0x00, None),
    (true, Byte, 0xFF9C, 0x07, Some((0xF2, 0xFE))),
    (true, Byte, 0xFF80, 0xFF, None),
    (true, Byte, 0xFF80, 0x01, Some((0x80, 0x00))),
    (true, Byte, 0xC000, 0x80, None),
    (true, Word, 0xFFFFFF9C, 0xFFF9, Some((0x0E, 0xFFFE))),
    (true, Dword, 0x8000000000000000, 0xFFFFFFFF, None),
    (
        true,
        Dword,
        0xFFFFFFFFFFFFFFF9,
        0x02,
        Some((0xFFFFFFFD, 0xFFFFFFFF)),
    ),
    (true, Dword, 0x7, 0xFFFFFFFE, Some((0xFFFFFFFD, 0x01))),
    (
        true,
        Dword,
        0x80000000,
        0xFFFFFFFF,
        Some((0x80000000, 0x00)),
    ),
    (
        true,
        Dword,
        0xFFFFFFFF80000000,
        0x01,
        Some((0x80000000, 0x00)),
    ),
    (true, Dword, 0x5, 0x00, None),
];

/// Of each condition, at which flags it holds: bit n for the flags of the number n, whose bits are OF, SF, ZF, PF and
/// CF.
static CONDITIONS: [u32; 16] = [
    0xFFFF0000, 0x0000FFFF, 0xAAAAAAAA, 0x55555555, 0xF0F0F0F0, 0x0F0F0F0F, 0xFAFAFAFA, 0x05050505,
    0xFF00FF00, 0x00FF00FF, 0xCCCCCCCC, 0x33333333, 0x00FFFF00, 0xFF0000FF, 0xF0FFFFF0, 0x0F00000F,
];

#[test]
fn operations(rt: HostRuntime) {
    for row in &BINARY {
        let (operation, width, a, b, before, value, after) = *row;
        let given = binary(operation, width, a, b, flags(before));
        assert_eq!(rt; given, (value, flags(after)), "{a} {b} {before}");
    }
    for row in &UNARY {
        let (operation, width, a, before, value, after) = *row;
        let given = unary(operation, width, a, flags(before));
        assert_eq!(rt; given, (value, flags(after)), "{a} {before}");
    }
}

#[test]
fn shifts(rt: HostRuntime) {
    for row in &SHIFTS {
        let (operation, width, a, count, before, value, after, defined) = *row;
        let (given, changed) = match operation {
            Shl | Shr | Sar => shift(operation, width, a, count, flags(before)),
            Rol | Ror => shift(operation, Dword, a, count, flags(before)),
        };
        assert_eq!(rt; given, value, "{a} {count} {before}");
        assert_eq!(rt;
            defined_of(changed, flags(defined)),
            flags(after),
            "{a} {count} {before}"
        );
    }
    for row in &ROTATIONS {
        let (operation, a, count, before, value, after, defined) = *row;
        let (given, changed) = shift(operation, Dword, a, count, flags(before));
        assert_eq!(rt; given, value, "{a} {count} {before}");
        assert_eq!(rt;
            defined_of(changed, flags(defined)),
            flags(after),
            "{a} {count} {before}"
        );
    }
}

#[test]
fn products(rt: HostRuntime) {
    for row in &PRODUCTS {
        let (signed, width, a, b, product, after) = *row;
        let given = multiply(signed, width, a, b);
        assert_eq!(rt; given, (product, flags(after)), "{a} {b}");
    }
}

#[test]
fn quotients(rt: HostRuntime) {
    for row in &QUOTIENTS {
        let (signed, width, dividend, divisor, both) = *row;
        assert_eq!(rt;
            divide(signed, width, dividend, divisor),
            both,
            "{dividend} {divisor}"
        );
    }
}

fn flags_of_number(number: u32) -> Flags {
    Flags {
        cf: number % 2 == 1,
        pf: number / 2 % 2 == 1,
        zf: number / 4 % 2 == 1,
        sf: number / 8 % 2 == 1,
        of: number / 16 % 2 == 1,
    }
}

#[test]
fn conditions(rt: HostRuntime) {
    for (nibble, row) in CONDITIONS.iter().enumerate() {
        for number in 0..32 {
            let holds = condition((nibble % 16) as u8, flags_of_number(number));
            assert_eq!(rt; holds, (*row >> number) % 2 == 1, "{nibble} {number}");
        }
    }
}
