//! The operations, the widths of their operands and the flags.

/// How wide the operands and the result are.
#[derive(Clone, Copy, PartialEq, Eq)]
pub enum Width {
    /// 8 bits.
    Byte,
    /// 16 bits.
    Word,
    /// 32 bits.
    Dword,
}

/// An operation on two operands.
#[derive(Clone, Copy, PartialEq, Eq)]
pub enum Binary {
    /// The sum.
    Add,
    /// The bitwise or.
    Or,
    /// The sum and the carry.
    Adc,
    /// The difference less the borrow.
    Sbb,
    /// The bitwise and.
    And,
    /// The difference.
    Sub,
    /// The bitwise exclusive or.
    Xor,
    /// The flags of the difference; the first operand stays.
    Cmp,
    /// The flags of the bitwise and; the first operand stays.
    Test,
}

/// An operation on one operand.
#[derive(Clone, Copy, PartialEq, Eq)]
pub enum Unary {
    /// One more; the carry flag stays.
    Inc,
    /// One less; the carry flag stays.
    Dec,
    /// Each bit inverted; the flags stay.
    Not,
    /// The operand subtracted from 0.
    Neg,
}

/// A shift or a rotation.
#[derive(Clone, Copy, PartialEq, Eq)]
pub enum Shift {
    /// Rotates to the left.
    Rol,
    /// Rotates to the right.
    Ror,
    /// Shifts to the left, filling with zeros.
    Shl,
    /// Shifts to the right, filling with zeros.
    Shr,
    /// Shifts to the right, filling with the sign bit.
    Sar,
}

/// The status flags that are kept. There is no AF.
#[derive(Clone, Copy, PartialEq, Eq, Debug)]
pub struct Flags {
    /// The carry flag: the unsigned result doesn't fit.
    pub cf: bool,
    /// The parity flag: the lowest byte of the result has an even number of ones.
    pub pf: bool,
    /// The zero flag: the result is 0.
    pub zf: bool,
    /// The sign flag: the highest bit of the result.
    pub sf: bool,
    /// The overflow flag: the signed result doesn't fit.
    pub of: bool,
}
