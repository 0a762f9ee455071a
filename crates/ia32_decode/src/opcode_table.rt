//! The lines of the opcode table, and which line each opcode stands on.
ghost use Rattle.std.specs.Prelude.{◌≡◌};
ghost use Rattle.std.specs.List.{slice_index_or};
ghost use Rattle.ia32_decode.specs.Table.{line_of};

use Line::{
    AluByte, AluEax, AluFrom, AluNumber, AluTo, BitTest, Call, Cdq, Cmovcc, Cmpxchg, Cmpxchg8b,
    Cwde, Dec, Endbr32, Float, GroupFive, GroupFour, GroupThree, Imul, ImulByte, ImulNumber, Inc,
    Int, Int3, Jcc, JccShort, Jmp, JmpShort, Lea, Leave, LoadEax, Loop, MovByte, MovFrom, MovFull,
    MovNumber, MovTo, MovsxByte, MovsxWord, MovzxByte, MovzxWord, NoLine, Nop, NopOperand,
    OpcodeOnly, Pop, PopOperand, Push, PushByte, PushNumber, Ret, RetWord, SecondOnly, SecondRm,
    Setcc, ShiftByte, ShiftCl, ShiftOne, ShiftPair, StoreEax, Test, TestEax, Ud2, Xadd, Xchg,
    XchgEax,
};

/// A line of the opcode table: opcodes that are laid out alike and mean the same but for their operands.
#[derive(Clone, Copy)]
pub(crate) enum Line {
    /// An opcode that stands in no row.
    NoLine,
    /// 8k and 8k + 1: the operation k on an operand, with a register.
    AluTo,
    /// 8k + 2 and 8k + 3: the operation k on a register, with an operand.
    AluFrom,
    /// 8k + 4 and 8k + 5: the operation k on the accumulator, with a number.
    AluEax,
    /// 40 to 47: INC of a register.
    Inc,
    /// 48 to 4F: DEC of a register.
    Dec,
    /// 50 to 57: PUSH of a register.
    Push,
    /// 58 to 5F: POP to a register.
    Pop,
    /// 68: PUSH of a number.
    PushNumber,
    /// 6A: PUSH of a byte.
    PushByte,
    /// 69: IMUL by a number.
    ImulNumber,
    /// 6B: IMUL by a byte.
    ImulByte,
    /// 70 to 7F: Jcc by a byte.
    JccShort,
    /// 80 and 81: the operation of the digit, with a number.
    AluNumber,
    /// 83: the same with a byte.
    AluByte,
    /// 84 and 85: TEST.
    Test,
    /// 86 and 87: XCHG.
    Xchg,
    /// 88 and 89: MOV of a register to an operand.
    MovTo,
    /// 8A and 8B: MOV of an operand to a register.
    MovFrom,
    /// 8D: LEA.
    Lea,
    /// 8F: POP to an operand.
    PopOperand,
    /// 90: NOP.
    Nop,
    /// 91 to 97: XCHG with the accumulator.
    XchgEax,
    /// 98: CBW and CWDE.
    Cwde,
    /// 99: CWD and CDQ.
    Cdq,
    /// A0 and A1: MOV to the accumulator from an address.
    LoadEax,
    /// A2 and A3: MOV from the accumulator to an address.
    StoreEax,
    /// A8 and A9: TEST of the accumulator.
    TestEax,
    /// B0 to B7: MOV of a byte to a register.
    MovByte,
    /// B8 to BF: MOV of a number to a register.
    MovFull,
    /// C0 and C1: a shift by a byte.
    ShiftByte,
    /// D0 and D1: a shift by 1.
    ShiftOne,
    /// D2 and D3: a shift by CL.
    ShiftCl,
    /// C2: RET that releases bytes.
    RetWord,
    /// C3: RET.
    Ret,
    /// C6 and C7: MOV of a number to an operand.
    MovNumber,
    /// C9: LEAVE.
    Leave,
    /// E8: CALL.
    Call,
    /// E9: JMP.
    Jmp,
    /// EB: JMP by a byte.
    JmpShort,
    /// F6 and F7: TEST, NOT, NEG, MUL, IMUL, DIV and IDIV.
    GroupThree,
    /// FE: INC and DEC of a byte.
    GroupFour,
    /// FF: INC, DEC, CALL, JMP and PUSH of an operand.
    GroupFive,
    /// 0F 1E: ENDBR32.
    Endbr32,
    /// 0F 1F: NOP with an operand.
    NopOperand,
    /// 0F 40 to 4F: CMOVcc.
    Cmovcc,
    /// 0F 80 to 8F: Jcc.
    Jcc,
    /// 0F 90 to 9F: SETcc.
    Setcc,
    /// 0F AF: IMUL of a register.
    Imul,
    /// 0F B1: CMPXCHG.
    Cmpxchg,
    /// 0F C1: XADD.
    Xadd,
    /// 0F B6: MOVZX of a byte.
    MovzxByte,
    /// 0F B7: MOVZX of two bytes.
    MovzxWord,
    /// 0F BE: MOVSX of a byte.
    MovsxByte,
    /// 0F BF: MOVSX of two bytes.
    MovsxWord,
    /// CC: INT3.
    Int3,
    /// 0F 0B: UD2.
    Ud2,
    /// Opcodes of one byte without an operand, of which only the length matters, as for all below.
    OpcodeOnly,
    /// CD: INT.
    Int,
    /// E0 to E3: LOOP and JECXZ.
    Loop,
    /// D8 to DF: the floating-point instructions.
    Float,
    /// Opcodes after 0F without an operand.
    SecondOnly,
    /// Opcodes after 0F with an operand.
    SecondRm,
    /// 0F A4 and AC: SHLD and SHRD by a byte.
    ShiftPair,
    /// 0F BA: BT, BTS, BTR and BTC by a byte.
    BitTest,
    /// 0F C7: CMPXCHG8B.
    Cmpxchg8b,
}

/// What stands between the opcode and the immediate.
#[derive(Clone, Copy)]
pub(crate) enum Form {
    /// The opcode isn't listed.
    Unlisted,
    /// Nothing.
    Plain,
    /// Nothing, and the opcode names a register.
    Register,
    /// Nothing, and prefix 66 isn't taken.
    Branch,
    /// A ModRM byte with what belongs to it.
    ModRm,
    /// The same, and it may not name a register.
    Memory,
    /// The byte FB, which is the last one of the opcode, and a prefix F3 is wanted.
    EndBranch,
}

/// How wide the operands are.
#[derive(Clone, Copy)]
pub(crate) enum Sizing {
    /// 8 bits.
    Byte,
    /// 32 bits, or 16 with prefix 66.
    Full,
    /// 8 bits where the opcode is even, otherwise as `Full`.
    LowBit,
}

/// Which digits the middle field of the ModRM byte may hold.
#[derive(Clone, Copy)]
pub(crate) enum Digits {
    /// Any.
    Any,
    /// 0.
    Zero,
    /// 1.
    One,
    /// 0 and 1.
    ZeroOrOne,
    /// All but 6.
    NotSix,
    /// All but 1.
    NotOne,
    /// 0, 1, 2, 4 and 6.
    OfGroupFive,
    /// 4 to 7.
    FourUp,
}

/// Which number stands at the end.
#[derive(Clone, Copy)]
pub(crate) enum Follows {
    /// None.
    Nothing,
    /// A byte.
    Byte,
    /// A byte that is sign-extended.
    SignedByte,
    /// Two bytes.
    Word,
    /// Four bytes.
    Dword,
    /// Four bytes that are an address.
    Address,
    /// One of the operands' width.
    Sized,
    /// One of the operands' width where the digit is 0, otherwise none.
    Tested,
}

/// How a line is laid out.
#[derive(Clone, Copy)]
pub(crate) struct Shape {
    /// What stands between the opcode and the immediate.
    pub form: Form,
    /// How wide the operands are.
    pub sizing: Sizing,
    /// Which digits are listed.
    pub digits: Digits,
    /// Which number stands at the end.
    pub follows: Follows,
}

/// The line of each opcode of one byte, eight opcodes a row, from the one named at its end.
static ONE_BYTE: [Line; 256] = [
    AluTo, AluTo, AluFrom, AluFrom, AluEax, AluEax, NoLine, NoLine, // 00
    AluTo, AluTo, AluFrom, AluFrom, AluEax, AluEax, NoLine, NoLine, // 08
    AluTo, AluTo, AluFrom, AluFrom, AluEax, AluEax, NoLine, NoLine, // 10
    AluTo, AluTo, AluFrom, AluFrom, AluEax, AluEax, NoLine, NoLine, // 18
    AluTo, AluTo, AluFrom, AluFrom, AluEax, AluEax, NoLine, NoLine, // 20
    AluTo, AluTo, AluFrom, AluFrom, AluEax, AluEax, NoLine, NoLine, // 28
    AluTo, AluTo, AluFrom, AluFrom, AluEax, AluEax, NoLine, NoLine, // 30
    AluTo, AluTo, AluFrom, AluFrom, AluEax, AluEax, NoLine, NoLine, // 38
    Inc, Inc, Inc, Inc, Inc, Inc, Inc, Inc, // 40
    Dec, Dec, Dec, Dec, Dec, Dec, Dec, Dec, // 48
    Push, Push, Push, Push, Push, Push, Push, Push, // 50
    Pop, Pop, Pop, Pop, Pop, Pop, Pop, Pop, // 58
    OpcodeOnly, OpcodeOnly, NoLine, NoLine, NoLine, NoLine, NoLine, NoLine, // 60
    PushNumber, ImulNumber, PushByte, ImulByte, NoLine, NoLine, NoLine, NoLine, // 68
    JccShort, JccShort, JccShort, JccShort, JccShort, JccShort, JccShort, JccShort, // 70
    JccShort, JccShort, JccShort, JccShort, JccShort, JccShort, JccShort, JccShort, // 78
    AluNumber, AluNumber, NoLine, AluByte, Test, Test, Xchg, Xchg, // 80
    MovTo, MovTo, MovFrom, MovFrom, NoLine, Lea, NoLine, PopOperand, // 88
    Nop, XchgEax, XchgEax, XchgEax, XchgEax, XchgEax, XchgEax, XchgEax, // 90
    Cwde, Cdq, NoLine, NoLine, OpcodeOnly, OpcodeOnly, OpcodeOnly, OpcodeOnly, // 98
    LoadEax, LoadEax, StoreEax, StoreEax, OpcodeOnly, OpcodeOnly, OpcodeOnly, OpcodeOnly, // A0
    TestEax, TestEax, OpcodeOnly, OpcodeOnly, OpcodeOnly, OpcodeOnly, OpcodeOnly, OpcodeOnly, // A8
    MovByte, MovByte, MovByte, MovByte, MovByte, MovByte, MovByte, MovByte, // B0
    MovFull, MovFull, MovFull, MovFull, MovFull, MovFull, MovFull, MovFull, // B8
    ShiftByte, ShiftByte, RetWord, Ret, NoLine, NoLine, MovNumber, MovNumber, // C0
    NoLine, Leave, NoLine, NoLine, Int3, Int, NoLine, NoLine, // C8
    ShiftOne, ShiftOne, ShiftCl, ShiftCl, NoLine, NoLine, NoLine, OpcodeOnly, // D0
    Float, Float, Float, Float, Float, Float, Float, Float, // D8
    Loop, Loop, Loop, Loop, NoLine, NoLine, NoLine, NoLine, // E0
    Call, Jmp, NoLine, JmpShort, NoLine, NoLine, NoLine, NoLine, // E8
    NoLine, NoLine, NoLine, NoLine, OpcodeOnly, OpcodeOnly, GroupThree, GroupThree, // F0
    OpcodeOnly, OpcodeOnly, OpcodeOnly, OpcodeOnly, OpcodeOnly, OpcodeOnly, GroupFour, GroupFive, // F8
];

/// The line of each opcode that stands after 0F, laid out alike.
static TWO_BYTE: [Line; 256] = [
    NoLine, NoLine, NoLine, NoLine, NoLine, NoLine, NoLine, NoLine, // 00
    NoLine, NoLine, NoLine, Ud2, NoLine, NoLine, NoLine, NoLine, // 08
    NoLine, NoLine, NoLine, NoLine, NoLine, NoLine, NoLine, NoLine, // 10
    NoLine, NoLine, NoLine, NoLine, NoLine, NoLine, Endbr32, NopOperand, // 18
    NoLine, NoLine, NoLine, NoLine, NoLine, NoLine, NoLine, NoLine, // 20
    NoLine, NoLine, NoLine, NoLine, NoLine, NoLine, NoLine, NoLine, // 28
    NoLine, SecondOnly, NoLine, NoLine, NoLine, NoLine, NoLine, NoLine, // 30
    NoLine, NoLine, NoLine, NoLine, NoLine, NoLine, NoLine, NoLine, // 38
    Cmovcc, Cmovcc, Cmovcc, Cmovcc, Cmovcc, Cmovcc, Cmovcc, Cmovcc, // 40
    Cmovcc, Cmovcc, Cmovcc, Cmovcc, Cmovcc, Cmovcc, Cmovcc, Cmovcc, // 48
    NoLine, NoLine, NoLine, NoLine, NoLine, NoLine, NoLine, NoLine, // 50
    NoLine, NoLine, NoLine, NoLine, NoLine, NoLine, NoLine, NoLine, // 58
    NoLine, NoLine, NoLine, NoLine, NoLine, NoLine, NoLine, NoLine, // 60
    NoLine, NoLine, NoLine, NoLine, NoLine, NoLine, NoLine, NoLine, // 68
    NoLine, NoLine, NoLine, NoLine, NoLine, NoLine, NoLine, NoLine, // 70
    NoLine, NoLine, NoLine, NoLine, NoLine, NoLine, NoLine, NoLine, // 78
    Jcc, Jcc, Jcc, Jcc, Jcc, Jcc, Jcc, Jcc, // 80
    Jcc, Jcc, Jcc, Jcc, Jcc, Jcc, Jcc, Jcc, // 88
    Setcc, Setcc, Setcc, Setcc, Setcc, Setcc, Setcc, Setcc, // 90
    Setcc, Setcc, Setcc, Setcc, Setcc, Setcc, Setcc, Setcc, // 98
    NoLine, NoLine, SecondOnly, SecondRm, ShiftPair, SecondRm, NoLine, NoLine, // A0
    NoLine, NoLine, NoLine, SecondRm, ShiftPair, SecondRm, NoLine, Imul, // A8
    SecondRm, Cmpxchg, NoLine, SecondRm, NoLine, NoLine, MovzxByte, MovzxWord, // B0
    NoLine, NoLine, BitTest, SecondRm, SecondRm, SecondRm, MovsxByte, MovsxWord, // B8
    SecondRm, Xadd, NoLine, NoLine, NoLine, NoLine, NoLine, Cmpxchg8b, // C0
    SecondOnly, SecondOnly, SecondOnly, SecondOnly, SecondOnly, SecondOnly, SecondOnly, SecondOnly, // C8
    NoLine, NoLine, NoLine, NoLine, NoLine, NoLine, NoLine, NoLine, // D0
    NoLine, NoLine, NoLine, NoLine, NoLine, NoLine, NoLine, NoLine, // D8
    NoLine, NoLine, NoLine, NoLine, NoLine, NoLine, NoLine, NoLine, // E0
    NoLine, NoLine, NoLine, NoLine, NoLine, NoLine, NoLine, NoLine, // E8
    NoLine, NoLine, NoLine, NoLine, NoLine, NoLine, NoLine, NoLine, // F0
    NoLine, NoLine, NoLine, NoLine, NoLine, NoLine, NoLine, NoLine, // F8
];

/// The line of an opcode of one byte.
fn one_byte_line(opcode: u8) -> Line
    ensures { result ≡ slice_index_or ONE_BYTE opcode Line.NoLine }
{
    ONE_BYTE[opcode as usize]
}

/// The line of an opcode that stands after 0F.
fn two_byte_line(opcode: u8) -> Line
    ensures { result ≡ slice_index_or TWO_BYTE opcode Line.NoLine }
{
    TWO_BYTE[opcode as usize]
}

/// The line on which an opcode stands, `NoLine` where it isn't listed. `escaped` says that it stands after 0F.
#[tactic(auto, using(crate::proofs::Lookup::one_byte_lines, crate::proofs::Lookup::two_byte_lines))]
pub(crate) fn line_at(escaped: bool, opcode: u8) -> Line
    ensures { result ≡ line_of escaped opcode }
{
    if escaped {
        two_byte_line(opcode)
    } else {
        one_byte_line(opcode)
    }
}
