//! What a decoded instruction is made of.
use ia32_alu::{Binary, Shift, Unary, Width};

/// A general register, by its number from 0 to 7. At 8 bits the same numbers name AL, CL, DL, BL, AH, CH, DH
/// and BH, and at 16 bits the lower halves.
#[derive(Clone, Copy, PartialEq, Eq)]
pub enum Register {
    /// EAX, AX or AL.
    Eax,
    /// ECX, CX or CL.
    Ecx,
    /// EDX, DX or DL.
    Edx,
    /// EBX, BX or BL.
    Ebx,
    /// ESP, SP or AH.
    Esp,
    /// EBP, BP or CH.
    Ebp,
    /// ESI, SI or DH.
    Esi,
    /// EDI, DI or BH.
    Edi,
}

/// The condition of a conditional instruction, by its number from 0 to 15. Each odd one is the negation of the
/// one before.
#[derive(Clone, Copy, PartialEq, Eq)]
pub enum Condition {
    /// OF.
    Overflow,
    /// Not OF.
    NoOverflow,
    /// CF.
    Below,
    /// Not CF.
    AboveOrEqual,
    /// ZF.
    Equal,
    /// Not ZF.
    NotEqual,
    /// CF or ZF.
    BelowOrEqual,
    /// Neither CF nor ZF.
    Above,
    /// SF.
    Sign,
    /// Not SF.
    NoSign,
    /// PF.
    Parity,
    /// Not PF.
    NoParity,
    /// SF differs from OF.
    Less,
    /// SF equals OF.
    GreaterOrEqual,
    /// ZF, or SF differs from OF.
    LessOrEqual,
    /// Not ZF, and SF equals OF.
    Greater,
}

/// What an index is multiplied by, by the highest two bits of a SIB byte.
#[derive(Clone, Copy)]
pub enum Scale {
    /// 0: there is no index.
    Zero,
    /// 1.
    One,
    /// 2.
    Two,
    /// 4.
    Four,
    /// 8.
    Eight,
}

/// A register that is scaled and added to an address.
#[derive(Clone, Copy)]
pub struct Index {
    /// The register.
    pub register: Register,
    /// What it is multiplied by: 0 where there is no index.
    pub scale: Scale,
}

/// A place in memory: the sum of its parts, modulo 2^32.
#[derive(Clone, Copy)]
pub struct Memory {
    /// The base register, if there is one.
    pub base: Option<Register>,
    /// The index, scaled by 0 if there is none.
    pub index: Index,
    /// The displacement, sign-extended to 32 bits, and 0 where there is none.
    pub displacement: u32,
}

/// What the mod and rm fields of a ModRM byte name.
#[derive(Clone, Copy)]
pub enum Operand {
    /// A register.
    Register(Register),
    /// A place in memory.
    Memory(Memory),
}

/// Where the second of two operands stands. The first one is the operand; but where that is the second, the first is the
/// register.
#[derive(Clone, Copy)]
pub enum Source {
    /// The register.
    Register,
    /// The operand.
    Operand,
    /// The instruction's own number.
    Immediate,
}

/// By how many places is shifted.
#[derive(Clone, Copy)]
pub enum Count {
    /// By 1.
    One,
    /// By the instruction's own number.
    Immediate,
    /// By CL.
    Cl,
}

/// What an instruction does. Opcodes that do the same with operands that stand elsewhere, in a register, in memory or in
/// the instruction itself, are one kind.
#[derive(Clone, Copy)]
pub enum Action {
    /// ADD, OR, ADC, SBB, AND, SUB, XOR and CMP, 00 to 3D, 80, 81 and 83; and TEST, 84, 85, A8, A9, F6 /0 and F7 /0.
    Arithmetic { operation: Binary, source: Source },
    /// INC and DEC, 40 to 4F, FE and FF; NOT and NEG, F6 and F7.
    Unary(Unary),
    /// PUSH, 50 to 57, 68, 6A and FF /6.
    Push(Source),
    /// POP, 58 to 5F and 8F /0.
    Pop,
    /// IMUL, 69, 6B and 0F AF: the register takes the product of the operand and the source.
    Multiply(Source),
    /// Jcc, 70 to 7F and 0F 80 to 8F.
    JumpIf(Condition),
    /// XCHG, 86, 87 and 91 to 97.
    Exchange,
    /// MOV, 88 to 8B, B0 to BF, C6 /0 and C7 /0.
    Move(Source),
    /// MOV to the accumulator from the address that is the instruction's own number, A0 and A1.
    LoadAccumulator,
    /// MOV from the accumulator to such an address, A2 and A3.
    StoreAccumulator,
    /// LEA, 8D.
    LoadAddress,
    /// NOP, 90.
    Nop,
    /// CWDE or CBW, 98. The width is that of the result.
    ExtendAccumulator,
    /// CDQ or CWD, 99. The width is that of the accumulator.
    SpreadSign,
    /// A shift or rotate, C0, C1 and D0 to D3.
    Shift { operation: Shift, count: Count },
    /// RET that adds to ESP, C2. The width is that of the address.
    ReturnAndRelease,
    /// RET, C3. The width is that of the address.
    Return,
    /// LEAVE, C9.
    Leave,
    /// CALL, E8.
    Call,
    /// JMP, E9 and EB.
    Jump,
    /// MUL or IMUL of the accumulator, F6 /4 and /5 and F7 /4 and /5.
    MultiplyAccumulator { signed: bool },
    /// DIV or IDIV, F6 /6 and /7 and F7 /6 and /7.
    Divide { signed: bool },
    /// CALL to where the operand says, FF /2.
    CallOperand,
    /// JMP to where the operand says, FF /4.
    JumpOperand,
    /// ENDBR32, F3 0F 1E FB.
    EndBranch,
    /// NOP with an operand that isn't accessed, 0F 1F /0.
    NopOperand,
    /// CMOVcc, 0F 40 to 4F.
    MoveIf(Condition),
    /// SETcc, 0F 90 to 9F.
    SetIf(Condition),
    /// CMPXCHG, 0F B1.
    CompareExchange,
    /// XADD, 0F C1.
    ExchangeAdd,
    /// MOVZX of a width, 0F B6 and B7.
    ZeroExtend(Width),
    /// MOVSX of a width, 0F BE and BF.
    SignExtend(Width),
    /// INT3, CC.
    Breakpoint,
    /// UD2, 0F 0B.
    Undefined,
    /// LOOPNE, LOOPE, LOOP and JECXZ by the opcode, E0 to E3, of which only the length is known.
    LoopBranch(u8),
    /// Any other instruction of which only the length is known.
    LengthOnly,
}

/// An instruction: what is done, and with which operands. What an action doesn't speak of has no meaning in it.
///
/// An immediate of one byte that is sign-extended, and a relative displacement, stand here sign-extended to 32
/// bits; other immediates stand here as they are. A relative displacement counts from the end of the
/// instruction. A width of 16 bits comes of prefix 66.
#[derive(Clone, Copy)]
pub struct Instr {
    /// What is done.
    pub action: Action,
    /// How wide the operands are.
    pub width: Width,
    /// What mod and rm name. Without a ModRM byte it is the register that the opcode names, or else the accumulator.
    pub operand: Operand,
    /// The register that the middle field of the ModRM byte names. Without a ModRM byte it is the accumulator.
    pub register: Register,
    /// The number at the end: an immediate, an address or a relative displacement. It is 0 where there is none.
    pub value: u32,
}

/// The prefixes of an instruction.
#[derive(Clone, Copy)]
pub struct Prefixes {
    /// How many prefix bytes there are.
    pub count: u32,
    /// 66 is among them: operands of 16 bits.
    pub operand_size: bool,
    /// F0.
    pub lock: bool,
    /// F2.
    pub repeat_not_equal: bool,
    /// F3.
    pub repeat: bool,
    /// 26.
    pub extra_segment: bool,
    /// 2E.
    pub code_segment: bool,
    /// 36.
    pub stack_segment: bool,
    /// 3E.
    pub data_segment: bool,
    /// 64.
    pub segment_f: bool,
    /// 65.
    pub segment_g: bool,
}

/// Bytes of an instruction that hold a number, the lowest byte first.
#[derive(Clone, Copy, PartialEq, Eq, Debug)]
pub struct Field {
    /// Where it begins, in bytes from the instruction's start.
    pub offset: u32,
    /// How many bytes it has: 1, 2 or 4.
    pub width: u32,
}

/// Where the parts of an instruction are.
#[derive(Clone, Copy, PartialEq, Eq)]
pub struct Fields {
    /// The offset after the last opcode byte, in bytes from the instruction's start.
    pub opcode_end: u32,
    /// The displacement, or the address that follows an opcode A0 to A3.
    pub disp: Option<Field>,
    /// The immediate, or the relative displacement of a branch.
    pub imm: Option<Field>,
}

/// An instruction as its bytes spell it.
#[derive(Clone, Copy)]
pub struct Decoded {
    /// How many bytes it has, 1 to 15.
    pub length: u32,
    /// What it is.
    pub instr: Instr,
    /// Where its parts are.
    pub fields: Fields,
    /// Its prefixes.
    pub prefixes: Prefixes,
}

/// The kinds of direct branch.
#[derive(Clone, Copy, PartialEq, Eq)]
pub enum BranchKind {
    /// A call.
    Call,
    /// A jump, of 8 or 32 bits.
    Jump,
    /// A jump on a condition, of 8 or 32 bits.
    JumpIf(Condition),
    /// LOOPNE, LOOPE, LOOP or JECXZ, by the opcode, E0 to E3.
    Loop(u8),
}

/// A direct branch: an instruction whose bytes hold how far it goes.
#[derive(Clone, Copy)]
pub struct Branch {
    /// Its kind.
    pub kind: BranchKind,
    /// Its prefixes.
    pub prefixes: Prefixes,
    /// How far from the instruction's end it goes, sign-extended to 32 bits.
    pub displacement: u32,
}

/// The wide form of an instruction: the same instruction with each number at full width that another form of it can
/// write in one byte.
#[derive(Clone, Copy)]
pub struct Wide {
    /// Its bytes, and zeros behind them.
    pub bytes: [u8; 24],
    /// How many bytes it has, at most 21.
    pub length: u32,
    /// Where its parts are.
    pub fields: Fields,
}
