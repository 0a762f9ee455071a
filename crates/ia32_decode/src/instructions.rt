//! The instruction that each line of the opcode table means.
ghost use Rattle.std.specs.Prelude.{◌≡◌};
ghost use Rattle.ia32_decode.specs.declared.types.Action.TheVariants.{Arithmetic};
ghost use Rattle.ia32_decode.specs.Instructions.{arithmetic_of, shift_of, condition_of, counting_of, shifting_of};
ghost use Rattle.ia32_decode.specs.Instructions.{group_three_of, group_five_of, named_operand, action_of, instr_of};

use crate::opcode_table::{Form, Line};
use crate::types::{Action, Condition, Count, Instr, Operand, Register, Source};
use ia32_alu::{Binary, Shift, Unary, Width};

/// The operations by number.
static ARITHMETIC: [Binary; 8] = [
    Binary::Add,
    Binary::Or,
    Binary::Adc,
    Binary::Sbb,
    Binary::And,
    Binary::Sub,
    Binary::Xor,
    Binary::Cmp,
];

/// The shifts by digit. Digits 2 and 3 rotate through the carry, and digit 6 isn't listed.
static SHIFTS: [Option<Shift>; 8] = [
    Some(Shift::Rol),
    Some(Shift::Ror),
    None,
    None,
    Some(Shift::Shl),
    Some(Shift::Shr),
    None,
    Some(Shift::Sar),
];

/// The conditions by number.
static CONDITIONS: [Condition; 16] = [
    Condition::Overflow,
    Condition::NoOverflow,
    Condition::Below,
    Condition::AboveOrEqual,
    Condition::Equal,
    Condition::NotEqual,
    Condition::BelowOrEqual,
    Condition::Above,
    Condition::Sign,
    Condition::NoSign,
    Condition::Parity,
    Condition::NoParity,
    Condition::Less,
    Condition::GreaterOrEqual,
    Condition::LessOrEqual,
    Condition::Greater,
];

/// What the bytes of an instruction give to its operands.
#[derive(Clone, Copy)]
pub(crate) struct Parts {
    /// The opcode.
    pub opcode: u8,
    /// How wide the operands are.
    pub width: Width,
    /// The middle field of the ModRM byte.
    pub digit: u8,
    /// What mod and rm name, or the register that the opcode names, or the accumulator.
    pub operand: Operand,
    /// The number at the end.
    pub value: u32,
}

/// The operation of a number.
#[tactic(auto, unfolding(crate::specs::Instructions::arithmetic_of))]
fn arithmetic_at(number: u8) -> Binary
    ensures { result ≡ arithmetic_of number }
{
    ARITHMETIC[(number % 8) as usize]
}

/// The shift of a digit; `None` for a rotation through the carry.
#[tactic(auto, unfolding(crate::specs::Instructions::shift_of))]
fn shift_at(digit: u8) -> Option<Shift>
    ensures { result ≡ shift_of digit }
{
    SHIFTS[(digit % 8) as usize]
}

/// The condition of an opcode.
#[tactic(auto, unfolding(crate::specs::Instructions::condition_of))]
fn condition_at(opcode: u8) -> Condition
    ensures { result ≡ condition_of opcode }
{
    CONDITIONS[(opcode % 16) as usize]
}

/// INC or DEC.
fn counting_at(digit: u8) -> Unary
    ensures { result ≡ counting_of digit }
{
    if digit == 0 { Unary::Inc } else { Unary::Dec }
}

/// The action of C0, C1 and D0 to D3.
#[tactic(auto, unfolding(crate::specs::Instructions::shifting_of))]
fn shifting_at(digit: u8, count: Count) -> Action
    ensures { result ≡ shifting_of digit count }
{
    match shift_at(digit) {
        Some(operation) => Action::Shift { operation, count },
        None => Action::LengthOnly,
    }
}

/// The action of F6 or F7.
#[tactic(auto, unfolding(crate::specs::Instructions::group_three_of))]
fn group_three_at(digit: u8) -> Action
    ensures { result ≡ group_three_of digit }
{
    match digit {
        0 => Action::Arithmetic {
            operation: Binary::Test,
            source: Source::Immediate,
        },
        3 => Action::Unary(Unary::Neg),
        4 => Action::MultiplyAccumulator { signed: false },
        5 => Action::MultiplyAccumulator { signed: true },
        6 => Action::Divide { signed: false },
        7 => Action::Divide { signed: true },
        _ => Action::Unary(Unary::Not),
    }
}

/// The action of FF.
#[tactic(auto, unfolding(crate::specs::Instructions::group_five_of))]
fn group_five_at(digit: u8) -> Action
    ensures { result ≡ group_five_of digit }
{
    match digit {
        2 => Action::CallOperand,
        4 => Action::JumpOperand,
        6 => Action::Push(Source::Operand),
        _ => Action::Unary(counting_at(digit)),
    }
}

/// The operand of an instruction: what its ModRM byte names, if it has one, or the register that its opcode names.
#[inline(always)]
pub(crate) fn named_operand(form: Form, opcode: u8, operand: Operand) -> Operand
    ensures { result ≡ named_operand form opcode operand }
{
    match form {
        Form::Register => Operand::Register(Register::from_number(opcode)),
        _ => operand,
    }
}

/// An operation on two operands.
fn arithmetic(operation: Binary, source: Source) -> Action
    ensures { result ≡ Arithmetic operation source }
{
    Action::Arithmetic { operation, source }
}

/// The action of a line, by one arm for each line of the opcode table.
#[inline(always)]
#[tactic(auto, unfolding(crate::specs::Instructions::action_of))]
fn action_at(line: Line, opcode: u8, digit: u8) -> Action
    ensures { result ≡ action_of line opcode digit }
{
    match line {
        Line::AluTo => arithmetic(arithmetic_at(opcode / 8), Source::Register),
        Line::AluFrom => arithmetic(arithmetic_at(opcode / 8), Source::Operand),
        Line::AluEax => arithmetic(arithmetic_at(opcode / 8), Source::Immediate),
        Line::Inc => Action::Unary(Unary::Inc),
        Line::Dec => Action::Unary(Unary::Dec),
        Line::Push => Action::Push(Source::Operand),
        Line::Pop | Line::PopOperand => Action::Pop,
        Line::PushNumber | Line::PushByte => Action::Push(Source::Immediate),
        Line::ImulNumber | Line::ImulByte => Action::Multiply(Source::Immediate),
        Line::JccShort | Line::Jcc => Action::JumpIf(condition_at(opcode)),
        Line::AluNumber | Line::AluByte => arithmetic(arithmetic_at(digit), Source::Immediate),
        Line::Test => arithmetic(Binary::Test, Source::Register),
        Line::Xchg | Line::XchgEax => Action::Exchange,
        Line::MovTo => Action::Move(Source::Register),
        Line::MovFrom => Action::Move(Source::Operand),
        Line::Lea => Action::LoadAddress,
        Line::Nop => Action::Nop,
        Line::Cwde => Action::ExtendAccumulator,
        Line::Cdq => Action::SpreadSign,
        Line::LoadEax => Action::LoadAccumulator,
        Line::StoreEax => Action::StoreAccumulator,
        Line::TestEax => arithmetic(Binary::Test, Source::Immediate),
        Line::MovByte | Line::MovFull | Line::MovNumber => Action::Move(Source::Immediate),
        Line::ShiftByte => shifting_at(digit, Count::Immediate),
        Line::ShiftOne => shifting_at(digit, Count::One),
        Line::ShiftCl => shifting_at(digit, Count::Cl),
        Line::RetWord => Action::ReturnAndRelease,
        Line::Ret => Action::Return,
        Line::Leave => Action::Leave,
        Line::Call => Action::Call,
        Line::Jmp | Line::JmpShort => Action::Jump,
        Line::GroupThree => group_three_at(digit),
        Line::GroupFour => Action::Unary(counting_at(digit)),
        Line::GroupFive => group_five_at(digit),
        Line::Endbr32 => Action::EndBranch,
        Line::NopOperand => Action::NopOperand,
        Line::Cmovcc => Action::MoveIf(condition_at(opcode)),
        Line::Setcc => Action::SetIf(condition_at(opcode)),
        Line::Imul => Action::Multiply(Source::Register),
        Line::Cmpxchg => Action::CompareExchange,
        Line::Xadd => Action::ExchangeAdd,
        Line::MovzxByte => Action::ZeroExtend(Width::Byte),
        Line::MovzxWord => Action::ZeroExtend(Width::Word),
        Line::MovsxByte => Action::SignExtend(Width::Byte),
        Line::MovsxWord => Action::SignExtend(Width::Word),
        Line::Int3 => Action::Breakpoint,
        Line::Ud2 | Line::NoLine => Action::Undefined,
        Line::Loop => Action::LoopBranch(opcode),
        Line::OpcodeOnly
        | Line::Int
        | Line::Float
        | Line::SecondOnly
        | Line::SecondRm
        | Line::ShiftPair
        | Line::BitTest
        | Line::Cmpxchg8b => Action::LengthOnly,
    }
}

/// The instruction of a line.
#[inline(always)]
#[tactic(auto, unfolding(crate::specs::Instructions::instr_of))]
pub(crate) fn build(line: Line, parts: &Parts) -> Instr
    ensures { result ≡ instr_of line parts.now }
{
    Instr {
        action: action_at(line, parts.opcode, parts.digit),
        width: parts.width,
        operand: parts.operand,
        register: Register::from_number(parts.digit),
        value: parts.value,
    }
}
