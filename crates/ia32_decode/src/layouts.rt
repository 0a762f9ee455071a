//! How each line is laid out.
ghost use Rattle.std.specs.Prelude.{◌≡◌, ◌≤◌};
ghost use Rattle.ia32_decode.specs.Table.{shape_of, digit_allowed, width_of, full_width_of, follows_width};

use crate::opcode_table::{Digits, Follows, Form, Line, Shape, Sizing};
use ia32_alu::Width;

/// A layout of the four parts.
fn laid_out(form: Form, sizing: Sizing, digits: Digits, follows: Follows) -> Shape
    ensures { result ≡ record { form = form; sizing = sizing; digits = digits; follows = follows } }
{
    Shape {
        form,
        sizing,
        digits,
        follows,
    }
}

/// How a line is laid out: an arm for each row of the table, in the order of its definition.
#[inline(always)]
#[tactic(auto, unfolding(crate::specs::Table::row))]
pub(crate) fn shape_at(line: Line) -> Shape
    ensures { result ≡ shape_of line }
{
    match line {
        Line::NoLine => laid_out(Form::Unlisted, Sizing::Full, Digits::Any, Follows::Nothing),
        Line::AluTo => laid_out(Form::ModRm, Sizing::LowBit, Digits::Any, Follows::Nothing),
        Line::AluFrom => laid_out(Form::ModRm, Sizing::LowBit, Digits::Any, Follows::Nothing),
        Line::AluEax => laid_out(Form::Plain, Sizing::LowBit, Digits::Any, Follows::Sized),
        Line::Inc => laid_out(Form::Register, Sizing::Full, Digits::Any, Follows::Nothing),
        Line::Dec => laid_out(Form::Register, Sizing::Full, Digits::Any, Follows::Nothing),
        Line::Push => laid_out(Form::Register, Sizing::Full, Digits::Any, Follows::Nothing),
        Line::Pop => laid_out(Form::Register, Sizing::Full, Digits::Any, Follows::Nothing),
        Line::PushNumber => laid_out(Form::Plain, Sizing::Full, Digits::Any, Follows::Sized),
        Line::PushByte => laid_out(Form::Plain, Sizing::Full, Digits::Any, Follows::SignedByte),
        Line::ImulNumber => laid_out(Form::ModRm, Sizing::Full, Digits::Any, Follows::Sized),
        Line::ImulByte => laid_out(Form::ModRm, Sizing::Full, Digits::Any, Follows::SignedByte),
        Line::JccShort => laid_out(Form::Branch, Sizing::Full, Digits::Any, Follows::SignedByte),
        Line::AluNumber => laid_out(Form::ModRm, Sizing::LowBit, Digits::Any, Follows::Sized),
        Line::AluByte => laid_out(Form::ModRm, Sizing::Full, Digits::Any, Follows::SignedByte),
        Line::Test => laid_out(Form::ModRm, Sizing::LowBit, Digits::Any, Follows::Nothing),
        Line::Xchg => laid_out(Form::ModRm, Sizing::LowBit, Digits::Any, Follows::Nothing),
        Line::MovTo => laid_out(Form::ModRm, Sizing::LowBit, Digits::Any, Follows::Nothing),
        Line::MovFrom => laid_out(Form::ModRm, Sizing::LowBit, Digits::Any, Follows::Nothing),
        Line::Lea => laid_out(Form::Memory, Sizing::Full, Digits::Any, Follows::Nothing),
        Line::PopOperand => laid_out(Form::ModRm, Sizing::Full, Digits::Zero, Follows::Nothing),
        Line::Nop => laid_out(Form::Plain, Sizing::Full, Digits::Any, Follows::Nothing),
        Line::XchgEax => laid_out(Form::Register, Sizing::Full, Digits::Any, Follows::Nothing),
        Line::Cwde => laid_out(Form::Plain, Sizing::Full, Digits::Any, Follows::Nothing),
        Line::Cdq => laid_out(Form::Plain, Sizing::Full, Digits::Any, Follows::Nothing),
        Line::LoadEax => laid_out(Form::Plain, Sizing::LowBit, Digits::Any, Follows::Address),
        Line::StoreEax => laid_out(Form::Plain, Sizing::LowBit, Digits::Any, Follows::Address),
        Line::TestEax => laid_out(Form::Plain, Sizing::LowBit, Digits::Any, Follows::Sized),
        Line::MovByte => laid_out(Form::Register, Sizing::Byte, Digits::Any, Follows::Sized),
        Line::MovFull => laid_out(Form::Register, Sizing::Full, Digits::Any, Follows::Sized),
        Line::ShiftByte => laid_out(Form::ModRm, Sizing::LowBit, Digits::NotSix, Follows::Byte),
        Line::ShiftOne => laid_out(
            Form::ModRm,
            Sizing::LowBit,
            Digits::NotSix,
            Follows::Nothing,
        ),
        Line::ShiftCl => laid_out(
            Form::ModRm,
            Sizing::LowBit,
            Digits::NotSix,
            Follows::Nothing,
        ),
        Line::RetWord => laid_out(Form::Plain, Sizing::Full, Digits::Any, Follows::Word),
        Line::Ret => laid_out(Form::Plain, Sizing::Full, Digits::Any, Follows::Nothing),
        Line::MovNumber => laid_out(Form::ModRm, Sizing::LowBit, Digits::Zero, Follows::Sized),
        Line::Leave => laid_out(Form::Plain, Sizing::Full, Digits::Any, Follows::Nothing),
        Line::Call => laid_out(Form::Branch, Sizing::Full, Digits::Any, Follows::Dword),
        Line::Jmp => laid_out(Form::Branch, Sizing::Full, Digits::Any, Follows::Dword),
        Line::JmpShort => laid_out(Form::Branch, Sizing::Full, Digits::Any, Follows::SignedByte),
        Line::GroupThree => laid_out(Form::ModRm, Sizing::LowBit, Digits::NotOne, Follows::Tested),
        Line::GroupFour => laid_out(
            Form::ModRm,
            Sizing::Byte,
            Digits::ZeroOrOne,
            Follows::Nothing,
        ),
        Line::GroupFive => laid_out(
            Form::ModRm,
            Sizing::Full,
            Digits::OfGroupFive,
            Follows::Nothing,
        ),
        Line::Endbr32 => laid_out(Form::EndBranch, Sizing::Full, Digits::Any, Follows::Nothing),
        Line::NopOperand => laid_out(Form::ModRm, Sizing::Full, Digits::Zero, Follows::Nothing),
        Line::Cmovcc => laid_out(Form::ModRm, Sizing::Full, Digits::Any, Follows::Nothing),
        Line::Jcc => laid_out(Form::Branch, Sizing::Full, Digits::Any, Follows::Dword),
        Line::Setcc => laid_out(Form::ModRm, Sizing::Byte, Digits::Any, Follows::Nothing),
        Line::Imul => laid_out(Form::ModRm, Sizing::Full, Digits::Any, Follows::Nothing),
        Line::Cmpxchg => laid_out(Form::ModRm, Sizing::Full, Digits::Any, Follows::Nothing),
        Line::Xadd => laid_out(Form::ModRm, Sizing::Full, Digits::Any, Follows::Nothing),
        Line::MovzxByte => laid_out(Form::ModRm, Sizing::Full, Digits::Any, Follows::Nothing),
        Line::MovzxWord => laid_out(Form::ModRm, Sizing::Full, Digits::Any, Follows::Nothing),
        Line::MovsxByte => laid_out(Form::ModRm, Sizing::Full, Digits::Any, Follows::Nothing),
        Line::MovsxWord => laid_out(Form::ModRm, Sizing::Full, Digits::Any, Follows::Nothing),
        Line::Int3 => laid_out(Form::Plain, Sizing::Full, Digits::Any, Follows::Nothing),
        Line::Ud2 => laid_out(Form::Plain, Sizing::Full, Digits::Any, Follows::Nothing),
        Line::OpcodeOnly => laid_out(Form::Plain, Sizing::Full, Digits::Any, Follows::Nothing),
        Line::Int => laid_out(Form::Plain, Sizing::Full, Digits::Any, Follows::Byte),
        Line::Loop => laid_out(Form::Branch, Sizing::Full, Digits::Any, Follows::SignedByte),
        Line::Float => laid_out(Form::ModRm, Sizing::Full, Digits::Any, Follows::Nothing),
        Line::SecondOnly => laid_out(Form::Plain, Sizing::Full, Digits::Any, Follows::Nothing),
        Line::SecondRm => laid_out(Form::ModRm, Sizing::Full, Digits::Any, Follows::Nothing),
        Line::ShiftPair => laid_out(Form::ModRm, Sizing::Full, Digits::Any, Follows::Byte),
        Line::BitTest => laid_out(Form::ModRm, Sizing::Full, Digits::FourUp, Follows::Byte),
        Line::Cmpxchg8b => laid_out(Form::Memory, Sizing::Full, Digits::One, Follows::Nothing),
    }
}

/// Whether a digit is listed, by a test for each group. Most lines list all digits, and need no call.
#[inline(never)]
fn lists(digits: Digits, digit: u8) -> bool
    ensures { result ≡ digit_allowed digits digit }
{
    match digits {
        Digits::Any => true,
        Digits::Zero => digit == 0,
        Digits::One => digit == 1,
        Digits::ZeroOrOne => digit <= 1,
        Digits::NotSix => digit != 6,
        Digits::NotOne => digit != 1,
        Digits::OfGroupFive => digit <= 2 || digit == 4 || digit == 6,
        Digits::FourUp => 4 <= digit,
    }
}

/// Whether a digit is listed.
pub(crate) fn allows(digits: Digits, digit: u8) -> bool
    ensures { result ≡ digit_allowed digits digit }
{
    match digits {
        Digits::Any => true,
        _ => lists(digits, digit),
    }
}

/// 32 bits, or 16 with prefix 66.
pub(crate) fn full_width(small: bool) -> Width
    ensures { result ≡ full_width_of small }
{
    if small { Width::Word } else { Width::Dword }
}

/// How wide the operands are. `small` says that there is a prefix 66.
pub(crate) fn width(sizing: Sizing, opcode: u8, small: bool) -> Width
    ensures { result ≡ width_of sizing opcode small }
{
    match sizing {
        Sizing::Byte => Width::Byte,
        Sizing::Full => full_width(small),
        Sizing::LowBit => {
            if opcode % 2 == 0 {
                Width::Byte
            } else {
                full_width(small)
            }
        }
    }
}

/// How many bytes the number at the end has.
pub(crate) fn trailing_width(follows: Follows, width: Width, digit: u8) -> u32
    ensures value { result ≡ follows_width follows width digit }
    ensures bound { result ≤ 4 }
{
    match follows {
        Follows::Nothing => 0,
        Follows::Byte => 1,
        Follows::SignedByte => 1,
        Follows::Word => 2,
        Follows::Dword => 4,
        Follows::Address => 4,
        Follows::Sized => width.byte_count(),
        Follows::Tested => { if digit == 0 { width.byte_count() } else { 0 } }
    }
}
