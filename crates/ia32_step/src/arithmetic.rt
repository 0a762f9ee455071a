//! Sums, differences, bitwise operations and shifts.
ghost use Rattle.std.specs.Prelude.{◌≡◌, true};
ghost use Rattle.ia32_step.specs.Operands.{number_at, source_value, destination_of};
ghost use Rattle.ia32_step.specs.Arithmetic.{settled, combined, altered, takes_width, count_of, shifted};
ghost use Rattle.ia32_step.specs.inside.Comes.{Comes};

use crate::operands::{destination_place, place_of, source_value, value_at};
use crate::types::{Change, Context, Place};
use ia32_alu::{Binary, Flags, Shift, Unary, Width};
use ia32_decode::{Count, Instr, Operand, Register, Source};
use image_memory::Space;
use ks_base::Fault;

/// What comes of two numbers goes to a place, but CMP and TEST set the flags alone.
fn settle(
    change: &mut Change,
    operation: Binary,
    width: Width,
    place: Place,
    result_of: (u32, Flags),
)
    ensures { change.new ≡ settled operation width place result_of change.old.context }
{
    let (value, flags) = result_of;
    change.context.flags = flags;
    match operation {
        Binary::Cmp | Binary::Test => change.go_on(),
        _ => change.put(place, width, value),
    }
}

/// ADD, OR, ADC, SBB, AND, SUB, XOR, CMP and TEST of two operands.
#[tactic(auto, unfolding(crate::specs::Arithmetic::combined))]
pub(crate) fn combine<S: Space>(
    space: &S,
    change: &mut Change,
    operation: Binary,
    source: Source,
    instr: &Instr,
) -> Result<(), Fault>
    ensures { Comes result change.new
        (combined (number_at (S.contents space.now).pieces) operation instr.now.width (destination_of source instr.now)
        (source_value (number_at (S.contents space.now).pieces) change.old.context source instr.now)
        change.old.context) }
{
    let place = destination_place(&change.context, source, instr);
    let a = value_at(space, &change.context, instr.width, place)?;
    let b = source_value(space, &change.context, source, instr)?;
    let result_of = ia32_alu::binary(operation, instr.width, a, b, change.context.flags);
    settle(change, operation, instr.width, place, result_of);
    Ok(())
}

/// INC, DEC, NOT and NEG.
#[tactic(auto, unfolding(crate::specs::Arithmetic::altered))]
pub(crate) fn alter<S: Space>(
    space: &S,
    change: &mut Change,
    operation: Unary,
    width: Width,
    operand: &Operand,
) -> Result<(), Fault>
    ensures { Comes result change.new
        (altered (number_at (S.contents space.now).pieces) operation width operand.now change.old.context) }
{
    let place = place_of(&change.context, operand);
    let a = value_at(space, &change.context, width, place)?;
    let (value, flags) = ia32_alu::unary(operation, width, a, change.context.flags);
    change.context.flags = flags;
    change.put(place, width, value);
    Ok(())
}

/// Whether a shift or rotate is carried out at a width.
pub(crate) fn takes_width(operation: Shift, width: Width) -> bool
    ensures { result ≡ takes_width operation width }
{
    match operation {
        Shift::Rol | Shift::Ror => width.is_dword(),
        Shift::Shl | Shift::Shr | Shift::Sar => true,
    }
}

/// How many places are shifted.
#[tactic(auto, unfolding(crate::specs::Registers::register_value))]
pub(crate) fn count_of(count: Count, value: u32, context: &Context) -> u8
    ensures { result ≡ count_of count value context.now }
{
    match count {
        Count::One => 1,
        Count::Immediate => (value % 0x100) as u8,
        Count::Cl => (context.register(Width::Dword, Register::Ecx) % 0x100) as u8,
    }
}

/// A shift or rotate by a count.
#[tactic(auto, unfolding(crate::specs::Arithmetic::shifted))]
pub(crate) fn shift<S: Space>(
    space: &S,
    change: &mut Change,
    operation: Shift,
    width: Width,
    operand: &Operand,
    count: u8,
) -> Result<(), Fault>
    ensures { Comes result change.new
        (shifted (number_at (S.contents space.now).pieces) operation width operand.now count change.old.context) }
{
    if !takes_width(operation, width) {
        return Err(Fault::Unsupported);
    }
    let place = place_of(&change.context, operand);
    let a = value_at(space, &change.context, width, place)?;
    let (value, flags) = ia32_alu::shift(operation, width, a, count, change.context.flags);
    change.context.flags = flags;
    change.put(place, width, value);
    Ok(())
}
