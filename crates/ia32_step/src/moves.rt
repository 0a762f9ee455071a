//! Moves, exchanges and extensions.
ghost use Rattle.std.specs.Prelude.{◌≡◌, ◌-◌, ◌^◌};
ghost use Rattle.ia32_alu.specs.Numbers.{size, highest, unsigned};
ghost use Rattle.ia32_step.specs.Operands.{number_at, source_value, destination_of};
ghost use Rattle.ia32_step.specs.Moves.{copied, accumulator_loaded, accumulator_stored, address_in, address_taken, exchanged};
ghost use Rattle.ia32_step.specs.Moves.{exchanged_and_added, compared_and_exchanged, compare_exchanged, holds};
ghost use Rattle.ia32_step.specs.Moves.{copied_if, set_by, sign_extended, zero_extended_to, sign_extended_to, half};
ghost use Rattle.ia32_step.specs.Moves.{accumulator_extended, sign_spread};
ghost use Rattle.ia32_step.specs.inside.Comes.{Comes};

use crate::operands::{
    address_of, destination_place, number_at, operand_value, place_of, source_value, value_at,
};
use crate::types::{Change, Context, Place};
use ia32_alu::{Binary, Flags, Width};
use ia32_decode::{Condition, Instr, Operand, Register, Source};
use image_memory::Space;
use ks_base::Fault;

/// MOV.
#[tactic(auto, unfolding(crate::specs::Moves::copied))]
pub(crate) fn copy<S: Space>(
    space: &S,
    change: &mut Change,
    source: Source,
    instr: &Instr,
) -> Result<(), Fault>
    ensures { Comes result change.new
        (copied instr.now.width (destination_of source instr.now)
        (source_value (number_at (S.contents space.now).pieces) change.old.context source instr.now)
        change.old.context) }
{
    let value = source_value(space, &change.context, source, instr)?;
    let place = destination_place(&change.context, source, instr);
    change.put(place, instr.width, value);
    Ok(())
}

/// MOV to the accumulator from an address.
#[tactic(auto, unfolding(crate::specs::Moves::accumulator_loaded))]
pub(crate) fn load_accumulator<S: Space>(
    space: &S,
    change: &mut Change,
    width: Width,
    address: u32,
) -> Result<(), Fault>
    ensures { Comes result change.new
        (accumulator_loaded (number_at (S.contents space.now).pieces) width address change.old.context) }
{
    let value = number_at(space, width, address)?;
    change.context.put_register(width, Register::Eax, value);
    change.go_on();
    Ok(())
}

/// MOV from the accumulator to an address.
pub(crate) fn store_accumulator(change: &mut Change, width: Width, address: u32)
    ensures { change.new ≡ accumulator_stored width address change.old.context }
{
    let value = change.context.accumulator(width);
    change.write(address, width, value);
}

/// The address of a place in memory.
fn address_in(context: &Context, operand: &Operand) -> u32
    ensures { result ≡ address_in context.now.registers operand.now }
{
    match operand {
        Operand::Memory(memory) => address_of(context, memory),
        Operand::Register(_) => 0,
    }
}

/// LEA.
pub(crate) fn take_address(change: &mut Change, width: Width, register: Register, operand: &Operand)
    ensures { change.new ≡ address_taken width register operand.now change.old.context }
{
    let address = address_in(&change.context, operand);
    change.context.put_register(width, register, address);
    change.go_on();
}

/// XCHG.
#[tactic(auto, unfolding(crate::specs::Moves::exchanged))]
pub(crate) fn exchange<S: Space>(
    space: &S,
    change: &mut Change,
    width: Width,
    operand: &Operand,
    register: Register,
) -> Result<(), Fault>
    ensures { Comes result change.new
        (exchanged (number_at (S.contents space.now).pieces) width operand.now register change.old.context) }
{
    let place = place_of(&change.context, operand);
    let value = value_at(space, &change.context, width, place)?;
    let own = change.context.register(width, register);
    change.context.put_register(width, register, value);
    change.put(place, width, own);
    Ok(())
}

/// XADD.
#[tactic(auto, unfolding(crate::specs::Moves::exchanged_and_added))]
pub(crate) fn exchange_and_add<S: Space>(
    space: &S,
    change: &mut Change,
    width: Width,
    operand: &Operand,
    register: Register,
) -> Result<(), Fault>
    ensures { Comes result change.new
        (exchanged_and_added (number_at (S.contents space.now).pieces) width operand.now register change.old.context) }
{
    let place = place_of(&change.context, operand);
    let a = value_at(space, &change.context, width, place)?;
    let b = change.context.register(width, register);
    let (sum, flags) = ia32_alu::binary(Binary::Add, width, a, b, change.context.flags);
    change.context.flags = flags;
    change.context.put_register(width, register, a);
    change.put(place, width, sum);
    Ok(())
}

fn settle_comparison(
    change: &mut Change,
    place: Place,
    width: Width,
    a: u32,
    value: u32,
    compared: (u32, Flags),
)
    ensures { change.new ≡ compared_and_exchanged place width a value compared change.old.context }
{
    let (_, flags) = compared;
    change.context.flags = flags;
    if flags.zf {
        change.put(place, width, value);
    } else {
        change.context.put_register(width, Register::Eax, a);
        change.put(place, width, a);
    }
}

/// CMPXCHG.
#[tactic(auto, unfolding(crate::specs::Moves::compare_exchanged))]
pub(crate) fn compare_exchange<S: Space>(
    space: &S,
    change: &mut Change,
    width: Width,
    operand: &Operand,
    register: Register,
) -> Result<(), Fault>
    ensures { Comes result change.new
        (compare_exchanged (number_at (S.contents space.now).pieces) width operand.now register change.old.context) }
{
    let place = place_of(&change.context, operand);
    let a = value_at(space, &change.context, width, place)?;
    let value = change.context.register(width, register);
    let compared = ia32_alu::binary(
        Binary::Cmp,
        width,
        change.context.accumulator(width),
        a,
        change.context.flags,
    );
    settle_comparison(change, place, width, a, value, compared);
    Ok(())
}

/// Whether a condition holds of the flags.
pub(crate) fn holds(condition: Condition, flags: Flags) -> bool
    ensures { result ≡ holds condition flags }
{
    ia32_alu::condition(condition.number(), flags)
}

/// CMOVcc.
#[tactic(auto, unfolding(crate::specs::Moves::copied_if))]
pub(crate) fn copy_if<S: Space>(
    space: &S,
    change: &mut Change,
    condition: Condition,
    width: Width,
    register: Register,
    source: &Operand,
) -> Result<(), Fault>
    ensures { Comes result change.new
        (copied_if (number_at (S.contents space.now).pieces) condition width register source.now change.old.context) }
{
    let taken = operand_value(space, &change.context, width, source)?;
    if holds(condition, change.context.flags) {
        change.context.put_register(width, register, taken);
    }
    change.go_on();
    Ok(())
}

/// SETcc.
pub(crate) fn set_by(change: &mut Change, condition: Condition, operand: &Operand)
    ensures { change.new ≡ set_by condition operand.now change.old.context }
{
    let place = place_of(&change.context, operand);
    let bit = u32::from(holds(condition, change.context.flags));
    change.put(place, Width::Byte, bit);
}

#[tactic(auto, unfolding(ia32_alu::specs::Numbers::highest))]
fn is_negative(width: Width, value: u32) -> bool
    ensures { result ≡ highest (size width) value }
{
    match width {
        Width::Byte => value % 0x100 >= 0x80,
        Width::Word => value % 0x1_0000 >= 0x8000,
        Width::Dword => value >= 0x8000_0000,
    }
}

/// The lowest bits of a number, of a width.
fn cut(width: Width, value: u32) -> u32
    ensures { result ≡ unsigned (size width) value }
{
    match width {
        Width::Byte => value % 0x100,
        Width::Word => value % 0x1_0000,
        Width::Dword => value,
    }
}

/// All bits above those of a width.
fn upper_bits(width: Width) -> u32
    ensures { result ≡ 2 ^ 32 - 2 ^ size width }
{
    match width {
        Width::Byte => 0xFFFF_FF00,
        Width::Word => 0xFFFF_0000,
        Width::Dword => 0,
    }
}

/// A number of a width in two's complement, as 32 bits.
#[tactic(auto, unfolding(crate::specs::Moves::sign_extended))]
fn sign_extended(width: Width, value: u32) -> u32
    ensures { result ≡ sign_extended (size width) value }
{
    if is_negative(width, value) {
        upper_bits(width) + cut(width, value)
    } else {
        cut(width, value)
    }
}

/// MOVZX.
#[tactic(auto, unfolding(crate::specs::Moves::zero_extended_to))]
pub(crate) fn zero_extend<S: Space>(
    space: &S,
    change: &mut Change,
    from: Width,
    width: Width,
    register: Register,
    source: &Operand,
) -> Result<(), Fault>
    ensures { Comes result change.new
        (zero_extended_to (number_at (S.contents space.now).pieces) from width register source.now change.old.context) }
{
    let value = operand_value(space, &change.context, from, source)?;
    change.context.put_register(width, register, value);
    change.go_on();
    Ok(())
}

/// MOVSX.
#[tactic(auto, unfolding(crate::specs::Moves::sign_extended_to))]
pub(crate) fn sign_extend<S: Space>(
    space: &S,
    change: &mut Change,
    from: Width,
    width: Width,
    register: Register,
    source: &Operand,
) -> Result<(), Fault>
    ensures { Comes result change.new
        (sign_extended_to (number_at (S.contents space.now).pieces) from width register source.now change.old.context) }
{
    let value = operand_value(space, &change.context, from, source)?;
    change
        .context
        .put_register(width, register, sign_extended(from, value));
    change.go_on();
    Ok(())
}

fn half(width: Width) -> Width
    ensures { result ≡ half width }
{
    match width {
        Width::Byte | Width::Word => Width::Byte,
        Width::Dword => Width::Word,
    }
}

/// CBW and CWDE.
pub(crate) fn extend_accumulator(change: &mut Change, width: Width)
    ensures { change.new ≡ accumulator_extended width change.old.context }
{
    let lower = change.context.accumulator(half(width));
    change
        .context
        .put_register(width, Register::Eax, sign_extended(half(width), lower));
    change.go_on();
}

/// CWD and CDQ.
pub(crate) fn spread_sign(change: &mut Change, width: Width)
    ensures { change.new ≡ sign_spread width change.old.context }
{
    let sign = if is_negative(width, change.context.accumulator(width)) {
        0xFFFF_FFFF
    } else {
        0
    };
    change.context.put_register(width, Register::Edx, sign);
    change.go_on();
}
