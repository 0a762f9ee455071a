//! Where operands stand, and what they hold.
ghost use Rattle.std.specs.Prelude.{◌≡◌};
ghost use Rattle.ia32_alu.specs.declared.types.Width.TheVariants.{Byte, Word, Dword};
ghost use Rattle.ia32_step.specs.Operands.{base_part, index_part, address_of, place_of, number_at, value_at};
ghost use Rattle.ia32_step.specs.Operands.{operand_value, source_value, destination_of};

use crate::types::{Context, Place};
use ia32_alu::Width;
use ia32_decode::{Index, Instr, Memory, Operand, Register, Source};
use image_memory::Space;
use ks_base::Fault;

fn base_part(context: &Context, base: Option<Register>) -> u32
    ensures { result ≡ base_part context.now.registers base }
{
    match base {
        None => 0,
        Some(register) => context.register(Width::Dword, register),
    }
}

fn index_part(context: &Context, index: Index) -> u64
    ensures { result ≡ index_part context.now.registers index }
{
    u64::from(context.register(Width::Dword, index.register)) * u64::from(index.scale.factor())
}

/// The address that a place in memory has: the sum of its parts, modulo 2^32.
#[tactic(auto, unfolding(crate::specs::Operands::address_of))]
pub(crate) fn address_of(context: &Context, memory: &Memory) -> u32
    ensures { result ≡ address_of context.now.registers memory.now }
{
    let index = (index_part(context, memory.index) % 0x1_0000_0000) as u32;
    base_part(context, memory.base)
        .wrapping_add(index)
        .wrapping_add(memory.displacement)
}

/// Where an operand stands.
#[inline(always)]
pub(crate) fn place_of(context: &Context, operand: &Operand) -> Place
    ensures { result ≡ place_of context.now.registers operand.now }
{
    match operand {
        Operand::Register(register) => Place::InRegister(*register),
        Operand::Memory(memory) => Place::InMemory(address_of(context, memory)),
    }
}

#[tactic(auto, unfolding(crate::specs::Operands::number_at))]
fn byte_at<S: Space>(space: &S, address: u32) -> Result<u32, Fault>
    ensures { result ≡ number_at (S.contents space.now).pieces Byte address }
{
    let mut bytes = [0; 1];
    space.read(address, &mut bytes)?;
    Ok(u32::from(bytes[0]))
}

#[tactic(auto, unfolding(crate::specs::Operands::number_at))]
fn word_at<S: Space>(space: &S, address: u32) -> Result<u32, Fault>
    ensures { result ≡ number_at (S.contents space.now).pieces Word address }
{
    let mut bytes = [0; 2];
    space.read(address, &mut bytes)?;
    Ok(u32::from(u16::from_le_bytes(bytes)))
}

#[tactic(auto, unfolding(crate::specs::Operands::number_at))]
fn dword_at<S: Space>(space: &S, address: u32) -> Result<u32, Fault>
    ensures { result ≡ number_at (S.contents space.now).pieces Dword address }
{
    let mut bytes = [0; 4];
    space.read(address, &mut bytes)?;
    Ok(u32::from_le_bytes(bytes))
}

/// The number in memory at an address, or the fault of its first byte that can't be read.
#[inline(never)]
pub(crate) fn number_at<S: Space>(space: &S, width: Width, address: u32) -> Result<u32, Fault>
    ensures { result ≡ number_at (S.contents space.now).pieces width address }
{
    match width {
        Width::Byte => byte_at(space, address),
        Width::Word => word_at(space, address),
        Width::Dword => dword_at(space, address),
    }
}

/// What stands at a place.
#[inline(always)]
#[tactic(auto, unfolding(crate::specs::Operands::value_at))]
pub(crate) fn value_at<S: Space>(
    space: &S,
    context: &Context,
    width: Width,
    place: Place,
) -> Result<u32, Fault>
    ensures { result ≡ value_at (number_at (S.contents space.now).pieces) context.now.registers width place }
{
    match place {
        Place::InRegister(register) => Ok(context.register(width, register)),
        Place::InMemory(address) => number_at(space, width, address),
    }
}

/// What an operand holds.
#[inline(always)]
pub(crate) fn operand_value<S: Space>(
    space: &S,
    context: &Context,
    width: Width,
    operand: &Operand,
) -> Result<u32, Fault>
    ensures { result ≡ operand_value (number_at (S.contents space.now).pieces) context.now width operand.now }
{
    value_at(space, context, width, place_of(context, operand))
}

/// What the second of two operands of an instruction holds.
#[inline(always)]
pub(crate) fn source_value<S: Space>(
    space: &S,
    context: &Context,
    source: Source,
    instr: &Instr,
) -> Result<u32, Fault>
    ensures { result ≡ source_value (number_at (S.contents space.now).pieces) context.now source instr.now }
{
    match source {
        Source::Register => Ok(context.register(instr.width, instr.register)),
        Source::Operand => operand_value(space, context, instr.width, &instr.operand),
        Source::Immediate => Ok(instr.value),
    }
}

/// Where the first of two operands of an instruction stands.
#[inline(always)]
pub(crate) fn destination_place(context: &Context, source: Source, instr: &Instr) -> Place
    ensures { result ≡ place_of context.now.registers (destination_of source instr.now) }
{
    match source {
        Source::Operand => Place::InRegister(instr.register),
        Source::Register | Source::Immediate => place_of(context, &instr.operand),
    }
}
