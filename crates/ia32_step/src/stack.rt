//! Pushes and pops of 32 bits.
ghost use Rattle.ia32_step.specs.Operands.{number_at, source_value};
ghost use Rattle.ia32_step.specs.Stack.{pushed, popped_to, left};
ghost use Rattle.ia32_step.specs.inside.Comes.{Comes};

use crate::operands::{place_of, source_value};
use crate::types::{Change, Context};
use ia32_alu::Width;
use ia32_decode::{Instr, Operand, Register, Source};
use image_memory::Space;
use ks_base::Fault;

/// PUSH of 32 bits.
#[tactic(auto, unfolding(crate::specs::Stack::pushed))]
pub(crate) fn push<S: Space>(
    space: &S,
    change: &mut Change,
    source: Source,
    instr: &Instr,
) -> Result<(), Fault>
    ensures { Comes result change.new
        (pushed (source_value (number_at (S.contents space.now).pieces) change.old.context source instr.now)
        change.old.context) }
{
    let value = source_value(space, &change.context, source, instr)?;
    change.push(value);
    Ok(())
}

/// POP.
#[tactic(auto, unfolding(crate::specs::Stack::popped_to))]
pub(crate) fn pop<S: Space>(space: &S, change: &mut Change, operand: &Operand) -> Result<(), Fault>
    ensures { Comes result change.new
        (popped_to (number_at (S.contents space.now).pieces) operand.now change.old.context) }
{
    let value = change.context.popped(space)?;
    change.context.raise(0);
    let place = place_of(&change.context, operand);
    change.put(place, Width::Dword, value);
    Ok(())
}

/// LEAVE.
#[tactic(auto, unfolding(crate::specs::Stack::left))]
pub(crate) fn leave<S: Space>(space: &S, change: &mut Change) -> Result<(), Fault>
    ensures { Comes result change.new (left (number_at (S.contents space.now).pieces) change.old.context) }
{
    let base = change.context.register(Width::Dword, Register::Ebp);
    change.context.put_stack_top(base);
    pop(space, change, &Operand::Register(Register::Ebp))
}
