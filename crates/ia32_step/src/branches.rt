//! Jumps, calls and returns, of a thread whose pc is the address after the instruction.
ghost use Rattle.std.specs.Prelude.{◌≡◌};
ghost use Rattle.ia32_step.specs.Operands.{number_at};
ghost use Rattle.ia32_step.specs.Branches.{jumped_by, jumped_if, jumped_to, called, called_by, called_to, returning};
ghost use Rattle.ia32_step.specs.Branches.{returned};
ghost use Rattle.ia32_step.specs.inside.Comes.{Comes};

use crate::changes::above;
use crate::moves::holds;
use crate::operands::operand_value;
use crate::types::{Change, Context, Flow};
use ia32_alu::Width;
use ia32_decode::{Condition, Operand};
use image_memory::Space;
use ks_base::Fault;

/// JMP by a displacement.
pub(crate) fn jump_by(change: &mut Change, relative: u32)
    ensures { change.new ≡ jumped_by relative change.old.context }
{
    change.context.pc = above(change.context.pc, relative);
    change.go_on();
}

/// Jcc.
pub(crate) fn jump_if(change: &mut Change, condition: Condition, relative: u32)
    ensures { change.new ≡ jumped_if condition relative change.old.context }
{
    if holds(condition, change.context.flags) {
        change.context.pc = above(change.context.pc, relative);
    }
    change.go_on();
}

/// JMP to where an operand says.
#[tactic(auto, unfolding(crate::specs::Branches::jumped_to))]
pub(crate) fn jump_to<S: Space>(
    space: &S,
    change: &mut Change,
    operand: &Operand,
) -> Result<(), Fault>
    ensures { Comes result change.new
        (jumped_to (number_at (S.contents space.now).pieces) operand.now change.old.context) }
{
    let target = operand_value(space, &change.context, Width::Dword, operand)?;
    change.context.pc = target;
    change.go_on();
    Ok(())
}

fn call(change: &mut Change, target: u32)
    ensures { change.new ≡ called target change.old.context }
{
    let next = change.context.pc;
    change.context.pc = target;
    change.push(next);
    change.flow = Flow::Call;
}

/// CALL by a displacement.
pub(crate) fn call_by(change: &mut Change, relative: u32)
    ensures { change.new ≡ called_by relative change.old.context }
{
    let target = above(change.context.pc, relative);
    call(change, target);
}

/// CALL to where an operand says.
#[tactic(auto, unfolding(crate::specs::Branches::called_to))]
pub(crate) fn call_to<S: Space>(
    space: &S,
    change: &mut Change,
    operand: &Operand,
) -> Result<(), Fault>
    ensures { Comes result change.new
        (called_to (number_at (S.contents space.now).pieces) operand.now change.old.context) }
{
    let callee = operand_value(space, &change.context, Width::Dword, operand)?;
    call(change, callee);
    Ok(())
}

fn go_back(change: &mut Change, bytes: u32, target: u32)
    ensures { change.new ≡ returning bytes target change.old.context }
{
    change.context.raise(bytes);
    change.context.pc = target;
    change.flow = Flow::Return;
    change.store = None;
}

/// RET, which raises ESP by a number of further bytes.
#[tactic(auto, unfolding(crate::specs::Branches::returned))]
pub(crate) fn return_from<S: Space>(space: &S, change: &mut Change, bytes: u32) -> Result<(), Fault>
    ensures { Comes result change.new
        (returned (number_at (S.contents space.now).pieces) bytes change.old.context) }
{
    let target = change.context.popped(space)?;
    go_back(change, bytes, target);
    Ok(())
}
