//! What an instruction does, and which are not carried out.
ghost use Rattle.std.specs.Prelude.{◌≡◌};
ghost use Rattle.ia32_step.specs.Operands.{number_at, destination_of};
ghost use Rattle.ia32_step.specs.Exec.{done_by, is_stepped, takes_repeat, refuses_prefixes, traps, is_memory, writes};
ghost use Rattle.ia32_step.specs.Exec.{takes_lock, executed};
ghost use Rattle.ia32_step.specs.inside.Comes.{Comes};

use crate::arithmetic::{alter, combine, count_of, shift, takes_width};
use crate::branches::{call_by, call_to, jump_by, jump_if, jump_to, return_from};
use crate::changes::above;
use crate::moves::{
    compare_exchange, copy, copy_if, exchange, exchange_and_add, extend_accumulator,
    load_accumulator, set_by, sign_extend, spread_sign, store_accumulator, take_address,
    zero_extend,
};
use crate::products::{divide, multiply, take_product};
use crate::stack::{leave, pop, push};
use crate::types::Change;
use ia32_alu::{Binary, Width};
use ia32_decode::{Action, Decoded, Instr, Operand, Prefixes, Source};
use image_memory::Space;
use ks_base::Fault;

/// What an instruction does to a thread whose pc is the address after it.
#[tactic(auto, unfolding(crate::specs::Exec::done_by))]
fn change_of<S: Space>(space: &S, change: &mut Change, instr: &Instr) -> Result<(), Fault>
    ensures { Comes result change.new
        (done_by (number_at (S.contents space.now).pieces) instr.now.action instr.now change.old.context) }
{
    let Instr {
        action,
        width,
        operand,
        register,
        value,
    } = instr;
    match *action {
        Action::Arithmetic { operation, source } => {
            combine(space, change, operation, source, instr)
        }
        Action::Unary(operation) => alter(space, change, operation, *width, operand),
        Action::MultiplyAccumulator { signed } => multiply(space, change, signed, *width, operand),
        Action::Divide { signed } => divide(space, change, signed, *width, operand),
        Action::Multiply(source) => take_product(space, change, source, instr),
        Action::Shift { operation, count } => {
            let count = count_of(count, *value, &change.context);
            shift(space, change, operation, *width, operand, count)
        }
        Action::Move(source) => copy(space, change, source, instr),
        Action::LoadAccumulator => load_accumulator(space, change, *width, *value),
        Action::StoreAccumulator => {
            store_accumulator(change, *width, *value);
            Ok(())
        }
        Action::LoadAddress => {
            take_address(change, *width, *register, operand);
            Ok(())
        }
        Action::Exchange => exchange(space, change, *width, operand, *register),
        Action::ExchangeAdd => exchange_and_add(space, change, *width, operand, *register),
        Action::CompareExchange => compare_exchange(space, change, *width, operand, *register),
        Action::MoveIf(condition) => {
            copy_if(space, change, condition, *width, *register, operand)
        }
        Action::SetIf(condition) => {
            set_by(change, condition, operand);
            Ok(())
        }
        Action::ZeroExtend(from) => zero_extend(space, change, from, *width, *register, operand),
        Action::SignExtend(from) => sign_extend(space, change, from, *width, *register, operand),
        Action::ExtendAccumulator => {
            extend_accumulator(change, *width);
            Ok(())
        }
        Action::SpreadSign => {
            spread_sign(change, *width);
            Ok(())
        }
        Action::Push(source) => push(space, change, source, instr),
        Action::Pop => pop(space, change, operand),
        Action::Leave => leave(space, change),
        Action::JumpIf(condition) => {
            jump_if(change, condition, *value);
            Ok(())
        }
        Action::Jump => {
            jump_by(change, *value);
            Ok(())
        }
        Action::JumpOperand => jump_to(space, change, operand),
        Action::Call => {
            call_by(change, *value);
            Ok(())
        }
        Action::CallOperand => call_to(space, change, operand),
        Action::Return => return_from(space, change, 0),
        Action::ReturnAndRelease => return_from(space, change, *value),
        Action::Nop | Action::EndBranch | Action::NopOperand => {
            change.go_on();
            Ok(())
        }
        Action::Breakpoint | Action::Undefined => Err(Fault::Trap),
        Action::LoopBranch(_) | Action::LengthOnly => Err(Fault::Unsupported),
    }
}

/// Whether an action at a width is carried out or traps; of all others the length alone is known.
#[tactic(auto, unfolding(crate::specs::Exec::is_stepped))]
fn is_stepped(action: Action, width: Width) -> bool
    ensures { result ≡ is_stepped action width }
{
    match action {
        Action::Shift { operation, .. } => takes_width(operation, width),
        Action::Push(_)
        | Action::Pop
        | Action::Leave
        | Action::JumpOperand
        | Action::CallOperand
        | Action::Return
        | Action::ReturnAndRelease => width.is_dword(),
        Action::LoopBranch(_) | Action::LengthOnly => false,
        _ => true,
    }
}

/// Whether the prefix F3 may stand before an instruction.
fn takes_repeat(action: Action) -> bool
    ensures { result ≡ takes_repeat action }
{
    matches!(action, Action::Nop | Action::Return | Action::EndBranch)
}

/// Whether there is a prefix that isn't carried out.
#[tactic(auto, unfolding(crate::specs::Exec::refuses_prefixes))]
fn refuses_prefixes(prefixes: &Prefixes, action: Action) -> bool
    ensures { result ≡ refuses_prefixes prefixes.now action }
{
    if prefixes.repeat_not_equal || prefixes.segment_f || prefixes.segment_g {
        return true;
    }
    prefixes.repeat && !takes_repeat(action)
}

fn traps(action: Action) -> bool
    ensures { result ≡ traps action }
{
    matches!(action, Action::Breakpoint | Action::Undefined)
}

fn is_memory(operand: &Operand) -> bool
    ensures { result ≡ is_memory operand.now }
{
    matches!(*operand, Operand::Memory(_))
}

fn writes(operation: Binary) -> bool
    ensures { result ≡ writes operation }
{
    !matches!(operation, Binary::Cmp | Binary::Test)
}

/// Whether the first of two operands of an instruction is in memory.
fn goes_to_memory(source: Source, instr: &Instr) -> bool
    ensures { result ≡ is_memory (destination_of source instr.now) }
{
    match source {
        Source::Operand => false,
        Source::Register | Source::Immediate => is_memory(&instr.operand),
    }
}

/// Whether the prefix F0 may stand before an instruction.
#[tactic(auto, unfolding(crate::specs::Exec::takes_lock))]
fn takes_lock(instr: &Instr) -> bool
    ensures { result ≡ takes_lock instr.now.action instr.now }
{
    match instr.action {
        Action::Arithmetic { operation, source } => {
            writes(operation) && goes_to_memory(source, instr)
        }
        Action::Unary(_) | Action::Exchange | Action::CompareExchange | Action::ExchangeAdd => {
            is_memory(&instr.operand)
        }
        _ => false,
    }
}

/// What an instruction of a window does, or the first of its faults but those of its writes.
#[tactic(auto, unfolding(crate::specs::Exec::executed))]
pub(crate) fn execute<S: Space>(
    space: &S,
    change: &mut Change,
    decoded: &Decoded,
) -> Result<(), Fault>
    ensures { Comes result change.new
        (executed (number_at (S.contents space.now).pieces) decoded.now change.old.context) }
{
    let action = decoded.instr.action;
    if !is_stepped(action, decoded.instr.width) || refuses_prefixes(&decoded.prefixes, action) {
        return Err(Fault::Unsupported);
    }
    if traps(action) {
        return Err(Fault::Trap);
    }
    if decoded.prefixes.lock && !takes_lock(&decoded.instr) {
        return Err(Fault::BadLock);
    }
    change.context.pc = above(change.context.pc, decoded.length);
    change_of(space, change, &decoded.instr)
}
