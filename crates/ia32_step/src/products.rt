//! Products and quotients.
ghost use Rattle.std.specs.Prelude.{◌≡◌, ◌<◌, ◌*◌, ◌^◌};
ghost use Rattle.ia32_alu.specs.Numbers.{size};
ghost use Rattle.ia32_step.specs.Operands.{number_at, source_value};
ghost use Rattle.ia32_step.specs.Arithmetic.{upper_register, with_double, double, multiplied};
ghost use Rattle.ia32_step.specs.Arithmetic.{product_taken, clear_flags, with_quotient, divided};
ghost use Rattle.ia32_step.specs.inside.Comes.{Comes};

use crate::operands::{operand_value, source_value};
use crate::types::{Change, Context};
use ia32_alu::{Flags, Width};
use ia32_decode::{Instr, Operand, Register, Source};
use image_memory::Space;
use ks_base::Fault;

/// What stands above the accumulator: AH, DX or EDX.
fn upper_register(width: Width) -> Register
    ensures { result ≡ upper_register width }
{
    match width {
        Width::Byte => Register::Esp,
        Width::Word | Width::Dword => Register::Edx,
    }
}

/// 2 to the number of a width's bits.
fn radix(width: Width) -> u64
    ensures { result ≡ 2 ^ size width }
{
    match width {
        Width::Byte => 0x100,
        Width::Word => 0x1_0000,
        Width::Dword => 0x1_0000_0000,
    }
}

fn put_double(context: &mut Context, width: Width, number: u64)
    requires { number < 2 ^ (2 * size width) }
    ensures { context.new ≡ with_double width number context.old }
{
    let lower = (number % radix(width)) as u32;
    let upper = (number / radix(width)) as u32;
    context.put_register(width, Register::Eax, lower);
    context.put_register(width, upper_register(width), upper);
}

fn double(context: &Context, width: Width) -> u64
    ensures { result ≡ double context.now width }
{
    let upper = context.register(width, upper_register(width));
    let lower = context.accumulator(width);
    u64::from(upper) * radix(width) + u64::from(lower)
}

/// MUL and IMUL with one operand.
#[tactic(auto, unfolding(crate::specs::Arithmetic::multiplied))]
pub(crate) fn multiply<S: Space>(
    space: &S,
    change: &mut Change,
    signed: bool,
    width: Width,
    operand: &Operand,
) -> Result<(), Fault>
    ensures { Comes result change.new
        (multiplied (number_at (S.contents space.now).pieces) signed width operand.now change.old.context) }
{
    let b = operand_value(space, &change.context, width, operand)?;
    let (product, flags) = ia32_alu::multiply(signed, width, change.context.accumulator(width), b);
    change.context.flags = flags;
    put_double(&mut change.context, width, product);
    change.go_on();
    Ok(())
}

/// IMUL whose product goes to a register.
#[tactic(auto, unfolding(crate::specs::Arithmetic::product_taken))]
pub(crate) fn take_product<S: Space>(
    space: &S,
    change: &mut Change,
    source: Source,
    instr: &Instr,
) -> Result<(), Fault>
    ensures { Comes result change.new
        (product_taken (number_at (S.contents space.now).pieces) instr.now.width instr.now.register instr.now.operand
        (source_value (number_at (S.contents space.now).pieces) change.old.context source instr.now)
        change.old.context) }
{
    let width = instr.width;
    let a = operand_value(space, &change.context, width, &instr.operand)?;
    let b = source_value(space, &change.context, source, instr)?;
    let (product, flags) = ia32_alu::multiply(true, width, a, b);
    let lower = (product % radix(width)) as u32;
    change.context.flags = flags;
    change.context.put_register(width, instr.register, lower);
    change.go_on();
    Ok(())
}

fn clear_flags() -> Flags
    ensures { result ≡ clear_flags }
{
    Flags {
        cf: false,
        pf: false,
        zf: false,
        sf: false,
        of: false,
    }
}

fn settle_quotient(change: &mut Change, width: Width, both: Option<(u32, u32)>) -> Result<(), Fault>
    ensures { Comes result change.new (with_quotient width both change.old.context) }
{
    match both {
        None => Err(Fault::Divide),
        Some((quotient, remainder)) => {
            change.context.flags = clear_flags();
            change.context.put_register(width, Register::Eax, quotient);
            change
                .context
                .put_register(width, upper_register(width), remainder);
            change.go_on();
            Ok(())
        }
    }
}

/// DIV and IDIV.
#[tactic(auto, unfolding(crate::specs::Arithmetic::divided))]
pub(crate) fn divide<S: Space>(
    space: &S,
    change: &mut Change,
    signed: bool,
    width: Width,
    operand: &Operand,
) -> Result<(), Fault>
    ensures { Comes result change.new
        (divided (number_at (S.contents space.now).pieces) signed width operand.now change.old.context) }
{
    let by = operand_value(space, &change.context, width, operand)?;
    let both = ia32_alu::divide(signed, width, double(&change.context, width), by);
    settle_quotient(change, width, both)
}
