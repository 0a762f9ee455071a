//! Which instructions are padding.
ghost use Rattle.std.specs.Prelude.{◌≡◌};
ghost use Rattle.ia32_decode.specs.Padding.{has_others, only_66, only_66_2e, one_2e_3e, is_register, is_no_immediate};
ghost use Rattle.ia32_decode.specs.Padding.{is_base, has_index, is_alone, is_padding_of};

use crate::types::{Action, Decoded, Index, Operand, Prefixes, Register, Scale, Source};

/// Whether there is a prefix other than 66, 2E and 3E.
fn has_other_prefixes(prefixes: Prefixes) -> bool
    ensures { result ≡ has_others prefixes }
{
    prefixes.lock
        || prefixes.repeat_not_equal
        || prefixes.repeat
        || prefixes.extra_segment
        || prefixes.stack_segment
        || prefixes.segment_f
        || prefixes.segment_g
}

/// Any number of 66.
fn takes_only_66(prefixes: Prefixes) -> bool
    ensures { result ≡ only_66 prefixes }
{
    !has_other_prefixes(prefixes) && !prefixes.code_segment && !prefixes.data_segment
}

/// Any number of 66 and 2E.
fn takes_only_66_and_2e(prefixes: Prefixes) -> bool
    ensures { result ≡ only_66_2e prefixes }
{
    !has_other_prefixes(prefixes) && !prefixes.data_segment
}

/// At most one prefix, which is 2E or 3E.
fn takes_one_2e_or_3e(prefixes: Prefixes) -> bool
    ensures { result ≡ one_2e_3e prefixes }
{
    prefixes.count <= 1 && !has_other_prefixes(prefixes) && !prefixes.operand_size
}

/// Whether an operand is a register.
fn is_that_register(register: Register, operand: Operand) -> bool
    ensures { result ≡ is_register register operand }
{
    matches!(operand, Operand::Register(other) if other.number() == register.number())
}

/// Whether the second operand is a register or memory.
fn is_no_immediate(source: Source) -> bool
    ensures { result ≡ is_no_immediate source }
{
    match source {
        Source::Register | Source::Operand => true,
        Source::Immediate => false,
    }
}

/// Whether a register is the base.
fn is_the_base(register: Register, base: Option<Register>) -> bool
    ensures { result ≡ is_base register base }
{
    matches!(base, Some(base) if register.number() == base.number())
}

/// Whether there is an index.
fn has_an_index(index: Index) -> bool
    ensures { result ≡ has_index index }
{
    !matches!(index.scale, Scale::Zero)
}

/// Whether an operand is the place in memory whose address is the register alone.
fn is_register_alone(register: Register, operand: Operand) -> bool
    ensures { result ≡ is_alone register operand }
{
    match operand {
        Operand::Memory(memory) => {
            is_the_base(register, memory.base)
                && !has_an_index(memory.index)
                && memory.displacement == 0
        }
        Operand::Register(_) => false,
    }
}

/// Whether an instruction is padding: 90 after any number of 66; 0F 1F /0 after any number of 66 and 2E; 89 or 8B
/// of a 32-bit register to itself, without a prefix; or 8D with a displacement of 0, after at most one prefix, 2E or
/// 3E, where the address is the destination alone.
#[tactic(auto, unfolding(crate::specs::Padding::padding_form))]
pub fn is_padding(decoded: &Decoded) -> bool
    ensures { result ≡ is_padding_of decoded.now }
{
    let instr = decoded.instr;
    match instr.action {
        Action::Nop => takes_only_66(decoded.prefixes),
        Action::NopOperand => takes_only_66_and_2e(decoded.prefixes),
        Action::Move(source) => {
            decoded.prefixes.count == 0
                && instr.width.is_dword()
                && is_no_immediate(source)
                && is_that_register(instr.register, instr.operand)
        }
        Action::LoadAddress => {
            takes_one_2e_or_3e(decoded.prefixes)
                && decoded.fields.disp.is_some()
                && is_register_alone(instr.register, instr.operand)
        }
        _ => false,
    }
}
