//! Direct branches, and conditions by number.
ghost use Rattle.std.specs.Prelude.{◌≡◌, ◌<◌, Some};
ghost use Rattle.ia32_decode.specs.Encoding.{condition_number};
ghost use Rattle.ia32_decode.specs.Branches.{branch_of};

use crate::types::{Action, Branch, BranchKind, Condition, Decoded, Prefixes};

impl Condition {
    /// The condition's number, 0 to 15, as the lowest four bits of an opcode have it.
    pub fn number(self) -> u8
        ensures value { result ≡ condition_number self }
        ensures bound { result < 16 }
    {
        match self {
            Condition::Overflow => 0,
            Condition::NoOverflow => 1,
            Condition::Below => 2,
            Condition::AboveOrEqual => 3,
            Condition::Equal => 4,
            Condition::NotEqual => 5,
            Condition::BelowOrEqual => 6,
            Condition::Above => 7,
            Condition::Sign => 8,
            Condition::NoSign => 9,
            Condition::Parity => 10,
            Condition::NoParity => 11,
            Condition::Less => 12,
            Condition::GreaterOrEqual => 13,
            Condition::LessOrEqual => 14,
            Condition::Greater => 15,
        }
    }
}

impl Decoded {
    /// The direct branch that the instruction is, `None` exactly where it is none: a call, a jump, a jump on a
    /// condition, or one of the opcodes E0 to E3, with a displacement. It takes no memory.
    #[tactic(auto, unfolding(crate::specs::Branches::branch_in))]
    pub fn branch(&self) -> Option<Branch>
        ensures { result ≡ branch_of self.now }
    {
        let displacement = self.instr.value;
        match self.instr.action {
            Action::Call => branch_to(BranchKind::Call, self.prefixes, displacement),
            Action::Jump => branch_to(BranchKind::Jump, self.prefixes, displacement),
            Action::JumpIf(condition) => {
                branch_to(BranchKind::JumpIf(condition), self.prefixes, displacement)
            }
            Action::LoopBranch(opcode) => {
                branch_to(BranchKind::Loop(opcode), self.prefixes, displacement)
            }
            _ => None,
        }
    }
}

/// A direct branch of a kind.
fn branch_to(kind: BranchKind, prefixes: Prefixes, displacement: u32) -> Option<Branch>
    ensures { result ≡ Some (record { kind = kind; prefixes = prefixes; displacement = displacement }) }
{
    Some(Branch {
        kind,
        prefixes,
        displacement,
    })
}
