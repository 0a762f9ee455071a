//! The instructions of a code section of an object, one after another.
ghost use Rattle.std.specs.Prelude.{◌≡◌, ◌≤◌, ◌<◌, ℕ, Some, OnOk, IfOk};
ghost use Rattle.i386_reloc.specs.declared.types.NormalSection.{NormalSection};
ghost use Rattle.i386_reloc.specs.Normal.{HasFieldsInOrder};
ghost use Rattle.match_instructions.specs.Instructions.{Instruction, after};
ghost use Rattle.match_instructions.specs.PreCode.{pre_instruction_at};
ghost use Rattle.match_instructions.specs.Landing.{is_misplaced};
ghost use Rattle.match_instructions.specs.inside.Least.{noted};
ghost use Rattle.match_instructions.specs.Places.{with_place, AreBelow};
ghost use Rattle.match_instructions.specs.PreLists.{IsListOf};

use crate::instructions::{PreInstruction, pre_instruction_at};
use crate::least::noted;
use crate::places::Places;
use i386_reloc::NormalSection;
use ia32_decode::instructions_have_bytes;
use std::alloc::{AllocError, Global};

/// What is kept of the instructions of a section.
#[derive(Drop)]
pub struct PreList {
    /// Their places.
    pub places: Places,
    /// Where they end.
    pub end: u32,
    /// Where the first one stands that has a field where none may stand, `None` where there is no such one.
    pub misplaced: Option<u32>,
}

impl PreList {
    /// Adds the next instruction.
    fn take(&mut self, instruction: &PreInstruction<'_, '_>) -> Result<(), AllocError>
        requires { AreBelow instruction.now.place self.old.places }
        ensures places { OnOk result (self.new.places
            ≡ with_place self.old.places instruction.now.place instruction.now.kept) }
        ensures below { OnOk result ((next : ℕ) → instruction.now.place < next → AreBelow next self.new.places) }
        ensures end { OnOk result (self.new.end ≡ after instruction.now) }
        ensures misplaced { OnOk result (self.new.misplaced
            ≡ noted (is_misplaced instruction.now) instruction.now.place self.old.misplaced) }
    {
        let place = instruction.place();
        self.places.push(place, instruction.is_kept())?;
        self.end = instruction.after();
        self.misplaced = noted(!instruction.may_all_stand(), place, self.misplaced);
        Ok(())
    }
}

/// An instruction of a section stands at its offset, has at least one byte, and ends in the section.
pub fn instructions_lie_within()
    ensures { (section : NormalSection) (offset : ℕ) (i : Instruction) → pre_instruction_at section offset ≡ Some i →
        (i.place ≡ offset) × (offset < after i) × (after i ≤ section.size) }
{
    // Nothing is done here: the law says that each instruction has a byte, and no more than are there.
    instructions_have_bytes();
}

/// The instructions of a section from its start on, up to the first place at which there is none. `Err` comes only if
/// memory runs out.
pub fn list_pre(alloc: Global, section: &NormalSection<'_>) -> Result<PreList, AllocError>
    requires { HasFieldsInOrder section.now }
    ensures { IfOk result (λ list. IsListOf section.now list) }
{
    // Nothing is done here: the law says that the loop ends.
    instructions_lie_within();
    let mut list = PreList {
        places: Places::new(alloc),
        end: 0,
        misplaced: None,
    };
    while let Some(instruction) = pre_instruction_at(section, list.end) {
        list.take(&instruction)?;
    }
    Ok(list)
}
