//! The list of the instructions that run from a base on.
ghost use Rattle.std.specs.Prelude.{◌≡◌, ◌<◌, length, OnOk, IfOk};
ghost use Rattle.match_instructions.specs.Instructions.{after, end_of};
ghost use Rattle.match_instructions.specs.RunCode.{run_body};
ghost use Rattle.match_instructions.specs.Places.{AreBelow, with_place, places_of};

use crate::places::Places;
use crate::running::{RunInstruction, instruction_at, run_code_goes_on};
use image_memory::Space;
use std::alloc::{AllocError, Global};

/// What is kept of the instructions that run from a base on.
#[derive(Drop)]
pub struct RunList {
    /// Their places.
    pub places: Places,
    /// The address after the last of them, the base where there is none.
    pub end: u32,
}

impl RunList {
    /// Puts the instruction at the end of the list.
    fn push(&mut self, instruction: &RunInstruction) -> Result<(), AllocError>
        requires below { AreBelow self.old.end self.old.places }
        requires place { instruction.now.place ≡ self.old.end }
        requires some_bytes { 0 < instruction.now.decoded.length }
        ensures places { OnOk result (self.new.places
            ≡ with_place self.old.places instruction.now.place instruction.now.kept) }
        ensures end { OnOk result (self.new.end ≡ after instruction.now) }
        ensures below { OnOk result (AreBelow self.new.end self.new.places) }
    {
        self.places.push(self.end, instruction.is_kept())?;
        self.end = instruction.after();
        Ok(())
    }
}

/// The run body of `count` kept instructions from a base on, or as much of it as there is. `Err` comes only if memory
/// runs out.
pub fn list_run<S: Space>(
    alloc: Global,
    space: &S,
    base: u32,
    count: usize,
) -> Result<RunList, AllocError>
    ensures places { IfOk result (λ list. list.places ≡ places_of (run_body (S.contents space.now) base count)) }
    ensures end { IfOk result (λ list. list.end ≡ end_of base (run_body (S.contents space.now) base count)) }
{
    // Nothing is done here: the law says what follows an instruction.
    run_code_goes_on();
    let mut list = RunList {
        places: Places::new(alloc),
        end: base,
    };
    while list.places.kept_count() < count {
        let Some(instruction) = instruction_at(space, list.end) else {
            return Ok(list);
        };
        list.push(&instruction)?;
    }
    Ok(list)
}
