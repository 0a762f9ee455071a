//! The kept instructions by their numbers.
ghost use Rattle.std.specs.Prelude.{◌≡◌, ◌≤◌, Some, IfSome};
ghost use Rattle.std.specs.List.{slice_get};
ghost use Rattle.match_instructions.specs.Instructions.{kept_of};
ghost use Rattle.match_instructions.specs.PreCode.{pre_instruction_at};
ghost use Rattle.run_pre_match.specs.Candidate.{pre_list, run_list};

use crate::candidate::Candidate;
use image_memory::Space;
use match_instructions::{
    PreInstruction, RunInstruction, instruction_at, instructions_lie_within, pre_instruction_at,
    run_code_goes_on,
};

impl<'m, 'a, S: Space> Candidate<'m, 'a, S> {
    /// The kept instruction of the section by its number.
    pub(crate) fn pre_at(&self, number: usize) -> Option<PreInstruction<'m, 'a>>
        ensures nth { result ≡ slice_get (kept_of (pre_list self.now)) number }
        ensures low { IfSome result (λ i. number ≤ i.place) }
        ensures there { IfSome result (λ i. pre_instruction_at self.now.section i.place ≡ Some i) }
    {
        // Nothing is done here: the law says that an instruction stands at its own offset.
        instructions_lie_within();
        pre_instruction_at(self.own_section(), self.pre.kept_at(number)?)
    }

    /// The kept running instruction by its number.
    pub(crate) fn run_at(&self, number: usize) -> Option<RunInstruction>
        ensures { result ≡ slice_get (kept_of (run_list self.now)) number }
    {
        // Nothing is done here: the law says that an instruction stands at its own address.
        run_code_goes_on();
        instruction_at(self.space, self.run.places.kept_at(number)?)
    }
}
