//! The running body of a candidate, asked for where an offset of its section stands.
ghost use Rattle.std.specs.Prelude.{◌≡◌, IfOk, length};
ghost use Rattle.match_instructions.specs.Places.{number_in};
ghost use Rattle.run_pre_match.specs.Bodies.{body_at, address_of};
ghost use Rattle.run_pre_match.specs.Candidate.{has_number, is_number_of};

use crate::code::PreCode;
use image_memory::Space;
use match_instructions::{Places, RunList, list_run};
use std::alloc::{AllocError, Global};
use std::marker::Model;

/// The body that runs at a base, beside the code of a section. A clause sees it as the instructions of both.
#[derive(Drop)]
pub struct Body<'c, 'n, 'a, S: Space> {
    code: &'c PreCode<'n, 'a>,
    space: &'c S,
    base: u32,
    run: RunList,
}

impl<'c, 'n, 'a, S: Space> Model for Body<'c, 'n, 'a, S> {
    ghost use Rattle.std.specs.Prelude.{◌≡◌, length};
    ghost use Rattle.match_instructions.specs.Instructions.{kept_of};
    ghost use Rattle.match_instructions.specs.PreCode.{pre_code};
    ghost use Rattle.match_instructions.specs.RunCode.{run_body};
    ghost use Rattle.run_pre_match.specs.Candidate.{Body};
    ghost use Rattle.run_pre_match.specs.Bodies.{body_at};
    ghost use Rattle.match_instructions.specs.Places.{places_of};

    ghost Value = { Body };

    ghost view = { λ b. body_at b.code.now (S.contents b.space.now) b.base };

    ghost invariant = { λ b. b.run.places
        ≡ places_of (run_body (S.contents b.space.now) b.base (length (kept_of (pre_code b.code.now.section)))) };
}

/// Whether an address stands for the number of an offset, by the places of a section's code and of a running body. A
/// number that the body doesn't reach counts as agreeing.
pub(crate) fn has_number(pre: &Places, run: &Places, offset: u32, address: u32) -> bool
    ensures { result ≡ has_number (length run.now.kept) (number_in run.now address) (number_in pre.now offset) }
{
    let Some(number) = pre.number_of(offset) else {
        return false;
    };
    if run.kept_count() <= number as usize {
        return true;
    }
    run.number_of(address) == Some(number)
}

impl<'n, 'a> PreCode<'n, 'a> {
    /// The body that runs at a base, as far as it goes with the code. `Err` comes only if memory runs out.
    pub fn body<'c, S: Space>(
        &'c self,
        alloc: Global,
        space: &'c S,
        base: u32,
    ) -> Result<Body<'c, 'n, 'a, S>, AllocError>
        ensures { IfOk result (λ body. body ≡ body_at self.now (S.contents space.now) base) }
    {
        let run = list_run(alloc, space, base, self.places().kept_count())?;
        Ok(Body {
            code: self,
            space,
            base,
            run,
        })
    }
}

impl<'c, 'n, 'a, S: Space> Body<'c, 'n, 'a, S> {
    /// Whether an address stands in the body for the instruction at an offset of the section. An instruction that the
    /// body doesn't reach counts as agreeing.
    #[tactic(auto, using(crate::proofs::BodyPlaces::is_number_by))]
    pub fn is_number_of(&self, offset: u32, address: u32) -> bool
        ensures { result ≡ is_number_of self.now offset address }
    {
        has_number(self.code.places(), &self.run.places, offset, address)
    }

    /// Where the instruction at an offset of the section stands in the body: its address, and 0 where there is none.
    #[tactic(auto, using(crate::proofs::BodyPlaces::address_by))]
    pub fn address_of(&self, offset: u32) -> u32
        ensures { result ≡ address_of self.now offset }
    {
        let number = self.code.number_of(offset).unwrap_or(0);
        self.run.places.kept_at(number as usize).unwrap_or(0)
    }
}
