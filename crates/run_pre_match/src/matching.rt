//! Whether a candidate matches, and what it says then.
ghost use Rattle.std.specs.Prelude.{◌≡◌, ◌++◌, ◌∷◌, [], Some, OnOk, IfOk, length};
ghost use Rattle.std.specs.List.{filter_map};
ghost use Rattle.match_instructions.specs.PreCode.{pre_instruction_at};
ghost use Rattle.run_pre_match.specs.Candidate.{pairs};
ghost use Rattle.run_pre_match.specs.Found.{own_home};
ghost use Rattle.run_pre_match.specs.Differences.{break_of};
ghost use Rattle.run_pre_match.specs.Matched.{claim_of, interior_of, stated_by_pair, outcome, Comes};
ghost use Rattle.match_constants.specs.Texts.{AreKnown};
ghost use Rattle.run_pre_match.specs.inside.Kept.{Keeps, Compared};

use crate::candidate::Candidate;
use crate::pair::Pair;
use crate::stating::Said;
use crate::types::{MatchFault, Matched};
use crate::values::Values;
use image_memory::Space;
use ks_base::Difference;
use match_instructions::{break_kind, first_reference};
use std::alloc::{AllocError, Global};

impl<'m, 'a, S: Space> Candidate<'m, 'a, S> {
    /// How many pairs of kept instructions there are.
    fn pair_count(&self) -> usize
        ensures { result ≡ length (pairs self.now) }
    {
        self.pre.kept_count().min(self.run.places.kept_count())
    }

    /// That the run list breaks off before an instruction of the section.
    fn break_off(&self) -> Option<Difference>
        ensures { result ≡ break_of self.now }
    {
        let count = self.run.places.kept_count();
        let pre_offset = self.pre.kept_at(count)?;
        Some(Difference {
            index: count as u32,
            pre_offset,
            run_address: self.run.end,
            kind: break_kind(self.space, self.run.end),
        })
    }

    /// Adds what the fields of a pair say.
    fn state_pair(&self, said: &mut Said<'a>, pair: &Pair<'_, '_, 'a>) -> Result<(), AllocError>
        requires { pre_instruction_at self.now.section pair.now.pre.place ≡ Some pair.now.pre }
        ensures claims { OnOk result (said.new.claims ≡ said.old.claims
            ++ filter_map (claim_of self.now) (stated_by_pair self.now pair.now)) }
        ensures interiors { OnOk result (said.new.interiors ≡ said.old.interiors
            ++ filter_map (interior_of self.now) (stated_by_pair self.now pair.now)) }
    {
        let section = self.own_section();
        let first = first_reference(section, pair.pre);
        let refs = pair.pre.references();
        for j in 0..refs.len() {
            let r = &refs[j];
            let given = self.given_in_pair(pair, first + j, r);
            self.state(said, &section.name, r.offset, &given)?;
        }
        Ok(())
    }

    /// The values when nothing is found but the own home.
    fn first_values(&self, alloc: Global) -> Result<Values<'a>, AllocError>
        ensures keeps { IfOk result (λ values. Keeps self.now (own_home self.now ∷ []) values) }
        ensures known { IfOk result (λ values. AreKnown self.now.object self.now.contents.pieces values.texts) }
    {
        let mut values = Values::new(alloc);
        self.judge_entry(&mut values, self.place, self.home)?;
        Ok(values)
    }

    /// Compares the pairs in order, up to the first that differs, and adds what their fields say.
    fn compare_pairs(
        &self,
        alloc: Global,
        values: &mut Values<'a>,
        said: &mut Said<'a>,
    ) -> Result<Option<Difference>, AllocError>
        requires known { AreKnown self.now.object self.now.contents.pieces values.old.texts }
        requires home { Keeps self.now (own_home self.now ∷ []) values.old }
        ensures { IfOk result (λ difference. Compared self.now said.old said.new difference values.new) }
    {
        for k in 0..self.pair_count() {
            let Some(pre) = self.pre_at(k) else {
                return Ok(None);
            };
            let Some(run) = self.run_at(k) else {
                return Ok(None);
            };
            let pair = Pair {
                index: k as u32,
                pre: &pre,
                run: &run,
            };
            if let Some(kind) = self.compare(alloc, values, &pair)? {
                return Ok(Some(pair.difference(kind)));
            }
            self.state_pair(said, &pair)?;
        }
        Ok(self.break_off())
    }

    /// What comes of the candidate: what it says, or the first difference.
    pub(crate) fn outcome(&self, alloc: Global) -> Result<Matched<'a>, MatchFault>
        ensures { Comes (outcome self.now) result }
    {
        let mut values = self.first_values(alloc)?;
        let mut said = self.home_said(alloc)?;
        if let Some(difference) = self.compare_pairs(alloc, &mut values, &mut said)? {
            return Err(MatchFault::Differs(difference));
        }
        self.state_constants(&mut said, &values)?;
        Ok(Matched {
            length: self.run.end.saturating_sub(self.base),
            claims: said.claims,
            interiors: said.interiors,
        })
    }
}
