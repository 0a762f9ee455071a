//! In what two instructions differ.
ghost use Rattle.std.specs.Prelude.{◌≡◌, List, Some, OnOk, IfOk};
ghost use Rattle.i386_reloc.specs.Places.{reference_at};
ghost use Rattle.match_instructions.specs.Instructions.{direct_branch};
ghost use Rattle.match_instructions.specs.PreCode.{pre_instruction_at};
ghost use Rattle.run_pre_match.specs.Found.{Found, given_in_pair, found_in};
ghost use Rattle.run_pre_match.specs.Differences.{differs_in_landing};
ghost use Rattle.match_constants.specs.Texts.{AreKnown};
ghost use Rattle.run_pre_match.specs.inside.Texts.{HasText};
ghost use Rattle.run_pre_match.specs.inside.Kept.{Keeps, Follows, no_marks, kind_marked, IsKind};

use crate::candidate::Candidate;
use crate::goals::Given;
use crate::pair::Pair;
use crate::values::{Marks, Values};
use i386_reloc::Ref;
use image_memory::Space;
use ks_base::DifferenceKind;
use match_instructions::first_reference;
use std::alloc::{AllocError, Global};

impl Marks {
    /// Nothing is wrong yet.
    fn none() -> Marks
        ensures { result ≡ no_marks }
    {
        Marks {
            target: false,
            refused: false,
            unmet: false,
        }
    }

    /// The first kind of difference that they mean, in a pair that is both direct branches or not.
    fn kind(&self, branches: bool) -> Option<DifferenceKind>
        ensures { result ≡ kind_marked self.now branches }
    {
        if self.target && branches {
            return Some(DifferenceKind::Target);
        }
        if self.refused {
            return Some(DifferenceKind::Value);
        }
        if self.unmet {
            return Some(DifferenceKind::Content);
        }
        None
    }
}

impl<'m, 'a, S: Space> Candidate<'m, 'a, S> {
    /// Whether both are direct branches without a reference, and their targets stand for different numbers.
    fn differs_in_landing(&self, pair: &Pair<'_, '_, 'a>) -> bool
        ensures { result ≡ differs_in_landing (direct_branch pair.now.pre)
            (direct_branch pair.now.run) self.now pair.now }
    {
        if !pair.are_branches() {
            return false;
        }
        pair.pre.references().is_empty() && !self.same_number(pair.pre.target(), pair.run.target())
    }

    /// What the field of a reference of a pair gives, which is reference `k` of the section.
    pub(crate) fn given_in_pair(&self, pair: &Pair<'_, '_, 'a>, k: usize, r: &Ref<'a>) -> Given<'a>
        requires { reference_at self.now.object self.now.place k ≡ Some r.now }
        ensures given { result ≡ given_in_pair self.now pair.now r.now }
        ensures text { HasText self.now.object result.goal }
    {
        Given {
            goal: self.goal(self.place, k, r),
            value: pair.held(r).wrapping_sub(r.addend),
        }
    }

    /// Finds what the fields of a pair give.
    fn find_pair(
        &self,
        alloc: Global,
        values: &mut Values<'a>,
        pair: &Pair<'_, '_, 'a>,
    ) -> Result<Marks, AllocError>
        requires known { AreKnown self.now.object self.now.contents.pieces values.old.texts }
        requires pre { pre_instruction_at self.now.section pair.now.pre.place ≡ Some pair.now.pre }
        ensures follows { IfOk result (λ marks. (before : List Found) → Keeps self.now before values.old
            → Follows self.now before (found_in self.now before pair.now) no_marks marks values.new) }
        ensures known { OnOk result (AreKnown self.now.object self.now.contents.pieces values.new.texts) }
    {
        let mut marks = Marks::none();
        let first = first_reference(self.own_section(), pair.pre);
        let depth = self.normal.len();
        let refs = pair.pre.references();
        for j in 0..refs.len() {
            let given = self.given_in_pair(pair, first + j, &refs[j]);
            self.follow(alloc, values, &mut marks, depth, true, &given)?;
        }
        Ok(marks)
    }

    /// The first kind in which a pair differs; `None` where the two agree, and then what its fields give was found.
    pub(crate) fn compare(
        &self,
        alloc: Global,
        values: &mut Values<'a>,
        pair: &Pair<'_, '_, 'a>,
    ) -> Result<Option<DifferenceKind>, AllocError>
        requires known { AreKnown self.now.object self.now.contents.pieces values.old.texts }
        requires pre { pre_instruction_at self.now.section pair.now.pre.place ≡ Some pair.now.pre }
        ensures kind { IfOk result (λ kind. (before : List Found) → Keeps self.now before values.old
            → IsKind self.now before pair.now kind values.new) }
        ensures known { OnOk result (AreKnown self.now.object self.now.contents.pieces values.new.texts) }
    {
        if pair.differs_in_opcode() {
            return Ok(Some(DifferenceKind::Opcode));
        }
        if pair.differs_in_operand() {
            return Ok(Some(DifferenceKind::Operand));
        }
        if self.differs_in_landing(pair) {
            return Ok(Some(DifferenceKind::Target));
        }
        let marks = self.find_pair(alloc, values, pair)?;
        Ok(marks.kind(pair.are_branches()))
    }
}
