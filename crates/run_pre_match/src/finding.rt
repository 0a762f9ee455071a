//! What is found by the fields of an instruction, and by those of the read-only sections to which they lead.
ghost use Rattle.std.specs.Prelude.{◌≡◌, List, Some, OnOk, IfOk};
ghost use Rattle.i386_reloc.specs.Places.{reference_at};
ghost use Rattle.run_pre_match.specs.Found.{Found, found_by, given_in_constant};
ghost use Rattle.run_pre_match.specs.Differences.{is_in_section};
ghost use Rattle.match_constants.specs.Texts.{AreKnown};
ghost use Rattle.run_pre_match.specs.inside.Texts.{HasText};
ghost use Rattle.run_pre_match.specs.inside.Kept.{Keeps, Judges, Follows, marks_for, joined};

use crate::candidate::Candidate;
use crate::goals::{Given, Goal, Verdict};
use crate::judging::Judged;
use crate::values::{Marks, Values};
use i386_reloc::Ref;
use image_memory::Space;
use match_constants::{TextPlace, dword_at};
use std::alloc::{AllocError, Global};

impl Goal<'_> {
    /// Whether it lies in the section at a place.
    fn is_in_section(&self, place: usize) -> bool
        ensures { result ≡ is_in_section place self.now }
    {
        match self {
            Goal::Entry(other) => *other == place,
            Goal::Inside { place: other, .. } => *other == place,
            _ => false,
        }
    }
}

impl Marks {
    /// Adds what is said of a value: whether the field is one of the instruction itself, and whether it leads into the
    /// own section.
    fn add(&mut self, own: bool, is_inside: bool, verdict: Verdict)
        ensures { self.new ≡ joined self.old (marks_for own is_inside verdict) }
    {
        match verdict {
            Verdict::Holds => {}
            Verdict::Absent => self.unmet = true,
            Verdict::Refused => {
                self.target |= own && is_inside;
                self.refused |= own;
                self.unmet |= !own;
            }
        }
    }
}

impl<'m, 'a, S: Space> Candidate<'m, 'a, S> {
    /// What is said of a value after those that were found before.
    fn judge(
        &self,
        alloc: Global,
        values: &mut Values<'a>,
        given: &Given<'a>,
    ) -> Result<Judged, AllocError>
        requires known { AreKnown self.now.object self.now.contents.pieces values.old.texts }
        requires text { HasText self.now.object given.now.goal }
        ensures judges { IfOk result (λ j. (before : List Found) → Keeps self.now before values.old
            → Judges self.now before given.now j values.new) }
        ensures known { OnOk result (AreKnown self.now.object self.now.contents.pieces values.new.texts) }
    {
        let value = given.value;
        match &given.goal {
            Goal::Entry(place) => self.judge_entry(values, *place, value),
            Goal::Inside { place, offset } => Ok(self.judge_inside(*place, *offset, value)),
            Goal::Variable(place) => self.judge_variable(values, *place, value),
            Goal::Constant(place) => self.judge_constant(values, *place, value),
            Goal::Outside(name) => self.judge_outside(alloc, values, name, value),
            Goal::Text {
                place,
                offset,
                text,
            } => {
                let text = TextPlace {
                    place: *place,
                    offset: *offset as usize,
                    len: text.as_slice().len(),
                };
                Ok(self.judge_text(values, text, value))
            }
        }
    }

    /// What the field of reference `k` of the section of read-only data at a place gives, where the section lies at a
    /// base.
    pub(crate) fn given_in_constant(
        &self,
        place: usize,
        k: usize,
        base: u32,
        r: &Ref<'a>,
    ) -> Given<'a>
        requires { reference_at self.now.object place k ≡ Some r.now }
        ensures given { result ≡ given_in_constant self.now base r.now }
        ensures text { HasText self.now.object result.goal }
    {
        let held = dword_at(self.space, base as u64 + r.offset as u64);
        Given {
            goal: self.goal(place, k, r),
            value: held.wrapping_sub(r.addend),
        }
    }

    /// Finds a value and what it opens, each of these with what it opens itself.
    pub(crate) fn follow(
        &self,
        alloc: Global,
        values: &mut Values<'a>,
        marks: &mut Marks,
        depth: usize,
        own: bool,
        given: &Given<'a>,
    ) -> Result<(), AllocError>
        requires known { AreKnown self.now.object self.now.contents.pieces values.old.texts }
        requires text { HasText self.now.object given.now.goal }
        ensures follows { OnOk result ((before : List Found) → Keeps self.now before values.old
            → Follows self.now before (found_by depth self.now own before given.now) marks.old marks.new values.new) }
        ensures known { OnOk result (AreKnown self.now.object self.now.contents.pieces values.new.texts) }
    {
        let judged = self.judge(alloc, values, given)?;
        marks.add(own, given.goal.is_in_section(self.place), judged.verdict);
        if depth == 0 || !judged.opens {
            return Ok(());
        }
        let Goal::Constant(place) = &given.goal else {
            return Ok(());
        };
        let Some(section) = self.section(*place) else {
            return Ok(());
        };
        let refs = section.refs.as_slice();
        for k in 0..refs.len() {
            let next = self.given_in_constant(*place, k, given.value, &refs[k]);
            self.follow(alloc, values, marks, depth - 1, false, &next)?;
        }
        Ok(())
    }
}
