//! Whether the values that fields give hold.
ghost use Rattle.std.specs.Prelude.{◌≡◌, ◌==◌, ◌+◌, ◌≤◌, ℕ, List, Some, None, OnOk, IfOk, length, if◌then◌else◌, take};
ghost use Rattle.std.specs.Prelude.{drop, false, not};
ghost use Rattle.std.specs.List.{slice_get};
ghost use Rattle.std.specs.Ordering.{nat_cmp};
ghost use Rattle.std.specs.BTreeMap.{get};
ghost use Rattle.i386_reloc.specs.Normal.{same_bytes};
ghost use Rattle.i386_reloc.specs.Places.{bytes_at};
ghost use Rattle.run_pre_match.specs.Found.{Found, is_off, section_stands, section_lies};
ghost use Rattle.run_pre_match.specs.Goals.{interior_address};
ghost use Rattle.run_pre_match.specs.declared.values.Values.{Values};
ghost use Rattle.run_pre_match.specs.declared.goals.Verdict.TheVariants.{Holds, Absent};
ghost use Rattle.run_pre_match.specs.declared.goals.Goal.TheVariants.{Entry, Inside, Variable, Constant, Outside, Text};
ghost use Rattle.match_constants.specs.Texts.{AreKnown};
ghost use Rattle.run_pre_match.specs.inside.Kept.{first_of, Keeps, Judges, given};

use crate::candidate::Candidate;
use crate::goals::{Given, Goal, Verdict};
use crate::values::{First, Values, verdict};
use i386_reloc::Span;
use image_memory::Space;
use ks_base::Name;
use match_constants::{Lies, TextPlace, lies_at, text_stands};
use std::alloc::{AllocError, Global};
use std::collections::BTreeMap;

/// What is said of a value, and whether it is the first for a read-only section whose fields are to be followed.
#[derive(Clone, Copy, PartialEq, Eq)]
pub(crate) struct Judged {
    pub(crate) verdict: Verdict,
    pub(crate) opens: bool,
}

/// Of a value that opens nothing.
fn closed(verdict: Verdict) -> Judged
    ensures { result ≡ record { verdict = verdict; opens = false } }
{
    Judged {
        verdict,
        opens: false,
    }
}

/// That a value holds, or how it fails.
fn holding(holds: bool, failing: Verdict) -> Verdict
    ensures { result ≡ (if holds then Holds else failing) }
{
    if holds { Verdict::Holds } else { failing }
}

/// Of the first value for a read-only section, by how it lies there.
fn opened(lies: Lies) -> Judged
    ensures { result ≡ record { verdict = (if lies.equal then Holds else Absent); opens = lies.whole } }
{
    Judged {
        verdict: holding(lies.equal, Verdict::Absent),
        opens: lies.whole,
    }
}

/// Gives a place its first value.
fn put_place(
    firsts: &mut BTreeMap<usize, First>,
    place: usize,
    first: First,
) -> Result<(), AllocError>
    ensures { OnOk result ((q : ℕ) → get nat_cmp firsts.new q
        ≡ (if place == q then Some first else get nat_cmp firsts.old q)) }
{
    firsts.insert(place, first)?;
    Ok(())
}

/// Gives a name its first value.
fn put_name<'a>(
    firsts: &mut BTreeMap<&'a [u8], First>,
    name: &'a [u8],
    first: First,
) -> Result<(), AllocError>
    ensures { OnOk result ((q : List ℕ) → first_of firsts.new q
        ≡ (if same_bytes name.now q then Some first else first_of firsts.old q)) }
{
    firsts.insert(name, first)?;
    Ok(())
}

impl<'m, 'a, S: Space> Candidate<'m, 'a, S> {
    /// A value for the entry of the function that is the code section at a place.
    pub(crate) fn judge_entry(
        &self,
        values: &mut Values<'a>,
        place: usize,
        value: u32,
    ) -> Result<Judged, AllocError>
        ensures judges { IfOk result (λ j. (before : List Found) → Keeps self.now before values.old
            → Judges self.now before (given (Entry place) value) j values.new) }
        ensures texts { OnOk result (values.new.texts ≡ values.old.texts) }
    {
        if let Some(first) = values.entries.get(&place) {
            return Ok(closed(verdict(*first, value, Verdict::Holds)));
        }
        put_place(&mut values.entries, place, First { value, holds: true })?;
        Ok(closed(Verdict::Holds))
    }

    /// A value for the data at a place.
    pub(crate) fn judge_variable(
        &self,
        values: &mut Values<'a>,
        place: usize,
        value: u32,
    ) -> Result<Judged, AllocError>
        ensures judges { IfOk result (λ j. (before : List Found) → Keeps self.now before values.old
            → Judges self.now before (given (Variable place) value) j values.new) }
        ensures texts { OnOk result (values.new.texts ≡ values.old.texts) }
    {
        if let Some(first) = values.variables.get(&place) {
            return Ok(closed(verdict(*first, value, Verdict::Holds)));
        }
        put_place(&mut values.variables, place, First { value, holds: true })?;
        Ok(closed(Verdict::Holds))
    }

    /// How the section at a place lies at an address.
    fn lies(&self, place: usize, value: u32) -> Lies
        ensures whole { result.whole ≡ section_lies self.now value (slice_get self.now.object place) }
        ensures equal { result.equal ≡ section_stands self.now value (slice_get self.now.object place) }
    {
        match self.section(place) {
            Some(section) => lies_at(self.space, section, value),
            None => Lies {
                whole: false,
                equal: false,
            },
        }
    }

    /// A value for the section of read-only data at a place. Where it is the first one and the section lies there, its
    /// fields are to be followed.
    pub(crate) fn judge_constant(
        &self,
        values: &mut Values<'a>,
        place: usize,
        value: u32,
    ) -> Result<Judged, AllocError>
        ensures judges { IfOk result (λ j. (before : List Found) → Keeps self.now before values.old
            → Judges self.now before (given (Constant place) value) j values.new) }
        ensures texts { OnOk result (values.new.texts ≡ values.old.texts) }
    {
        if let Some(first) = values.constants.get(&place) {
            return Ok(closed(verdict(*first, value, Verdict::Absent)));
        }
        let lies = self.lies(place, value);
        put_place(
            &mut values.constants,
            place,
            First {
                value,
                holds: lies.equal,
            },
        )?;
        Ok(opened(lies))
    }

    /// A value for an outside name.
    pub(crate) fn judge_outside(
        &self,
        alloc: Global,
        values: &mut Values<'a>,
        name: &Span<'a>,
        value: u32,
    ) -> Result<Judged, AllocError>
        ensures judges { IfOk result (λ j. (before : List Found) → Keeps self.now before values.old
            → Judges self.now before (given (Outside name.now) value) j values.new) }
        ensures texts { OnOk result (values.new.texts ≡ values.old.texts) }
    {
        let bytes = name.as_slice();
        if let Some(first) = values.outsides.get(bytes) {
            return Ok(closed(verdict(*first, value, Verdict::Refused)));
        }
        let holds = self
            .table
            .is_global(&Name::from_slice(alloc, bytes)?, value);
        let first = First { value, holds };
        put_name(&mut values.outsides, bytes, first)?;
        Ok(closed(verdict(first, value, Verdict::Refused)))
    }

    /// Whether a value is met for the interior of a code section: in the own one its address stands for the same
    /// number.
    fn is_met(&self, place: usize, offset: u32, value: u32) -> bool
        ensures { result ≡ not (is_off self.now place offset (interior_address value offset)) }
    {
        place != self.place || self.same_number(offset, value.wrapping_add(offset))
    }

    /// A value for the interior of a code section.
    pub(crate) fn judge_inside(&self, place: usize, offset: u32, value: u32) -> Judged
        ensures { (before : List Found) (kept : Values) → Keeps self.now before kept
            → Judges self.now before (given (Inside place offset) value) result kept }
    {
        closed(holding(self.is_met(place, offset, value), Verdict::Refused))
    }

    /// A value for a text.
    pub(crate) fn judge_text(&self, values: &mut Values<'a>, text: TextPlace, value: u32) -> Judged
        requires within { text.offset + text.len ≤ length (bytes_at self.now.object text.place) }
        requires known { AreKnown self.now.object self.now.contents.pieces values.old.texts }
        ensures judges { (before : List Found) → Keeps self.now before values.old
            → Judges self.now before (given (Text text.place text.offset
            (take text.len (drop text.offset (bytes_at self.now.object text.place)))) value) result values.new }
        ensures known { AreKnown self.now.object self.now.contents.pieces values.new.texts }
    {
        let stands = text_stands(
            self.space,
            &mut values.texts,
            self.endings,
            self.normal,
            text,
            value,
        );
        closed(holding(stands, Verdict::Absent))
    }
}
