//! A code section of an object beside the running code of a function that it may be.
ghost use Rattle.std.specs.Prelude.{◌≡◌, Some, IfSome};
ghost use Rattle.std.specs.Option.{option_copied};
ghost use Rattle.i386_reloc.specs.Normal.{HasFieldsInOrder};
ghost use Rattle.std.specs.List.{slice_get};
ghost use Rattle.i386_reloc.specs.declared.types.NormalSection.{NormalSection};
ghost use Rattle.i386_reloc.specs.Places.{reference_at};
ghost use Rattle.run_pre_match.specs.Candidate.{same_number};
ghost use Rattle.run_pre_match.specs.inside.Texts.{HasText};
ghost use Rattle.run_pre_match.specs.Goals.{goal_of, goal_at_place, goal_in_section, goal_in_code};

use crate::bodies::has_number;
use crate::goals::Goal;
use i386_reloc::{Class, Normal, NormalSection, Ref, Span, Target};
use image_memory::Space;
use match_constants::Endings;
use match_instructions::{Places, RunList, interior_offset};
use std::marker::Model;
use symbol_table::SymbolTable;

/// What may be the function that a code section of an object is, with the places of the instructions of both.
#[derive(Drop)]
pub(crate) struct Candidate<'m, 'a, S: Space> {
    pub(crate) normal: &'m Normal<'a>,
    pub(crate) place: usize,
    pub(crate) section: &'m NormalSection<'a>,
    pub(crate) pre: &'m Places,
    pub(crate) endings: &'m Endings,
    pub(crate) space: &'m S,
    pub(crate) table: &'m SymbolTable,
    pub(crate) run: &'m RunList,
    pub(crate) home: u32,
    pub(crate) base: u32,
}

impl<'m, 'a, S: Space> Model for Candidate<'m, 'a, S> {
    ghost use Rattle.std.specs.Prelude.{◌≡◌, Some};
    ghost use Rattle.std.specs.List.{slice_get};
    ghost use Rattle.run_pre_match.specs.Candidate.{Candidate, pre_list, run_list};
    ghost use Rattle.match_instructions.specs.Places.{places_of};
    ghost use Rattle.run_pre_match.specs.inside.Candidates.{parts};
    ghost use Rattle.match_constants.specs.Endings.{AreEndings};
    ghost use Rattle.match_instructions.specs.Instructions.{end_of};

    ghost Value = { Candidate };

    ghost view = { λ c. parts c.normal.now c.place c.section.now
        (S.contents c.space.now) c.table.now.symbols c.home c.base };

    ghost invariant = { λ c. (slice_get c.normal.now c.place ≡ Some c.section.now)
        × (c.pre.now ≡ places_of (pre_list (parts c.normal.now c.place c.section.now
        (S.contents c.space.now) c.table.now.symbols c.home c.base)))
        × (c.run.now.places ≡ places_of (run_list (parts c.normal.now c.place c.section.now
        (S.contents c.space.now) c.table.now.symbols c.home c.base)))
        × (c.run.now.end ≡ end_of c.base (run_list (parts c.normal.now c.place c.section.now
        (S.contents c.space.now) c.table.now.symbols c.home c.base)))
        × AreEndings c.normal.now c.endings.now };
}

impl<'m, 'a, S: Space> Candidate<'m, 'a, S> {
    /// Whether an address stands in the running body for the number of an offset of the section. A number that the
    /// running body doesn't reach counts as agreeing.
    #[tactic(auto, using(crate::proofs::BodyPlaces::same_number_by))]
    pub(crate) fn same_number(&self, offset: u32, address: u32) -> bool
        ensures { result ≡ same_number self.now offset address }
    {
        has_number(self.pre, &self.run.places, offset, address)
    }
}

impl<'m, 'a, S: Space> Candidate<'m, 'a, S> {
    /// The section at a place.
    pub(crate) fn section(&self, place: usize) -> Option<&'m NormalSection<'a>>
        ensures found { option_copied result ≡ slice_get self.now.object place }
        ensures order { IfSome result (λ section. HasFieldsInOrder section.now) }
    {
        // All sections have their references by offset.
        let _sections = self.normal.as_slice();
        self.find(place)
    }

    /// The section that is matched.
    pub(crate) fn own_section(&self) -> &'m NormalSection<'a>
        ensures section { result.now ≡ self.now.section }
        ensures at { slice_get self.now.object self.now.place ≡ Some self.now.section }
        ensures order { HasFieldsInOrder self.now.section }
    {
        // All sections have their references by offset.
        let _sections = self.normal.as_slice();
        self.section
    }

    fn find(&self, place: usize) -> Option<&'m NormalSection<'a>>
        ensures { option_copied result ≡ slice_get self.now.object place }
    {
        self.normal.as_slice().get(place)
    }

    /// What the reference `k` of the section at a place goes to.
    #[tactic(auto, using(crate::proofs::Aims::text_here))]
    pub(crate) fn goal(&self, section: usize, k: usize, r: &Ref<'a>) -> Goal<'a>
        requires { reference_at self.now.object section k ≡ Some r.now }
        ensures goal { result ≡ goal_of self.now.object r.now }
        ensures text { HasText self.now.object result }
    {
        // All texts stand in their sections.
        let _sections = self.normal.as_slice();
        self.goal_to(section, k, r)
    }

    #[tactic(auto, using(crate::proofs::Aims::goal_here))]
    fn goal_to(&self, section: usize, k: usize, r: &Ref<'a>) -> Goal<'a>
        requires { reference_at self.now.object section k ≡ Some r.now }
        ensures { result ≡ goal_of self.now.object r.now }
    {
        let place = self.normal.target_place(section, k);
        match &r.target {
            Target::Outside(name) => Goal::Outside(Span::new(name.as_slice())),
            Target::Text { offset, text, .. } => Goal::Text {
                place: place.unwrap_or(0),
                offset: *offset,
                text: Span::new(text.as_slice()),
            },
            Target::Section(name) => match place {
                Some(place) => self.goal_at(place, name, r),
                None => Goal::Outside(Span::new(name.as_slice())),
            },
        }
    }

    /// What a reference goes to that goes to the section at a place, or to a name where there is none.
    fn goal_at(&self, place: usize, name: &Span<'a>, r: &Ref<'a>) -> Goal<'a>
        ensures { result ≡ goal_at_place r.now name.now place (slice_get self.now.object place) }
    {
        match self.section(place) {
            Some(section) => goal_in_section(place, section.class, r),
            None => Goal::Outside(Span::new(name.as_slice())),
        }
    }
}

/// What a reference to a section of a class goes to.
fn goal_in_section<'a>(place: usize, class: Class, r: &Ref<'_>) -> Goal<'a>
    ensures { result ≡ goal_in_section r.now place class }
{
    if class.is_code() {
        return goal_in_code(place, r);
    }
    if class.is_read_only() {
        return Goal::Constant(place);
    }
    Goal::Variable(place)
}

/// What a reference to a code section goes to.
fn goal_in_code<'a>(place: usize, r: &Ref<'_>) -> Goal<'a>
    ensures { result ≡ goal_in_code r.now place }
{
    if r.is_interior() {
        Goal::Inside {
            place,
            offset: interior_offset(r),
        }
    } else {
        Goal::Entry(place)
    }
}
