//! The code of an object, section by section, as it is matched with what runs.
ghost use Rattle.std.specs.Prelude.{◌≡◌, ◌<◌, ℕ, Some, IfOk, IsTrue, length};
ghost use Rattle.std.specs.List.{slice_get};
ghost use Rattle.i386_reloc.specs.declared.types.NormalSection.{NormalSection};
ghost use Rattle.i386_reloc.specs.Classes.{is_code_class};
ghost use Rattle.i386_reloc.specs.Normal.{HasFieldsInOrder};
ghost use Rattle.i386_reloc.specs.Places.{place_named};
ghost use Rattle.i386_reloc.specs.Reaches.{is_in};
ghost use Rattle.match_instructions.specs.Instructions.{stands_for};
ghost use Rattle.match_instructions.specs.Places.{places_of};
ghost use Rattle.match_instructions.specs.PreCode.{pre_code};
ghost use Rattle.run_pre_match.specs.Matched.{candidate, listed_code, outcome, answer, Comes};

use crate::candidate::Candidate;
use crate::types::{MatchFault, Matched};
use i386_reloc::{Normal, NormalSection};
use image_memory::Space;
use ks_base::Name;
use match_constants::Endings;
use match_instructions::{Offsets, Places, list_pre, list_run, offsets_named, undecoded_offset};
use std::alloc::{AllocError, Global};
use std::marker::Model;
use std::rc::Rc;
use symbol_table::SymbolTable;

/// An object whose code is to be matched, with the offsets in each of its sections that references name, and the ends
/// of its texts.
#[derive(Drop)]
pub struct PreObject<'n, 'a> {
    normal: &'n Normal<'a>,
    named: Vec<Offsets>,
    endings: Rc<Endings>,
}

impl<'n, 'a> Model for PreObject<'n, 'a> {
    ghost use Rattle.std.specs.Prelude.{◌≡◌, List};
    ghost use Rattle.i386_reloc.specs.declared.types.NormalSection.{NormalSection};
    ghost use Rattle.match_instructions.specs.Landing.{all_offsets};
    ghost use Rattle.match_constants.specs.Endings.{AreEndings};

    ghost Value = { List NormalSection };

    ghost view = { λ o. o.normal.now };

    ghost invariant = { λ o. (o.named.items ≡ all_offsets o.normal.now)
        × AreEndings o.normal.now o.endings.value };
}

/// The code of a section of an object that can be matched: the places of its instructions, listed once for all
/// candidates.
#[derive(Drop)]
pub struct PreCode<'n, 'a> {
    normal: &'n Normal<'a>,
    place: usize,
    section: &'n NormalSection<'a>,
    places: Places,
    endings: Rc<Endings>,
}

impl<'n, 'a> Model for PreCode<'n, 'a> {
    ghost use Rattle.std.specs.Prelude.{◌≡◌, Some};
    ghost use Rattle.std.specs.List.{slice_get};
    ghost use Rattle.match_instructions.specs.PreCode.{pre_code};
    ghost use Rattle.run_pre_match.specs.Matched.{PreSection};
    ghost use Rattle.match_constants.specs.Endings.{AreEndings};
    ghost use Rattle.match_instructions.specs.Places.{places_of};

    ghost Value = { PreSection };

    ghost view = { λ c. record { object = c.normal.now; place = c.place; section = c.section.now } };

    ghost invariant = { λ c. (slice_get c.normal.now c.place ≡ Some c.section.now)
        × (c.places ≡ places_of (pre_code c.section.now))
        × AreEndings c.normal.now c.endings.value };
}

impl<'n, 'a> PreObject<'n, 'a> {
    /// The object of some sections. `Err` comes only if memory runs out.
    pub fn new(alloc: Global, normal: &'n Normal<'a>) -> Result<Self, AllocError>
        ensures { IfOk result (λ object. object ≡ normal.now) }
    {
        Ok(PreObject {
            normal,
            named: offsets_named(alloc, normal)?,
            endings: Rc::new(alloc, Endings::new(alloc, normal)?)?,
        })
    }

    /// The section at a place.
    fn section(&self, place: usize) -> &'n NormalSection<'a>
        requires { place < length self.now }
        ensures at { slice_get self.now place ≡ Some result.now }
        ensures order { HasFieldsInOrder result.now }
    {
        &self.normal.as_slice()[place]
    }

    /// The code of the section at a place. [`MatchFault::Undecoded`] comes exactly where it can't be matched, with the
    /// least offset at which it can't: where decoding breaks off, a field stands where none may, or a branch or a
    /// reference leads to no instruction. [`MatchFault::Memory`] comes only if memory runs out.
    pub fn code(&self, alloc: Global, place: usize) -> Result<PreCode<'n, 'a>, MatchFault>
        requires { place < length self.now }
        ensures { (section : NormalSection) → slice_get self.now place ≡ Some section
            → Comes (listed_code (record { object = self.now; place = place; section = section })) result }
    {
        let section = self.section(place);
        let list = list_pre(alloc, section)?;
        if let Some(offset) = undecoded_offset(section, &list, self.named[place].as_slice()) {
            return Err(MatchFault::Undecoded(offset));
        }
        Ok(PreCode {
            normal: self.normal,
            place,
            section,
            places: list.places,
            endings: self.endings.clone()?,
        })
    }
}

impl<'n, 'a> PreCode<'n, 'a> {
    /// Whether the code is what runs at a base, for a function whose home is given. Answers its length, claims and
    /// interiors then, and otherwise [`MatchFault::Differs`] with the first difference. [`MatchFault::Memory`] comes
    /// only if memory runs out.
    pub fn matched<S: Space>(
        &self,
        alloc: Global,
        space: &S,
        table: &SymbolTable,
        home: u32,
        base: u32,
    ) -> Result<Matched<'a>, MatchFault>
        ensures { Comes (outcome (candidate self.now (S.contents space.now) table.now.symbols home base)) result }
    {
        let run = list_run(alloc, space, base, self.places.kept_count())?;
        let candidate = Candidate {
            normal: self.normal,
            place: self.place,
            section: self.section,
            pre: &self.places,
            endings: self.endings.as_ref(),
            space,
            table,
            run: &run,
            home,
            base,
        };
        candidate.outcome(alloc)
    }

    /// The place of its section in the object, counted from 0.
    pub fn place(&self) -> usize
        ensures { result ≡ self.now.place }
    {
        self.place
    }

    /// The section.
    pub fn section(&self) -> &'n NormalSection<'a>
        ensures { result.now ≡ self.now.section }
    {
        self.section
    }

    /// The places of its instructions.
    pub(crate) fn places(&self) -> &Places
        ensures { result.now ≡ places_of (pre_code self.now.section) }
    {
        &self.places
    }

    /// What an offset of the section stands for.
    #[tactic(auto, using(crate::proofs::BodyPlaces::number_by))]
    pub(crate) fn number_of(&self, offset: u32) -> Option<u32>
        ensures { result ≡ stands_for (pre_code self.now.section) offset }
    {
        self.places.number_of(offset)
    }
}

/// Whether the code section of a name is what runs at a base, for a function whose home is given.
///
/// Answers its length in bytes, what it claims of functions, data and outside names, and where its references lead into
/// other functions, with names that are borrowed from the object's file. [`MatchFault::Undecoded`] comes exactly where
/// the section's own code can't be matched, with the least offset, [`MatchFault::Differs`] exactly where it can and
/// differs from what runs, with the first difference, and [`MatchFault::Memory`] only if memory runs out.
pub fn match_body<'a, S: Space>(
    alloc: Global,
    pre: &Normal<'a>,
    section: &Name,
    space: &S,
    table: &SymbolTable,
    home: u32,
    base: u32,
) -> Result<Matched<'a>, MatchFault>
    requires { IsTrue (is_in is_code_class pre.now section.now) }
    ensures { (place : ℕ) (own : NormalSection) → place_named pre.now section.now ≡ Some place →
        slice_get pre.now place ≡ Some own
        → Comes (answer (candidate (record { object = pre.now; place = place; section = own })
        (S.contents space.now) table.now.symbols home base)) result }
{
    let object = PreObject::new(alloc, pre)?;
    let place = place_of(pre, section);
    let code = object.code(alloc, place)?;
    code.matched(alloc, space, table, home, base)
}

/// The place of the code section of a name.
fn place_of(pre: &Normal<'_>, section: &Name) -> usize
    requires { IsTrue (is_in is_code_class pre.now section.now) }
    ensures place { place_named pre.now section.now ≡ Some result }
    ensures within { result < length pre.now }
{
    pre.place(section.as_slice()).unwrap()
}
