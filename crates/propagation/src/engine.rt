//! Carrying out a choice that must be chosen: those that clash with it are excluded.
ghost use Rattle.std.specs.Prelude.{◌≡◌, ◌<◌, true, false, [], All, ℕ, not, length};
ghost use Rattle.std.specs.Prelude.{filter, map, slice_set, fold, OnOk, IfOk};
ghost use Rattle.std.specs.List.{slice_get, list_any};
ghost use Rattle.propagation.specs.Choices.{AreChoices};
ghost use Rattle.propagation.specs.inside.State.{carried_of, AllWait, IsSettled, IsWhole, Keeps, State, weight};
ghost use Rattle.propagation.specs.inside.Engine.{Ascends, meets, fails, saying, saying_other, fixing, claimed, asking};
ghost use Rattle.propagation.specs.inside.Engine.{asked_by, refusing, meeting, carried_out, carried_at, list_at};

use crate::building::{
    claims_by_unknown, demands_by_number, members_by_section, numbers_by_section, section_count,
};
use crate::choice::{Choice, Claim, Demand};
use crate::marking::{Marks, possible};
use crate::tables::{Entry, Known, Table};
use std::alloc::{AllocError, Global};
use std::marker::Model;

/// Which choices are left, and what the choices say. A list that was walked through keeps only what is left and agrees;
/// each value and each demand is carried out once. So all walks together are about as long as all that the choices say.
#[derive(Drop)]
pub(crate) struct Engine {
    marks: Marks,
    claims: Table<Entry>,
    fixed: Known,
    members: Table<usize>,
    numbers: Table<u32>,
    makers: Table<Entry>,
    asked: Known,
}

impl Model for Engine {
    ghost use Rattle.propagation.specs.inside.Engine as inside;

    ghost Value = { inside.Engine };

    ghost view = { λ e. record {
      marking = e.marks;
      claims = e.claims;
      fixed = e.fixed;
      members = e.members;
      numbers = e.numbers;
      makers = e.makers;
      asked = e.asked;
    } };
}

/// Whether a choice meets a demand.
fn is_met(choice: &Choice, number: u32) -> bool
    requires { Ascends choice.now }
    ensures { result ≡ meets choice.now number }
{
    choice.met.as_slice().binary_search(&number).is_ok()
}

/// Whether the choice at a place doesn't meet a demand.
fn is_failed(choices: &[Choice], choice: usize, number: u32) -> bool
    requires { All Ascends choices.now }
    ensures { result ≡ fails number (slice_get choices.now choice) }
{
    match choices.get(choice) {
        Some(found) => !is_met(found, number),
        None => true,
    }
}

/// The choices that say another value.
fn others(alloc: Global, entries: &[Entry], value: u32) -> Result<Vec<usize>, AllocError>
    ensures { IfOk result (λ places. places.items ≡ saying_other value entries.now) }
{
    entries
        .iter()
        .filter(|entry| entry.value != value)
        .map(|entry| entry.choice)
        .collect(alloc)
}

/// The choices that say this value.
fn agreeing(alloc: Global, entries: &[Entry], value: u32) -> Result<Vec<usize>, AllocError>
    ensures { IfOk result (λ places. places.items ≡ saying value entries.now) }
{
    entries
        .iter()
        .filter(|entry| entry.value == value)
        .map(|entry| entry.choice)
        .collect(alloc)
}

/// Those of some choices that don't meet a demand.
fn failing(
    alloc: Global,
    choices: &[Choice],
    members: &[usize],
    number: u32,
) -> Result<Vec<usize>, AllocError>
    requires { All Ascends choices.now }
    ensures { IfOk result (λ places.
        places.items ≡ filter (λ choice. fails number (slice_get choices.now choice)) members.now) }
{
    members
        .iter()
        .filter(|choice| is_failed(choices, **choice, number))
        .copied()
        .collect(alloc)
}

/// Those of some demands that a choice meets.
fn those_met(alloc: Global, choice: &Choice, numbers: &[u32]) -> Result<Vec<u32>, AllocError>
    requires { Ascends choice.now }
    ensures { IfOk result (λ kept. kept.items ≡ filter (meets choice.now) numbers.now) }
{
    numbers
        .iter()
        .filter(|number| is_met(choice, **number))
        .copied()
        .collect(alloc)
}

/// Those of some demands that a choice doesn't meet.
fn those_unmet(alloc: Global, choice: &Choice, numbers: &[u32]) -> Result<Vec<u32>, AllocError>
    requires { Ascends choice.now }
    ensures { IfOk result (λ kept. kept.items ≡ filter (λ number. not (meets choice.now number)) numbers.now) }
{
    numbers
        .iter()
        .filter(|number| !is_met(choice, **number))
        .copied()
        .collect(alloc)
}

impl Engine {
    /// The state of choices of which some are left. Each section waits.
    pub(crate) fn of(alloc: Global, choices: &[Choice], left: Vec<bool>) -> Result<Self, AllocError>
        requires { length left.items ≡ length choices.now }
        ensures keeps { IfOk result (λ engine. Keeps choices.now engine) }
        ensures left { IfOk result (λ engine. engine.marking.left ≡ left.items) }
        ensures waits { IfOk result (λ engine. AllWait choices.now engine.marking) }
    {
        let claims = claims_by_unknown(alloc, choices)?;
        let makers = demands_by_number(alloc, choices)?;
        Ok(Engine {
            marks: Marks::new(alloc, left, section_count(choices))?,
            fixed: Known::new(alloc, claims.len())?,
            claims,
            members: members_by_section(alloc, choices)?,
            numbers: numbers_by_section(alloc, choices, makers.len())?,
            asked: Known::new(alloc, makers.len())?,
            makers,
        })
    }

    /// The state of choices of which all that can be chosen are left.
    pub(crate) fn new(alloc: Global, choices: &[Choice]) -> Result<Self, AllocError>
        requires { AreChoices choices.now }
        ensures { IfOk result (λ engine. State choices.now engine) }
    {
        let left = possible(alloc, choices)?;
        Engine::of(alloc, choices, left)
    }

    /// Excludes the choices that claim another value of a claim's unknown.
    #[tactic(auto, unfolding(crate::specs::inside::Engine::fixing))]
    fn fix(&mut self, alloc: Global, choices: &[Choice], claim: Claim) -> Result<(), AllocError>
        ensures { OnOk result (self.new ≡ fixing choices.now self.old claim) }
    {
        let unknown = claim.unknown as usize;
        let victims = others(alloc, self.claims.get(unknown), claim.value)?;
        self.marks.exclude_each(choices, victims.as_slice())?;
        let kept = self.marks.entries_left(alloc, self.claims.get(unknown))?;
        self.claims.put(unknown, kept);
        self.fixed.set(unknown, claim.value);
        Ok(())
    }

    /// The same, where the unknown doesn't have this value already.
    #[tactic(auto, unfolding(crate::specs::inside::Engine::claimed))]
    fn claim(&mut self, alloc: Global, choices: &[Choice], claim: Claim) -> Result<(), AllocError>
        ensures { OnOk result (self.new ≡ claimed choices.now self.old claim) }
    {
        if self.fixed.is(claim.unknown as usize, claim.value) {
            return Ok(());
        }
        self.fix(alloc, choices, claim)
    }

    /// Carries out each of some claims.
    fn claim_each(
        &mut self,
        alloc: Global,
        choices: &[Choice],
        claims: &[Claim],
    ) -> Result<(), AllocError>
        ensures { OnOk result (self.new ≡ fold (claimed choices.now) self.old claims.now) }
    {
        for claim in claims {
            self.claim(alloc, choices, *claim)?;
        }
        Ok(())
    }

    /// Excludes the choices of a demand's section that don't meet it.
    #[tactic(auto, unfolding(crate::specs::inside::Engine::asking))]
    fn ask(&mut self, alloc: Global, choices: &[Choice], demand: Demand) -> Result<(), AllocError>
        requires { All Ascends choices.now }
        ensures { OnOk result (self.new ≡ asking choices.now self.old demand) }
    {
        let section = demand.section as usize;
        let victims = failing(alloc, choices, self.members.get(section), demand.number)?;
        self.marks.exclude_each(choices, victims.as_slice())?;
        let kept = self.marks.those_left(alloc, self.members.get(section))?;
        self.members.put(section, kept);
        self.asked.set(demand.number as usize, demand.section);
        Ok(())
    }

    /// The same, where the demand isn't made on its own section, and wasn't carried out already.
    #[tactic(auto, unfolding(crate::specs::inside::Engine::asked_by))]
    fn ask_by(
        &mut self,
        alloc: Global,
        own: u32,
        choices: &[Choice],
        demand: Demand,
    ) -> Result<(), AllocError>
        requires { All Ascends choices.now }
        ensures { OnOk result (self.new ≡ asked_by own choices.now self.old demand) }
    {
        if demand.section == own || self.asked.is(demand.number as usize, demand.section) {
            return Ok(());
        }
        self.ask(alloc, choices, demand)
    }

    /// Carries out each of some demands.
    fn ask_each(
        &mut self,
        alloc: Global,
        own: u32,
        choices: &[Choice],
        demands: &[Demand],
    ) -> Result<(), AllocError>
        requires { All Ascends choices.now }
        ensures { OnOk result (self.new ≡ fold (asked_by own choices.now) self.old demands.now) }
    {
        for demand in demands {
            self.ask_by(alloc, own, choices, *demand)?;
        }
        Ok(())
    }

    /// Excludes the choices that make a demand on a section.
    fn refuse(
        &mut self,
        alloc: Global,
        choices: &[Choice],
        section: u32,
        number: u32,
    ) -> Result<(), AllocError>
        ensures { OnOk result (self.new ≡ refusing choices.now section self.old number) }
    {
        let victims = agreeing(alloc, self.makers.get(number as usize), section)?;
        self.marks.exclude_each(choices, victims.as_slice())
    }

    /// Excludes the choices that make one of some demands on a section.
    fn refuse_each(
        &mut self,
        alloc: Global,
        choices: &[Choice],
        section: u32,
        numbers: &[u32],
    ) -> Result<(), AllocError>
        ensures { OnOk result (self.new ≡ fold (refusing choices.now section) self.old numbers.now) }
    {
        for number in numbers {
            self.refuse(alloc, choices, section, *number)?;
        }
        Ok(())
    }

    /// Excludes the choices that make a demand on a choice's section which it doesn't meet.
    #[tactic(auto, unfolding(crate::specs::inside::Engine::meeting))]
    fn meet(&mut self, alloc: Global, choices: &[Choice], choice: &Choice) -> Result<(), AllocError>
        requires { Ascends choice.now }
        ensures { OnOk result (self.new ≡ meeting choices.now self.old choice.now) }
    {
        let section = choice.section as usize;
        let refused = those_unmet(alloc, choice, self.numbers.get(section))?;
        let kept = those_met(alloc, choice, self.numbers.get(section))?;
        self.refuse_each(alloc, choices, choice.section, refused.as_slice())?;
        self.numbers.put(section, kept);
        Ok(())
    }

    /// Excludes the choices that clash with one that must be chosen.
    #[tactic(auto, unfolding(crate::specs::inside::Engine::carried_out))]
    fn carry_out(
        &mut self,
        alloc: Global,
        choices: &[Choice],
        choice: &Choice,
    ) -> Result<(), AllocError>
        requires each { All Ascends choices.now }
        requires this { Ascends choice.now }
        ensures { OnOk result (self.new ≡ carried_out choices.now self.old choice.now) }
    {
        self.claim_each(alloc, choices, choice.claims.as_slice())?;
        self.ask_each(alloc, choice.section, choices, choice.demands.as_slice())?;
        self.meet(alloc, choices, choice)
    }

    /// The same for the choice at a place, where it can be chosen at all.
    #[tactic(auto, unfolding(crate::specs::inside::Engine::carried_at))]
    pub(crate) fn carry_out_at(
        &mut self,
        alloc: Global,
        choices: &[Choice],
        place: usize,
    ) -> Result<(), AllocError>
        requires { All Ascends choices.now }
        ensures { OnOk result (self.new ≡ carried_at choices.now self.old place) }
    {
        match choices.get(place) {
            Some(choice) if choice.matches => self.carry_out(alloc, choices, choice),
            _ => Ok(()),
        }
    }

    /// The same for each of some places.
    pub(crate) fn carry_out_each(
        &mut self,
        alloc: Global,
        choices: &[Choice],
        places: &[usize],
    ) -> Result<(), AllocError>
        requires { All Ascends choices.now }
        ensures { OnOk result (self.new ≡ fold (carried_at choices.now) self.old places.now) }
    {
        for place in places {
            self.carry_out_at(alloc, choices, *place)?;
        }
        Ok(())
    }

    /// Carries out what must be chosen of a section: all of its choices where none is left, or the only one that is.
    fn settle(
        &mut self,
        alloc: Global,
        choices: &[Choice],
        whole: &Table<usize>,
        section: usize,
    ) -> Result<(), AllocError>
        requires { All Ascends choices.now }
        ensures { OnOk result (IsSettled choices.now whole.now section self.old self.new) }
    {
        let list = self.marks.narrowed(self.members.take(alloc, section));
        let places = places_of(alloc, whole.get(section), list.as_slice())?;
        self.members.put(section, list);
        self.carry_out_each(alloc, choices, places.as_slice())
    }

    /// Looks at a section that waits. `whole` has each choice at its section. The answer is false exactly where none
    /// waits.
    pub(crate) fn step(
        &mut self,
        alloc: Global,
        choices: &[Choice],
        whole: &Table<usize>,
    ) -> Result<bool, AllocError>
        requires choices { AreChoices choices.now }
        requires whole { IsWhole choices.now whole.now }
        requires state { State choices.now self.old }
        ensures state { OnOk result (State choices.now self.new) }
        ensures lighter { IfOk result (λ went. went ≡ true → weight self.new.marking < weight self.old.marking) }
        ensures over { IfOk result (λ went. went ≡ false → self.new.marking.queue ≡ []) }
    {
        match self.marks.pop() {
            Some(section) => {
                self.settle(alloc, choices, whole, section)?;
                Ok(true)
            }
            None => Ok(false),
        }
    }

    /// Which choices are left.
    pub(crate) fn into_left(self) -> Vec<bool>
        ensures { result.items ≡ self.marking.left }
    {
        self.marks.into_left()
    }
}

/// What is carried out of a section with these choices, by those that are left.
fn places_of(alloc: Global, whole: &[usize], list: &[usize]) -> Result<Vec<usize>, AllocError>
    ensures { IfOk result (λ places. places.items ≡ carried_of whole.now list.now) }
{
    match list {
        [] => Vec::from_slice(alloc, whole),
        [_] => Vec::from_slice(alloc, list),
        _ => Ok(Vec::new(alloc)),
    }
}
