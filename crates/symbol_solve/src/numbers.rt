//! Numbers of what candidates claim and refer to.
ghost use Rattle.std.specs.Prelude.{◌≡◌, ◌^◌, ◌≤◌, ◌<◌, All, length, IfOk, OnOk, OnErr};
ghost use Rattle.run_pre_match.specs.Candidate.{Candidate};
ghost use Rattle.run_pre_match.specs.Matched.{outcome};
ghost use Rattle.match_candidates.specs.Candidates.{code_sections, candidates};
ghost use Rattle.match_candidates.specs.OwnFaults.{AreTried, IsTried};
ghost use Rattle.symbol_solve.specs.inside.Numbers.{claim_of, demand_of, point_of};
ghost use Rattle.symbol_solve.specs.inside.Numbers.{IsNumbered, IsUnknownNumbered, IsInteriorNumbered, Grows};
ghost use Rattle.symbol_solve.specs.inside.Left.{RunsIn};
ghost use Rattle.symbol_solve.specs.inside.Points.{AreInOrder};

use i386_reloc::Normal;
use image_memory::Space;
use indexmap::IndexSet;
use match_candidates::{Running, Trials, Tried, outcome_of};
use propagation::Demand;
use run_pre_match::{Claim, Interior, MatchFault, Matched, PreCode};
use std::alloc::{AllocError, Global};
use std::marker::Model;
use symbol_table::Unknown;

/// That an address is that of an offset in the section at a place.
#[derive(Clone, Copy, PartialEq, Eq, Hash)]
pub(crate) struct Point {
    pub(crate) place: u32,
    pub(crate) offset: u32,
    pub(crate) address: u32,
}

/// What candidates claim values of, in the order in which it is met first, and the interiors that they refer to, in the
/// order of their addresses; each once.
#[derive(Drop)]
pub(crate) struct Numbers {
    unknowns: IndexSet<Unknown>,
    points: IndexSet<Point>,
}

impl Model for Numbers {
    ghost use Rattle.symbol_solve.specs.inside.Numbers.{Numbers};

    ghost Value = { Numbers };

    ghost view = { λ n. record { unknowns = n.unknowns.keys; points = n.points.keys } };
}

impl Numbers {
    /// The points by number.
    pub(crate) fn points(&self) -> &[Point]
        ensures { result.now ≡ self.now.points }
    {
        self.points.as_slice()
    }

    /// A claim with the number of its unknown.
    pub(crate) fn claim(
        &self,
        alloc: Global,
        claim: &Claim<'_>,
    ) -> Result<propagation::Claim, AllocError>
        ensures { IfOk result (λ numbered. numbered ≡ claim_of self.now claim.now) }
    {
        let unknown = claim.unknown.owned(alloc)?;
        let number = self.unknowns.get_index_of(&unknown).unwrap_or(0);
        Ok(propagation::Claim {
            unknown: word(number)?,
            value: claim.value,
        })
    }

    /// What an interior asks of the section that it is in, `None` where the object has no such section.
    pub(crate) fn demand(
        &self,
        object: &Normal<'_>,
        interior: &Interior<'_>,
    ) -> Result<Option<Demand>, AllocError>
        ensures { IfOk result (λ demand. demand ≡ demand_of object.now self.now interior.now) }
    {
        let Some(point) = point_of(object, interior) else {
            return Ok(None);
        };
        let number = self.points.get_index_of(&point).unwrap_or(0);
        Ok(Some(Demand {
            section: point.place,
            number: word(number)?,
        }))
    }

    /// Numbers the unknown of a claim.
    fn add_claim(&mut self, alloc: Global, claim: &Claim<'_>) -> Result<(), AllocError>
        ensures grows { OnOk result (Grows self.old self.new) }
        ensures numbered { OnOk result (IsUnknownNumbered self.new claim.now) }
    {
        let unknown = claim.unknown.owned(alloc)?;
        self.unknowns.insert(unknown)?;
        Ok(())
    }

    /// Numbers an interior, where the object has its section.
    fn add_interior(
        &mut self,
        object: &Normal<'_>,
        interior: &Interior<'_>,
    ) -> Result<(), AllocError>
        ensures grows { OnOk result (Grows self.old self.new) }
        ensures numbered { OnOk result (IsInteriorNumbered object.now self.new interior.now) }
    {
        if let Some(point) = point_of(object, interior) {
            self.points.insert(point)?;
        }
        Ok(())
    }

    /// Numbers the unknowns of claims.
    fn add_claims(&mut self, alloc: Global, claims: &[Claim<'_>]) -> Result<(), AllocError>
        ensures grows { OnOk result (Grows self.old self.new) }
        ensures numbered { OnOk result (All (IsUnknownNumbered self.new) claims.now) }
    {
        for claim in claims {
            self.add_claim(alloc, claim)?;
        }
        Ok(())
    }

    /// Numbers interiors.
    fn add_interiors(
        &mut self,
        object: &Normal<'_>,
        interiors: &[Interior<'_>],
    ) -> Result<(), AllocError>
        ensures grows { OnOk result (Grows self.old self.new) }
        ensures numbered { OnOk result (All (IsInteriorNumbered object.now self.new) interiors.now) }
    {
        for interior in interiors {
            self.add_interior(object, interior)?;
        }
        Ok(())
    }

    /// Numbers what a candidate claims and refers to that comes to this.
    fn add_outcome(
        &mut self,
        alloc: Global,
        object: &Normal<'_>,
        outcome: &Result<Matched<'_>, MatchFault>,
    ) -> Result<(), AllocError>
        ensures grows { OnOk result (Grows self.old self.new) }
        ensures numbered { OnOk result (IsNumbered object.now self.new outcome.now) }
    {
        if let Ok(matched) = outcome {
            self.add_claims(alloc, matched.claims.as_slice())?;
            self.add_interiors(object, matched.interiors.as_slice())?;
        }
        Ok(())
    }

    /// Numbers what a candidate of one of some sections claims and refers to, if it matches.
    fn add_tried<S: Space>(
        &mut self,
        alloc: Global,
        object: &Normal<'_>,
        running: &Running<'_, S>,
        codes: &[PreCode<'_, '_>],
        tried: &Tried,
    ) -> Result<(), AllocError>
        requires { tried.now.section < length codes.now }
        ensures grows { OnOk result (Grows self.old self.new) }
        ensures numbered { OnOk result ((c : Candidate) → IsTried codes.now c tried.now → RunsIn running.now c
            → IsNumbered object.now self.new (outcome c)) }
    {
        if !tried.matches() {
            return Ok(());
        }
        let outcome = outcome_of(alloc, running, &codes[tried.section], tried)?;
        self.add_outcome(alloc, object, &outcome)
    }

    /// Gives the points numbers in the order of their addresses.
    fn sort_points(&mut self) -> Result<(), AllocError>
        ensures grows { OnOk result (Grows self.old self.new) }
        ensures order { OnOk result (AreInOrder self.new.points) }
    {
        self.points.sort_by_key(|point| point.address)
    }
}

/// A number of items as 32 bits. `Err` comes only for 2^32 and more: there is no memory for so many.
pub(crate) fn word(number: usize) -> Result<u32, AllocError>
    ensures value { IfOk result (λ word. word ≡ number) }
    ensures many { OnErr result (2 ^ 32 ≤ number) }
{
    if number > u32::MAX as usize {
        return Err(AllocError);
    }
    Ok(number as u32)
}

/// Where an interior lies, by the place of its section, `None` exactly where the object has no section of its name.
fn point_of(object: &Normal<'_>, interior: &Interior<'_>) -> Option<Point>
    ensures { result ≡ point_of object.now interior.now }
{
    // The length says that sections are few: places fit 32 bits.
    let _count = object.len();
    let place = object.place(interior.section.as_slice())?;
    Some(Point {
        place: place as u32,
        offset: interior.offset,
        address: interior.address,
    })
}

/// Numbers for all that candidates claim and refer to.
pub(crate) fn number_all<S: Space>(
    alloc: Global,
    object: &Normal<'_>,
    running: &Running<'_, S>,
    trials: &Trials<'_, '_>,
) -> Result<Numbers, AllocError>
    requires codes { trials.now.codes ≡ code_sections object.now }
    requires tried { AreTried running.now object.now trials.now.tried }
    ensures numbered { IfOk result (λ numbers. All (λ c. IsNumbered object.now numbers (outcome c))
        (candidates running.now object.now)) }
    ensures order { IfOk result (λ numbers. AreInOrder numbers.points) }
{
    let mut numbers = Numbers {
        unknowns: IndexSet::new(alloc),
        points: IndexSet::new(alloc),
    };
    let codes = trials.codes();
    for tried in trials.tried() {
        numbers.add_tried(alloc, object, running, codes, tried)?;
    }
    numbers.sort_points()?;
    Ok(numbers)
}
