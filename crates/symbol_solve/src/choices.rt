//! Candidates as choices.
ghost use Rattle.std.specs.Prelude.{◌≡◌, ◌<◌, ◌+◌, ◌++◌, [], false, Some, Ok, IfOk, OnOk, length, map, option_to_list};
ghost use Rattle.std.specs.Option.{unwrap_or};
ghost use Rattle.std.specs.List.{filter_map, slice_get};
ghost use Rattle.run_pre_match.specs.Bodies.{body_at};
ghost use Rattle.run_pre_match.specs.Candidate.{Candidate};
ghost use Rattle.run_pre_match.specs.declared.types.Matched.{Matched};
ghost use Rattle.match_candidates.specs.Candidates.{code_sections, candidates};
ghost use Rattle.match_candidates.specs.OwnFaults.{AreTried, IsTried};
ghost use Rattle.symbol_solve.specs.inside.Numbers.{claim_of, demand_of, stands, standing, choice_of};
ghost use Rattle.symbol_solve.specs.inside.Numbers.{choice_from, AreListed, AreNumbered};
ghost use Rattle.symbol_solve.specs.inside.Left.{RunsIn};
ghost use Rattle.symbol_solve.specs.inside.Points.{AreInOrder, Ascend, LiesIn};

use crate::numbers::{Numbers, Point, number_all, word};
use crate::points::{points_by_section, points_of};
use crate::ranges::points_within;
use i386_reloc::Normal;
use image_memory::Space;
use ks_base::ListOf;
use match_candidates::{Running, Trials, Tried, outcome_of};
use match_instructions::run_code_goes_on;
use propagation::{Choice, Demand};
use run_pre_match::{
    Body, Claim, Interior, MatchFault, Matched, PreCode, matches_have_one_valuation,
};
use std::alloc::{AllocError, Global};

/// Claims with the numbers of their unknowns.
fn numbered_claims(
    alloc: Global,
    numbers: &Numbers,
    claims: &[Claim<'_>],
) -> Result<ListOf<propagation::Claim>, AllocError>
    ensures { IfOk result (λ list. list ≡ map (claim_of numbers.now) claims.now) }
{
    let mut list = Vec::with_capacity(alloc, claims.len())?;
    for claim in claims {
        list.push(numbers.claim(alloc, claim)?)?;
    }
    Ok(ListOf::from_vec(list))
}

/// What interiors ask of the sections that they are in.
fn demands(
    alloc: Global,
    object: &Normal<'_>,
    numbers: &Numbers,
    interiors: &[Interior<'_>],
) -> Result<ListOf<Demand>, AllocError>
    ensures { IfOk result (λ list. list ≡ filter_map (demand_of object.now numbers.now) interiors.now) }
{
    let mut list = ListOf::new(alloc);
    for interior in interiors {
        push_some(&mut list, numbers.demand(object, interior)?)?;
    }
    Ok(list)
}

/// Puts a demand at the end, where there is one.
fn push_some(list: &mut ListOf<Demand>, demand: Option<Demand>) -> Result<(), AllocError>
    ensures { OnOk result (list.new ≡ list.old ++ option_to_list demand) }
{
    match demand {
        Some(demand) => list.push(demand),
        None => Ok(()),
    }
}

/// Whether the address of the point of a number stands in a body for its offset.
fn stands<S: Space>(body: &Body<'_, '_, '_, S>, points: &[Point], n: u32) -> bool
    ensures { result ≡ stands body.now (slice_get points.now n) }
{
    match points.get(n as usize) {
        Some(point) => body.is_number_of(point.offset, point.address),
        None => false,
    }
}

/// Those of some points whose addresses stand in a body for their offsets.
fn standing<S: Space>(
    alloc: Global,
    body: &Body<'_, '_, '_, S>,
    points: &[Point],
    own: &[u32],
) -> Result<ListOf<u32>, AllocError>
    ensures { IfOk result (λ list. list ≡ standing points.now body.now own.now) }
{
    let mut list = ListOf::new(alloc);
    for n in own {
        if stands(body, points, *n) {
            list.push(*n)?;
        }
    }
    Ok(list)
}

/// Those of some points, ascending by address, whose addresses stand for their offsets in the body of so many bytes at
/// a base. Only those that lie in these bytes are asked for. Where there are none, the body isn't listed.
fn met<S: Space>(
    alloc: Global,
    space: &S,
    code: &PreCode<'_, '_>,
    base: u32,
    length: u32,
    points: &[Point],
    own: &[u32],
) -> Result<ListOf<u32>, AllocError>
    requires { Ascend points.now own.now }
    ensures { LiesIn (body_at code.now (S.contents space.now) base) base (base + length)
        → IfOk result (λ list. list ≡ standing points.now (body_at code.now (S.contents space.now) base) own.now) }
{
    let own = points_within(points, own, base, length);
    if own.is_empty() {
        return Ok(ListOf::new(alloc));
    }
    let body = code.body(alloc, space, base)?;
    standing(alloc, &body, points, own)
}

/// What choices are made by: the object, the numbers, and the points of each of its sections.
#[derive(Drop)]
struct Naming<'m, 'a> {
    object: &'m Normal<'a>,
    numbers: &'m Numbers,
    own: Vec<ListOf<u32>>,
    ghost count: { length own.items ≡ length object.now },
    ghost lists: { AreListed numbers.now.points (length numbers.now.points) own.items },
    ghost order: { AreInOrder numbers.now.points },
}

/// The choice of a candidate that doesn't match.
fn no_choice(alloc: Global, section: u32, home: u32) -> Choice
    ensures { result ≡ record { section = section; home = home; matches = false; claims = []; demands = []; met = [] } }
{
    Choice {
        section,
        home,
        matches: false,
        claims: ListOf::new(alloc),
        demands: ListOf::new(alloc),
        met: ListOf::new(alloc),
    }
}

/// The choice of a candidate that matches, given the code of its section.
fn choice_of_match<S: Space>(
    alloc: Global,
    naming: &Naming<'_, '_>,
    space: &S,
    code: &PreCode<'_, '_>,
    tried: &Tried,
    matched: &Matched<'_>,
) -> Result<Choice, AllocError>
    ensures { LiesIn (body_at code.now (S.contents space.now) tried.now.base) tried.now.base
        (tried.now.base + matched.now.length)
        → IfOk result (λ choice. choice
        ≡ choice_from naming.now.object.now naming.now.numbers.now code.now.place tried.now.home (Ok matched.now)
        (standing naming.now.numbers.now.points (body_at code.now (S.contents space.now) tried.now.base)
        (unwrap_or (slice_get naming.now.own.items code.now.place) []))) }
{
    let numbers = naming.numbers;
    let own = points_of(&naming.own, code.place());
    let length = matched.length;
    Ok(Choice {
        section: word(code.place())?,
        home: tried.home,
        matches: true,
        claims: numbered_claims(alloc, numbers, matched.claims.as_slice())?,
        demands: demands(alloc, naming.object, numbers, matched.interiors.as_slice())?,
        met: met(
            alloc,
            space,
            code,
            tried.base,
            length,
            numbers.points(),
            own,
        )?,
    })
}

/// The choice of a candidate, given the code of its section and what came of matching it.
fn choice_at<S: Space>(
    alloc: Global,
    naming: &Naming<'_, '_>,
    space: &S,
    code: &PreCode<'_, '_>,
    tried: &Tried,
    outcome: &Result<Matched<'_>, MatchFault>,
) -> Result<Choice, AllocError>
    ensures { ((matched : Matched) → outcome.now ≡ Ok matched
        → LiesIn (body_at code.now (S.contents space.now) tried.now.base) tried.now.base
        (tried.now.base + matched.length))
        → IfOk result (λ choice. choice
        ≡ choice_from naming.now.object.now naming.now.numbers.now code.now.place tried.now.home outcome.now
        (standing naming.now.numbers.now.points (body_at code.now (S.contents space.now) tried.now.base)
        (unwrap_or (slice_get naming.now.own.items code.now.place) []))) }
{
    match outcome {
        Ok(matched) => choice_of_match(alloc, naming, space, code, tried, matched),
        Err(_) => Ok(no_choice(alloc, word(code.place())?, tried.home)),
    }
}

/// The choice of a candidate of one of some sections.
fn choice_among<S: Space>(
    alloc: Global,
    naming: &Naming<'_, '_>,
    running: &Running<'_, S>,
    codes: &[PreCode<'_, '_>],
    tried: &Tried,
) -> Result<Choice, AllocError>
    requires { tried.now.section < length codes.now }
    ensures { (c : Candidate) → IsTried codes.now c tried.now → RunsIn running.now c
        → slice_get naming.now.object.now c.place ≡ Some c.section
        → IfOk result (λ choice. choice ≡ choice_of naming.now.object.now naming.now.numbers.now c) }
{
    // Nothing is done here: the laws say that a match lies in its bytes.
    matches_have_one_valuation();
    run_code_goes_on();
    let code = &codes[tried.section];
    if !tried.matches() {
        return Ok(no_choice(alloc, word(code.place())?, tried.home));
    }
    let outcome = outcome_of(alloc, running, code, tried)?;
    choice_at(alloc, naming, running.space, code, tried, &outcome)
}

/// The candidates as choices, by numbers that aren't kept.
pub(crate) fn numbered_choices<S: Space>(
    alloc: Global,
    object: &Normal<'_>,
    running: &Running<'_, S>,
    trials: &Trials<'_, '_>,
) -> Result<Vec<Choice>, AllocError>
    requires codes { trials.now.codes ≡ code_sections object.now }
    requires tried { AreTried running.now object.now trials.now.tried }
    ensures { IfOk result (λ choices. AreNumbered object.now (candidates running.now object.now) choices.items) }
{
    let numbers = number_all(alloc, object, running, trials)?;
    choices_of(alloc, object, running, trials, &numbers)
}

/// The candidates as choices.
fn choices_of<S: Space>(
    alloc: Global,
    object: &Normal<'_>,
    running: &Running<'_, S>,
    trials: &Trials<'_, '_>,
    numbers: &Numbers,
) -> Result<Vec<Choice>, AllocError>
    requires codes { trials.now.codes ≡ code_sections object.now }
    requires tried { AreTried running.now object.now trials.now.tried }
    requires order { AreInOrder numbers.now.points }
    ensures { IfOk result (λ choices. choices.items
        ≡ map (choice_of object.now numbers.now) (candidates running.now object.now)) }
{
    let naming = Naming {
        object,
        numbers,
        own: points_by_section(alloc, object.len(), numbers.points())?,
    };
    let codes = trials.codes();
    let mut choices = Vec::new(alloc);
    for tried in trials.tried() {
        choices.push(choice_among(alloc, &naming, running, codes, tried)?)?;
    }
    Ok(choices)
}
