//! What is reported of two candidates that clash.
ghost use Rattle.std.specs.Prelude.{◌≡◌, IfOk};
ghost use Rattle.std.specs.Option.{option_copied, option_map};
ghost use Rattle.std.specs.List.{find};
ghost use Rattle.run_pre_match.specs.Candidate.{Candidate};
ghost use Rattle.symbol_solve.specs.Clashes.{claims_in, interiors_in};
ghost use Rattle.symbol_solve.specs.Conflicts.{unknown_name, claims_conflict, clash_between};
ghost use Rattle.symbol_solve.specs.inside.Claims.{GiveOneValue, IsAtOne};
ghost use Rattle.symbol_solve.specs.inside.Left.{IsOf, RunsIn, is_unmet_in};
ghost use Rattle.symbol_solve.specs.inside.Reported.{unmet_conflict, refusal_of, first_contradicted, first_unmet_at};
ghost use Rattle.symbol_solve.specs.inside.Reported.{first_clash, Refuses};

use crate::first_claims::{contradiction, first_claims};
use crate::left::Held;
use image_memory::Space;
use ks_base::{ConflictName, Name, Refusal, Spot};
use match_candidates::{Running, outcome_of};
use run_pre_match::{Body, Claim, Interior, MatchFault, Matched};
use std::alloc::{AllocError, Global};
use symbol_table::Unknown;

/// What two candidates clash over.
#[derive(Clone, Copy)]
enum Clash<'o, 'a> {
    /// A claim of the first, and the first claim of the second that contradicts it.
    Contradicted(&'o Claim<'a>, &'o Claim<'a>),
    /// An interior that isn't met, and the address to which it would have to go.
    Unmet(&'o Interior<'a>, u32),
}

fn name_of(unknown: Unknown) -> Name
    ensures { result ≡ unknown_name unknown }
{
    match unknown {
        Unknown::Code(name) | Unknown::Data(name) | Unknown::Outside(name) => name,
    }
}

fn claims_conflict(alloc: Global, a: &Claim<'_>, b: &Claim<'_>) -> Result<Refusal, AllocError>
    ensures { IfOk result (λ refusal. refusal ≡ claims_conflict a.now b.now) }
{
    let named = ConflictName {
        name: name_of(a.unknown.owned(alloc)?),
        offset: None,
    };
    Ok(Refusal::Conflict {
        unknown: named,
        value: a.value,
        other_value: b.value,
        place: a.place.owned(alloc)?,
        other_place: b.place.owned(alloc)?,
    })
}

fn unmet_conflict(
    alloc: Global,
    interior: &Interior<'_>,
    address: u32,
) -> Result<Refusal, AllocError>
    ensures { IfOk result (λ refusal. refusal ≡ unmet_conflict interior.now address) }
{
    let name = interior.section.as_slice();
    let named = ConflictName {
        name: Name::from_slice(alloc, name)?,
        offset: Some(interior.offset),
    };
    let target = Spot {
        section: Name::from_slice(alloc, name)?,
        offset: interior.offset,
    };
    Ok(Refusal::Conflict {
        unknown: named,
        value: interior.address,
        other_value: address,
        place: interior.place.owned(alloc)?,
        other_place: target,
    })
}

/// What is reported of a clash.
fn refusal_of(alloc: Global, clash: Clash<'_, '_>) -> Result<Refusal, AllocError>
    ensures { IfOk result (λ refusal. refusal ≡ refusal_of clash.entry) }
{
    match clash {
        Clash::Contradicted(claim, other) => claims_conflict(alloc, claim, other),
        Clash::Unmet(interior, address) => unmet_conflict(alloc, interior, address),
    }
}

/// The first of some claims that one of the others contradicts, with the first that does. That is so where the others
/// of each thing give it one value.
#[tactic(auto, unfolding(propagation::specs::Conflicts::first_some))]
fn first_contradicted<'o, 'a>(
    alloc: Global,
    ones: &'o [Claim<'a>],
    others: &'o [Claim<'a>],
) -> Result<Option<Clash<'o, 'a>>, AllocError>
    ensures { GiveOneValue others.now
        → IfOk result (λ clash. option_map refusal_of clash ≡ first_contradicted ones.now others.now) }
{
    let first = first_claims(alloc, others)?;
    for claim in ones {
        if let Some(other) = contradiction(alloc, &first, claim)? {
            return Ok(Some(Clash::Contradicted(claim, other)));
        }
    }
    Ok(None)
}

/// Whether an interior goes to the section of a name and doesn't stand, in its body, for the number of its offset.
fn is_unmet<S: Space>(body: &Body<'_, '_, '_, S>, name: &[u8], interior: &Interior<'_>) -> bool
    ensures { result ≡ is_unmet_in body.now name.now interior.now }
{
    interior.section.as_slice() == name && !body.is_number_of(interior.offset, interior.address)
}

/// The first interior that goes to the section of a name and isn't met in its body.
fn find_unmet<'i, 'a, S: Space>(
    body: &Body<'_, '_, '_, S>,
    name: &[u8],
    interiors: &'i [Interior<'a>],
) -> Option<&'i Interior<'a>>
    ensures { option_copied result ≡ find (is_unmet_in body.now name.now) interiors.now }
{
    interiors
        .iter()
        .find(|interior| is_unmet(body, name, *interior))
}

/// The first of some interiors that isn't met in a candidate.
fn first_unmet_at<'i, 'a, S: Space>(
    alloc: Global,
    space: &S,
    held: &Held<'_, '_, '_>,
    interiors: &'i [Interior<'a>],
) -> Result<Option<Clash<'i, 'a>>, AllocError>
    ensures { IfOk result (λ clash. option_map refusal_of clash
        ≡ first_unmet_at held.now.code.now (S.contents space.now) held.now.tried.now.base interiors.now) }
{
    let body = held.code.body(alloc, space, held.tried.base)?;
    let name = held.code.section().name.as_slice();
    let Some(interior) = find_unmet(&body, name, interiors) else {
        return Ok(None);
    };
    let address = body.address_of(interior.offset);
    Ok(Some(Clash::Unmet(interior, address)))
}

/// The claims of a candidate, none where it doesn't match.
fn claims_of<'o, 'a>(outcome: &'o Result<Matched<'a>, MatchFault>) -> &'o [Claim<'a>]
    ensures { result.now ≡ claims_in outcome.now }
{
    match outcome {
        Ok(matched) => matched.claims.as_slice(),
        Err(_) => &[],
    }
}

/// Its references to interiors of other sections.
fn interiors_of<'o, 'a>(outcome: &'o Result<Matched<'a>, MatchFault>) -> &'o [Interior<'a>]
    ensures { result.now ≡ interiors_in outcome.now }
{
    match outcome {
        Ok(matched) => matched.interiors.as_slice(),
        Err(_) => &[],
    }
}

/// What two candidates clash over, given what came of matching them: the first claim of the first one that the second
/// contradicts, or else the first interior of either that isn't met in the other.
fn first_clash<'o, 'a, S: Space>(
    alloc: Global,
    space: &S,
    one: &Held<'_, '_, '_>,
    of_one: &'o Result<Matched<'a>, MatchFault>,
    other: &Held<'_, '_, '_>,
    of_other: &'o Result<Matched<'a>, MatchFault>,
) -> Result<Option<Clash<'o, 'a>>, AllocError>
    ensures { GiveOneValue (claims_in of_other.now) → IfOk result (λ clash. option_map refusal_of clash
        ≡ first_clash (S.contents space.now) one.now.code.now one.now.tried.now.base of_one.now
        other.now.code.now other.now.tried.now.base of_other.now) }
{
    if let Some(clash) = first_contradicted(alloc, claims_of(of_one), claims_of(of_other))? {
        return Ok(Some(clash));
    }
    if let Some(clash) = first_unmet_at(alloc, space, other, interiors_of(of_one))? {
        return Ok(Some(clash));
    }
    first_unmet_at(alloc, space, one, interiors_of(of_other))
}

/// Refuses two candidates that clash, given what came of matching them.
fn check_outcomes<'a, S: Space>(
    alloc: Global,
    space: &S,
    one: &Held<'_, '_, '_>,
    of_one: &Result<Matched<'a>, MatchFault>,
    other: &Held<'_, '_, '_>,
    of_other: &Result<Matched<'a>, MatchFault>,
) -> Result<(), Refusal>
    ensures { GiveOneValue (claims_in of_other.now) → Refuses result
        (first_clash (S.contents space.now) one.now.code.now one.now.tried.now.base of_one.now
        other.now.code.now other.now.tried.now.base of_other.now) }
{
    match first_clash(alloc, space, one, of_one, other, of_other)? {
        Some(clash) => Err(refusal_of(alloc, clash)?),
        None => Ok(()),
    }
}

/// Refuses two candidates that clash, with the first claim of the first one that the second contradicts, or else the
/// first interior of either that isn't met in the other.
pub(crate) fn check_clash<'a, S: Space>(
    alloc: Global,
    running: &Running<'_, S>,
    one: &Held<'_, '_, 'a>,
    other: &Held<'_, '_, 'a>,
) -> Result<(), Refusal>
    ensures { (c d : Candidate) → IsOf one.now.code.now c one.now.tried.now → RunsIn running.now c
        → IsOf other.now.code.now d other.now.tried.now → RunsIn running.now d → IsAtOne d
        → Refuses result (clash_between (c, d)) }
{
    let of_one = outcome_of(alloc, running, one.code, one.tried)?;
    let of_other = outcome_of(alloc, running, other.code, other.tried)?;
    check_outcomes(alloc, running.space, one, &of_one, other, &of_other)
}
