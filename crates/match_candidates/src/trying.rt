//! Matching code sections with the functions that they may be.
ghost use Rattle.std.specs.Prelude.{◌≡◌, ◌≢◌, ◌++◌, None, Some, map, IfOk, IfErr, OnOk};
ghost use Rattle.std.specs.List.{list_any};
ghost use Rattle.ks_base.specs.declared.refusals.Refusal.TheVariants.{Memory};
ghost use Rattle.run_pre_match.specs.Matched.{candidate, outcome};
ghost use Rattle.match_candidates.specs.Candidates.{homes_of, candidates_of};
ghost use Rattle.match_candidates.specs.OwnFaults.{difference_in, length_of, mismatch_in, outcome_of};
ghost use Rattle.match_candidates.specs.inside.Trying.{all_tried, tried_at, tried_of, tried_from};
ghost use Rattle.match_candidates.specs.inside.Trying.{has_matched, mismatch_by, mismatch_among};

use crate::homes::Homes;
use crate::running::Running;
use crate::trials::Tried;
use image_memory::Space;
use ks_base::{Name, Refusal};
use run_pre_match::{MatchFault, Matched, PreCode};
use std::alloc::{AllocError, Global};

/// What comes of matching a section with the code at a base, for a function whose home is given.
fn outcome_at<'a, S: Space>(
    alloc: Global,
    running: &Running<'_, S>,
    code: &PreCode<'_, 'a>,
    home: u32,
    base: u32,
) -> Result<Result<Matched<'a>, MatchFault>, AllocError>
    ensures { IfOk result (λ found. found
        ≡ outcome (candidate code.now running.now.contents running.now.symbols home base)) }
{
    match code.matched(alloc, running.space, running.table, home, base) {
        Ok(matched) => Ok(Ok(matched)),
        Err(MatchFault::Differs(difference)) => Ok(Err(MatchFault::Differs(difference))),
        Err(MatchFault::Undecoded(offset)) => Ok(Err(MatchFault::Undecoded(offset))),
        Err(MatchFault::Memory) => Err(AllocError),
    }
}

/// What comes of matching once more one that was tried, given the code of its section: what the match says, or why it
/// doesn't match. `Err` comes only if memory runs out.
pub fn outcome_of<'a, S: Space>(
    alloc: Global,
    running: &Running<'_, S>,
    code: &PreCode<'_, 'a>,
    tried: &Tried,
) -> Result<Result<Matched<'a>, MatchFault>, AllocError>
    ensures { IfOk result (λ found. found ≡ outcome_of running.now code.now tried.now) }
{
    outcome_at(alloc, running, code, tried.home, tried.base)
}

/// What is kept of what came of matching.
fn length_of(outcome: Result<Matched<'_>, MatchFault>) -> Result<u32, MatchFault>
    ensures { result ≡ length_of outcome.entry }
{
    Ok(outcome?.length)
}

/// What is kept of a home of the section of a number, when it is tried.
#[tactic(auto, using(crate::proofs::TriedLaws::tried_is))]
fn tried_at<S: Space>(
    alloc: Global,
    running: &Running<'_, S>,
    code: &PreCode<'_, '_>,
    number: usize,
    home: u32,
) -> Result<Tried, AllocError>
    ensures { IfOk result (λ tried. tried ≡ tried_at running.now code.now number home) }
{
    let base = running.bodies.newest(home);
    let outcome = outcome_at(alloc, running, code, home, base)?;
    Ok(Tried {
        section: number,
        home,
        base,
        outcome: length_of(outcome),
    })
}

/// Tries the homes of the section of a number, in order.
fn try_homes<S: Space>(
    alloc: Global,
    running: &Running<'_, S>,
    code: &PreCode<'_, '_>,
    number: usize,
    homes: &[u32],
) -> Result<Vec<Tried>, AllocError>
    ensures { IfOk result (λ tried. tried.items ≡ all_tried running.now code.now number homes.now) }
{
    let mut tried = Vec::new(alloc);
    for home in homes {
        tried.push(tried_at(alloc, running, code, number, *home)?)?;
    }
    Ok(tried)
}

/// Whether one of those that were tried matches.
fn one_matches(tried: &[Tried]) -> bool
    ensures { result ≡ list_any has_matched tried.now }
{
    tried.iter().any(|one| one.matches())
}

/// Refuses a section with the difference of one that was tried.
fn check_lowest(alloc: Global, code: &PreCode<'_, '_>, lowest: &Tried) -> Result<(), Refusal>
    ensures ok { OnOk result (difference_in code.now lowest.now.outcome ≡ None) }
    ensures refused { IfErr result
        (λ refusal. refusal ≢ Memory → difference_in code.now lowest.now.outcome ≡ Some refusal) }
{
    match &lowest.outcome {
        Err(MatchFault::Differs(difference)) => {
            let name = Name::from_slice(alloc, code.section().name.as_slice())?;
            Err(Refusal::Mismatch(name, *difference))
        }
        _ => Ok(()),
    }
}

/// Refuses a section that differs from all that it may be, with the difference of the lowest home.
fn check_matches(alloc: Global, code: &PreCode<'_, '_>, tried: &[Tried]) -> Result<(), Refusal>
    ensures ok { OnOk result (mismatch_by code.now tried.now ≡ None) }
    ensures refused { IfErr result (λ refusal. refusal ≢ Memory → mismatch_by code.now tried.now ≡ Some refusal) }
{
    if one_matches(tried) {
        return Ok(());
    }
    match tried.first() {
        Some(lowest) => check_lowest(alloc, code, lowest),
        None => Ok(()),
    }
}

/// Adds the homes of the section of a number, tried. [`Refusal::Mismatch`] comes where it differs from all of them.
fn try_section<S: Space>(
    alloc: Global,
    running: &Running<'_, S>,
    code: &PreCode<'_, '_>,
    number: usize,
    homes: &[u32],
    tried: &mut Vec<Tried>,
) -> Result<(), Refusal>
    requires { homes.now ≡ homes_of running.now code.now }
    ensures tried { OnOk result (tried.new.items ≡ tried.old.items ++ tried_of running.now code.now number) }
    ensures ok { OnOk result (mismatch_in code.now (candidates_of running.now code.now) ≡ None) }
    ensures refused { IfErr result
        (λ refusal. refusal ≢ Memory → mismatch_in code.now (candidates_of running.now code.now) ≡ Some refusal) }
{
    let mut own = try_homes(alloc, running, code, number, homes)?;
    check_matches(alloc, code, &own)?;
    tried.append(&mut own)?;
    Ok(())
}

/// Tries the homes of each of some sections. [`Refusal::Mismatch`] comes at the first that differs from all of them.
pub(crate) fn try_sections<S: Space>(
    alloc: Global,
    running: &Running<'_, S>,
    codes: &[PreCode<'_, '_>],
    homes: &[Homes],
) -> Result<Vec<Tried>, Refusal>
    requires { homes.now ≡ map (homes_of running.now) codes.now }
    ensures tried { IfOk result (λ tried. tried.items ≡ tried_from running.now 0 codes.now) }
    ensures ok { IfOk result (λ _. mismatch_among running.now codes.now ≡ None) }
    ensures refused { IfErr result (λ refusal. refusal ≢ Memory → mismatch_among running.now codes.now ≡ Some refusal) }
{
    let mut tried = Vec::new(alloc);
    for (number, code) in codes.iter().enumerate() {
        try_section(
            alloc,
            running,
            code,
            number,
            homes[number].as_slice(),
            &mut tried,
        )?;
    }
    Ok(tried)
}
