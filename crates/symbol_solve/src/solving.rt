//! The one reading of a running program that makes each function of an object fit.
ghost use Rattle.std.specs.Prelude.{◌≡◌, List, All, length, IfOk};
ghost use Rattle.std.specs.Option.{option_or, option_and_then};
ghost use Rattle.std.specs.List.{AllZip};
ghost use Rattle.ks_base.specs.Gives.{Gives};
ghost use Rattle.run_pre_match.specs.Candidate.{Candidate};
ghost use Rattle.match_candidates.specs.Candidates.{code_sections, candidates};
ghost use Rattle.match_candidates.specs.OwnFaults.{AreTried};
ghost use Rattle.symbol_solve.specs.Conflicts.{clash_between, reported};
ghost use Rattle.symbol_solve.specs.Solve.{first_twins, left_of, values, values_unless, solved};
ghost use Rattle.symbol_solve.specs.inside.Claims.{IsAtOne};
ghost use Rattle.symbol_solve.specs.inside.Left.{IsOf, IsOneOf, RunsIn, pair_at};
ghost use Rattle.symbol_solve.specs.inside.Reported.{Refuses};

use crate::left::{Held, held_at, marked};
use crate::propagated::propagate_candidates;
use crate::report::check_clash;
use crate::twins::check_apart;
use crate::values::put_candidate;
use i386_reloc::Normal;
use image_memory::Space;
use indexmap::IndexMap;
use ks_base::Refusal;
use match_candidates::{Running, Trials, try_all};
use std::alloc::{AllocError, Global};
use symbol_table::{Bodies, SymbolTable, Values};

/// Refuses the candidates at two places, if they clash.
fn check_conflict<S: Space>(
    alloc: Global,
    running: &Running<'_, S>,
    trials: &Trials<'_, '_>,
    places: Option<(usize, usize)>,
) -> Result<(), Refusal>
    ensures { (cs : List Candidate) → AllZip (IsOneOf trials.now.codes) cs trials.now.tried
        → All (RunsIn running.now) cs → All IsAtOne cs
        → Refuses result (option_and_then clash_between (option_and_then (pair_at cs) places)) }
{
    let Some((first, second)) = places else {
        return Ok(());
    };
    let Some(one) = held_at(trials.codes(), trials.tried(), first) else {
        return Ok(());
    };
    let Some(other) = held_at(trials.codes(), trials.tried(), second) else {
        return Ok(());
    };
    check_clash(alloc, running, &one, &other)
}

/// Refuses the first two neighbours that are of one section.
fn check_twins(alloc: Global, held: &[Held<'_, '_, '_>]) -> Result<(), Refusal>
    ensures { (cs : List Candidate) → AllZip (λ c h. IsOf h.code.now c h.tried.now) cs held.now
        → Refuses result (first_twins cs) }
{
    for k in 1..held.len() {
        check_apart(alloc, &held[k - 1], &held[k])?;
    }
    Ok(())
}

/// The values of candidates.
fn values_of<S: Space>(
    alloc: Global,
    running: &Running<'_, S>,
    held: &[Held<'_, '_, '_>],
) -> Result<Values, AllocError>
    ensures { IfOk result (λ found. (cs : List Candidate)
        → AllZip (λ c h. IsOf h.code.now c h.tried.now × RunsIn running.now c) cs held.now
        → found.entries ≡ values cs) }
{
    let mut found = IndexMap::new(alloc);
    for one in held {
        put_candidate(alloc, &mut found, running, one.code, one.tried)?;
    }
    Ok(found)
}

/// The candidates that are left. Two that must be chosen and clash are refused.
fn held_left<'h, 'n, 'a, S: Space>(
    alloc: Global,
    pre: &Normal<'_>,
    running: &Running<'_, S>,
    trials: &'h Trials<'n, 'a>,
) -> Result<Vec<Held<'h, 'n, 'a>>, Refusal>
    requires codes { trials.now.codes ≡ code_sections pre.now }
    requires tried { AreTried running.now pre.now trials.now.tried }
    ensures held { IfOk result (λ held.
        AllZip (λ c h. IsOf h.code.now c h.tried.now) (left_of running.now pre.now) held.items) }
    ensures refused { Refuses result (reported (length pre.now) (candidates running.now pre.now)) }
{
    let found = propagate_candidates(alloc, pre, running, trials)?;
    check_conflict(alloc, running, trials, found.conflict)?;
    let left = found.left.as_slice();
    Ok(marked(alloc, trials.codes(), trials.tried(), left)?)
}

/// The values by candidates of which each section has one that matches by itself, or why there are none.
fn solve_trials<S: Space>(
    alloc: Global,
    pre: &Normal<'_>,
    running: &Running<'_, S>,
    trials: &Trials<'_, '_>,
) -> Result<Values, Refusal>
    requires codes { trials.now.codes ≡ code_sections pre.now }
    requires tried { AreTried running.now pre.now trials.now.tried }
    ensures { Gives (λ values. values.entries) result
        (values_unless (option_or (reported (length pre.now) (candidates running.now pre.now))
        (first_twins (left_of running.now pre.now)))
        (left_of running.now pre.now)) }
{
    let held = held_left(alloc, pre, running, trials)?;
    check_twins(alloc, held.as_slice())?;
    Ok(values_of(alloc, running, held.as_slice())?)
}

/// The values of an object's code sections in a running program, and of what they and the read-only data that they
/// reach refer to: of its code sections in order, each with its home, base and length, followed by the data sections
/// and outside names that it claims and that aren't listed yet, in the order of their places.
///
/// [`Refusal::PreUndecoded`] comes where a code section can't be matched; otherwise [`Refusal::NoCandidate`] where
/// there is no function that one may be; otherwise [`Refusal::Mismatch`] where one differs from every function that it
/// may be; otherwise [`Refusal::Conflict`] where two that are forced clash; otherwise [`Refusal::Ambiguous`] where two
/// are left of one section. [`Refusal::Memory`] comes only if memory runs out.
#[tactic(auto, unfolding(crate::specs::Solve::solved, crate::specs::Solve::obstacle))]
pub fn solve<S: Space>(
    alloc: Global,
    pre: &Normal<'_>,
    bodies: &Bodies,
    space: &S,
    table: &SymbolTable,
) -> Result<Values, Refusal>
    ensures { Gives
        (λ values. values.entries) result (solved pre.now bodies.now (S.contents space.now) table.now.symbols) }
{
    let running = Running {
        bodies,
        space,
        table,
    };
    let trials = try_all(alloc, pre, &running)?;
    solve_trials(alloc, pre, &running, &trials)
}
