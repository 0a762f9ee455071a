//! What the unknowns of an object come to by the candidates that are left.
ghost use Rattle.std.specs.Prelude.{◌≡◌, ◌++◌, ◌∷◌, [], false, Ok, OnOk};
ghost use Rattle.std.specs.List.{flat_map, fold};
ghost use Rattle.run_pre_match.specs.Candidate.{Candidate};
ghost use Rattle.symbol_solve.specs.Solve.{has_value, with_value, is_code_unknown};
ghost use Rattle.symbol_solve.specs.Solve.{address_value, values_with, values_of};
ghost use Rattle.symbol_solve.specs.inside.Left.{IsOf, RunsIn};

use image_memory::Space;
use ks_base::Name;
use match_candidates::{Running, Tried, outcome_of};
use run_pre_match::{Claim, MatchFault, Matched, PreCode};
use std::alloc::{AllocError, Global};
use symbol_table::{Solved, Unknown, Values};

/// Whether an unknown has a value.
#[tactic(auto, using(crate::proofs::Unknowns::found))]
fn has_value(values: &Values, unknown: &Unknown) -> bool
    ensures { result ≡ has_value values.now.entries unknown.now }
{
    values.get(unknown).copied().is_some()
}

/// Puts the value of an unknown that has none at the end.
fn add(values: &mut Values, unknown: Unknown, solved: Solved) -> Result<(), AllocError>
    requires { has_value values.old.entries unknown ≡ false }
    ensures { OnOk result (values.new.entries ≡ values.old.entries ++ (unknown, solved) ∷ []) }
{
    values.insert(unknown, solved)?;
    Ok(())
}

/// Adds a value, unless its unknown has one.
fn put(values: &mut Values, unknown: Unknown, solved: Solved) -> Result<(), AllocError>
    ensures { OnOk result (values.new.entries ≡ with_value values.old.entries (unknown, solved)) }
{
    if has_value(values, &unknown) {
        return Ok(());
    }
    add(values, unknown, solved)
}

fn is_code_unknown(unknown: &Unknown) -> bool
    ensures { result ≡ is_code_unknown unknown.now }
{
    matches!(unknown, Unknown::Code(_))
}

/// Adds what a claim says of a data section or an outside name.
fn put_claim(alloc: Global, values: &mut Values, claim: &Claim<'_>) -> Result<(), AllocError>
    ensures { OnOk result (values.new.entries ≡ fold with_value values.old.entries (address_value claim.now)) }
{
    let unknown = claim.unknown.owned(alloc)?;
    if is_code_unknown(&unknown) {
        return Ok(());
    }
    put(values, unknown, Solved::Address(claim.value))
}

/// Adds what claims say of data sections and outside names.
fn put_claims(alloc: Global, values: &mut Values, claims: &[Claim<'_>]) -> Result<(), AllocError>
    ensures { OnOk result
        (values.new.entries ≡ fold with_value values.old.entries (flat_map address_value claims.now)) }
{
    for claim in claims {
        put_claim(alloc, values, claim)?;
    }
    Ok(())
}

/// Adds the values of a candidate that matches.
fn put_match(
    alloc: Global,
    values: &mut Values,
    code: &PreCode<'_, '_>,
    tried: &Tried,
    matched: &Matched<'_>,
) -> Result<(), AllocError>
    ensures { OnOk result ((c : Candidate) → IsOf code.now c tried.now
        → values.new.entries ≡ fold with_value values.old.entries (values_with c (Ok matched.now))) }
{
    let name = Name::from_slice(alloc, code.section().name.as_slice())?;
    let body = Solved::Body {
        home: tried.home,
        base: tried.base,
        length: matched.length,
    };
    put(values, Unknown::Code(name), body)?;
    put_claims(alloc, values, matched.claims.as_slice())
}

/// Adds the values of a candidate, given what came of matching it.
fn put_outcome(
    alloc: Global,
    values: &mut Values,
    code: &PreCode<'_, '_>,
    tried: &Tried,
    outcome: &Result<Matched<'_>, MatchFault>,
) -> Result<(), AllocError>
    ensures { OnOk result ((c : Candidate) → IsOf code.now c tried.now
        → values.new.entries ≡ fold with_value values.old.entries (values_with c outcome.now)) }
{
    match outcome {
        Ok(matched) => put_match(alloc, values, code, tried, matched),
        Err(_) => Ok(()),
    }
}

/// Adds the values of a candidate.
pub(crate) fn put_candidate<S: Space>(
    alloc: Global,
    values: &mut Values,
    running: &Running<'_, S>,
    code: &PreCode<'_, '_>,
    tried: &Tried,
) -> Result<(), AllocError>
    ensures { OnOk result ((c : Candidate) → IsOf code.now c tried.now → RunsIn running.now c
        → values.new.entries ≡ fold with_value values.old.entries (values_of c)) }
{
    let outcome = outcome_of(alloc, running, code, tried)?;
    put_outcome(alloc, values, code, tried, &outcome)
}
