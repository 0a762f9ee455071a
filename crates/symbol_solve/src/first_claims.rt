//! Claims by what they are of.
ghost use Rattle.std.specs.Prelude.{◌≡◌, ◌∷◌, List, IfOk, OnOk};
ghost use Rattle.std.specs.Option.{option_copied};
ghost use Rattle.std.specs.List.{find};
ghost use Rattle.run_pre_match.specs.declared.types.Claim.{Claim};
ghost use Rattle.symbol_solve.specs.Clashes.{contradict};
ghost use Rattle.symbol_solve.specs.inside.Claims.{AreFirst, GiveOneValue};

use indexmap::IndexMap;
use run_pre_match::Claim;
use std::alloc::{AllocError, Global};
use symbol_table::Unknown;

/// The first claim of each thing.
pub(crate) type FirstClaims<'c, 'a> = IndexMap<Unknown, &'c Claim<'a>>;

/// Takes a claim that stands before those that were taken.
fn put<'c, 'a>(
    alloc: Global,
    first: &mut FirstClaims<'c, 'a>,
    claim: &'c Claim<'a>,
) -> Result<(), AllocError>
    ensures { OnOk result ((claims : List Claim) → AreFirst first.old.entries claims
        → AreFirst first.new.entries (claim.now ∷ claims)) }
{
    let unknown = claim.unknown.owned(alloc)?;
    first.insert(unknown, claim)?;
    Ok(())
}

/// The first claim of each thing among some claims.
pub(crate) fn first_claims<'c, 'a>(
    alloc: Global,
    claims: &'c [Claim<'a>],
) -> Result<FirstClaims<'c, 'a>, AllocError>
    ensures { IfOk result (λ first. AreFirst first.entries claims.now) }
{
    let mut first = IndexMap::new(alloc);
    for k in (0..claims.len()).rev() {
        put(alloc, &mut first, &claims[k])?;
    }
    Ok(first)
}

/// The first of some claims that gives the thing of another claim another value, by the first claim of each thing. That
/// is so where the claims of each thing give it one value.
pub(crate) fn contradiction<'c, 'a>(
    alloc: Global,
    first: &FirstClaims<'c, 'a>,
    claim: &Claim<'_>,
) -> Result<Option<&'c Claim<'a>>, AllocError>
    ensures { IfOk result (λ found. (claims : List Claim) → AreFirst first.now.entries claims → GiveOneValue claims
        → option_copied found ≡ find (contradict claim.now) claims) }
{
    let unknown = claim.unknown.owned(alloc)?;
    let Some(other) = first.get(&unknown) else {
        return Ok(None);
    };
    if other.value == claim.value {
        return Ok(None);
    }
    Ok(Some(*other))
}
