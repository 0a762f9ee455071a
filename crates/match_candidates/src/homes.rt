//! Where the functions begin that code sections may be.
ghost use Rattle.std.specs.Prelude.{◌≡◌, ◌≢◌, None, Some, not, map, IfOk, IfErr};
ghost use Rattle.std.specs.List.{filter};
ghost use Rattle.ks_base.specs.declared.refusals.Refusal.TheVariants.{Memory};
ghost use Rattle.match_candidates.specs.Candidates.{is_gone, homes_of, candidates_of};
ghost use Rattle.match_candidates.specs.OwnFaults.{missing_in};
ghost use Rattle.match_candidates.specs.inside.Trying.{missing_among};

use crate::running::Running;
use image_memory::Space;
use ks_base::{Fault, ListOf, Name, Refusal};
use run_pre_match::PreCode;
use std::alloc::{AllocError, Global};

/// Addresses of first versions, ascending.
pub(crate) type Homes = ListOf<u32>;

/// Whether the newest version of the function at a home was retired.
fn is_gone<S: Space>(running: &Running<'_, S>, home: u32) -> bool
    ensures { result ≡ is_gone running.now home }
{
    let base = running.bodies.newest(home);
    matches!(running.space.window(base), Err(Fault::Stray))
}

/// Those of some homes whose newest version is still there.
fn still_there<S: Space>(
    alloc: Global,
    running: &Running<'_, S>,
    addresses: &[u32],
) -> Result<Homes, AllocError>
    ensures { IfOk result (λ homes. homes ≡ filter (λ home. not (is_gone running.now home)) addresses.now) }
{
    let mut homes = Homes::new(alloc);
    for home in addresses {
        if !is_gone(running, *home) {
            homes.push(*home)?;
        }
    }
    Ok(homes)
}

/// The homes of a section's candidates. [`Refusal::NoCandidate`] comes where there are none.
#[tactic(auto, using(crate::proofs::HomeLaws::missing_empty, crate::proofs::HomeLaws::missing_full))]
fn homes_of<S: Space>(
    alloc: Global,
    running: &Running<'_, S>,
    code: &PreCode<'_, '_>,
) -> Result<Homes, Refusal>
    ensures homes { IfOk result (λ homes. homes ≡ homes_of running.now code.now) }
    ensures ok { IfOk result (λ _. missing_in code.now (candidates_of running.now code.now) ≡ None) }
    ensures refused { IfErr result
        (λ refusal. refusal ≢ Memory → missing_in code.now (candidates_of running.now code.now) ≡ Some refusal) }
{
    let name = Name::from_slice(alloc, code.section().function_name())?;
    let found = running.table.functions_of(&name)?;
    let homes = still_there(alloc, running, found.as_slice())?;
    if homes.is_empty() {
        return Err(Refusal::NoCandidate(name));
    }
    Ok(homes)
}

/// The homes of the candidates of each of some sections. [`Refusal::NoCandidate`] comes at the first one that has none.
pub(crate) fn all_homes<S: Space>(
    alloc: Global,
    running: &Running<'_, S>,
    codes: &[PreCode<'_, '_>],
) -> Result<ListOf<Homes>, Refusal>
    ensures homes { IfOk result (λ homes. homes ≡ map (homes_of running.now) codes.now) }
    ensures ok { IfOk result (λ _. missing_among running.now codes.now ≡ None) }
    ensures refused { IfErr result (λ refusal. refusal ≢ Memory → missing_among running.now codes.now ≡ Some refusal) }
{
    let mut homes = ListOf::new(alloc);
    for code in codes {
        let own = homes_of(alloc, running, code)?;
        homes.push(own)?;
    }
    Ok(homes)
}
