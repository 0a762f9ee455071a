//! Which candidates are left.
ghost use Rattle.std.specs.Prelude.{◌≡◌, All, IfOk, length, map};
ghost use Rattle.std.specs.Option.{option_and_then};
ghost use Rattle.propagation.specs.Rounds.{remaining, forced, is_among};
ghost use Rattle.propagation.specs.Conflicts.{conflict};
ghost use Rattle.match_candidates.specs.Candidates.{code_sections, candidates};
ghost use Rattle.match_candidates.specs.OwnFaults.{AreTried};
ghost use Rattle.symbol_solve.specs.Clashes.{candidate_rules};
ghost use Rattle.symbol_solve.specs.Conflicts.{by_place};
ghost use Rattle.symbol_solve.specs.inside.Claims.{IsAtOne};
ghost use Rattle.symbol_solve.specs.inside.Left.{pair_at};

use crate::choices::numbered_choices;
use i386_reloc::Normal;
use image_memory::Space;
use match_candidates::{Running, Trials};
use propagation::{first_conflict, propagate};
use run_pre_match::claims_agree;
use std::alloc::{AllocError, Global};

/// A mark for each candidate, whether it is left, and the places of the first two that must be chosen and clash.
#[derive(Drop)]
pub(crate) struct Propagated {
    pub(crate) left: Vec<bool>,
    pub(crate) conflict: Option<(usize, usize)>,
}

/// Which candidates are left when those are excluded that don't match, or clash with one that must be chosen, and which
/// of those that must be chosen are the first two to clash.
pub(crate) fn propagate_candidates<S: Space>(
    alloc: Global,
    object: &Normal<'_>,
    running: &Running<'_, S>,
    trials: &Trials<'_, '_>,
) -> Result<Propagated, AllocError>
    requires codes { trials.now.codes ≡ code_sections object.now }
    requires tried { AreTried running.now object.now trials.now.tried }
    ensures left { IfOk result (λ p. p.left.items
        ≡ map (is_among candidate_rules (remaining candidate_rules (candidates running.now object.now)))
        (candidates running.now object.now)) }
    ensures agree { IfOk result (λ _. All IsAtOne (candidates running.now object.now)) }
    ensures conflict { IfOk result (λ p. option_and_then (pair_at (candidates running.now object.now)) p.conflict
        ≡ conflict candidate_rules
        (by_place (length object.now) (forced candidate_rules (candidates running.now object.now)))) }
{
    // Nothing is done here: the law says that the claims of a match agree.
    claims_agree();
    let sections = object.as_slice();
    let choices = numbered_choices(alloc, object, running, trials)?;
    let left = propagate(alloc, &choices)?;
    let conflict = first_conflict(alloc, &choices, &left, sections.len() as u32)?;
    Ok(Propagated { left, conflict })
}
