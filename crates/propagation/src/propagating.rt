//! Which choices are left.
ghost use Rattle.std.specs.Prelude.{◌≡◌, IfOk, map};
ghost use Rattle.propagation.specs.Rounds.{remaining, is_among};
ghost use Rattle.propagation.specs.Choices.{AreChoices, choice_rules};

use crate::building::members_by_section;
use crate::choice::Choice;
use crate::engine::Engine;
use std::alloc::{AllocError, Global};

/// Which of some choices are left when those are excluded that can't be chosen at all, or clash with one that must be
/// chosen, since all others of its section are excluded: a mark for each. The work grows with the number of choices,
/// claims and demands, and with the greatest numbers of sections, unknowns and demands: number them from 0.
pub fn propagate(alloc: Global, choices: &[Choice]) -> Result<Vec<bool>, AllocError>
    requires { AreChoices choices.now }
    ensures { IfOk result (λ left.
        left.items ≡ map (is_among choice_rules (remaining choice_rules choices.now)) choices.now) }
{
    let whole = members_by_section(alloc, choices)?;
    let mut engine = Engine::new(alloc, choices)?;
    'waiting: while engine.step(alloc, choices, &whole)? {}
    Ok(engine.into_left())
}
