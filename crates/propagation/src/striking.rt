//! The first choice that clashes with one of some others.
ghost use Rattle.std.specs.Prelude.{◌≡◌, ◌<◌, ◌&&◌, ℕ, not, true, false, length, IfOk, IfNone, IfSome};
ghost use Rattle.propagation.specs.declared.choice.Choice.{Choice};
ghost use Rattle.propagation.specs.Choices.{AreChoices};
ghost use Rattle.propagation.specs.inside.Engine.{is_left};
ghost use Rattle.propagation.specs.inside.State.{At};
ghost use Rattle.propagation.specs.inside.Striking.{is_struck, AreApart, AreMarkedMatching, FirstStruck};

use crate::choice::Choice;
use crate::engine::Engine;
use crate::marking::mark_at;
use std::alloc::{AllocError, Global};

/// Marks without those of choices that clash with one of those at some places. The work grows with the number of
/// choices, claims and demands, and not with the number of pairs.
fn without_struck(
    alloc: Global,
    choices: &[Choice],
    marks: &[bool],
    by: &[usize],
) -> Result<Vec<bool>, AllocError>
    requires choices { AreChoices choices.now }
    requires size { length marks.now ≡ length choices.now }
    requires marked { AreMarkedMatching choices.now marks.now }
    requires apart { AreApart choices.now marks.now by.now }
    ensures { IfOk result (λ rest. (place : ℕ) (c : Choice) → At choices.now place c →
        is_left rest.items place ≡ (is_left marks.now place && not (is_struck choices.now by.now c))) }
{
    let mut engine = Engine::of(alloc, choices, Vec::from_slice(alloc, marks)?)?;
    engine.carry_out_each(alloc, choices, by)?;
    Ok(engine.into_left())
}

/// The first place at which one list has a mark and another has none.
fn first_lost(marks: &[bool], rest: &[bool]) -> Option<usize>
    ensures none { IfNone result ((place : ℕ) → is_left marks.now place ≡ true → is_left rest.now place ≡ true) }
    ensures lost { IfSome result (λ place. is_left marks.now place ≡ true) }
    ensures gone { IfSome result (λ place. is_left rest.now place ≡ false) }
    ensures before { IfSome result (λ place. (k : ℕ) → k < place →
        is_left marks.now k ≡ true → is_left rest.now k ≡ true) }
{
    for place in 0..marks.len() {
        if marks[place] && !mark_at(rest, place) {
            return Some(place);
        }
    }
    None
}

/// The first marked choice that clashes with one of those at some places.
pub(crate) fn first_struck(
    alloc: Global,
    choices: &[Choice],
    marks: &[bool],
    by: &[usize],
) -> Result<Option<usize>, AllocError>
    requires choices { AreChoices choices.now }
    requires size { length marks.now ≡ length choices.now }
    requires marked { AreMarkedMatching choices.now marks.now }
    requires apart { AreApart choices.now marks.now by.now }
    ensures { IfOk result (λ first. FirstStruck choices.now marks.now by.now first) }
{
    let rest = without_struck(alloc, choices, marks, by)?;
    Ok(first_lost(marks, rest.as_slice()))
}
