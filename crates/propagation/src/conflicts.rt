//! Which choices that must be chosen clash.
ghost use Rattle.std.specs.Prelude.{◌≡◌, ◌<◌, ◌&&◌, ℕ, false, true, length, IfOk};
ghost use Rattle.std.specs.Prelude.{IfNone, IfSome, IsSome, All, map, option_map};
ghost use Rattle.std.specs.List.{list_any};
ghost use Rattle.std.specs.Option.{option_and_then};
ghost use Rattle.propagation.specs.declared.choice.Choice.{Choice};
ghost use Rattle.propagation.specs.Rounds.{remaining, forced, is_among};
ghost use Rattle.propagation.specs.Conflicts.{conflict};
ghost use Rattle.propagation.specs.Choices.{AreChoices, choice_rules, by_section, pair_at};
ghost use Rattle.propagation.specs.inside.Engine.{is_left, list_at};
ghost use Rattle.propagation.specs.inside.State.{At, IsWhole};
ghost use Rattle.propagation.specs.inside.Striking.{is_stuck, is_stuck_in, is_stuck_out, Between, Around};

use crate::building::members_by_section;
use crate::choice::Choice;
use crate::marking::mark_at;
use crate::striking::first_struck;
use crate::tables::Table;
use std::alloc::{AllocError, Global};

/// The first two choices of different sections that must be chosen and clash, by their places, given which choices are
/// left. The work grows with the number of choices, claims and demands, and with the greatest numbers of these: two
/// choices that must be chosen only clash where nothing is left of either's section, each choice of such a section that
/// can be chosen clashes with another one, and three walks find the first two.
pub fn first_conflict(
    alloc: Global,
    choices: &[Choice],
    left: &[bool],
    sections: u32,
) -> Result<Option<(usize, usize)>, AllocError>
    requires order { AreChoices choices.now }
    requires within { All (λ choice. choice.section < sections) choices.now }
    requires left { left.now ≡ map (is_among choice_rules (remaining choice_rules choices.now)) choices.now }
    ensures conflict { IfOk result (λ places.
        option_and_then (pair_at choices.now) places
        ≡ conflict choice_rules (by_section sections (forced choice_rules choices.now))) }
    ensures within { IfOk result (λ places.
        IfSome places (λ p. (p.0 < length choices.now) × (p.1 < length choices.now))) }
{
    let whole = members_by_section(alloc, choices)?;
    let alive = alive_sections(alloc, left, &whole, sections as usize)?;
    let Some(place) = first_stuck(choices, alive.as_slice()) else {
        return Ok(None);
    };
    conflict_around(
        alloc,
        choices,
        &whole,
        alive.as_slice(),
        choices[place].section,
    )
}

/// Whether one of some choices is left.
fn has_left(left: &[bool], places: &[usize]) -> bool
    ensures { result ≡ list_any (is_left left.now) places.now }
{
    places.iter().any(|place| mark_at(left, *place))
}

/// Of which sections something is left.
fn alive_sections(
    alloc: Global,
    left: &[bool],
    whole: &Table<usize>,
    sections: usize,
) -> Result<Vec<bool>, AllocError>
    ensures len { IfOk result (λ marks. length marks.items ≡ sections) }
    ensures each { IfOk result (λ marks. (section : ℕ) → section < sections →
        is_left marks.items section ≡ list_any (is_left left.now) (list_at whole.now section)) }
{
    let mut alive = Vec::new(alloc);
    for section in 0..sections {
        alive.push(has_left(left, whole.get(section)))?;
    }
    Ok(alive)
}

/// Whether a choice can be chosen, and nothing is left of its section.
fn stuck(alive: &[bool], choice: &Choice) -> bool
    ensures { result ≡ is_stuck alive.now choice.now }
{
    choice.matches && !mark_at(alive, choice.section as usize)
}

/// The first choice that can be chosen and of whose section nothing is left.
fn first_stuck(choices: &[Choice], alive: &[bool]) -> Option<usize>
    ensures none { IfNone result ((place : ℕ) (c : Choice) → At choices.now place c → is_stuck alive.now c ≡ false) }
    ensures within { IfSome result (λ place. place < length choices.now) }
    ensures stuck { IfSome result (λ place. (c : Choice) → At choices.now place c → is_stuck alive.now c ≡ true) }
    ensures before { IfSome result (λ place. (k : ℕ) (c : Choice) → k < place →
        At choices.now k c → is_stuck alive.now c ≡ false) }
{
    for (place, choice) in choices.iter().enumerate() {
        if stuck(alive, choice) {
            return Some(place);
        }
    }
    None
}

/// Marks of the choices of a section that can be chosen, where nothing is left of the section.
fn stuck_in(
    alloc: Global,
    choices: &[Choice],
    alive: &[bool],
    section: u32,
) -> Result<Vec<bool>, AllocError>
    ensures { IfOk result (λ marks. marks.items ≡ map (is_stuck_in alive.now section) choices.now) }
{
    choices
        .iter()
        .map(|choice| stuck(alive, choice) && choice.section == section)
        .collect(alloc)
}

/// Marks of the choices that can be chosen, of other sections of which nothing is left.
fn stuck_out(
    alloc: Global,
    choices: &[Choice],
    alive: &[bool],
    section: u32,
) -> Result<Vec<bool>, AllocError>
    ensures { IfOk result (λ marks. marks.items ≡ map (is_stuck_out alive.now section) choices.now) }
{
    choices
        .iter()
        .map(|choice| stuck(alive, choice) && choice.section != section)
        .collect(alloc)
}

/// Of two sections of which nothing is left: the first choice of one that clashes with one of the other, and the first
/// of the other with which it does.
fn conflict_between(
    alloc: Global,
    choices: &[Choice],
    whole: &Table<usize>,
    alive: &[bool],
    one: u32,
    two: u32,
) -> Result<Option<(usize, usize)>, AllocError>
    requires choices { AreChoices choices.now }
    requires whole { IsWhole choices.now whole.now }
    requires apart { one ≡ two → ⊥ }
    ensures { IfOk result (λ found. Between choices.now whole.now alive.now one two found) }
{
    let ones = stuck_in(alloc, choices, alive, one)?;
    match first_struck(alloc, choices, ones.as_slice(), whole.get(two as usize))? {
        Some(first) => {
            let others = stuck_in(alloc, choices, alive, two)?;
            let by = [first];
            match first_struck(alloc, choices, others.as_slice(), &by)? {
                Some(second) => Ok(Some((first, second))),
                None => Ok(None),
            }
        }
        None => Ok(None),
    }
}

/// The same for a section and the first choice, of another section, that clashes with one of it: the section of this
/// choice is the other.
fn conflict_around(
    alloc: Global,
    choices: &[Choice],
    whole: &Table<usize>,
    alive: &[bool],
    one: u32,
) -> Result<Option<(usize, usize)>, AllocError>
    requires choices { AreChoices choices.now }
    requires whole { IsWhole choices.now whole.now }
    ensures { IfOk result (λ found. Around choices.now whole.now alive.now one found) }
{
    let others = stuck_out(alloc, choices, alive, one)?;
    match first_struck(alloc, choices, others.as_slice(), whole.get(one as usize))? {
        Some(place) => {
            let two = choices[place].section;
            conflict_between(alloc, choices, whole, alive, one, two)
        }
        None => Ok(None),
    }
}
