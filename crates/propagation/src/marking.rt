//! Marks of the choices that are left.
ghost use Rattle.std.specs.Prelude.{◌≡◌, ◌<◌, ◌≤◌, ◌-◌, ◌++◌, ℕ, false, true, length, map, slice_set, filter};
ghost use Rattle.std.specs.Prelude.{replicate, MatchOption, option_to_list, [], OnOk, IfOk, IfNone, IfSome};
ghost use Rattle.std.specs.List.{slice_index_or, slice_index};
ghost use Rattle.propagation.specs.Choices.{can_be_chosen};
ghost use Rattle.propagation.specs.inside.State.{IsEnd, IsNarrowed, Popped};
ghost use Rattle.propagation.specs.inside.Engine.{is_left, is_other, waiting, excluded_of};
ghost use Rattle.propagation.specs.inside.Engine.{excluded, excluded_each, entries_left};

use crate::choice::Choice;
use crate::tables::Entry;
use std::alloc::{AllocError, Global};
use std::marker::Model;

/// Which choices are left, and which sections are to be looked at, since fewer of their choices are left than before.
#[derive(Drop)]
pub(crate) struct Marks {
    left: Vec<bool>,
    /// the sections that wait, each once
    queue: Vec<usize>,
    /// which sections wait
    queued: Vec<bool>,
}

impl Model for Marks {
    ghost use Rattle.propagation.specs.inside.Engine.{Marking};

    ghost Value = { Marking };

    ghost view = { λ m. record { left = m.left.items; queue = m.queue.items; queued = m.queued.items } };
}

/// The mark at a place, false past the end.
pub(crate) fn mark_at(marks: &[bool], place: usize) -> bool
    ensures { result ≡ slice_index_or marks.now place false }
{
    match marks.get(place) {
        Some(mark) => *mark,
        None => false,
    }
}

/// Puts a mark at a place, where that isn't past the end.
fn put_mark(marks: &mut [bool], place: usize, mark: bool)
    ensures { marks.new ≡ slice_set marks.old place mark }
{
    if place < marks.len() {
        marks[place] = mark;
    }
}

/// Which choices can be chosen at all.
pub(crate) fn possible(alloc: Global, choices: &[Choice]) -> Result<Vec<bool>, AllocError>
    ensures { IfOk result (λ marks. marks.items ≡ map can_be_chosen choices.now) }
{
    choices.iter().map(|choice| choice.matches).collect(alloc)
}

/// The numbers below one, ascending.
fn numbers_below(alloc: Global, end: usize) -> Result<Vec<usize>, AllocError>
    ensures len { IfOk result (λ numbers. length numbers.items ≡ end) }
    ensures each { IfOk result (λ numbers. (k : ℕ) → k < end → slice_index numbers.items k ≡ k) }
{
    let mut numbers = Vec::new(alloc);
    for number in 0..end {
        numbers.push(number)?;
    }
    Ok(numbers)
}

impl Marks {
    /// Marks of which choices are left. Each of so many sections waits.
    pub(crate) fn new(alloc: Global, left: Vec<bool>, sections: usize) -> Result<Self, AllocError>
        ensures left { IfOk result (λ m. m.left ≡ left.items) }
        ensures len { IfOk result (λ m. length m.queue ≡ sections) }
        ensures queue { IfOk result (λ m. (k : ℕ) → k < sections → slice_index m.queue k ≡ k) }
        ensures queued { IfOk result (λ m. m.queued ≡ replicate sections true) }
    {
        Ok(Marks {
            left,
            queue: numbers_below(alloc, sections)?,
            queued: vec![in alloc; true; sections]?,
        })
    }

    /// Whether a choice is left.
    pub(crate) fn is_left(&self, choice: usize) -> bool
        ensures { result ≡ is_left self.now.left choice }
    {
        mark_at(self.left.as_slice(), choice)
    }

    /// Makes a section wait.
    fn wait(&mut self, section: usize) -> Result<(), AllocError>
        ensures { OnOk result (self.new ≡ waiting self.old section) }
    {
        if mark_at(self.queued.as_slice(), section) {
            return Ok(());
        }
        self.queue.push(section)?;
        put_mark(self.queued.as_mut_slice(), section, true);
        Ok(())
    }

    /// Excludes a choice, by its place.
    fn exclude(&mut self, choices: &[Choice], choice: usize) -> Result<(), AllocError>
        ensures { OnOk result (self.new ≡ excluded choices.now self.old choice) }
    {
        match choices.get(choice) {
            Some(found) => self.exclude_of(choice, found.section as usize),
            None => Ok(()),
        }
    }

    /// Excludes a choice of a section.
    fn exclude_of(&mut self, choice: usize, section: usize) -> Result<(), AllocError>
        ensures { OnOk result (self.new ≡ excluded_of self.old choice section) }
    {
        if !self.is_left(choice) {
            return Ok(());
        }
        put_mark(self.left.as_mut_slice(), choice, false);
        self.wait(section)
    }

    /// Excludes each of some choices.
    pub(crate) fn exclude_each(
        &mut self,
        choices: &[Choice],
        victims: &[usize],
    ) -> Result<(), AllocError>
        ensures { OnOk result (self.new ≡ excluded_each choices.now self.old victims.now) }
    {
        for choice in victims {
            self.exclude(choices, *choice)?;
        }
        Ok(())
    }

    /// The entries whose choices are left.
    pub(crate) fn entries_left(
        &self,
        alloc: Global,
        entries: &[Entry],
    ) -> Result<Vec<Entry>, AllocError>
        ensures { IfOk result (λ kept. kept.items ≡ entries_left self.now.left entries.now) }
    {
        entries
            .iter()
            .filter(|entry| self.is_left(entry.choice))
            .copied()
            .collect(alloc)
    }

    /// Those of some choices that are left.
    pub(crate) fn those_left(
        &self,
        alloc: Global,
        choices: &[usize],
    ) -> Result<Vec<usize>, AllocError>
        ensures { IfOk result (λ kept. kept.items ≡ filter (is_left self.now.left) choices.now) }
    {
        choices
            .iter()
            .filter(|choice| self.is_left(**choice))
            .copied()
            .collect(alloc)
    }

    /// Whether a choice is left and isn't at a place.
    fn is_other(&self, except: usize, choice: usize) -> bool
        ensures { result ≡ is_other self.now.left except choice }
    {
        self.is_left(choice) && choice != except
    }

    /// Among the first `end` choices of a list, where the last one stands that is left and isn't `except`: the length
    /// of the prefix that ends with it, 0 where there is none.
    fn end_of_left(&self, list: &[usize], end: usize, except: usize) -> usize
        requires { end ≤ length list.now }
        ensures { IsEnd self.now.left list.now end except result }
    {
        let mut last = end;
        while last > 0 {
            if self.is_other(except, list[last - 1]) {
                return last;
            }
            last -= 1;
        }
        0
    }

    /// How many choices are marked.
    fn len(&self) -> usize
        ensures { result ≡ length self.now.left }
    {
        self.left.len()
    }

    /// A list without the choices that aren't left at its end, and without those just before its last one. Each is
    /// dropped once, so beyond that this takes constant time.
    pub(crate) fn narrowed(&self, mut list: Vec<usize>) -> Vec<usize>
        ensures { IsNarrowed self.now.left list.items result.items }
    {
        let last = self.end_of_left(list.as_slice(), list.len(), self.len());
        if last == 0 {
            list.truncate(0);
            return list;
        }
        let only = list[last - 1];
        let before = self.end_of_left(list.as_slice(), last - 1, only);
        list[before] = only;
        list.truncate(before + 1);
        list
    }

    /// Takes a section that waits.
    pub(crate) fn pop(&mut self) -> Option<usize>
        ensures empty { IfNone result (self.old.queue ≡ []) }
        ensures same { IfNone result (self.new ≡ self.old) }
        ensures popped { IfSome result (λ section. Popped section self.old self.new) }
    {
        let section = self.queue.pop()?;
        put_mark(self.queued.as_mut_slice(), section, false);
        Some(section)
    }

    /// Which choices are left.
    pub(crate) fn into_left(self) -> Vec<bool>
        ensures { result.items ≡ self.left }
    {
        self.left
    }
}
