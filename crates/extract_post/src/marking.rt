//! Marks of sections.
ghost use Rattle.std.specs.Prelude.{◌≡◌, ◌<◌, ◌+◌, ◌^◌, ◌++◌, ◌∷◌, [], IfOk, OnOk, length, map, not, position};
ghost use Rattle.extract_post.specs.inside.Asked.{passes};
ghost use Rattle.extract_post.specs.inside.Marks.{marked, tests, marked_at, marked_names};
ghost use Rattle.extract_post.specs.inside.Marks.{AreBoth, AreEither, AreApart, ArePart};

use crate::classes::passes;
use crate::types::Asked;
use i386_reloc::{Normal, NormalSection};
use ks_base::{Name, Names};
use std::alloc::{AllocError, Global};
use std::marker::Model;

/// A mark for each of some sections, by its place. A place past the last one isn't marked.
#[derive(Drop)]
pub(crate) struct Marks {
    marks: Vec<bool>,
}

impl Model for Marks {
    ghost use Rattle.std.specs.Prelude.{List, Bool};

    ghost Value = { List Bool };

    ghost view = { λ m. m.marks.items };
}

impl Marks {
    /// The marks of a list.
    pub(crate) fn new(marks: Vec<bool>) -> Self
        ensures { result ≡ marks.items }
    {
        Marks { marks }
    }

    /// Which sections of one of two objects are asked for.
    pub(crate) fn of(
        alloc: Global,
        asked: Asked,
        here: &Normal<'_>,
        there: &Normal<'_>,
    ) -> Result<Self, AllocError>
        ensures { IfOk result (λ marks. marks ≡ tests (passes asked here.now there.now) here.now) }
    {
        let mut marks = Vec::new(alloc);
        for section in here.as_slice() {
            marks.push(passes(asked, here, there, section.name.as_slice()))?;
        }
        Ok(Marks::new(marks))
    }

    /// The marks that a list doesn't have.
    pub(crate) fn unmarked(alloc: Global, marks: &[bool]) -> Result<Self, AllocError>
        ensures { IfOk result (λ others. others ≡ map not marks.now) }
    {
        Ok(Marks::new(opposite(alloc, marks)?))
    }

    /// The marks in order.
    pub(crate) fn as_slice(&self) -> &[bool]
        ensures { result.now ≡ self.now }
    {
        self.marks.as_slice()
    }

    /// Whether a place is marked.
    pub(crate) fn has(&self, place: usize) -> bool
        ensures { result ≡ marked self.now place }
    {
        match self.marks.get(place) {
            Some(mark) => *mark,
            None => false,
        }
    }

    /// Whether a place is marked, where there is one.
    pub(crate) fn has_at(&self, place: Option<usize>) -> bool
        ensures { result ≡ marked_at self.now place }
    {
        match place {
            Some(place) => self.has(place),
            None => false,
        }
    }

    /// The marks that both have.
    pub(crate) fn and(mut self, other: &Marks) -> Self
        ensures { AreBoth self other.now result }
    {
        for place in 0..self.marks.len() {
            self.marks[place] = self.marks[place] && other.has(place);
        }
        self
    }

    /// The marks that either of two lists of the same length has.
    pub(crate) fn or(mut self, other: &Marks) -> Self
        requires { length other.now ≡ length self }
        ensures { AreEither self other.now result }
    {
        for place in 0..self.marks.len() {
            self.marks[place] = self.marks[place] || other.has(place);
        }
        self
    }

    /// The marks that the other one doesn't have.
    pub(crate) fn without(mut self, other: &Marks) -> Self
        ensures { AreApart self other.now result }
    {
        for place in 0..self.marks.len() {
            self.marks[place] = self.marks[place] && !other.has(place);
        }
        self
    }

    /// The first marked place.
    pub(crate) fn first(&self) -> Option<usize>
        ensures { result ≡ position (λ mark. mark) self.now }
    {
        self.marks.iter().position(|mark| *mark)
    }

    /// So many of the marks, from a place on.
    pub(crate) fn part(&self, alloc: Global, from: usize, count: usize) -> Result<Self, AllocError>
        requires { from + count < 2 ^ 64 }
        ensures { IfOk result (λ part. ArePart self.now from count part) }
    {
        let mut marks = Vec::new(alloc);
        for place in 0..count {
            marks.push(self.has(from + place))?;
        }
        Ok(Marks::new(marks))
    }

    /// The names of the marked ones of some sections, in order.
    pub(crate) fn names(
        &self,
        alloc: Global,
        sections: &[NormalSection<'_>],
    ) -> Result<Names, AllocError>
        requires { length self.now ≡ length sections.now }
        ensures { IfOk result (λ names. names ≡ marked_names sections.now self.now) }
    {
        let mut names = Names::new(alloc);
        for place in 0..sections.len() {
            add_name(alloc, &mut names, &sections[place], self.has(place))?;
        }
        Ok(names)
    }
}

/// The opposite of each mark.
fn opposite(alloc: Global, marks: &[bool]) -> Result<Vec<bool>, AllocError>
    ensures { IfOk result (λ others. others.items ≡ map not marks.now) }
{
    marks.iter().map(|mark| !*mark).collect(alloc)
}

/// The name of a section.
pub(crate) fn name_of(alloc: Global, section: &NormalSection<'_>) -> Result<Name, AllocError>
    ensures { IfOk result (λ name. name ≡ section.now.name) }
{
    Name::from_slice(alloc, section.name.as_slice())
}

/// Puts a section's name at the end, where it is marked.
fn add_name(
    alloc: Global,
    names: &mut Names,
    section: &NormalSection<'_>,
    mark: bool,
) -> Result<(), AllocError>
    ensures { OnOk result (names.new ≡ names.old ++ marked_names (section.now ∷ []) (mark ∷ [])) }
{
    if mark {
        names.push(name_of(alloc, section)?)?;
    }
    Ok(())
}
