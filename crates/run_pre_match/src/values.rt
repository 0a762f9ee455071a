//! The values that are found for what an object's code refers to.
ghost use Rattle.std.specs.Prelude.{◌≡◌, List, []};
ghost use Rattle.i386_reloc.specs.declared.types.NormalSection.{NormalSection};
ghost use Rattle.image_memory.specs.declared.types.Piece.{Piece};
ghost use Rattle.run_pre_match.specs.Candidate.{Candidate};
ghost use Rattle.match_constants.specs.Texts.{AreKnown};
ghost use Rattle.run_pre_match.specs.inside.Kept.{Keeps, verdict_by};

use crate::goals::Verdict;
use match_constants::KnownTexts;
use std::alloc::Global;
use std::collections::BTreeMap;

/// The first value that was found for something, and whether it holds.
#[derive(Clone, Copy, PartialEq, Eq)]
pub(crate) struct First {
    pub(crate) value: u32,
    pub(crate) holds: bool,
}

/// The first values for each thing that has one: the entries of functions, data, read-only sections (each by its place
/// among the object's sections), and outside names; and how far texts are known to stand before
/// addresses.
#[derive(Drop)]
pub(crate) struct Values<'a> {
    pub(crate) entries: BTreeMap<usize, First>,
    pub(crate) variables: BTreeMap<usize, First>,
    pub(crate) constants: BTreeMap<usize, First>,
    pub(crate) outsides: BTreeMap<&'a [u8], First>,
    pub(crate) texts: KnownTexts,
}

impl<'a> Values<'a> {
    /// No values.
    pub(crate) fn new(alloc: Global) -> Self
        ensures keeps { (c : Candidate) → Keeps c [] result }
        ensures known { (object : List NormalSection) (pieces : List Piece) → AreKnown object pieces result.texts }
    {
        Values {
            entries: BTreeMap::new(alloc),
            variables: BTreeMap::new(alloc),
            constants: BTreeMap::new(alloc),
            outsides: BTreeMap::new(alloc),
            texts: KnownTexts::new(alloc),
        }
    }
}

/// What is said of a value, by the first one: `failing` where that one doesn't hold.
pub(crate) fn verdict(first: First, value: u32, failing: Verdict) -> Verdict
    ensures { result ≡ verdict_by first value failing }
{
    if first.value != value {
        return Verdict::Refused;
    }
    if first.holds { Verdict::Holds } else { failing }
}

/// What is wrong with the values that an instruction's fields give.
#[derive(Clone, Copy, PartialEq, Eq)]
pub(crate) struct Marks {
    /// One of the instruction's own fields, for the own section, gives a value that is refused.
    pub(crate) target: bool,
    /// One of its own fields does.
    pub(crate) refused: bool,
    /// What should stand at a value doesn't, or a field of a read-only section gives a value that is refused.
    pub(crate) unmet: bool,
}
