//! The ends of an object's texts, in the order of the bytes before them, so that of any two it is soon known how many
//! bytes before both are equal.
ghost use Rattle.std.specs.Prelude.{◌≡◌, ◌+◌, ◌-◌, ◌<◌, ◌≤◌, ℕ, List, length, slice_index, IfOk, IfSome, All};
ghost use Rattle.std.specs.Bool.{OnTrue};
ghost use Rattle.i386_reloc.specs.declared.types.NormalSection.{NormalSection};
ghost use Rattle.i386_reloc.specs.Places.{bytes_at};
ghost use Rattle.match_constants.specs.declared.endings.End.{End};
ghost use Rattle.match_constants.specs.Endings.{Agree, IsLevel, AreEndings, end_at};

use i386_reloc::{Normal, NormalSection, Ref, Target};
use std::alloc::{AllocError, Global};
use std::cmp::Ordering;
use std::collections::{BTreeMap, BTreeSet};

/// Where a text ends: in which section of the object, and after how many bytes of it.
#[derive(Clone, Copy, PartialEq, Eq, PartialOrd, Ord)]
pub(crate) struct End {
    pub(crate) place: usize,
    pub(crate) end: usize,
}

/// For each end that has another `step` places further on in the order: at least how many bytes before the two are
/// equal.
#[derive(Drop)]
pub(crate) struct Level {
    pub(crate) step: usize,
    pub(crate) shared: Vec<usize>,
}

/// The ends of an object's texts in the order of the bytes before them, the number of each, and what those share that
/// are 1, 2, 4 .. apart.
#[derive(Drop)]
pub struct Endings {
    pub(crate) ends: Vec<End>,
    numbers: BTreeMap<End, usize>,
    pub(crate) levels: Vec<Level>,
}

/// The bytes of the section at a place, none where there is no section.
pub(crate) fn bytes_at<'n>(normal: &'n Normal<'_>, place: usize) -> &'n [u8]
    ensures { result.now ≡ bytes_at normal.now place }
{
    match normal.as_slice().get(place) {
        Some(section) => section.bytes.as_slice(),
        None => &[],
    }
}

/// The byte at a place, 0 where there is none.
fn byte_or_zero(bytes: &[u8], place: usize) -> u8
    ensures { result ≡ slice_index bytes.now place }
{
    bytes.get(place).copied().unwrap_or(0)
}

/// Whether two texts go on with the same byte, so many bytes before their ends: a zero stands at the ends alone.
fn go_on(x: u8, y: u8, count: usize) -> bool
    ensures { OnTrue result (x ≡ y) }
{
    x == y && (count == 0 || x != 0)
}

/// How many bytes before two ends are equal, up to the zeros before the texts.
fn alike(normal: &Normal<'_>, x: End, y: End) -> usize
    ensures { Agree normal.now x y result }
{
    let first = bytes_at(normal, x.place);
    let second = bytes_at(normal, y.place);
    let bound = x.end.min(y.end);
    for count in 0..bound {
        let own = byte_or_zero(first, x.end - 1 - count);
        if !go_on(own, byte_or_zero(second, y.end - 1 - count), count) {
            return count;
        }
    }
    bound
}

/// The byte before so many others before an end, 0 where the section has no byte there.
fn byte_before(normal: &Normal<'_>, end: End, count: usize) -> u8 {
    if count < end.end {
        return byte_or_zero(bytes_at(normal, end.place), end.end - 1 - count);
    }
    0
}

/// The order of two ends by the bytes before them, read backward.
fn order(normal: &Normal<'_>, x: End, y: End) -> Ordering {
    let count = alike(normal, x, y);
    byte_before(normal, x, count).cmp(&byte_before(normal, y, count))
}

/// Where the text ends that the reference `k` of section `i` goes to, if it goes to one.
fn end_of(normal: &Normal<'_>, i: usize, k: usize, r: &Ref<'_>) -> Option<End> {
    let Target::Text { offset, text, .. } = &r.target else {
        return None;
    };
    let place = normal.target_place(i, k)?;
    let end = (*offset as usize).saturating_add(text.as_slice().len());
    Some(End { place, end })
}

/// Takes the ends of the texts to which the references of section `i` go, each that isn't seen yet.
fn take_section(
    ends: &mut Vec<End>,
    seen: &mut BTreeSet<End>,
    normal: &Normal<'_>,
    i: usize,
    section: &NormalSection<'_>,
) -> Result<(), AllocError> {
    let references = section.refs.as_slice();
    for k in 0..references.len() {
        if let Some(end) = end_of(normal, i, k, &references[k]) {
            take_end(ends, seen, end)?;
        }
    }
    Ok(())
}

/// Takes an end that isn't seen yet.
fn take_end(ends: &mut Vec<End>, seen: &mut BTreeSet<End>, end: End) -> Result<(), AllocError> {
    if !seen.contains(&end) {
        seen.insert(end)?;
        ends.push(end)?;
    }
    Ok(())
}

/// The ends of the texts to which references go, each once.
fn text_ends(alloc: Global, normal: &Normal<'_>) -> Result<Vec<End>, AllocError> {
    let mut ends = Vec::new(alloc);
    let mut seen = BTreeSet::new(alloc);
    let sections = normal.as_slice();
    for i in 0..sections.len() {
        take_section(&mut ends, &mut seen, normal, i, &sections[i])?;
    }
    Ok(ends)
}

/// The number of each end.
fn numbered(alloc: Global, ends: &[End]) -> Result<BTreeMap<End, usize>, AllocError> {
    let mut numbers = BTreeMap::new(alloc);
    for i in 0..ends.len() {
        numbers.insert(ends[i], i)?;
    }
    Ok(numbers)
}

/// What neighbours share.
fn neighbours(alloc: Global, normal: &Normal<'_>, ends: &[End]) -> Result<Level, AllocError>
    ensures level { IfOk result (λ level. IsLevel normal.now ends.now level) }
    ensures step { IfOk result (λ level. 0 < level.step) }
{
    let mut shared = Vec::new(alloc);
    for i in 0..ends.len().saturating_sub(1) {
        shared.push(alike(normal, ends[i], ends[i + 1]))?;
    }
    Ok(Level { step: 1, shared })
}

/// What those share that are twice as far apart.
fn doubled(alloc: Global, level: &Level) -> Result<Level, AllocError>
    requires { level.now.step < length level.now.shared.items }
    ensures level { IfOk result (λ next. (object : List NormalSection) (ends : List End)
        → IsLevel object ends level.now → IsLevel object ends next) }
    ensures step { IfOk result (λ next. next.step ≡ level.now.step + level.now.step) }
    ensures fewer { IfOk result
        (λ next. length next.shared.items ≡ length level.now.shared.items - level.now.step) }
{
    let mut shared = Vec::new(alloc);
    for i in 0..level.shared.len() - level.step {
        shared.push(level.shared[i].min(level.shared[i + level.step]))?;
    }
    Ok(Level {
        step: level.step + level.step,
        shared,
    })
}

/// What those share that are 1, 2, 4 .. apart.
fn all_levels(alloc: Global, normal: &Normal<'_>, ends: &[End]) -> Result<Vec<Level>, AllocError>
    ensures { IfOk result (λ levels. All (IsLevel normal.now ends.now) levels.items) }
{
    let mut levels = Vec::new(alloc);
    let mut level = neighbours(alloc, normal, ends)?;
    while level.step < level.shared.len() {
        let next = doubled(alloc, &level)?;
        levels.push(level)?;
        level = next;
    }
    levels.push(level)?;
    Ok(levels)
}

/// How far a walk along the ends has come, and how many bytes before all that it touched are equal.
#[derive(Clone, Copy, PartialEq, Eq)]
struct Walk {
    at: usize,
    count: usize,
}

impl Walk {
    /// The walk after the step of a level, where that doesn't lead too far.
    fn stepped(self, level: &Level, to: usize) -> Walk
        ensures { (object : List NormalSection) (ends : List End) (first : End) → IsLevel object ends level.now
            → Agree object first (end_at ends self.at) self.count
            → Agree object first (end_at ends result.at) result.count }
    {
        if to.saturating_sub(self.at) < level.step {
            return self;
        }
        let Some(shared) = level.shared.get(self.at) else {
            return self;
        };
        Walk {
            at: self.at + level.step,
            count: self.count.min(*shared),
        }
    }
}

impl Endings {
    /// The ends of an object's texts. `Err` comes only if memory runs out.
    pub fn new(alloc: Global, normal: &Normal<'_>) -> Result<Self, AllocError>
        ensures { IfOk result (λ endings. AreEndings normal.now endings) }
    {
        let mut ends = text_ends(alloc, normal)?;
        ends.sort_by(|x, y| order(normal, *x, *y))?;
        let numbers = numbered(alloc, &ends)?;
        let levels = all_levels(alloc, normal, &ends)?;
        Ok(Endings {
            ends,
            numbers,
            levels,
        })
    }

    /// The number of an end.
    fn number(&self, end: End) -> Option<usize>
        ensures { IfSome result (λ i. end_at self.now.ends.items i ≡ end) }
    {
        let number = self.numbers.get(&end).copied()?;
        let there = *self.ends.get(number)?;
        if there == end { Some(number) } else { None }
    }

    /// How many bytes before the ends of two numbers are known to be equal; 0 where the second comes before the first.
    fn between(&self, first: usize, last: usize) -> usize
        ensures { (object : List NormalSection) → AreEndings object self.now
            → Agree object (end_at self.now.ends.items first) (end_at self.now.ends.items last) result }
    {
        let Some(end) = self.ends.get(first) else {
            return 0;
        };
        let mut walk = Walk {
            at: first,
            count: end.end,
        };
        for j in 0..self.levels.len() {
            walk = walk.stepped(&self.levels[self.levels.len() - 1 - j], last);
        }
        if walk.at == last { walk.count } else { 0 }
    }

    /// How many bytes before two ends are known to be equal: where references go to texts that end there, no fewer than
    /// these texts have in common.
    pub(crate) fn shared(&self, x: End, y: End) -> usize
        ensures { (object : List NormalSection) → AreEndings object self.now → Agree object x y result }
    {
        let Some(first) = self.number(x) else {
            return 0;
        };
        let Some(last) = self.number(y) else {
            return 0;
        };
        if first <= last {
            return self.between(first, last);
        }
        self.between(last, first)
    }
}
