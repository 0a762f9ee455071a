//! Ranges that many words are looked up in.
ghost use Rattle.std.specs.Prelude.{◌≡◌, ◌≤◌, ◌<◌, ◌+◌, ◌↔◌, IsTrue, true, false, ◌&&◌, nat_le, nat_lt, length};
ghost use Rattle.std.specs.List.{list_any};
ghost use Rattle.std.specs.Simd.Lanes.{chunk};
ghost use Rattle.image_memory.specs.Ranges.{lies_in};
ghost use Rattle.stack_scan.specs.Standing.{in_one};
ghost use Rattle.stack_scan.specs.declared.slots.Slots.{Slots as TheSlots};
ghost use Rattle.stack_scan.specs.inside.Words.{AreInOrder, NoneBetween};
ghost use Rattle.stack_scan.specs.inside.Cuts.{IsCut};

use crate::slots::{Slots, has_in_order};
use ks_base::Range;
use std::marker::Model;
use std::simd::prelude::*;

/// How many words are tested at once.
pub(crate) const LANES: usize = 8;

/// Up to so many ranges have no slots: these would cost more than they spare a thread with few words on its stack.
const FEW: usize = 256;

/// Ranges with what makes a look-up quick. Contracts see the ranges.
#[derive(Drop)]
pub(crate) struct Targets<'a> {
    ranges: &'a [Range],
    /// No range begins below `low` or ends above `high`.
    low: u32,
    high: u32,
    /// What a word is looked up by, where they are many, ascend and don't meet.
    slots: Option<Slots>,
    /// They ascend and don't meet.
    in_order: bool,
}

impl<'a> Model for Targets<'a> {
    ghost use Rattle.std.specs.Prelude.{◌≡◌, List, length, Some, true};
    ghost use Rattle.ks_base.specs.declared.places.Range.{Range};
    ghost use Rattle.stack_scan.specs.declared.slots.Slots.{Slots};
    ghost use Rattle.stack_scan.specs.inside.Words.{AreInOrder, AreWithin};
    ghost use Rattle.stack_scan.specs.inside.Cuts.{IsCut};

    ghost Value = { List Range };

    ghost view = { λ t. t.ranges.now };

    ghost invariant = { λ t. AreWithin t.low t.high (length t.ranges.now) t.ranges.now
        × ((slots : Slots) → t.slots ≡ Some slots
        → AreInOrder (length t.ranges.now) t.ranges.now × IsCut slots t.low t.high t.ranges.now)
        × (t.in_order ≡ true → AreInOrder (length t.ranges.now) t.ranges.now) };
}

impl<'a> Targets<'a> {
    /// These ranges, after one pass over them.
    pub(crate) fn new(ranges: &'a [Range]) -> Targets<'a>
        ensures { result ≡ ranges.now }
    {
        let mut low = u32::MAX;
        let mut high = 0;
        let mut in_order = true;
        for range in ranges {
            if !follows(*range, high) {
                in_order = false;
            }
            low = low.min(range.low);
            high = high.max(range.high);
        }
        Targets {
            ranges,
            low,
            high,
            slots: slots_of(ranges, low, high, in_order),
            in_order,
        }
    }

    /// Whether some of the words that are tested at once, from a place on, may be an address of one of the ranges:
    /// whether one lies between the bounds of all.
    #[inline]
    pub(crate) fn may_have_some(&self, words: &[u32], start: usize) -> bool
        requires { start + LANES ≤ length words.now }
        ensures { result ≡ false → NoneBetween self.now words.now start (start + LANES) }
    {
        is_one_within(words, start, self.low, self.high)
    }

    /// Whether a word is an address of one of the ranges. It takes constant time for a word outside their bounds, and
    /// the logarithm of the number of those in its slot where they ascend without meeting.
    pub(crate) fn has(&self, word: u32) -> bool
        ensures { result ≡ in_one self.now word }
    {
        if word < self.low || word >= self.high {
            return false;
        }
        match &self.slots {
            Some(slots) => slots.has(self.ranges, word, self.high),
            None => is_among(self.ranges, self.in_order, word),
        }
    }
}

/// The slots of ranges that ascend without meeting, where they are known to, and are too many for none.
fn slots_of(ranges: &[Range], low: u32, high: u32, in_order: bool) -> Option<Slots>
    requires { in_order ≡ true → AreInOrder (length ranges.now) ranges.now }
    ensures { (slots : TheSlots) → result ≡ Some slots
        → AreInOrder (length ranges.now) ranges.now × IsCut slots low high ranges.now }
{
    if in_order && ranges.len() > FEW {
        Some(Slots::new(ranges, low, high))
    } else {
        None
    }
}

/// Whether one of the words that are tested at once, from a place on, is at a bound or above it, and below another.
#[inline]
fn is_one_within(words: &[u32], start: usize, low: u32, high: u32) -> bool
    requires { start + LANES ≤ length words.now }
    ensures { result ≡ list_any (λ word. nat_le low word && nat_lt word high) (chunk start LANES words.now) }
{
    let above = u32x8::from_slice(&words[start..]) - u32x8::splat(low);
    let span = high.saturating_sub(low);
    above.simd_lt(u32x8::splat(span)).any()
}

/// Whether a range begins at an address or above, and doesn't end below its beginning.
fn follows(range: Range, floor: u32) -> bool
    ensures { IsTrue result ↔ ((floor ≤ range.low) × (range.low ≤ range.high)) }
{
    floor <= range.low && range.low <= range.high
}

/// Whether a word is an address of one of some ranges: by halving, where they are known to ascend without meeting.
fn is_among(ranges: &[Range], in_order: bool, word: u32) -> bool
    requires { in_order ≡ true → AreInOrder (length ranges.now) ranges.now }
    ensures { result ≡ in_one ranges.now word }
{
    if in_order {
        has_in_order(ranges, word)
    } else {
        is_in_one(ranges, word)
    }
}

/// Whether a word is an address of one of some ranges.
fn is_in_one(ranges: &[Range], word: u32) -> bool
    ensures { result ≡ in_one ranges.now word }
{
    ranges
        .iter()
        .any(|range| range.low <= word && word < range.high)
}
