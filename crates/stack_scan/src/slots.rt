//! Slots into which the addresses of ranges are cut, so that a word is looked up among few of many ranges.
ghost use Rattle.std.specs.Prelude.{◌≡◌, ◌≤◌, ◌<◌, ◌+◌, ◌-◌, ◌*◌, ◌^◌, length};
ghost use Rattle.std.specs.List.{AllWithin};
ghost use Rattle.stack_scan.specs.Standing.{in_one};
ghost use Rattle.stack_scan.specs.inside.Words.{AreInOrder};
ghost use Rattle.stack_scan.specs.inside.Cuts.{Ends, IsCut};

use ks_base::Range;

/// How many slots there are.
const SLOTS: u32 = 4096;

/// How many bounds they have, that of the last one's end included.
const BOUNDS: usize = 4097;

/// Slots of one size, one behind another, and where in some ranges that ascend without meeting each begins.
#[derive(Drop)]
pub(crate) struct Slots {
    /// Where the first one begins.
    low: u32,
    /// A slot has two to the power of this many addresses.
    shift: u32,
    /// How many ranges end at or below each bound.
    ended: [usize; BOUNDS],
}

impl Slots {
    /// The slots from a low address up to a high one, or past it.
    pub(crate) fn new(ranges: &[Range], low: u32, high: u32) -> Slots
        requires { AreInOrder (length ranges.now) ranges.now }
        ensures { IsCut result low high ranges.now }
    {
        let shift = shift_for(high.saturating_sub(low));
        let mut ended = [0; BOUNDS];
        let mut count = 0;
        for slot in 0..BOUNDS {
            count = count_ended_from(ranges, count, bound(low, shift, slot));
            ended[slot] = count;
        }
        Slots { low, shift, ended }
    }

    /// Whether a word from the low address on and below the high one is an address of one of the ranges: of the first
    /// one that ends above it.
    pub(crate) fn has(&self, ranges: &[Range], word: u32, high: u32) -> bool
        requires order { AreInOrder (length ranges.now) ranges.now }
        requires slots { IsCut self.now self.now.low high ranges.now }
        requires above { self.now.low ≤ word }
        requires below { word < high }
        ensures { result ≡ in_one ranges.now word }
    {
        let first = self.ended(ranges, word, high);
        begins_by(ranges, word, first)
    }

    /// How many ranges end at or below such a word: it is looked up among those that end in its slot.
    fn ended(&self, ranges: &[Range], word: u32, high: u32) -> usize
        requires order { AreInOrder (length ranges.now) ranges.now }
        requires slots { IsCut self.now self.now.low high ranges.now }
        requires above { self.now.low ≤ word }
        requires below { word < high }
        ensures { Ends ranges.now word result }
    {
        let slot = ((word - self.low) >> self.shift) as usize;
        let start = self.ended[slot];
        let end = self.ended[slot + 1];
        ended_between(ranges, word, start, end)
    }
}

/// Whether a word is an address of one of some ranges that ascend without meeting, by halving.
pub(crate) fn has_in_order(ranges: &[Range], word: u32) -> bool
    requires { AreInOrder (length ranges.now) ranges.now }
    ensures { result ≡ in_one ranges.now word }
{
    let first = count_ended(ranges, u64::from(word));
    begins_by(ranges, word, first)
}

/// Whether there is a first range that ends above a word, and it begins at the word or below.
fn begins_by(ranges: &[Range], word: u32, first: usize) -> bool
    requires order { AreInOrder (length ranges.now) ranges.now }
    requires ends { Ends ranges.now word first }
    ensures { result ≡ in_one ranges.now word }
{
    if first == ranges.len() {
        return false;
    }
    ranges[first].low <= word
}

/// The least power of two, at most 20, for a slot, by which the slots take in so many addresses.
fn shift_for(span: u32) -> u32
    ensures most { result ≤ 20 }
    ensures reach { span < SLOTS * 2 ^ result }
{
    for shift in 0..20 {
        if span >> shift < SLOTS {
            return shift;
        }
    }
    20
}

/// Where a slot begins.
fn bound(low: u32, shift: u32, slot: usize) -> u64
    requires shift { shift ≤ 20 }
    requires slot { slot ≤ 4096 }
    ensures { result ≡ low + slot * 2 ^ shift }
{
    u64::from(low) + ((slot as u64) << shift)
}

/// How many ranges end at or below a word, where the first ones are known to, and the last ones not to.
fn ended_between(ranges: &[Range], word: u32, start: usize, end: usize) -> usize
    requires order { AreInOrder (length ranges.now) ranges.now }
    requires ascend { start ≤ end }
    requires bound { end ≤ length ranges.now }
    requires below { AllWithin (λ range. range.high ≤ word) ranges.now 0 start }
    requires above { AllWithin (λ range. word < range.high) ranges.now end (length ranges.now) }
    ensures { Ends ranges.now word result }
{
    start + count_ended(&ranges[start..end], u64::from(word))
}

/// How many ranges end at or below an address, where the first ones are known to. It takes constant time where no more
/// do.
fn count_ended_from(ranges: &[Range], start: usize, address: u64) -> usize
    requires order { AreInOrder (length ranges.now) ranges.now }
    requires bound { start ≤ length ranges.now }
    requires below { AllWithin (λ range. range.high ≤ address) ranges.now 0 start }
    ensures { Ends ranges.now address result }
{
    if start == ranges.len() {
        return start;
    }
    if address < u64::from(ranges[start].high) {
        return start;
    }
    start + count_ended(&ranges[start..], address)
}

/// How many ranges end at or below an address.
fn count_ended(ranges: &[Range], address: u64) -> usize
    requires { AreInOrder (length ranges.now) ranges.now }
    ensures { Ends ranges.now address result }
{
    ranges.partition_point(|range| u64::from(range.high) <= address)
}
