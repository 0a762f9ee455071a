//! What the scan of a stack is measured against: a plain loop that looks up one word after another.
ghost use Rattle.std.specs.Prelude.{◌≡◌, ◌≤◌, ◌<◌, false, length, position};
ghost use Rattle.std.specs.List.{AllWithin};
ghost use Rattle.image_memory.specs.Ranges.{Ascends};
ghost use Rattle.stack_scan.specs.Standing.{in_one};

use crate::stacks::{LOW, Trial, dword, ranges_of};
use ks_base::Range;
use link_post::ascend;
use std::alloc::{AllocError, Global};

/// How many ranges end at or below a word.
fn ended(ranges: &[Range], word: u32) -> usize
    requires { Ascends (λ range. range) 0 ranges.now }
    ensures bound { result ≤ length ranges.now }
    ensures below { AllWithin (λ range. range.high ≤ word) ranges.now 0 result }
    ensures above { AllWithin (λ range. word < range.high) ranges.now result (length ranges.now) }
{
    ranges.partition_point(|range| range.high <= word)
}

/// Whether a word lies between the bounds of all ranges.
fn is_within_bounds(ranges: &[Range], word: u32) -> bool
    requires { Ascends (λ range. range) 0 ranges.now }
    ensures { result ≡ false → in_one ranges.now word ≡ false }
{
    if ranges.is_empty() {
        return false;
    }
    ranges[0].low <= word && word < ranges[ranges.len() - 1].high
}

/// Whether a word is an address of one of some ranges: of the first that ends above it.
fn is_in_one(ranges: &[Range], word: u32) -> bool
    requires { Ascends (λ range. range) 0 ranges.now }
    ensures { result ≡ in_one ranges.now word }
{
    if !is_within_bounds(ranges, word) {
        return false;
    }
    let first = ended(ranges, word);
    if first == ranges.len() {
        return false;
    }
    ranges[first].low <= word
}

/// The least index of a word that is an address of one of the ranges, `None` exactly where there is none, which is what
/// `stack_scan::first_in` answers. Words are looked up one after another, and those between the bounds of all ranges by
/// halving.
fn first_by_halving(words: &[u32], ranges: &[Range]) -> Option<usize>
    requires { Ascends (λ range. range) 0 ranges.now }
    ensures { result ≡ position (in_one ranges.now) words.now }
{
    for (index, word) in words.iter().enumerate() {
        if is_in_one(ranges, *word) {
            return Some(index);
        }
    }
    None
}

/// The words of a stack.
fn words_of(alloc: Global, trial: Trial) -> Result<Vec<u32>, AllocError> {
    let mut words = Vec::new(alloc);
    for k in 0..trial.dwords {
        words.push(dword(trial, k))?;
    }
    Ok(words)
}

/// The address of the word that the last look finds on a stack, `None` where a look finds none.
pub(crate) fn place_by_halving(alloc: Global, trial: Trial) -> Result<Option<u64>, AllocError> {
    let ranges = ranges_of(alloc, trial)?;
    let words = words_of(alloc, trial)?;
    if !ascend(&ranges) {
        return Ok(None);
    }
    let mut place = None;
    for look in 0..trial.times {
        let start = look as usize;
        let Some(rest) = words.as_slice().get(start..) else {
            return Ok(None);
        };
        let Some(index) = first_by_halving(rest, ranges.as_slice()) else {
            return Ok(None);
        };
        let passed = start.wrapping_add(index) as u64;
        place = Some(u64::from(LOW).wrapping_add(passed.wrapping_mul(4)));
    }
    Ok(place)
}
