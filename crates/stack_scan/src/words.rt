//! Words of memory, and the first of them that lies in a range.
ghost use Rattle.std.specs.Prelude.{◌≡◌, ◌≤◌, ◌*◌, ◌^◌, ◌+◌, length, map, None, MatchOption, EachIndex};
ghost use Rattle.std.specs.Prelude.{slice_index, position};
ghost use Rattle.image_memory.specs.Access.{first_fault, read_fault, dword_at};
ghost use Rattle.stack_scan.specs.Standing.{in_one, addresses};
ghost use Rattle.stack_scan.specs.inside.Words.{spelled, NoneBetween, IsFirstBetween};

use crate::targets::{LANES, Targets};
use image_memory::Space;
use ks_base::Range;

/// How many words are read at once.
pub(crate) const CHUNK_WORDS: usize = 1024;

const CHUNK_BYTES: usize = 4 * CHUNK_WORDS;

/// The least index of a word that is an address of one of the ranges, `None` exactly where there is none. It takes no
/// memory. It is quickest where the ranges ascend without meeting: a word is then looked up by halving.
pub fn first_in(words: &[u32], ranges: &[Range]) -> Option<u32>
    requires { length words.now ≤ 2 ^ 32 }
    ensures { result ≡ position (in_one ranges.now) words.now }
{
    first_among(words, &Targets::new(ranges))
}

/// The least index of a word that is an address of one of the targets. Words are passed many at once.
pub(crate) fn first_among(words: &[u32], targets: &Targets<'_>) -> Option<u32>
    requires { length words.now ≤ 2 ^ 32 }
    ensures { result ≡ position (in_one targets.now) words.now }
{
    let mut passed = 0;
    while words.len() - passed >= LANES {
        if targets.may_have_some(words, passed) {
            let found = first_between(words, passed, passed + LANES, targets);
            if found.is_some() {
                return found;
            }
        }
        passed += LANES;
    }
    first_between(words, passed, words.len(), targets)
}

/// The least index from one up to another of a word that is an address of one of the targets.
fn first_between(words: &[u32], start: usize, end: usize, targets: &Targets<'_>) -> Option<u32>
    requires ascend { start ≤ end }
    requires inside { end ≤ length words.now }
    requires count { length words.now ≤ 2 ^ 32 }
    ensures { MatchOption result
        (NoneBetween targets.now words.now start end) (λ index. IsFirstBetween targets.now words.now start end index) }
{
    for index in start..end {
        if targets.has(words[index]) {
            return Some(index as u32);
        }
    }
    None
}

/// Reads words from an address on.
pub(crate) fn read_words<S: Space>(space: &S, start: u32, words: &mut [u32])
    requires few { length words.old ≤ 1024 }
    requires readable { first_fault (read_fault (S.contents space.now).pieces) start (4 * length words.old) ≡ None }
    ensures { words.new ≡ map (dword_at (S.contents space.now).pieces) (addresses start (length words.old)) }
{
    let mut bytes = [0; CHUNK_BYTES];
    let part = &mut bytes[..4 * words.len()];
    match space.read(start, part) {
        Ok(()) => spell(part, words),
        Err(_) => unreachable!(),
    }
}

/// The words that bytes spell.
fn spell(bytes: &[u8], words: &mut [u32])
    requires { length bytes.now ≡ 4 * length words.old }
    ensures { EachIndex words.new (λ k. slice_index words.new k ≡ spelled bytes.now k) }
{
    for (k, word) in words.iter_mut().enumerate() {
        *word = u32::from_le_bytes([
            bytes[4 * k],
            bytes[4 * k + 1],
            bytes[4 * k + 2],
            bytes[4 * k + 3],
        ]);
    }
}
