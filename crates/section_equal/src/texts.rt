//! How far back the bytes before the ends of two texts are equal.
ghost use Rattle.std.specs.Prelude.{◌≡◌, ℕ, ◌<◌, ◌≤◌, ◌+◌, IsTrue, length};
ghost use Rattle.std.specs.List.{slice_index};
ghost use Rattle.section_equal.specs.inside.Texts.{Agree, AgreeFor};

/// Where a text ends in each of two objects: the place of the section that holds it, and how many of that section's
/// bytes are before the end.
#[derive(Clone, Copy, PartialEq, Eq, PartialOrd, Ord)]
pub(crate) struct Ends {
    pub(crate) old_place: usize,
    pub(crate) old_end: usize,
    pub(crate) new_place: usize,
    pub(crate) new_end: usize,
}

/// How many bytes are compared at once.
const BLOCK: usize = 64;

/// Whether the bytes of a block are equal. Where they aren't, nothing is said.
fn same_block(old: &[u8], new: &[u8], i: usize, j: usize) -> bool
    requires old { i + 64 ≤ length old.now }
    requires new { j + 64 ≤ length new.now }
    ensures { IsTrue result → (k : ℕ) → k < 64 → slice_index old.now (i + k) ≡ slice_index new.now (j + k) }
{
    let old = &old[i..i + BLOCK];
    let new = &new[j..j + BLOCK];
    old == new
}

/// How many bytes before the ends are equal in whole blocks, after those that are known. More may be equal, but not a
/// whole block more.
fn blocks(old: &[u8], new: &[u8], ends: Ends, known: usize, bound: usize) -> usize
    requires old_end { ends.old_end ≤ length old.now }
    requires new_end { ends.new_end ≤ length new.now }
    requires in_old { bound ≤ ends.old_end }
    requires in_new { bound ≤ ends.new_end }
    requires few { known ≤ bound }
    requires agree { Agree old.now new.now ends.old_end ends.new_end known }
    ensures within { result ≤ bound }
    ensures agree { Agree old.now new.now ends.old_end ends.new_end result }
{
    let mut count = known;
    while bound - count >= BLOCK {
        let next = count + BLOCK;
        if !same_block(old, new, ends.old_end - next, ends.new_end - next) {
            return count;
        }
        count = next;
    }
    count
}

/// How many bytes before the ends are equal, at most `bound`. Those that are known to be equal aren't compared again.
pub(crate) fn agreement(old: &[u8], new: &[u8], ends: Ends, known: usize, bound: usize) -> usize
    requires old_end { ends.old_end ≤ length old.now }
    requires new_end { ends.new_end ≤ length new.now }
    requires in_old { bound ≤ ends.old_end }
    requires in_new { bound ≤ ends.new_end }
    requires few { known ≤ bound }
    requires agree { Agree old.now new.now ends.old_end ends.new_end known }
    ensures { AgreeFor old.now new.now ends.old_end ends.new_end bound result }
{
    let equal = blocks(old, new, ends, known, bound);
    for count in equal..bound {
        if old[ends.old_end - 1 - count] != new[ends.new_end - 1 - count] {
            return count;
        }
    }
    bound
}
