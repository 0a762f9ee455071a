//! The ranges that are kept spare for pieces to come.
ghost use Rattle.std.specs.Prelude.{◌≡◌, ◌+◌, [], length, position};
ghost use Rattle.std.specs.List.{Contains};
ghost use Rattle.image_memory.specs.Ranges.{are_same};
ghost use Rattle.image_memory.specs.Changes.{without_first};

use ks_base::Range;
use std::alloc::Global;
use std::marker::Model;

/// Ranges in order, of which the first ones were taken. A clause sees those that are left, so that taking them in order
/// moves none of them.
#[derive(Drop)]
pub struct SpareRanges {
    ranges: Vec<Range>,
    taken: usize,
}

impl Model for SpareRanges {
    ghost use Rattle.std.specs.Prelude.{◌≤◌, List, drop, vec_len};
    ghost use Rattle.ks_base.specs.declared.places.Range.{Range};

    ghost Value = { List Range };

    ghost view = { λ s. drop s.taken s.ranges.items };

    ghost invariant = { λ s. s.taken ≤ vec_len s.ranges };
}

impl SpareRanges {
    /// No range.
    pub fn new(alloc: Global) -> Self
        ensures { result ≡ [] }
    {
        SpareRanges::from_vec(Vec::new(alloc))
    }

    /// All of these ranges.
    pub fn from_vec(ranges: Vec<Range>) -> Self
        ensures { result ≡ ranges.items }
    {
        SpareRanges { ranges, taken: 0 }
    }

    /// The ranges that are left.
    fn left(&self) -> &[Range]
        ensures { result.now ≡ self.now }
    {
        &self.ranges[self.taken..]
    }

    /// Leaves no range.
    pub fn clear(&mut self)
        ensures { self.new ≡ [] }
    {
        self.ranges.clear();
        self.taken = 0;
    }

    /// Takes the first range that is this one. It is found at once where ranges are taken in their order.
    pub fn take_first(&mut self, range: Range)
        requires { Contains self.old range }
        ensures left { self.new ≡ without_first range self.old }
        ensures len { length self.new + 1 ≡ length self.old }
    {
        let Some(at) = place_of(self.left(), range) else {
            unreachable!()
        };
        if at == 0 {
            self.taken += 1;
        } else {
            self.ranges.remove(self.taken + at);
        }
    }
}

/// The first place at which a range stands.
fn place_of(ranges: &[Range], range: Range) -> Option<usize>
    ensures { result ≡ position (λ other. are_same other range) ranges.now }
{
    ranges
        .iter()
        .position(|other| other.low == range.low && other.high == range.high)
}
