//! What an update retires, and where no thread may stand.
ghost use Rattle.std.specs.Prelude.{◌≡◌, ◌<◌, ◌+◌, ◌^◌, ◌↔◌, IfOk, IsTrue};
ghost use Rattle.image_memory.specs.Contents.{spliced_at};
ghost use Rattle.update_retired.specs.Retired.{AreBodies, IsBody, body_range, guarded, is_dropped, is_first};
ghost use Rattle.update_retired.specs.Retired.{is_replaced};
ghost use Rattle.update_retired.specs.Retired.{is_retired, jump_range, retired_by, retired_range, takes_jump};

use crate::types::{Fate, OldFunction};
use image_memory::{JUMP_LENGTH, Space};
use ks_base::{Range, Ranges};
use std::alloc::{AllocError, Global};

impl Fate {
    /// Whether a new version takes the function's place.
    pub fn is_replaced(self) -> bool
        ensures { result ≡ is_replaced self }
    {
        matches!(self, Fate::Replaced)
    }

    /// Whether the function is in the new object no longer.
    pub fn is_dropped(self) -> bool
        ensures { result ≡ is_dropped self }
    {
        matches!(self, Fate::Dropped)
    }

    /// Whether the function's body is retired.
    pub fn is_retired(self) -> bool
        ensures { result ≡ is_retired self }
    {
        matches!(self, Fate::Replaced | Fate::Dropped)
    }
}

impl OldFunction {
    /// Whether the newest version is the first one.
    pub fn is_first(&self) -> bool
        ensures { result ≡ is_first self.now }
    {
        self.base == self.home
    }

    /// Whether an update writes the jump at its home: it is replaced, and its newest version is the first one.
    pub fn takes_jump(&self) -> bool
        ensures { result ≡ takes_jump self.now }
    {
        self.fate.is_replaced() && self.is_first()
    }

    /// The addresses of its newest version.
    pub fn body_range(&self) -> Range
        requires { IsBody self.now }
        ensures { result ≡ body_range self.now }
    {
        Range {
            low: self.base,
            high: self.base + self.length,
        }
    }

    /// The addresses of the jump at its home.
    pub fn jump_range(&self) -> Range
        requires { IsBody self.now }
        ensures { result ≡ jump_range self.now }
    {
        Range {
            low: self.home,
            high: self.home + JUMP_LENGTH as u32,
        }
    }

    /// What is retired of it, where it is replaced or dropped: its body; and of a first version that is replaced at
    /// least the bytes of the jump.
    pub fn retired_range(&self) -> Range
        requires { IsBody self.now }
        ensures { result ≡ retired_range self.now }
    {
        if self.takes_jump() {
            Range {
                low: self.home,
                high: self.home + self.length.max(JUMP_LENGTH as u32),
            }
        } else {
            self.body_range()
        }
    }
}

/// What an update retires of the functions of its old object, in their order. `Err` comes only if memory runs out.
#[tactic(auto, unfolding(crate::specs::Retired::retired_by))]
pub fn retired_ranges(alloc: Global, olds: &[OldFunction]) -> Result<Ranges, AllocError>
    requires { AreBodies olds.now }
    ensures { IfOk result (λ ranges. ranges ≡ retired_by olds.now) }
{
    let mut ranges = Ranges::new(alloc);
    for old in olds {
        if old.fate.is_retired() {
            ranges.push(old.retired_range())?;
        }
    }
    Ok(ranges)
}

/// In which ranges no thread may stand when an update is made: those that it retires and then, for each dropped
/// function whose home has a jump, the jump. `Err` comes only if memory runs out.
#[tactic(auto, unfolding(crate::specs::Retired::guarded))]
pub fn guarded_ranges<S: Space>(
    alloc: Global,
    space: &S,
    olds: &[OldFunction],
) -> Result<Ranges, AllocError>
    requires { AreBodies olds.now }
    ensures { IfOk result (λ ranges. ranges ≡ guarded (spliced_at (S.contents space.now).fences) olds.now) }
{
    let mut ranges = retired_ranges(alloc, olds)?;
    for old in olds {
        if old.fate.is_dropped() && space.spliced(old.home) {
            ranges.push(old.jump_range())?;
        }
    }
    Ok(ranges)
}

/// Whether the bodies of functions, and a jump at the home of each, end at addresses of 32 bits.
pub fn are_bodies(olds: &[OldFunction]) -> bool
    ensures { IsTrue result ↔ AreBodies olds.now }
{
    olds.iter().all(is_body)
}

/// The same of one function.
fn is_body(old: &OldFunction) -> bool
    ensures { IsTrue result ↔ IsBody old.now }
{
    ends_low(old.base, old.length) && ends_low(old.home, JUMP_LENGTH as u32)
}

/// Whether so many bytes from an address on end at one of 32 bits.
fn ends_low(begin: u32, length: u32) -> bool
    ensures { IsTrue result ↔ (begin + length < 2 ^ 32) }
{
    begin.checked_add(length).is_some()
}
