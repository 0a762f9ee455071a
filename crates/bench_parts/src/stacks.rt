//! Stacks that are made to be looked at, and the ranges of code that are looked for on them.
use ks_base::{Range, Ranges};
use std::alloc::{AllocError, Global};

/// Where a stack begins.
pub(crate) const LOW: u32 = 0x8000_0000;

/// What is to be made, and how often it is to be looked at.
#[derive(Clone, Copy)]
pub(crate) struct Trial {
    /// How many dwords the stack has.
    pub(crate) dwords: u32,
    /// How many ranges there are.
    pub(crate) ranges: u32,
    /// Where the first range begins.
    pub(crate) first: u32,
    /// Where the last range begins.
    pub(crate) last: u32,
    /// How many looks there are. Each begins a dword higher than the one before.
    pub(crate) times: u32,
}

/// Ranges of 32 bytes: one every 64 bytes, and the last one.
pub(crate) fn ranges_of(alloc: Global, trial: Trial) -> Result<Ranges, AllocError> {
    let mut ranges = Ranges::new(alloc);
    for k in 0..trial.ranges.saturating_sub(1) {
        ranges.push(range_at(trial.first.wrapping_add(k.wrapping_mul(64))))?;
    }
    ranges.push(range_at(trial.last))?;
    Ok(ranges)
}

fn range_at(low: u32) -> Range {
    Range {
        low,
        high: low.wrapping_add(32),
    }
}

/// A dword of the stack. The last one is an address of the last range. Each other one lies just after a range, where
/// these begin at 0, and below all of them where they begin high.
pub(crate) fn dword(trial: Trial, k: u32) -> u32 {
    if k.wrapping_add(1) == trial.dwords {
        return trial.last;
    }
    let behind = (k.wrapping_mul(0x9E37_79B1) >> 8) % trial.ranges.max(1);
    behind.wrapping_mul(64).wrapping_add(32)
}
