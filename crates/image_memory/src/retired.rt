//! Retired ranges in order, found by halving.
ghost use Rattle.std.specs.Prelude.{◌≡◌, ◌+◌, ◌-◌, ◌≤◌, ◌<◌, [], length, map, min, nat_lt, insert, slice_get};
ghost use Rattle.std.specs.Prelude.{OnOk, OnErr, IfSome, Some, None, ◌&&◌, ◌==◌, if◌then◌else◌};
ghost use Rattle.std.specs.Option.{option_copied};
ghost use Rattle.std.specs.List.{All, AllWithin, Contains, filter, find, remove};
ghost use Rattle.std.specs.List.Sorted.{IsNonDecreasingBy};
ghost use Rattle.image_memory.specs.Ranges.{Ascends, MeetsNone, lies_in};
ghost use Rattle.image_memory.specs.Contents.{fence_range, spliced_at};
ghost use Rattle.image_memory.specs.Fetch.{CutsCode, IsLimit, jump_length};
ghost use Rattle.image_memory.specs.Changes.{with_fence, without_fence, without_ranges};
ghost use Rattle.image_memory.specs.declared.types.Fence.{Fence};

use crate::changes::insert_spare;
use crate::types::{Fence, JUMP_LENGTH, WINDOW_LENGTH};
use ks_base::Range;
use std::alloc::{AllocError, Global};
use std::marker::Model;

/// Retired ranges in ascending order, none of which meet, and how many more there is room for. Only `reserve` takes
/// memory.
#[derive(Drop)]
pub struct RetiredRanges {
    fences: Vec<Fence>,
    spare: u32,
}

impl Model for RetiredRanges {
    ghost use Rattle.std.specs.Prelude.{◌+◌, ◌≤◌, vec_len, vec_capacity};
    ghost use Rattle.image_memory.specs.Ranges.{Ascends};
    ghost use Rattle.image_memory.specs.Contents.{Retired, fence_range};

    ghost Value = { Retired };

    ghost view = { λ r. record { fences = r.fences.items; spare = r.spare } };

    ghost invariant = { λ r. Ascends fence_range 0 r.fences.items
        × (vec_len r.fences + r.spare ≤ vec_capacity r.fences) };
}

impl RetiredRanges {
    /// No range, and room for none.
    pub fn new(alloc: Global) -> Self
        ensures { result ≡ record { fences = []; spare = 0 } }
    {
        RetiredRanges {
            fences: Vec::new(alloc),
            spare: 0,
        }
    }

    /// Whether an address is a spliced home.
    pub fn is_home(&self, pc: u32) -> bool
        ensures { result ≡ spliced_at self.now.fences pc }
    {
        let fences = self.fences.as_slice();
        match held_by(fences, begun(fences, pc), pc) {
            Some(fence) => fence.is_home(pc),
            None => false,
        }
    }

    /// How many bytes of the code at an address are fetched at most, as far as the ranges go: those of the jump at a
    /// spliced home, and outside the ranges at most 15, which end before the next one. `None` exactly where a range
    /// holds the address and no jump stands there.
    pub fn limit(&self, pc: u32) -> Option<usize>
        ensures limit { IsLimit self.now.fences pc result }
        ensures few { IfSome result (λ count. count ≤ 15) }
    {
        let fences = self.fences.as_slice();
        let begun = begun(fences, pc);
        match held_by(fences, begun, pc) {
            Some(fence) => jump_length(fence, pc),
            None => Some(open_length(fences, begun, pc)),
        }
    }

    /// Makes room for so many more ranges. `Err` comes only if memory runs out, and nothing changes then.
    pub fn reserve(&mut self, count: u32) -> Result<(), AllocError>
        ensures ok { OnOk result (self.new ≡ record { fences = self.old.fences; spare = count }) }
        ensures err { OnErr result (self.new ≡ self.old) }
        ensures ascend { Ascends fence_range 0 self.new.fences }
    {
        self.fences.reserve(count as usize)?;
        self.spare = count;
        Ok(())
    }

    /// Puts a range, which isn't empty, among the others, which it doesn't meet. It takes the room for one. With `jump`
    /// its low is a spliced home.
    pub fn add(&mut self, range: Range, jump: bool)
        requires spare { 0 < self.old.spare }
        requires full { range.low < range.high }
        requires apart { MeetsNone fence_range range self.old.fences }
        ensures fences { self.new.fences ≡ with_fence (record { range = range; jump = jump }) self.old.fences }
        ensures spare { self.new.spare ≡ self.old.spare - 1 }
        ensures ascend { Ascends fence_range 0 self.new.fences }
    {
        let at = begun(self.fences.as_slice(), range.low);
        insert_spare(&mut self.fences, at, Fence { range, jump });
        self.spare -= 1;
    }

    /// Takes a range out.
    pub fn remove(&mut self, range: Range)
        requires { Contains (map fence_range self.old.fences) range }
        ensures fences { self.new.fences ≡ without_fence range self.old.fences }
        ensures spare { self.new.spare ≡ self.old.spare }
        ensures ascend { Ascends fence_range 0 self.new.fences }
    {
        let at = place_of(self.fences.as_slice(), range);
        self.fences.remove(at);
    }

    /// Takes ranges out, each of which is found by halving, in one pass over the others.
    pub fn remove_all(&mut self, ranges: &[Range])
        requires { All (Contains (map fence_range self.old.fences)) ranges.now }
        ensures fences { self.new.fences ≡ without_ranges ranges.now self.old.fences }
        ensures spare { self.new.spare ≡ self.old.spare }
        ensures ascend { Ascends fence_range 0 self.new.fences }
    {
        make_empty(self.fences.as_mut_slice(), ranges);
        self.fences
            .retain(|fence| fence.range.low < fence.range.high);
    }
}

/// Makes ranges empty where they stand, so that their lows still ascend.
fn make_empty(fences: &mut [Fence], ranges: &[Range])
    requires ascend { Ascends fence_range 0 fences.old }
    requires there { All (Contains (map fence_range fences.old)) ranges.now }
    ensures { filter (λ fence. nat_lt fence.range.low fence.range.high) fences.new
        ≡ without_ranges ranges.now fences.old }
{
    for range in ranges {
        let at = begun(fences, range.low) - 1;
        fences[at].range.high = range.low;
    }
}

/// How many ranges begin at or below an address: the place of one that begins there.
fn begun(fences: &[Fence], address: u32) -> usize
    requires { IsNonDecreasingBy (λ fence. fence.range.low) fences.now }
    ensures bound { result ≤ length fences.now }
    ensures below { AllWithin (λ fence. fence.range.low ≤ address) fences.now 0 result }
    ensures above { AllWithin (λ fence. address < fence.range.low) fences.now result (length fences.now) }
    ensures put { (fence : Fence) → fence.range.low ≡ address
        → insert fences.now result fence ≡ with_fence fence fences.now }
{
    fences.partition_point(|fence| fence.range.low <= address)
}

/// The place of a range.
fn place_of(fences: &[Fence], range: Range) -> usize
    requires ascend { Ascends fence_range 0 fences.now }
    requires there { Contains (map fence_range fences.now) range }
    ensures within { result < length fences.now }
    ensures taken { remove fences.now result ≡ without_fence range fences.now }
{
    begun(fences, range.low) - 1
}

/// The range that holds an address, where so many begin at or below it.
fn held_by(fences: &[Fence], begun: usize, address: u32) -> Option<&Fence>
    requires ascend { Ascends fence_range 0 fences.now }
    requires bound { begun ≤ length fences.now }
    requires below { AllWithin (λ fence. fence.range.low ≤ address) fences.now 0 begun }
    requires above { AllWithin (λ fence. address < fence.range.low) fences.now begun (length fences.now) }
    ensures { option_copied result ≡ find (λ fence. lies_in address (fence_range fence)) fences.now }
{
    if begun == 0 {
        return None;
    }
    let fence = &fences[begun - 1];
    if address < fence.range.high {
        Some(fence)
    } else {
        None
    }
}

/// How many bytes are fetched at most at an address outside the ranges, of which so many begin below it.
fn open_length(fences: &[Fence], begun: usize, pc: u32) -> usize
    requires below { AllWithin (λ fence. fence.range.low ≤ pc) fences.now 0 begun }
    requires above { AllWithin (λ fence. pc < fence.range.low) fences.now begun (length fences.now) }
    ensures within { result ≤ 15 }
    ensures cut { CutsCode fences.now pc result }
{
    match fence_after(fences, begun, pc) {
        Some(fence) => at_most_15((fence.range.low - pc) as usize),
        None => WINDOW_LENGTH,
    }
}

/// The first range that begins above an address, where so many begin at or below it.
fn fence_after(fences: &[Fence], begun: usize, address: u32) -> Option<&Fence>
    requires below { AllWithin (λ fence. fence.range.low ≤ address) fences.now 0 begun }
    requires above { AllWithin (λ fence. address < fence.range.low) fences.now begun (length fences.now) }
    ensures next { option_copied result ≡ find (λ fence. nat_lt address fence.range.low) fences.now }
    ensures above { IfSome result (λ fence. address < fence.now.range.low) }
{
    nth_fence(fences, begun)
}

fn nth_fence(fences: &[Fence], i: usize) -> Option<&Fence>
    ensures { option_copied result ≡ slice_get fences.now i }
{
    fences.get(i)
}

fn at_most_15(count: usize) -> usize
    ensures { result ≡ min 15 count }
{
    count.min(WINDOW_LENGTH)
}

/// How many bytes the jump at an address has, where one stands there.
fn jump_length(fence: &Fence, pc: u32) -> Option<usize>
    ensures { result ≡ (if fence.now.jump && (fence.now.range.low == pc) then Some jump_length else None) }
{
    if fence.is_home(pc) {
        Some(JUMP_LENGTH)
    } else {
        None
    }
}
