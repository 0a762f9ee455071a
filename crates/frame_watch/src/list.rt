//! The running threads that are watched.
ghost use Rattle.std.specs.Prelude.{◌≡◌, ◌≤◌, ◌<◌, [], length, List, Option, true, IfOk};
ghost use Rattle.std.specs.Prelude.{IfErr, OnOk, OnErr, None, Some, if◌then◌else◌};
ghost use Rattle.std.specs.Option.{option_copied};
ghost use Rattle.std.specs.List.{AllWithin, last_or};
ghost use Rattle.ia32_step.specs.Threads as threads;
ghost use Rattle.frame_watch.specs.Frames.{frames_at, frames_in, watched_at, with_started};
ghost use Rattle.frame_watch.specs.Discipline as discipline;
ghost use Rattle.frame_watch.specs.Discipline.{Sight, sight_of, breaking, least};
ghost use Rattle.image_memory.specs.declared.types.Piece.{Piece};
ghost use Rattle.ia32_step.specs.declared.types.Store.{Store};
ghost use Rattle.frame_watch.specs.Conditions.{HaveWindows, HoldBut, IsStart, IsStep};
ghost use Rattle.frame_watch.specs.inside.Kept.{HasStack, IsPlace, AreInPlace, IsTouched};
ghost use Rattle.frame_watch.specs.inside.Kept.{first_store, keeps_address, number_unless, placed, stacked_at};
ghost use Rattle.frame_watch.specs.inside.Events as inside;
ghost use Rattle.frame_watch.specs.inside.Events.{IsStill, moved, step_rule};

use crate::memory::{arrives, esp_of};
use crate::thread::ThreadFrames;
use crate::types::Rule;
use ia32_step::{Flow, Outcome, Store, Thread};
use image_memory::Space;
use ks_base::Range;
use std::alloc::{AllocError, Global};
use std::marker::Model;

/// The threads by the addresses of their stacks, which don't meet. Each has a number of its own.
#[derive(Drop)]
pub(crate) struct ThreadList {
    threads: Vec<ThreadFrames>,
}

impl Model for ThreadList {
    ghost use Rattle.std.specs.Prelude.{List};
    ghost use Rattle.image_memory.specs.Ranges.{Ascends};
    ghost use Rattle.frame_watch.specs.Frames.{Watched, stack_of};
    ghost use Rattle.frame_watch.specs.inside.Kept.{AreApart};

    ghost Value = { List Watched };

    ghost view = { λ l. l.threads.items };

    ghost invariant = { λ l. Ascends stack_of 0 l.threads.items × AreApart l.threads.items };
}

impl ThreadList {
    /// No thread. It takes no memory.
    pub(crate) fn new(alloc: Global) -> Self
        ensures { result ≡ [] }
    {
        ThreadList {
            threads: Vec::new(alloc),
        }
    }

    /// Drops all threads.
    pub(crate) fn clear(&mut self)
        ensures { self.new ≡ [] }
    {
        self.threads.clear();
    }

    /// How many stacks begin at or below an address.
    fn begun(&self, address: u64) -> usize
        ensures bound { result ≤ length self.now }
        ensures below { AllWithin (λ watched. watched.stack.low ≤ address) self.now 0 result }
        ensures above { AllWithin (λ watched. address < watched.stack.low) self.now result (length self.now) }
    {
        self.threads
            .partition_point(|thread| u64::from(thread.low()) <= address)
    }

    /// The thread whose stack has an address. It is found by halving.
    fn stacked_at(&self, address: u64) -> Option<&ThreadFrames>
        ensures { option_copied result ≡ stacked_at self.now address }
    {
        let begun = self.begun(address);
        if begun == 0 {
            return None;
        }
        let thread = &self.threads[begun - 1];
        if thread.stacks(address) {
            Some(thread)
        } else {
            None
        }
    }

    /// The place of the thread of a number, whose stack is known where it is watched. It is found by halving.
    fn place_of(&self, number: u32, stack: Range) -> Option<usize>
        requires { HasStack number stack self.now }
        ensures place { IsPlace number self.now result }
        ensures thread { placed self.now result ≡ watched_at self.now number }
    {
        let begun = self.begun(u64::from(stack.low));
        if begun == 0 {
            return None;
        }
        let at = begun - 1;
        let thread = &self.threads[at];
        if thread.number() == number {
            Some(at)
        } else {
            None
        }
    }

    /// The thread at a place.
    fn placed(&self, at: Option<usize>) -> Option<&ThreadFrames>
        ensures { option_copied result ≡ placed self.now at }
    {
        self.threads.get(at?)
    }

    /// A thread is started. If memory runs out all is as before.
    pub(crate) fn start(&mut self, alloc: Global, thread: &Thread) -> Result<(), AllocError>
        requires start { IsStart self.old thread.now }
        requires in_place { AreInPlace self.old }
        ensures ok { OnOk result (self.new ≡ with_started self.old thread.now) }
        ensures touched { OnOk result ((pieces : List Piece) → HoldBut pieces self.old None
            → IsTouched pieces None (Some (first_store thread.now)) self.new) }
        ensures err { OnErr result (self.new ≡ self.old) }
    {
        let kept = ThreadFrames::start(alloc, thread)?;
        let at = self.begun(u64::from(thread.stack.low));
        self.threads.insert(at, kept)?;
        Ok(())
    }

    /// Whether a return of the thread at a place pops its last frame.
    fn pops(&self, at: Option<usize>, before: &Thread, after: &Thread) -> bool
        ensures { result ≡ discipline.pops (threads.esp_of before.now) after.now.pc
            (last_or None (frames_in (placed self.now at))) }
    {
        let Some(thread) = self.placed(at) else {
            return false;
        };
        match thread.last() {
            Some(frame) => frame.slot == esp_of(before) && frame.address == after.pc,
            None => false,
        }
    }

    /// The first of the rules but the slot rule that a step of the thread at a place breaks.
    fn step_rule<S: Space>(
        &self,
        at: Option<usize>,
        before: &Thread,
        after: &Thread,
        outcome: Outcome,
        fetched: u32,
        space: &S,
    ) -> Option<Rule>
        requires { 5 < fetched → HaveWindows (S.contents space.now) before.now.pc fetched }
        ensures { result ≡ step_rule (sight_of (S.contents space.now)) before.now after.now
            (frames_in (placed self.now at)) outcome }
    {
        let Outcome::Moved(flow) = outcome else {
            return None;
        };
        match flow {
            Flow::Return => broken_unless(self.pops(at, before, after), Rule::Return),
            Flow::Call | Flow::Plain => {
                broken_unless(arrives(space, before.pc, fetched, after.pc), Rule::Arrival)
            }
        }
    }

    /// The thread at a place has made a step. Its number is answered where it goes on and one of its slots is outside
    /// the bounds of the slot rule.
    fn go<S: Space>(
        &mut self,
        at: Option<usize>,
        before: &Thread,
        after: &Thread,
        outcome: Outcome,
        space: &S,
    ) -> Option<u32>
        requires place { IsPlace before.now.number self.old at }
        requires step { IsStep (S.contents space.now).pieces before.now after.now outcome self.old }
        requires in_place { AreInPlace self.old }
        ensures moved { self.new ≡ moved (S.contents space.now).pieces after.now outcome
            (frames_at self.old before.now.number) self.old }
        ensures touched { (store : Option Store) → HoldBut (S.contents space.now).pieces self.old store
            → IsTouched (S.contents space.now).pieces result store self.new }
    {
        let at = at?;
        if let Outcome::Moved(flow) = outcome {
            let thread = &mut self.threads[at];
            thread.go(after, flow, space);
            number_unless(thread.is_in_place(), thread.number())
        } else {
            self.threads.remove(at);
            None
        }
    }

    /// A thread has made a step. The first of the rules but the slot rule that it breaks is answered; or its number,
    /// where it is watched after the step and one of its slots is outside the bounds of the slot rule. No thread is
    /// looked up where none can change.
    pub(crate) fn step<S: Space>(
        &mut self,
        before: &Thread,
        after: &Thread,
        outcome: Outcome,
        fetched: u32,
        space: &S,
    ) -> Result<Option<u32>, Rule>
        requires step { IsStep (S.contents space.now).pieces before.now after.now outcome self.old }
        requires fetched { 5 < fetched → HaveWindows (S.contents space.now) before.now.pc fetched }
        requires in_place { AreInPlace self.old }
        ensures ok { OnOk result (step_rule (sight_of (S.contents space.now)) before.now after.now
            (frames_at self.old before.now.number) outcome ≡ None) }
        ensures err { IfErr result (λ rule. step_rule (sight_of (S.contents space.now)) before.now after.now
            (frames_at self.old before.now.number) outcome ≡ Some rule) }
        ensures moved { OnOk result (self.new ≡ moved (S.contents space.now).pieces after.now outcome
            (frames_at self.old before.now.number) self.old) }
        ensures touched { IfOk result (λ displaced. (store : Option Store)
            → HoldBut (S.contents space.now).pieces self.old store
            → IsTouched (S.contents space.now).pieces displaced store self.new) }
    {
        // Nothing is done here: no two threads have one number.
        let _ = &self.threads;
        if is_still(before, after, outcome) {
            if arrives(space, before.pc, fetched, after.pc) {
                return Ok(None);
            }
            return Err(Rule::Arrival);
        }
        let at = self.place_of(before.number, before.stack);
        match self.step_rule(at, before, after, outcome, fetched, space) {
            Some(rule) => Err(rule),
            None => Ok(self.go(at, before, after, outcome, space)),
        }
    }

    /// The least-numbered thread that has a broken frame, by looking at all threads.
    pub(crate) fn least_broken<S: Space>(&self, space: &S) -> Option<u32>
        ensures { result ≡ least (breaking (S.contents space.now).pieces self.now) }
    {
        let mut found = None;
        for thread in &self.threads {
            found = lesser_unless(thread.keeps_slots(space), found, thread.number());
        }
        found
    }

    /// The number of the thread whose stack has a slot, unless the frame there finds its address.
    fn overwritten<S: Space>(&self, slot: u64, space: &S) -> Option<u32>
        ensures { result ≡ number_unless (keeps_address (S.contents space.now).pieces slot) (stacked_at self.now slot) }
    {
        let thread = self.stacked_at(slot)?;
        number_unless(thread.keeps_address(slot, space), thread.number())
    }

    /// The least-numbered thread that has a broken frame, where only one thread, which may be displaced, and what was
    /// written can have broken one.
    pub(crate) fn least_touched<S: Space>(
        &self,
        displaced: Option<u32>,
        store: Option<Store>,
        space: &S,
    ) -> Option<u32>
        requires { IsTouched (S.contents space.now).pieces displaced store self.now }
        ensures { result ≡ least (breaking (S.contents space.now).pieces self.now) }
    {
        // Nothing is done here: the stacks don't meet, and no two threads have one number.
        let _ = &self.threads;
        match store {
            Some(store) => self.least_written(displaced, &store, space),
            None => displaced,
        }
    }

    /// The same where something was written. A slot is a multiple of 4, so at most four bytes touch at most two.
    pub(crate) fn least_written<S: Space>(
        &self,
        displaced: Option<u32>,
        store: &Store,
        space: &S,
    ) -> Option<u32>
        requires { IsTouched (S.contents space.now).pieces displaced (Some store.now) self.now }
        ensures { result ≡ least (breaking (S.contents space.now).pieces self.now) }
    {
        // Nothing is done here: the stacks don't meet, and no two threads have one number.
        let _ = &self.threads;
        let rest = store.address % 4;
        let slot = u64::from(store.address - rest);
        let found = lesser_of(displaced, self.overwritten(slot, space));
        if rest == 0 {
            return found;
        }
        lesser_of(found, self.overwritten(slot + 4, space))
    }
}

/// Whether a step is neither a call nor a return, and leaves ESP as it is.
fn is_still(before: &Thread, after: &Thread, outcome: Outcome) -> bool
    ensures { result ≡ true → IsStill before.now after.now outcome }
{
    let Outcome::Moved(Flow::Plain) = outcome else {
        return false;
    };
    esp_of(after) == esp_of(before)
}

/// The rule, unless it is kept.
pub(crate) fn broken_unless(kept: bool, rule: Rule) -> Option<Rule>
    ensures { result ≡ inside.broken_unless kept rule }
{
    if kept { None } else { Some(rule) }
}

/// The number, unless the test was passed.
fn number_unless(passed: bool, number: u32) -> Option<u32>
    ensures { result ≡ (if passed then None else Some number) }
{
    if passed { None } else { Some(number) }
}

/// The lesser of a number and one that may have been found before, unless a test was passed.
fn lesser_unless(passed: bool, found: Option<u32>, number: u32) -> Option<u32>
    ensures { result ≡ (if passed then found else discipline.lesser found number) }
{
    if passed {
        return found;
    }
    match found {
        Some(other) => Some(other.min(number)),
        None => Some(number),
    }
}

/// The lesser of two numbers, each of which may be missing.
fn lesser_of(found: Option<u32>, other: Option<u32>) -> Option<u32>
    ensures { result ≡ inside.lesser_of found other }
{
    match other {
        Some(number) => lesser_unless(false, found, number),
        None => found,
    }
}
