//! The threads of a program in the order of their numbers.
ghost use Rattle.std.specs.Prelude.{◌≡◌, ◌<◌, ◌≤◌, ◌++◌, List, [], ◌∷◌, length, map, nat_le};
ghost use Rattle.std.specs.Prelude.{set, OnOk, OnErr, IfOk, IsSome, IfSome, IsSomeAnd, IsNone, Some, is_some};
ghost use Rattle.std.specs.List.{slice_get, list_any};
ghost use Rattle.std.specs.List.Sorted.{IsNonDecreasing};
ghost use Rattle.ia32_step.specs.declared.types.State.TheVariants.{Running};
ghost use Rattle.ia32_step.specs.Step.{stepped, stored, fetched_count};
ghost use Rattle.ia32_step.specs.Threads.{is_running};
ghost use Rattle.image_threads.specs.Program.{AreNumbered, WellPlaced, running_at, running_numbers, if_running};
ghost use Rattle.ks_base.specs.declared.places.Range.{Range};
ghost use Rattle.image_memory.specs.Ranges.{are_same};
ghost use Rattle.image_memory.specs.Contents.{shape_of};
ghost use Rattle.image_threads.specs.Spawning.{is_taken, has_stack, first_thread};

use crate::first::first_thread;
use ia32_step::{State, Thread, Threads, Traced, step_traced, steps_keep};
use image_memory::Space;
use ks_base::Range;
use std::alloc::{AllocError, Global};
use std::marker::Model;

/// How many threads may be started in all.
const MOST_THREADS: usize = 4_096;

/// The threads that were started, numbered from 0: no more than 4,096. A clause sees them as their list.
#[derive(Drop)]
pub(crate) struct ThreadList {
    threads: Threads,
    /// the numbers of the threads that run, ascending: no more than there are stacks
    running: Vec<u32>,
}

impl Model for ThreadList {
    ghost use Rattle.std.specs.Prelude.{◌≡◌, ◌≤◌, List, length};
    ghost use Rattle.ia32_step.specs.declared.types.Thread.{Thread};
    ghost use Rattle.image_threads.specs.Program.{running_numbers, AreNumbered};

    ghost Value = { List Thread };

    ghost view = { λ l. l.threads };

    ghost invariant = { λ l. AreNumbered 0 l.threads
        × ((l.running.items ≡ running_numbers l.threads) × (length l.threads ≤ 4096)) };
}

impl ThreadList {
    /// No threads.
    pub(crate) fn new(alloc: Global) -> Self
        ensures { result ≡ [] }
    {
        ThreadList {
            threads: Threads::new(alloc),
            running: Vec::new(alloc),
        }
    }

    /// The allocator that the list was made with.
    pub(crate) fn alloc(&self) -> Global {
        *self.running.allocator()
    }

    /// The threads, numbered from 0.
    pub(crate) fn all(&self) -> &Threads
        ensures threads { result.now ≡ self.now }
        ensures numbered { AreNumbered 0 self.now }
        ensures few { length self.now ≤ 4096 }
    {
        &self.threads
    }

    /// The numbers of the running threads, ascending.
    pub(crate) fn running(&self) -> &[u32]
        ensures numbers { result.now ≡ running_numbers self.now }
        ensures ascend { IsNonDecreasing result.now }
    {
        self.running.as_slice()
    }

    /// The running thread of a number.
    pub(crate) fn running_at(&self, number: u32) -> Option<Thread>
        ensures thread { result ≡ running_at self.now number }
        ensures number { IfSome result (λ thread. thread.number ≡ number) }
        ensures running { IfSome result (λ thread. thread.state ≡ Running) }
    {
        let thread = self.at(number)?;
        if_running(thread)
    }

    /// The thread of a number.
    fn at(&self, number: u32) -> Option<Thread>
        ensures thread { result ≡ slice_get self.now number }
        ensures number { IfSome result (λ thread. thread.number ≡ number) }
    {
        thread_at(self.threads.as_slice(), number)
    }

    /// Whether no more threads may be started.
    pub(crate) fn is_full(&self) -> bool
        ensures { result ≡ nat_le 4096 (length self.now) }
    {
        self.threads.len() >= MOST_THREADS
    }

    /// Whether a running thread has a stack.
    pub(crate) fn has(&self, stack: Range) -> bool
        ensures { result ≡ is_taken self.now stack }
    {
        any_has(self.threads.as_slice(), self.running.as_slice(), stack)
    }

    /// Starts a thread, and answers its number. If memory runs out all is as before.
    pub(crate) fn push(&mut self, stack: Range, pc: u32) -> Result<u32, AllocError>
        requires few { length self.old < 4096 }
        requires tall { 20 ≤ stack.high }
        ensures ok { OnOk result (self.new ≡ self.old ++ first_thread (length self.old) stack pc ∷ []) }
        ensures number { IfOk result (λ number. number ≡ length self.old) }
        ensures err { OnErr result (self.new ≡ self.old) }
    {
        let number = self.threads.len() as u32;
        self.running.push(number)?;
        if self.threads.push(first_thread(number, stack, pc)).is_err() {
            self.running.pop();
            return Err(AllocError);
        }
        Ok(number)
    }

    /// Puts a thread that runs in the place of the running thread of its number, but at an address. It takes no memory.
    pub(crate) fn send(&mut self, thread: Thread, pc: u32)
        requires listed { IsSome (running_at self.old thread.number) }
        requires running { thread.state ≡ Running }
        ensures { self.new ≡ set self.old thread.number (record thread { pc = pc }) }
    {
        self.threads
            .set(thread.number as usize, Thread { pc, ..thread });
    }

    /// Steps the running thread of a number over a memory, where it stands in the list, and answers what the step came
    /// to, wrote and fetched; `None` exactly where no running thread has the number, and all is then as before. It takes
    /// no memory.
    pub(crate) fn step<S: Space>(&mut self, number: u32, space: &mut S) -> Option<Traced>
        ensures runs { is_some result ≡ is_some (running_at self.old number) }
        ensures threads { IfSome result (λ _. IsSomeAnd (running_at self.old number)
            (λ thread. self.new ≡ set self.old number (stepped (S.contents space.old) thread).thread)) }
        ensures contents { IfSome result (λ _. IsSomeAnd (running_at self.old number)
            (λ thread. S.contents space.new ≡ (stepped (S.contents space.old) thread).contents)) }
        ensures outcome { IfSome result (λ traced. IsSomeAnd (running_at self.old number)
            (λ thread. traced.outcome ≡ (stepped (S.contents space.old) thread).outcome)) }
        ensures store { IfSome result (λ traced. IsSomeAnd (running_at self.old number)
            (λ thread. traced.store ≡ stored (S.contents space.old) thread)) }
        ensures fetched { IfSome result (λ traced. IsSomeAnd (running_at self.old number)
            (λ thread. traced.fetched ≡ fetched_count (S.contents space.old) thread)) }
        ensures refused { IsNone result → (self.new ≡ self.old) × (S.contents space.new ≡ S.contents space.old) }
        ensures placed { (stacks : List Range) → WellPlaced stacks self.old → WellPlaced stacks self.new }
        ensures shapes { map shape_of (S.contents space.new).pieces ≡ map shape_of (S.contents space.old).pieces }
        ensures room { S.room space.new ≡ S.room space.old }
    {
        // Nothing is done here: the law says that a step keeps the thread's number and stack, and the shapes of pieces.
        steps_keep();
        let thread = self.threads.get_mut(number as usize)?;
        if !is_running(thread.state) {
            return None;
        }
        let traced = step_traced(space, thread);
        if !is_running(thread.state) {
            self.running.retain(|other| *other != number);
        }
        Some(traced)
    }
}

fn thread_at(threads: &[Thread], number: u32) -> Option<Thread>
    ensures { result ≡ slice_get threads.now number }
{
    threads.get(number as usize).copied()
}

/// Whether the thread of one of some numbers has a stack.
fn any_has(threads: &[Thread], numbers: &[u32], stack: Range) -> bool
    ensures { result ≡ list_any (has_stack threads.now stack) numbers.now }
{
    numbers
        .iter()
        .any(|number| has_stack(threads, *number, stack))
}

/// Whether the thread of a number has a stack.
fn has_stack(threads: &[Thread], number: u32, stack: Range) -> bool
    ensures { result ≡ has_stack threads.now stack number }
{
    match thread_at(threads, number) {
        Some(thread) => are_same(thread.stack, stack),
        None => false,
    }
}

/// A thread where it runs.
fn if_running(thread: Thread) -> Option<Thread>
    ensures thread { result ≡ if_running (Some thread) }
    ensures same { IfSome result (λ other. other ≡ thread) }
    ensures running { IfSome result (λ other. other.state ≡ Running) }
{
    is_running(thread.state).then_some(thread)
}

fn is_running(state: State) -> bool
    ensures { result ≡ is_running state }
{
    matches!(state, State::Running)
}

fn are_same(a: Range, b: Range) -> bool
    ensures { result ≡ are_same a b }
{
    a.low == b.low && a.high == b.high
}
