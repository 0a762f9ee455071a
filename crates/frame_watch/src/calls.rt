//! What is reported to a watch, and what it says.
ghost use Rattle.std.specs.Prelude.{◌≡◌, OnOk, OnErr, None};
ghost use Rattle.frame_watch.specs.Frames.{first_watching};
ghost use Rattle.frame_watch.specs.Discipline.{sight_of, spawn_noted, step_noted, update_noted, hooks_noted};
ghost use Rattle.frame_watch.specs.Conditions.{MayStart, MayStep, MayHoldBut, MayHaveFetched, MayTestSlots};
ghost use Rattle.frame_watch.specs.inside.Kept as inside;

use crate::memory::esp_of;
use crate::notes::Notes;
use crate::types::Verdict;
use ia32_alu::Width;
use ia32_step::{Outcome, RETURN_ADDRESS, Store, Thread, Threads, Traced};
use image_memory::Space;
use std::alloc::{AllocError, Global};
use std::marker::Model;

/// Watches a run: each event is reported to it; it keeps the open frames of each running thread, and says whether the
/// run has kept the rules. Once one was broken it only counts events.
#[derive(Drop)]
pub struct Watch {
    alloc: Global,
    notes: Notes,
}

impl Model for Watch {
    ghost use Rattle.frame_watch.specs.Frames.{Watching};
    ghost use Rattle.frame_watch.specs.inside.Kept.{AreInPlace};

    ghost Value = { Watching };

    ghost view = { λ w. w.notes };

    ghost invariant = { λ w. AreInPlace w.notes.threads };
}

impl Watch {
    /// A watch before the first event. It takes no memory; `alloc` is kept for the threads that are started.
    pub fn new(alloc: Global) -> Watch
        ensures { result ≡ first_watching }
    {
        Watch {
            alloc,
            notes: Notes::new(alloc),
        }
    }

    /// A thread was started. This looks at each open frame, and takes room for all frames that the thread's stack can
    /// hold. `Err` comes only if memory runs out, and the watch is then as before.
    pub fn note_spawn<S: Space>(&mut self, thread: &Thread, space: &S) -> Result<(), AllocError>
        requires { MayStart self.old thread.now }
        ensures noted { OnOk result (self.new ≡ spawn_noted (sight_of (S.contents space.now)) thread.now self.old) }
        ensures refused { OnErr result (self.new ≡ self.old) }
    {
        self.notes.begin(self.alloc, thread, space)?;
        self.notes.test_all(space);
        Ok(())
    }

    /// A thread was started, and since the event before nothing was written but its own stack. This looks at no frame
    /// of another thread, and is otherwise as [`note_spawn`](Watch::note_spawn).
    pub fn note_spawn_alone<S: Space>(
        &mut self,
        thread: &Thread,
        space: &S,
    ) -> Result<(), AllocError>
        requires start { MayStart self.old thread.now }
        requires held { MayHoldBut (S.contents space.now).pieces self.old None }
        ensures noted { OnOk result (self.new ≡ spawn_noted (sight_of (S.contents space.now)) thread.now self.old) }
        ensures refused { OnErr result (self.new ≡ self.old) }
    {
        self.notes.begin(self.alloc, thread, space)?;
        self.notes.test_written(None, &first_store(thread), space);
        Ok(())
    }

    /// A thread made a step. This looks at each open frame, and takes no memory.
    pub fn note_step<S: Space>(
        &mut self,
        before: &Thread,
        after: &Thread,
        outcome: Outcome,
        space: &S,
    )
        requires { MayStep (S.contents space.now).pieces before.now after.now outcome self.old }
        ensures { self.new ≡ step_noted (sight_of (S.contents space.now)) before.now after.now outcome self.old }
    {
        let _ = self.notes.advance(before, after, outcome, 0, space);
        self.notes.test_all(space);
    }

    /// A thread made a step that reports what it wrote and how many bytes it fetched. This looks only at frames whose
    /// slots the written bytes touch, found by halving, and at memory for a window only where the thread has left the
    /// bytes that it fetched. It takes no memory.
    pub fn note_traced<S: Space>(
        &mut self,
        before: &Thread,
        after: &Thread,
        traced: &Traced,
        space: &S,
    )
        requires step { MayStep (S.contents space.now).pieces before.now after.now traced.now.outcome self.old }
        requires held { MayHoldBut (S.contents space.now).pieces self.old traced.now.store }
        requires fetched { MayHaveFetched (S.contents space.now) before.now.pc traced.now.fetched self.old }
        ensures { self.new
            ≡ step_noted (sight_of (S.contents space.now)) before.now after.now traced.now.outcome self.old }
    {
        let displaced = self
            .notes
            .advance(before, after, traced.outcome, traced.fetched, space);
        self.notes.test_touched(displaced, traced.store, space);
    }

    /// An update was accepted or taken back. This takes no memory.
    pub fn note_update(&mut self)
        ensures { self.new ≡ update_noted self.old }
    {
        self.notes.count();
    }

    /// An update was accepted and functions were run at it, which may have written any stack. This looks at each open
    /// frame, and takes no memory. Each thread that is watched is a running one of `_threads`.
    pub fn note_hooks<S: Space>(&mut self, _threads: &Threads, space: &S)
        requires { MayTestSlots self.old _threads.now }
        ensures { self.new ≡ hooks_noted (sight_of (S.contents space.now)) self.old }
    {
        self.notes.count_and_test_all(space);
    }

    /// Whether the run has kept the rules so far.
    pub fn verdict(&self) -> Verdict
        ensures { result ≡ self.now.verdict }
    {
        self.notes.verdict()
    }
}

/// A started thread's stack was written up to the address to which it returns at last.
fn first_store(thread: &Thread) -> Store
    ensures { result ≡ inside.first_store thread.now }
{
    Store {
        address: esp_of(thread),
        width: Width::Dword,
        value: RETURN_ADDRESS,
    }
}
