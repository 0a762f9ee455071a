//! What is noted of a run: its events, its threads, and the verdict.
ghost use Rattle.std.specs.Prelude.{◌≡◌, [], List, Option, None, Some, OnOk, OnErr};
ghost use Rattle.image_memory.specs.declared.types.Piece.{Piece};
ghost use Rattle.ia32_step.specs.declared.types.Store.{Store};
ghost use Rattle.frame_watch.specs.Frames.{first_watching};
ghost use Rattle.frame_watch.specs.Discipline.{sight_of, counted, broken, hooks_noted, slot_broken, slots_tested};
ghost use Rattle.frame_watch.specs.Conditions.{MayHaveFetched, MayHoldBut, MayStart, MayStep};
ghost use Rattle.frame_watch.specs.inside.Kept.{AreInPlace, IsTouched, StopsAt, first_store};
ghost use Rattle.frame_watch.specs.inside.Events.{advanced, begun};

use crate::list::{ThreadList, broken_unless};
use crate::memory::has_window;
use crate::types::{Rule, Verdict};
use ia32_step::{Outcome, Store, Thread};
use image_memory::Space;
use std::alloc::{AllocError, Global};
use std::marker::Model;

/// How many events there were, the running threads, and the verdict. Once a rule was broken no threads are kept.
#[derive(Drop)]
pub(crate) struct Notes {
    events: u64,
    threads: ThreadList,
    verdict: Verdict,
}

impl Model for Notes {
    ghost use Rattle.frame_watch.specs.Frames.{Watching};
    ghost use Rattle.frame_watch.specs.inside.Kept.{StopsAt};

    ghost Value = { Watching };

    ghost view = { λ n. record { events = n.events; threads = n.threads; verdict = n.verdict } };

    ghost invariant = { λ n. StopsAt n.verdict n.threads };
}

impl Notes {
    /// Before the first event.
    pub(crate) fn new(alloc: Global) -> Self
        ensures { result ≡ first_watching }
    {
        Notes {
            events: 0,
            threads: ThreadList::new(alloc),
            verdict: Verdict::Disciplined,
        }
    }

    /// The verdict.
    pub(crate) fn verdict(&self) -> Verdict
        ensures { result ≡ self.now.verdict }
    {
        self.verdict
    }

    /// One event more.
    pub(crate) fn count(&mut self)
        ensures counted { self.new ≡ counted self.old }
        ensures stops { StopsAt self.old.verdict self.old.threads }
    {
        self.events = self.events.saturating_add(1);
    }

    /// The event broke a rule.
    #[cold]
    fn end(&mut self, thread: u32, rule: Rule)
        ensures { self.new ≡ broken self.old thread rule }
    {
        self.threads.clear();
        self.verdict = Verdict::Broken {
            event: self.events,
            thread,
            rule,
        };
    }

    /// What a step comes to by all rules but the slot rule, where so many bytes were fetched. The thread's number is
    /// answered where it is watched after the step and one of its slots is outside the bounds of the slot rule.
    #[tactic(auto, unfolding(crate::specs::inside::Events::advanced))]
    pub(crate) fn advance<S: Space>(
        &mut self,
        before: &Thread,
        after: &Thread,
        outcome: Outcome,
        fetched: u32,
        space: &S,
    ) -> Option<u32>
        requires step { MayStep (S.contents space.now).pieces before.now after.now outcome self.old }
        requires fetched { MayHaveFetched (S.contents space.now) before.now.pc fetched self.old }
        requires in_place { AreInPlace self.old.threads }
        ensures noted { self.new ≡ advanced (sight_of (S.contents space.now)) before.now after.now outcome self.old }
        ensures stops { StopsAt self.old.verdict self.old.threads }
        ensures touched { (store : Option Store) → MayHoldBut (S.contents space.now).pieces self.old store
            → IsTouched (S.contents space.now).pieces result store self.new.threads }
    {
        self.count();
        let Verdict::Disciplined = self.verdict else {
            return None;
        };
        match self.threads.step(before, after, outcome, fetched, space) {
            Ok(displaced) => displaced,
            Err(rule) => {
                self.end(after.number, rule);
                None
            }
        }
    }

    /// What the start of a thread comes to by all rules but the slot rule.
    #[tactic(auto, unfolding(crate::specs::inside::Events::begun))]
    pub(crate) fn begin<S: Space>(
        &mut self,
        alloc: Global,
        thread: &Thread,
        space: &S,
    ) -> Result<(), AllocError>
        requires start { MayStart self.old thread.now }
        requires in_place { AreInPlace self.old.threads }
        ensures ok { OnOk result (self.new ≡ begun (sight_of (S.contents space.now)) thread.now self.old) }
        ensures stops { StopsAt self.old.verdict self.old.threads }
        ensures touched { OnOk result ((pieces : List Piece) → MayHoldBut pieces self.old None
            → IsTouched pieces None (Some (first_store thread.now)) self.new.threads) }
        ensures err { OnErr result (self.new ≡ self.old) }
    {
        let Verdict::Disciplined = self.verdict else {
            self.count();
            return Ok(());
        };
        match broken_unless(has_window(space, thread.pc), Rule::Start) {
            Some(rule) => {
                self.count();
                self.end(thread.number, rule);
            }
            None => {
                self.threads.start(alloc, thread)?;
                self.count();
            }
        }
        Ok(())
    }

    /// The slot rule was broken by a thread, if any.
    fn end_at(&mut self, found: Option<u32>)
        ensures { self.new ≡ slot_broken self.old found }
    {
        if let Some(thread) = found {
            self.end(thread, Rule::Slot);
        }
    }

    /// Tests the slot rule at all frames.
    #[tactic(auto, unfolding(crate::specs::Discipline::slots_tested))]
    pub(crate) fn test_all<S: Space>(&mut self, space: &S)
        ensures { self.new ≡ slots_tested (sight_of (S.contents space.now)) self.old }
    {
        let found = self.threads.least_broken(space);
        self.end_at(found);
    }

    /// One event more, after which the slot rule is tested at all frames.
    pub(crate) fn count_and_test_all<S: Space>(&mut self, space: &S)
        ensures noted { self.new ≡ hooks_noted (sight_of (S.contents space.now)) self.old }
        ensures in_place { AreInPlace self.new.threads }
    {
        self.count();
        self.test_all(space);
    }

    /// Tests the slot rule where only one thread, which may be displaced, and what was written can have broken it.
    #[tactic(auto, unfolding(crate::specs::Discipline::slots_tested))]
    pub(crate) fn test_touched<S: Space>(
        &mut self,
        displaced: Option<u32>,
        store: Option<Store>,
        space: &S,
    )
        requires { IsTouched (S.contents space.now).pieces displaced store self.old.threads }
        ensures { self.new ≡ slots_tested (sight_of (S.contents space.now)) self.old }
    {
        let found = self.threads.least_touched(displaced, store, space);
        self.end_at(found);
    }

    /// The same where something was written.
    #[tactic(auto, unfolding(crate::specs::Discipline::slots_tested))]
    pub(crate) fn test_written<S: Space>(
        &mut self,
        displaced: Option<u32>,
        store: &Store,
        space: &S,
    )
        requires { IsTouched (S.contents space.now).pieces displaced (Some store.now) self.old.threads }
        ensures { self.new ≡ slots_tested (sight_of (S.contents space.now)) self.old }
    {
        let found = self.threads.least_written(displaced, store, space);
        self.end_at(found);
    }
}
