//! A running system in which an update of one function can be made in three separate writes.
ghost use Rattle.std.specs.Prelude.{◌≡◌, ◌≢◌, ◌+◌, IfOk, IfSome, IsSomeAnd, OnErr, MatchResult, None, Some, Ok, Err};
ghost use Rattle.std.specs.Prelude.{is_some, is_none};
ghost use Rattle.std.specs.List.{slice_get};
ghost use Rattle.std.specs.Borrow.{LendsIf, sem};
ghost use Rattle.std.specs.Result.{is_ok};
ghost use Rattle.ks_base.specs.declared.refusals.Refusal.TheVariants.{Memory};
ghost use Rattle.i386_reloc.specs.Rule.{Finds};
ghost use Rattle.ia32_step.specs.Code.{KeepsCode};
ghost use Rattle.ia32_step.specs.Step.{store_fault, after_store, stored, fetched_count};
ghost use Rattle.image_threads.specs.Program.{running_at};
ghost use Rattle.splice_jump.specs.declared.phase.Phase.TheVariants.{Done, Marked};
ghost use Rattle.splice_jump.specs.Phases.{open_home};
ghost use Rattle.update_stack.specs.AbstractMachine.{contents_of};
ghost use Rattle.update_stack.specs.Events.{Spawn, Spawned, Step, Stepped, answered, after_event, happened};
ghost use Rattle.update_stack.specs.Phases.{MayBecome, patched_in, phased};
ghost use Rattle.update_stack.specs.StandsFor.{patched};
ghost use Rattle.live_poke.specs.Poke.{ChangesBytes, IsMarked, marked, marked_at, newest_name, open_refusal};
ghost use Rattle.live_poke.specs.Poke.{sealed, tailed};

use crate::changes::check_one_changed;
use crate::laws::{first_writes_open_one_home, later_writes_change_their_bytes};
use ia32_step::{Outcome, Traced};
use image_memory::Space;
use ks_base::{Name, Refusal, Report};
use splice_jump::{Phase, open_home};
use std::alloc::{AllocError, Global};
use std::marker::Model;
use update_stack::System;

/// A running system in which an update of one function can be made in three separate writes, between which its threads
/// go on: [`LiveSystem::mark`], [`LiveSystem::tail`] and [`LiveSystem::seal`]. A clause sees it as its system: the
/// abstract machine, which makes the update as a whole at the first of the three, and the phase of the jump.
#[derive(Drop)]
pub struct LiveSystem<S: Space> {
    alloc: Global,
    system: System<S>,
}

impl<S: Space> Model for LiveSystem<S> {
    ghost use Rattle.update_stack.specs.Phases.{Phased};

    ghost Value = { Phased };

    ghost view = { λ s. s.system };
}

impl<S: Space> LiveSystem<S> {
    ghost use Rattle.live_poke.specs.contracts.live.LiveSystem.{the_row};
    ghost use Rattle.update_stack.specs.contracts.system.System.{the_row as system_row};

    /// A system of which no update is being written. `alloc` is kept for the names of refusals and for the objects.
    pub fn new(alloc: Global, system: System<S>) -> Self
        requires done { system.phase ≡ Done }
        ensures { result ≡ system }
    {
        LiveSystem { alloc, system }
    }

    /// The system.
    pub fn system(&self) -> &System<S>
        ensures { result.now ≡ self.now }
    {
        &self.system
    }

    /// The system, to be changed: `None` exactly while an update is being written.
    pub fn system_mut(&mut self) -> Option<&mut System<S>>
        ensures* changed { sem 𝓛 (LendsIf (the_row S.row S.Space) (system_row S.row S.Space) self.entry result
            (λ w. w) self.old) }
        ensures closed { is_some result ≡ is_none (open_home self.old.phase) }
        ensures system { IfSome result (λ system. system.now ≡ self.old) }
    {
        match open_home(self.system.phase()) {
            None => Some(&mut self.system),
            Some(_) => None,
        }
    }

    /// Refuses with [`Refusal::PokeOpen`] and the newest update's name exactly while an update is being written. In its
    /// place [`Refusal::Memory`] may come, but only if memory runs out.
    pub fn check_closed(&self) -> Result<(), Refusal>
        ensures refused { Finds Memory result (open_refusal self.now) }
        ensures closed { is_ok result ≡ is_none (open_home self.now.phase) }
    {
        if open_home(self.system.phase()).is_none() {
            return Ok(());
        }
        Err(Refusal::PokeOpen(self.newest_name()?))
    }

    /// The name of the newest update, empty where none is live. `Err` comes only if memory runs out.
    pub fn newest_name(&self) -> Result<Name, AllocError>
        ensures { IfOk result (λ name. name ≡ newest_name self.now.machine) }
    {
        match self.system.updates().as_slice().last() {
            Some(update) => Name::from_slice(self.alloc, update.name.as_slice()),
            None => Ok(Name::new(self.alloc)),
        }
    }

    /// Makes an update as [`System::apply`] does, but writes in place of its jump a first byte alone, one that traps. The
    /// update has to change one function, and to add and drop none; the function's home is open then, and a thread that
    /// comes to it goes on at the new version all the same. Answers what was replaced.
    ///
    /// It is refused by the first of these that holds, and all is then as before:
    ///
    /// - another update is being written; the newest update's name is told ([`Refusal::PokeOpen`]);
    /// - `pre` and `post` are read and their difference can be made, and it isn't one changed function alone
    ///   ([`Refusal::NotOneChanged`]);
    /// - all for which [`System::apply`] refuses, in its order.
    ///
    /// [`Refusal::Memory`] may come in place of any answer, but only if memory runs out; all is then as before.
    pub fn mark(&mut self, name: &Name, pre: &[u8], post: &[u8]) -> Result<Report, Refusal>
        ensures answered { MatchResult result
            (λ report. marked self.old name.now pre.now post.now ≡ Ok (self.new, report))
            (λ refusal. refusal ≢ Memory → marked self.old name.now pre.now post.now ≡ Err refusal) }
        ensures marked { IfOk result (λ report. IsMarked self.old self.new name.now pre.now post.now report) }
        ensures refused { OnErr result (self.new ≡ self.old) }
    {
        // The law says that the update replaced one function, whose home can be opened.
        first_writes_open_one_home();
        let _program = self.system.machine();
        self.check_closed()?;
        check_one_changed(self.alloc, pre, post)?;
        let report = self.system.apply(name, pre, post)?;
        self.open_one(&report);
        Ok(report)
    }

    /// Opens the home of the function that the newest update replaced, as its report says; where it says none, nothing
    /// changes.
    fn open_one(&mut self, report: &Report)
        requires done { self.old.phase ≡ Done }
        requires replaced { IfSome (slice_get report.now.replaced 0)
            (λ one. MayBecome (Marked one.home) self.old.machine) }
        ensures { self.new ≡ phased self.old.machine (marked_at (slice_get report.now.replaced 0)) }
    {
        if let Some(one) = report.replaced.as_slice().first() {
            self.system.set_phase(Phase::Marked(one.home));
        }
    }

    /// Writes the last four bytes of the jump of the update that was marked, behind the byte that traps.
    /// [`Refusal::NoPoke`] comes exactly where none is marked, or its tail is written already; all is then as before. It
    /// takes no memory.
    pub fn tail(&mut self) -> Result<(), Refusal>
        ensures answered { MatchResult result (λ _. tailed self.old ≡ Ok self.new)
            (λ refusal. tailed self.old ≡ Err refusal) }
        ensures bytes { IfOk result (λ _. IsSomeAnd (open_home self.old.phase)
            (λ home. ChangesBytes self.old self.new (home + 1) 4)) }
        ensures refused { OnErr result (self.new ≡ self.old) }
    {
        // The law says which bytes change.
        later_writes_change_their_bytes();
        let _program = self.system.machine();
        match self.system.phase() {
            Phase::Marked(home) => {
                self.system.set_phase(Phase::Tailed(home));
                Ok(())
            }
            Phase::Done | Phase::Tailed(_) => Err(Refusal::NoPoke),
        }
    }

    /// Writes the first byte of the jump of the update whose tail was written: no home is open any longer.
    /// [`Refusal::NoPoke`] comes exactly where there is no such update; all is then as before. It takes no memory.
    pub fn seal(&mut self) -> Result<(), Refusal>
        ensures answered { MatchResult result (λ _. sealed self.old ≡ Ok self.new)
            (λ refusal. sealed self.old ≡ Err refusal) }
        ensures bytes { IfOk result (λ _. IsSomeAnd (open_home self.old.phase)
            (λ home. ChangesBytes self.old self.new home 1)) }
        ensures refused { OnErr result (self.new ≡ self.old) }
    {
        // The law says which byte changes.
        later_writes_change_their_bytes();
        let _program = self.system.machine();
        match self.system.phase() {
            Phase::Tailed(_) => {
                self.system.set_phase(Phase::Done);
                Ok(())
            }
            Phase::Done | Phase::Marked(_) => Err(Refusal::NoPoke),
        }
    }

    /// Starts a thread at the function of a name, as [`System::spawn`] does, whether an update is being written or not.
    pub fn spawn(&mut self, name: &Name, argument: u32) -> Result<u32, Refusal>
        ensures answered { MatchResult result
            (λ number. answered self.old.machine (Spawn name.now argument)
            ≡ Ok (happened self.new.machine (Spawned number)))
            (λ refusal. refusal ≢ Memory → answered self.old.machine (Spawn name.now argument) ≡ Err refusal) }
        ensures phase { self.new.phase ≡ self.old.phase }
        ensures refused { OnErr result (self.new ≡ self.old) }
    {
        self.system.spawn(name, argument)
    }

    /// Steps the running thread of a number, as [`System::step`] does, whether an update is being written or not. A
    /// thread that stands at the open home goes on at the newest version. [`Refusal::NoThread`] comes exactly where no
    /// running thread has the number; all is then as before. It takes no memory.
    ///
    /// Whatever the thread does, each piece of code and each byte in it stay as they are, the bytes of jumps and those of
    /// the phase among them.
    pub fn step(&mut self, thread: u32) -> Result<Outcome, Refusal>
        ensures answered { MatchResult result
            (λ outcome. answered self.old.machine (Step thread) ≡ Ok (happened self.new.machine (Stepped outcome)))
            (λ refusal. answered self.old.machine (Step thread) ≡ Err refusal) }
        ensures phase { self.new.phase ≡ self.old.phase }
        ensures refused { OnErr result (self.new ≡ self.old) }
        ensures after { self.new.machine ≡ after_event self.old.machine (Step thread) }
        ensures runs { is_ok result ≡ is_some (running_at self.old.machine.threads thread) }
        ensures code_stays { KeepsCode (patched_in self.old.phase self.old.machine).pieces
            (patched_in self.new.phase self.new.machine).pieces }
        ensures text_stays { KeepsCode self.old.machine.pieces self.new.machine.pieces }
    {
        self.system.step_phased(thread)
    }

    /// Steps the running thread of a number, as [`LiveSystem::step`] does, and answers what it wrote and how many bytes it
    /// fetched beside what it came to. At the home of a replaced function these are the five of the jump, also where
    /// that isn't wholly written.
    pub fn step_traced(&mut self, thread: u32) -> Result<Traced, Refusal>
        ensures answered { MatchResult result
            (λ traced. answered self.old.machine (Step thread) ≡ Ok (happened self.new.machine (Stepped traced.outcome)))
            (λ refusal. answered self.old.machine (Step thread) ≡ Err refusal) }
        ensures written { IfOk result (λ traced.
            self.new.machine.pieces ≡ (after_store (contents_of self.old.machine) traced.store).pieces) }
        ensures clear { IfOk result (λ traced. store_fault (contents_of self.old.machine) traced.store ≡ None) }
        ensures store { IfOk result (λ traced. IsSomeAnd (running_at self.old.machine.threads thread)
            (λ running. traced.store ≡ stored (patched self.old.machine) running)) }
        ensures fetched { IfOk result (λ traced. IsSomeAnd (running_at self.old.machine.threads thread)
            (λ running. traced.fetched ≡ fetched_count (patched self.old.machine) running)) }
        ensures text { IfOk result (λ traced. IsSomeAnd (running_at self.old.machine.threads thread)
            (λ running. traced.fetched ≡ fetched_count (contents_of self.old.machine) running)) }
        ensures phase { self.new.phase ≡ self.old.phase }
        ensures refused { OnErr result (self.new ≡ self.old) }
        ensures after { self.new.machine ≡ after_event self.old.machine (Step thread) }
        ensures runs { is_ok result ≡ is_some (running_at self.old.machine.threads thread) }
        ensures code_stays { KeepsCode (patched_in self.old.phase self.old.machine).pieces
            (patched_in self.new.phase self.new.machine).pieces }
        ensures text_stays { KeepsCode self.old.machine.pieces self.new.machine.pieces }
    {
        self.system.step_traced(thread)
    }
}
