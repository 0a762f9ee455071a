//! A running program with its updates.
ghost use Rattle.std.specs.Prelude.{◌≡◌, ◌≢◌, ℕ, List, [], map, IfOk, IfSome, IsSome, IsSomeAnd, OnOk, OnErr, MatchResult, None, Ok, Err};
ghost use Rattle.std.specs.Prelude.{false, true, is_some, Some, ◌<◌, length, slice_get, MatchOption, IsOkAnd};
ghost use Rattle.std.specs.List.{list_any};
ghost use Rattle.std.specs.Result.{is_ok, result_err};
ghost use Rattle.ks_base.specs.declared.refusals.Refusal.TheVariants.{Memory, NothingApplied};
ghost use Rattle.ia32_step.specs.Code.{KeepsCode};
ghost use Rattle.ia32_step.specs.Step.{store_fault, after_store, stored, fetched_count};
ghost use Rattle.image_threads.specs.Program.{running_at};
ghost use Rattle.image_threads.specs.Spawning.{AreStacks};
ghost use Rattle.update_stack.specs.AbstractMachine.{bodies_in, contents_of, shown_update};
ghost use Rattle.update_stack.specs.Systems.{bare, gaps_in, machine_of};
ghost use Rattle.ks_base.specs.Gives.{Gives};
ghost use Rattle.stack_scan.specs.Standing.{thread_refusal};
ghost use Rattle.update_plan.specs.Plan.{planned};
ghost use Rattle.update_plan.specs.Sound.{AllReplaceNewest, AreGaps, CanBeMade};
ghost use Rattle.update_stack.specs.Apply.{accepted, committed, gaps_of, has_name, planned_in, retired_of, running_of};
ghost use Rattle.update_stack.specs.Apply.{IsPlanned};
ghost use Rattle.update_stack.specs.Events.{Apply, Spawn, Step, Undo, UndoNamed, happened};
ghost use Rattle.update_stack.specs.Events.{Applied, Spawned, Stepped, Undone};
ghost use Rattle.update_stack.specs.Events.{answered, after_event};
ghost use Rattle.saved_data.specs.Saved.{CanBePutBack};
ghost use Rattle.update_stack.specs.PutBack.{with_saved};
ghost use Rattle.update_stack.specs.Scratch.{after_aside, scratched, unscratched};
ghost use Rattle.update_stack.specs.Steps.{step_in};
ghost use Rattle.ia32_step.specs.declared.types.State.TheVariants.{Running};
ghost use Rattle.update_stack.specs.Stacked.{IsBuilt};
ghost use Rattle.update_stack.specs.StandsFor.{patched, IsUntouched};
ghost use Rattle.update_stack.specs.Phases.{StandsIn, phased, patched_in, IsOpenAt, MayBecome};
ghost use Rattle.splice_jump.specs.declared.phase.Phase.TheVariants.{Done};
ghost use Rattle.splice_jump.specs.Phases.{open_home};
ghost use Rattle.update_stack.specs.Undo.{newest_update, ranges_in, cover_refusal, need_refusal, withdrawn};
ghost use Rattle.update_stack.specs.Undo.{named, undone_named, is_refused_by_name};
ghost use Rattle.update_stack.specs.inside.Stepping.{ComesOfStep, StandsAway, StandsOpen, is_at};
ghost use Rattle.i386_reloc.specs.Below.{first_of};
ghost use Rattle.update_stack.specs.AbstractMachine.{Update as Live};

use crate::carrying::{change, plans_are_carried_out, prepare, push_both};
use crate::covering::{behind, check_covers, check_needs};
use crate::laws::{steps_stand, threads_leave_code, updates_can_be_made};
use crate::live::{
    bodies_of, gaps_left, is_taken, kept_ranges_leave_the_gaps, place_of, retired_by,
};
use crate::planned::Planned;
use crate::scratch::{
    put_scratch, scratch_pieces_come, scratch_pieces_go, scratch_place, take_scratch,
};
use crate::updates::{Arena, KeptList, Updates};
use crate::withdrawing::{take_back, take_out, updates_are_taken_back};
use ia32_decode::jumps_decode;
use ia32_step::{
    Outcome, State, Thread, Traced, code_bytes_have_no_say, step_thread, steps_write_one_number,
};
use image_memory::{Pieces, Space, sorted};
use image_threads::Machine;
use ks_base::{Name, Range, Ranges, Refusal, Report};
use link_post::gaps_are_free;
use saved_data::put_back;
use splice_jump::{
    Phase, code_stays_code, data_are_written_past_jumps, homes_are_not_looked_at,
    homes_stay_spliced, jumps_are_added_and_replaced, jumps_change_their_bytes_alone,
    jumps_leave_views, jumps_stand, open_home, phase_bytes, restore,
};
use stack_scan::{check_threads, order_has_no_say};
use std::alloc::{AllocError, Global};
use std::marker::Model;
use update_memory::code_that_stays;
use update_plan::{Hooks, Plan, alike_programs_have_one_plan, plan, plans_replace_the_newest};

/// So many updates may be live.
const MOST_UPDATES: usize = 64;

/// A program that runs over a memory, with the arena that new versions of its functions are placed in, and its live
/// updates. A clause sees it as the abstract machine, whose code is never patched: its text stays as it is, and a table
/// says where the newest version of a function begins. Beside it stands the phase in which the newest update's jump is
/// written.
#[derive(Drop)]
pub struct System<S: Space> {
    alloc: Global,
    machine: Machine<S>,
    arena: Arena,
    updates: Updates,
    kept: KeptList,
    phase: Phase,
}

impl<S: Space> Model for System<S> {
    ghost use Rattle.update_stack.specs.Phases.{Phased, phased};
    ghost use Rattle.update_stack.specs.Systems.{HoldsIn, machine_of};

    ghost Value = { Phased };

    ghost view = { λ s. phased (machine_of s.machine s.arena s.updates s.kept) s.phase };

    ghost invariant = { λ s. HoldsIn s.phase s.machine s.arena s.updates s.kept };
}

impl<S: Space> System<S> {
    /// The system of a program in which nothing was replaced. `Err` comes only if memory runs out.
    pub fn new(alloc: Global, machine: Machine<S>, arena: Range) -> Result<Self, AllocError>
    where
        S: Drop,
        requires none_retired { machine.contents.fences ≡ [] }
        requires stacks { AreStacks machine.contents.pieces machine.stacks }
        requires gaps { AreGaps machine.contents (gaps_in arena) }
        ensures { IfOk result (λ system. system ≡ phased (machine_of machine (bare arena) [] []) Done) }
    {
        // It runs over a memory.
        let _space = machine.space();
        Ok(System {
            alloc,
            machine,
            arena: Arena {
                range: arena,
                scratch: None,
            },
            updates: Updates::new(alloc),
            kept: KeptList::new(alloc),
            phase: Phase::Done,
        })
    }

    /// The program. It stands for the abstract machine that the system is seen as: all is equal but the bytes of the
    /// jumps at the homes of replaced functions.
    pub fn machine(&self) -> &Machine<S>
        ensures stands { StandsIn self.now.phase result.now self.now.machine }
        ensures built { IsBuilt self.now.machine }
    {
        &self.machine
    }

    /// The phase in which the jump of the newest update is written. A home that is open is the only one which that update
    /// replaced.
    pub fn phase(&self) -> Phase
        ensures phase { result ≡ self.now.phase }
        ensures opened { IsOpenAt self.now.phase self.now.machine }
    {
        self.phase
    }

    /// Writes the jump of the newest update, which replaced one function, as far as a phase says: the five bytes of that
    /// phase stand at the function's home then. Nothing else changes. It takes no memory.
    pub fn set_phase(&mut self, phase: Phase)
        requires replaced { MayBecome phase self.old.machine }
        ensures { self.new ≡ phased self.old.machine phase }
    {
        // The law says that the jump stays where it stands when it is written there again.
        jumps_are_added_and_replaced();
        let at = self.kept.len() - 1;
        let jump = self.kept.as_slice()[at].jumps.as_slice()[0];
        let bytes = phase_bytes(phase, jump.home, jump.base, jump.old);
        restore(self.machine.space_mut(), jump.home, bytes);
        self.phase = phase;
    }

    /// The live updates, the oldest first.
    pub fn updates(&self) -> &Updates
        ensures { result.now ≡ map shown_update self.now.machine.updates }
    {
        &self.updates
    }

    /// Starts a thread at the function of a name, and answers its number. It is refused with the first of
    /// [`Refusal::NoSymbol`], [`Refusal::TwoNames`], [`Refusal::TooManyThreads`] and [`Refusal::NoStack`] that holds,
    /// and with [`Refusal::Memory`] only if memory runs out; all is then as before.
    pub fn spawn(&mut self, name: &Name, argument: u32) -> Result<u32, Refusal>
        ensures answered { MatchResult result
            (λ number. answered self.old.machine (Spawn name.now argument)
            ≡ Ok (happened self.new.machine (Spawned number)))
            (λ refusal. refusal ≢ Memory → answered self.old.machine (Spawn name.now argument) ≡ Err refusal) }
        ensures phase { self.new.phase ≡ self.old.phase }
        ensures refused { OnErr result (self.new ≡ self.old) }
    {
        // The laws say that a start, which writes data alone, leaves the jumps and what is seen past them.
        data_are_written_past_jumps();
        code_stays_code();
        homes_stay_spliced();
        code_that_stays();
        jumps_change_their_bytes_alone();
        // Each stack has room for a thread's first frame.
        let _threads = self.machine.threads();
        self.machine.spawn(name, argument)
    }

    /// Steps the running thread of a number, and answers what the step came to. [`Refusal::NoThread`] comes exactly
    /// where no running thread has the number; all is then as before. It takes no memory.
    ///
    /// Whatever the thread does, each piece of code and each byte in it stay as they are, the bytes of jumps among them.
    pub fn step(&mut self, thread: u32) -> Result<Outcome, Refusal>
        requires done { self.old.phase ≡ Done }
        ensures answered { MatchResult result
            (λ outcome. answered self.old.machine (Step thread) ≡ Ok (happened self.new.machine (Stepped outcome)))
            (λ refusal. answered self.old.machine (Step thread) ≡ Err refusal) }
        ensures phase { self.new.phase ≡ self.old.phase }
        ensures refused { OnErr result (self.new ≡ self.old) }
        ensures after { self.new.machine ≡ after_event self.old.machine (Step thread) }
        ensures runs { is_ok result ≡ is_some (running_at self.old.machine.threads thread) }
        ensures code_stays { KeepsCode (patched self.old.machine).pieces (patched self.new.machine).pieces }
        ensures text_stays { KeepsCode self.old.machine.pieces self.new.machine.pieces }
    {
        Ok(self.step_traced(thread)?.outcome)
    }

    /// Steps the running thread of a number in any phase, as [`System::step`] does where no home is open. A thread that
    /// stands at the open home goes on at the newest version, as it does at any home.
    ///
    /// Whatever the thread does, each piece of code and each byte in it stay as they are, the bytes of jumps and those of
    /// the phase among them.
    pub fn step_phased(&mut self, thread: u32) -> Result<Outcome, Refusal>
        ensures answered { MatchResult result
            (λ outcome. answered self.old.machine (Step thread) ≡ Ok (happened self.new.machine (Stepped outcome)))
            (λ refusal. answered self.old.machine (Step thread) ≡ Err refusal) }
        ensures phase { self.new.phase ≡ self.old.phase }
        ensures refused { OnErr result (self.new ≡ self.old) }
        ensures after { self.new.machine ≡ after_event self.old.machine (Step thread) }
        ensures runs { is_ok result ≡ is_some (running_at self.old.machine.threads thread) }
        ensures code_stays { KeepsCode (patched_in self.old.phase self.old.machine).pieces
            (patched_in self.new.phase self.new.machine).pieces }
        ensures text_stays { KeepsCode self.old.machine.pieces self.new.machine.pieces }
    {
        Ok(self.step_traced(thread)?.outcome)
    }

    /// Steps the running thread of a number, as [`System::step`] does, and answers what it wrote and how many bytes it
    /// fetched beside what it came to, in any phase. At the home of a replaced function these are the five of the jump, also
    /// where that isn't wholly written.
    pub fn step_traced(&mut self, thread: u32) -> Result<Traced, Refusal>
        ensures answered { MatchResult result
            (λ traced. answered self.old.machine (Step thread) ≡ Ok (happened self.new.machine (Stepped traced.outcome)))
            (λ refusal. answered self.old.machine (Step thread) ≡ Err refusal) }
        ensures written { IfOk result (λ traced.
            self.new.machine.pieces ≡ (after_store (contents_of self.old.machine) traced.store).pieces) }
        ensures clear { IfOk result (λ traced. store_fault (contents_of self.old.machine) traced.store ≡ None) }
        ensures store { IfOk result (λ traced. IsSomeAnd (running_at self.old.machine.threads thread)
            (λ running. traced.store ≡ stored (patched self.old.machine) running)) }
        ensures fetched { IfOk result (λ traced. IsSomeAnd (running_at self.old.machine.threads thread)
            (λ running. traced.fetched ≡ fetched_count (patched self.old.machine) running)) }
        ensures text { IfOk result (λ traced. IsSomeAnd (running_at self.old.machine.threads thread)
            (λ running. traced.fetched ≡ fetched_count (contents_of self.old.machine) running)) }
        ensures phase { self.new.phase ≡ self.old.phase }
        ensures refused { OnErr result (self.new ≡ self.old) }
        ensures after { self.new.machine ≡ after_event self.old.machine (Step thread) }
        ensures runs { is_ok result ≡ is_some (running_at self.old.machine.threads thread) }
        ensures code_stays { KeepsCode (patched_in self.old.phase self.old.machine).pieces
            (patched_in self.new.phase self.new.machine).pieces }
        ensures text_stays { KeepsCode self.old.machine.pieces self.new.machine.pieces }
    {
        // The law says that a step leaves code as it is where the machine is built. The program stands for such a one, in
        // a phase whose open home is that of its newest update.
        threads_leave_code();
        let _program = self.machine();
        let _phase = self.phase();
        match self.open_base(thread) {
            Some(base) => self.step_on(thread, base),
            None => self.step_away(thread),
        }
    }

    /// The newest version, where the running thread of a number stands at the home that is open.
    fn open_base(&self, thread: u32) -> Option<u32>
        ensures { MatchOption result
            (StandsAway self.now.phase self.now.machine.threads thread)
            (StandsOpen self.now.phase self.now.machine thread) }
    {
        let home = open_home(self.phase)?;
        if !stands_at(self.machine.threads().as_slice(), thread, home) {
            return None;
        }
        let at = self.updates.len() - 1;
        Some(self.updates.as_slice()[at].report.replaced.as_slice()[0].base)
    }

    /// Sends a thread on from the open home to the newest version, as the jump will once it stands there.
    fn step_on(&mut self, thread: u32, base: u32) -> Result<Traced, Refusal>
        requires open { StandsOpen self.old.phase self.old.machine thread base }
        ensures comes { ComesOfStep self.old.machine self.new.machine thread result }
        ensures phase { self.new.phase ≡ self.old.phase }
        ensures refused { OnErr result (self.new ≡ self.old) }
    {
        // The laws say that over the memory with all the jumps a step comes to the same.
        steps_stand();
        jumps_leave_views();
        data_are_written_past_jumps();
        code_stays_code();
        homes_stay_spliced();
        code_that_stays();
        jumps_decode();
        jumps_stand();
        let outcome = self.machine.jump_thread(thread, base)?;
        Ok(Traced {
            outcome,
            store: None,
            fetched: 5,
        })
    }

    /// Steps a thread that doesn't stand at an open home.
    fn step_away(&mut self, thread: u32) -> Result<Traced, Refusal>
        requires away { StandsAway self.old.phase self.old.machine.threads thread }
        ensures comes { ComesOfStep self.old.machine self.new.machine thread result }
        ensures phase { self.new.phase ≡ self.old.phase }
        ensures refused { OnErr result (self.new ≡ self.old) }
    {
        // The laws say that the machine makes the same step, that the bytes at the open home have no say in it, and that
        // what is reported of it is so of the machine's memory.
        steps_stand();
        steps_write_one_number();
        jumps_leave_views();
        data_are_written_past_jumps();
        code_stays_code();
        homes_stay_spliced();
        homes_are_not_looked_at();
        code_bytes_have_no_say();
        code_that_stays();
        self.machine.step_traced(thread)
    }

    /// Replaces the functions of the program that differ between two object files, built before and after a change of
    /// its source, while its threads stand anywhere but in them. Answers what was replaced, added and dropped.
    ///
    /// It is refused by the first of these that holds, and all is then as before:
    ///
    /// - as many updates are live as may be ([`Refusal::TooMany`]);
    /// - a live update has the name ([`Refusal::NameTaken`]);
    /// - `pre` isn't an object that can be matched, or `post` isn't (the refusals of an object file);
    /// - what differs between them can't be changed ([`Refusal::DataChanged`], [`Refusal::Interior`],
    ///   [`Refusal::NoChange`]);
    /// - the functions of `pre` aren't those that run, in one way alone ([`Refusal::PreUndecoded`],
    ///   [`Refusal::NoCandidate`], [`Refusal::Mismatch`], [`Refusal::Conflict`], [`Refusal::Ambiguous`]);
    /// - new code refers to a name or data without one address ([`Refusal::Unresolved`], [`Refusal::TwoNames`]);
    /// - the jump to a new version has no room, or code overlaps ([`Refusal::TooSmall`], [`Refusal::Overlap`]);
    /// - the arena has no room ([`Refusal::NoRoom`]);
    /// - a running thread stands in what would be retired, or its ESP is outside its stack ([`Refusal::Busy`],
    ///   [`Refusal::StackOut`]).
    ///
    /// [`Refusal::Memory`] may come in place of any answer, but only if memory runs out; all is then as before: the memory
    /// piece by piece, with the jumps that stand in it, its retired ranges and the symbols.
    pub fn apply(&mut self, name: &Name, pre: &[u8], post: &[u8]) -> Result<Report, Refusal>
        requires done { self.old.phase ≡ Done }
        ensures answered { MatchResult result
            (λ report. answered self.old.machine (Apply name.now pre.now post.now)
            ≡ Ok (happened self.new.machine (Applied report)))
            (λ refusal. refusal ≢ Memory → answered self.old.machine (Apply name.now pre.now post.now) ≡ Err refusal) }
        ensures phase { self.new.phase ≡ self.old.phase }
        ensures refused { OnErr result (self.new ≡ self.old) }
        ensures untouched { OnErr result (IsUntouched self.old.machine self.new.machine) }
    {
        Ok(self.apply_listing(name, pre, post)?.0)
    }

    /// Replaces functions of the program, as [`System::apply`] does, and answers beside its report the functions that the
    /// new object lists to be run at the update; none of them is run.
    pub fn apply_listing(
        &mut self,
        name: &Name,
        pre: &[u8],
        post: &[u8],
    ) -> Result<(Report, Hooks), Refusal>
        requires done { self.old.phase ≡ Done }
        ensures answered { MatchResult result
            (λ made. answered self.old.machine (Apply name.now pre.now post.now)
            ≡ Ok (happened self.new.machine (Applied made.0)))
            (λ refusal. refusal ≢ Memory → answered self.old.machine (Apply name.now pre.now post.now) ≡ Err refusal) }
        ensures listed { IfOk result (λ made. IsOkAnd (accepted self.old.machine name.now pre.now post.now)
            (λ plan. plan.hooks ≡ made.1)) }
        ensures phase { self.new.phase ≡ self.old.phase }
        ensures refused { OnErr result (self.new ≡ self.old) }
    {
        let planned = self.plan_update(name, pre, post)?;
        self.check_threads(&planned)?;
        Ok(self.apply_planned(name, planned)?)
    }

    /// What [`System::apply`] would do, or the first of its refusals but those of the threads. The system stays as it is.
    pub fn plan_update(&self, name: &Name, pre: &[u8], post: &[u8]) -> Result<Planned, Refusal>
        requires done { self.now.phase ≡ Done }
        ensures { Gives (λ plan. plan) result (planned_in self.now.machine name.now pre.now post.now) }
    {
        let plan = self.plan(name, pre, post)?;
        let guarded = sorted(self.alloc, plan.guarded.as_slice())?;
        Ok(Planned {
            plan,
            guarded: Ranges::from_vec(guarded),
        })
    }

    /// Whether no thread stands in the way of an update that was planned: the refusals of [`System::apply`] that are the
    /// threads' ([`Refusal::Busy`], [`Refusal::StackOut`]). It takes no memory.
    pub fn check_threads(&self, planned: &Planned) -> Result<(), Refusal>
        requires done { self.now.phase ≡ Done }
        ensures { result_err result
            ≡ thread_refusal self.now.machine.pieces planned.now.guarded self.now.machine.threads }
    {
        // The law says that the answer is the same when the ranges are sorted.
        order_has_no_say();
        self.check_ranges(planned.guarded.as_slice())
    }

    /// Makes an update that was planned, as [`System::apply`] does, and answers its report, and the functions that the new
    /// object lists to be run at it; none of them is run. The plan is what the system would have for these files as it is,
    /// and no thread stands in its way. `Err` comes only if memory runs out, and all is then as before.
    pub fn apply_planned(
        &mut self,
        name: &Name,
        planned: Planned,
    ) -> Result<(Report, Hooks), AllocError>
        requires done { self.old.phase ≡ Done }
        requires planned { IsPlanned self.old.machine name.now planned }
        requires clear { thread_refusal self.old.machine.pieces planned.guarded self.old.machine.threads ≡ None }
        ensures answered { IfOk result (λ made. (pre post : List ℕ)
            → planned_in self.old.machine name.now pre post ≡ Ok planned
            → answered self.old.machine (Apply name.now pre post)
            ≡ Ok (happened self.new.machine (Applied made.0))) }
        ensures listed { IfOk result (λ made. made.1 ≡ planned.hooks) }
        ensures phase { self.new.phase ≡ self.old.phase }
        ensures refused { OnErr result (self.new ≡ self.old) }
    {
        // The laws say that what is planned can be carried out, and what it replaces.
        updates_can_be_made();
        plans_replace_the_newest();
        let _program = self.machine();
        let Planned { plan, guarded: _ } = planned;
        self.carry_out(name, plan)
    }

    /// Takes the newest update back, and answers its name: its pieces, its retired ranges and its symbols are gone, and
    /// each home that it replaced goes on where it went before it. All else, data among it, stays as it is. It takes no
    /// memory.
    ///
    /// It is refused by the first of these that holds, and all is then as before:
    ///
    /// - no update is live ([`Refusal::NothingApplied`]);
    /// - a running thread stands in one of its pieces, or its ESP is outside its stack ([`Refusal::Busy`],
    ///   [`Refusal::StackOut`]).
    pub fn undo(&mut self) -> Result<Name, Refusal>
        requires done { self.old.phase ≡ Done }
        ensures answered { MatchResult result
            (λ name. answered self.old.machine Undo ≡ Ok (happened self.new.machine (Undone name)))
            (λ refusal. answered self.old.machine Undo ≡ Err refusal) }
        ensures phase { self.new.phase ≡ self.old.phase }
        ensures refused { OnErr result (self.new ≡ self.old) }
    {
        // The machine's updates lie each on what was there without it, so nothing is later than the newest.
        let _program = self.machine();
        let at = self.newest()?;
        self.check_threads_in(at)?;
        Ok(self.take_back_at(at))
    }

    /// Takes the update of a name back, as [`System::undo`] does with the newest: its pieces, its retired ranges and its
    /// symbols are gone, and each home that it replaced goes on where it went before it. All else stays as it is, the other
    /// updates among it.
    ///
    /// It is refused by the first of these that holds, and all is then as before:
    ///
    /// - no live update has the name ([`Refusal::NoUpdate`]);
    /// - a later one retired code of it; the oldest such is told ([`Refusal::Covered`]);
    /// - a later one has a field that needs an address in its pieces; the oldest such is told, with its first such field
    ///   ([`Refusal::Needed`]);
    /// - a running thread stands in one of its pieces, or its ESP is outside its stack ([`Refusal::Busy`],
    ///   [`Refusal::StackOut`]).
    ///
    /// [`Refusal::Memory`] may come in place of the first three, which tell names, but only if memory runs out; all is then
    /// as before. Otherwise it takes no memory.
    pub fn undo_named(&mut self, name: &Name) -> Result<(), Refusal>
        requires done { self.old.phase ≡ Done }
        ensures answered { MatchResult result
            (λ _. answered self.old.machine (UndoNamed name.now) ≡ Ok (happened self.new.machine (Undone name.now)))
            (λ refusal. refusal ≢ Memory → answered self.old.machine (UndoNamed name.now) ≡ Err refusal) }
        ensures memory { OnErr result (result_err result ≡ Some Memory
            → is_refused_by_name (undone_named self.old.machine name.now) ≡ true) }
        ensures phase { self.new.phase ≡ self.old.phase }
        ensures refused { OnErr result (self.new ≡ self.old) }
    {
        let Some(at) = self.place_of(name) else {
            let name = Name::from_slice(self.alloc, name.as_slice())?;
            return Err(Refusal::NoUpdate(name));
        };
        self.check_later(at)?;
        self.check_threads_in(at)?;
        self.take_back_at(at);
        Ok(())
    }

    /// Takes the newest update back, as [`System::undo`] does, wherever threads stand. It takes no memory.
    pub fn withdraw(&mut self)
        requires done { self.old.phase ≡ Done }
        requires live { IsSome (newest_update self.old.machine) }
        ensures withdrawn { IfSome (newest_update self.old.machine)
            (λ update. self.new.machine ≡ withdrawn self.old.machine update) }
        ensures phase { self.new.phase ≡ self.old.phase }
    {
        // The machine's updates lie each on what was there without it, so nothing is later than the newest.
        let _program = self.machine();
        let Ok(at) = self.newest() else {
            unreachable!()
        };
        self.take_back_at(at);
    }

    /// Writes the bytes of saved pieces back, one piece after another: each lies where a piece of writable memory does.
    /// Nothing else changes. It takes no memory.
    pub fn put_back(&mut self, saved: &Pieces)
        requires done { self.old.phase ≡ Done }
        requires fit { CanBePutBack self.old.machine.pieces saved.now }
        ensures put { self.new.machine ≡ with_saved self.old.machine saved.now }
        ensures phase { self.new.phase ≡ self.old.phase }
    {
        // The laws say that what is written, which is data, leaves the jumps and what is seen past them.
        data_are_written_past_jumps();
        code_stays_code();
        homes_stay_spliced();
        code_that_stays();
        jumps_change_their_bytes_alone();
        put_back(self.machine.space_mut(), saved);
    }

    /// Adds a scratch piece: 4,096 bytes of zeros that may be written, at the lowest multiple of 16 at which they lie in
    /// what is free of the arena. Answers where it begins. It is refused with [`Refusal::NoRoom`] exactly where there is no
    /// such place, and with [`Refusal::Memory`] only if memory runs out; all is then as before.
    pub fn add_scratch(&mut self) -> Result<u32, Refusal>
        requires done { self.old.phase ≡ Done }
        requires none { self.old.machine.scratch ≡ None }
        ensures added { MatchResult result (λ base. scratched self.old.machine ≡ Ok (self.new.machine, base))
            (λ refusal. refusal ≢ Memory → scratched self.old.machine ≡ Err refusal) }
        ensures phase { self.new.phase ≡ self.old.phase }
        ensures refused { OnErr result (self.new ≡ self.old) }
    {
        // The laws say what is free, that jumps leave where pieces lie, and what holds with the scratch piece.
        kept_ranges_leave_the_gaps();
        gaps_are_free();
        jumps_change_their_bytes_alone();
        scratch_pieces_come();
        let gaps = gaps_left(self.alloc, self.arena, self.kept.as_slice())?;
        let range = scratch_place(self.alloc, &gaps)?;
        put_scratch(self.alloc, &mut self.machine, range)?;
        self.arena.scratch = Some(range);
        Ok(range.low)
    }

    /// Takes the scratch piece away. It takes no memory.
    pub fn drop_scratch(&mut self)
        requires done { self.old.phase ≡ Done }
        requires some { IsSome self.old.machine.scratch }
        ensures dropped { self.new.machine ≡ unscratched self.old.machine }
        ensures phase { self.new.phase ≡ self.old.phase }
    {
        // The laws say what holds without it, and that jumps leave where pieces lie.
        jumps_change_their_bytes_alone();
        scratch_pieces_go();
        let Some(range) = self.arena.scratch else {
            unreachable!()
        };
        take_scratch(&mut self.machine, range.low);
        self.arena.scratch = None;
    }

    /// Steps a thread that is none of the program's, and answers what the step came to. It takes no memory.
    pub fn step_scratch(&mut self, thread: &mut Thread) -> Outcome
        requires done { self.old.phase ≡ Done }
        requires running { thread.old.state ≡ Running }
        ensures machine { self.new.machine ≡ after_aside self.old.machine (step_in self.old.machine thread.old) }
        ensures thread { thread.new ≡ (step_in self.old.machine thread.old).thread }
        ensures outcome { result ≡ (step_in self.old.machine thread.old).outcome }
        ensures phase { self.new.phase ≡ self.old.phase }
    {
        // The laws say that the machine makes the same step, and that what it writes, which is data, leaves the jumps.
        steps_stand();
        data_are_written_past_jumps();
        code_stays_code();
        homes_stay_spliced();
        code_that_stays();
        step_thread(self.machine.space_mut(), thread)
    }

    /// The place of the newest update among the live ones.
    fn newest(&self) -> Result<usize, Refusal>
        ensures { MatchResult result
            (λ at. (at < length self.now.machine.updates)
            × (slice_get self.now.machine.updates at ≡ newest_update self.now.machine))
            (λ refusal. (refusal ≡ NothingApplied) × (newest_update self.now.machine ≡ None)) }
    {
        match self.updates.len().checked_sub(1) {
            None => Err(Refusal::NothingApplied),
            Some(at) => Ok(at),
        }
    }

    /// The place of the update of a name among the live ones.
    fn place_of(&self, name: &Name) -> Option<usize>
        ensures { MatchOption result (named self.now.machine name.now ≡ None)
            (λ at. (at < length self.now.machine.updates)
            × (slice_get self.now.machine.updates at ≡ named self.now.machine name.now)) }
    {
        place_of(self.updates.as_slice(), name)
    }

    /// Whether no later update retired code of the one at a place, or needs an address in its pieces.
    fn check_later(&self, at: usize) -> Result<(), Refusal>
        requires done { self.now.phase ≡ Done }
        requires place { at < length self.now.machine.updates }
        ensures found { (update : Live) → slice_get self.now.machine.updates at ≡ Some update → MatchResult result
            (λ _. (cover_refusal self.now.machine update ≡ None) × (need_refusal self.now.machine update ≡ None))
            (λ refusal. refusal ≢ Memory →
            first_of (cover_refusal self.now.machine update) (need_refusal self.now.machine update) ≡ Some refusal) }
        ensures told { (update : Live) → slice_get self.now.machine.updates at ≡ Some update → OnErr result
            (is_some (first_of (cover_refusal self.now.machine update) (need_refusal self.now.machine update)) ≡ true) }
    {
        let updates = behind(self.updates.as_slice(), at);
        let kept = behind(self.kept.as_slice(), at);
        let one = &self.kept.as_slice()[at];
        check_covers(one.code_ranges.as_slice(), updates, kept)?;
        check_needs(one.ranges.as_slice(), updates, kept)
    }

    /// Whether no thread stands in a piece of the update at a place.
    fn check_threads_in(&self, at: usize) -> Result<(), Refusal>
        requires done { self.now.phase ≡ Done }
        requires place { at < length self.now.machine.updates }
        ensures { (update : Live) → slice_get self.now.machine.updates at ≡ Some update →
            result_err result
            ≡ thread_refusal self.now.machine.pieces (ranges_in self.now.machine update) self.now.machine.threads }
    {
        // The law says that the answer is the same in whichever order the ranges are.
        order_has_no_say();
        self.check_ranges(self.kept.as_slice()[at].ranges.as_slice())
    }

    /// Takes the update at a place back, which no later one covers, and answers its name. It takes no memory.
    fn take_back_at(&mut self, at: usize) -> Name
        requires done { self.old.phase ≡ Done }
        requires place { at < length self.old.machine.updates }
        requires uncovered { (update : Live) → slice_get self.old.machine.updates at ≡ Some update →
            cover_refusal self.old.machine update ≡ None }
        ensures withdrawn { (update : Live) → slice_get self.old.machine.updates at ≡ Some update →
            (result ≡ update.name) × (self.new.machine ≡ withdrawn self.old.machine update) }
        ensures phase { self.new.phase ≡ self.old.phase }
    {
        // The law says that what is kept of the update can be taken away, and what holds then.
        updates_are_taken_back();
        let update = take_out(self.alloc, &mut self.updates, at);
        let one = take_out(self.alloc, &mut self.kept, at);
        take_back(&mut self.machine, &one, &self.kept.as_slice()[at..]);
        update.name
    }

    /// What an update would do, or the first refusal but those of the threads.
    fn plan(&self, name: &Name, pre: &[u8], post: &[u8]) -> Result<Plan, Refusal>
        requires done { self.now.phase ≡ Done }
        ensures { Gives (λ plan. plan) result (planned_in self.now.machine name.now pre.now post.now) }
    {
        if self.updates.len() >= MOST_UPDATES {
            return Err(Refusal::TooMany);
        }
        if is_taken(self.updates.as_slice(), name) {
            let name = Name::from_slice(self.alloc, name.as_slice())?;
            return Err(Refusal::NameTaken(name));
        }
        self.plan_beside(pre, post)
    }

    /// The same where the update's name doesn't matter.
    fn plan_beside(&self, pre: &[u8], post: &[u8]) -> Result<Plan, Refusal>
        requires done { self.now.phase ≡ Done }
        ensures { Gives (λ plan. plan) result
            (planned (running_of self.now.machine) (retired_of self.now.machine) (gaps_of self.now.machine)
            pre.now post.now) }
    {
        // The laws say that jumps don't matter for a plan, and what is free of the arena.
        alike_programs_have_one_plan();
        jumps_leave_views();
        jumps_change_their_bytes_alone();
        homes_stay_spliced();
        gaps_are_free();
        kept_ranges_leave_the_gaps();
        let bodies = bodies_of(self.alloc, self.updates.as_slice())?;
        let retired = retired_by(self.alloc, self.kept.as_slice())?;
        let gaps = gaps_left(self.alloc, self.arena, self.kept.as_slice())?;
        let symbols = self.machine.symbols();
        let space = self.machine.space();
        plan(
            self.alloc, space, &bodies, symbols, &retired, &gaps, pre, post,
        )
    }

    /// Whether no thread stands in one of some ranges.
    fn check_ranges(&self, ranges: &[Range]) -> Result<(), Refusal>
        requires done { self.now.phase ≡ Done }
        ensures { result_err result ≡ thread_refusal self.now.machine.pieces ranges.now self.now.machine.threads }
    {
        // The law says that jumps don't matter for where a thread stands.
        jumps_change_their_bytes_alone();
        let threads = self.machine.threads().as_slice();
        check_threads(threads, self.machine.space(), ranges)
    }

    /// Carries a plan out, and answers its report, and the functions that it lists. `Err` comes only if memory runs out, and
    /// all is then as before.
    fn carry_out(&mut self, name: &Name, mut plan: Plan) -> Result<(Report, Hooks), AllocError>
        requires done { self.old.phase ≡ Done }
        requires can { CanBeMade (contents_of self.old.machine) plan }
        requires newest { AllReplaceNewest (bodies_in self.old.machine.table) plan }
        requires new { list_any (has_name name.now) self.old.machine.updates ≡ false }
        ensures report { IfOk result (λ made. made.0 ≡ plan.report) }
        ensures listed { IfOk result (λ made. made.1 ≡ plan.hooks) }
        ensures committed { OnOk result (self.new.machine ≡ committed self.old.machine name.now plan) }
        ensures phase { self.new.phase ≡ self.old.phase }
        ensures refused { OnErr result (self.new ≡ self.old) }
    {
        // The laws say that the plan fits, and what comes of it.
        plans_are_carried_out();
        let made = prepare(self.alloc, &mut self.machine, name, &mut plan)?;
        push_both(&mut self.updates, &mut self.kept, made.update, made.kept)?;
        let Plan {
            report,
            pieces,
            symbols,
            fences,
            guarded: _,
            needs: _,
            hooks,
        } = plan;
        change(
            &mut self.machine,
            pieces,
            fences.as_slice(),
            made.jumps.as_slice(),
            symbols,
        );
        Ok((report, hooks))
    }
}

/// Whether the running thread of a number stands at an address.
fn stands_at(threads: &[Thread], number: u32, address: u32) -> bool
    ensures { result ≡ is_at address (running_at threads.now number) }
{
    match threads.get(number as usize) {
        Some(thread) => thread.state == State::Running && thread.pc == address,
        None => false,
    }
}
