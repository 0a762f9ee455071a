//! What a session holds.
ghost use Rattle.std.specs.Prelude.{◌≡◌, ◌≢◌, None, Ok, Err, IfOk, OnOk, OnErr, MatchResult, is_some, map, [], ◌∷◌};
ghost use Rattle.std.specs.List.{slice_get};
ghost use Rattle.ks_base.specs.declared.refusals.Refusal.TheVariants.{Memory};
ghost use Rattle.i386_reloc.specs.Rule.{Finds};
ghost use Rattle.image_file.specs.Seen.{contents_of};
ghost use Rattle.image_threads.specs.Program.{running_at};
ghost use Rattle.splice_jump.specs.declared.phase.Phase.TheVariants.{Done};
ghost use Rattle.update_stack.specs.AbstractMachine.{shown_update};
ghost use Rattle.update_stack.specs.Phases.{phased, IsOpenAt, StandsIn};
ghost use Rattle.update_stack.specs.Stacked.{IsBuilt};
ghost use Rattle.update_stack.specs.Events.{Apply, Applied, Hooks, Hooked, Spawn, Spawned, Undo, UndoNamed, Undone};
ghost use Rattle.update_stack.specs.Events.{happened, answered};
ghost use Rattle.live_poke.specs.Poke.{marked, newest_name, open_refusal, sealed, tailed};
ghost use Rattle.ksplice_session.specs.Watching.{first_watched, watched_after};
ghost use Rattle.ksplice_session.specs.Replies.{event_of, live_of};
ghost use Rattle.ksplice_session.specs.Answers.{MadeFront, turned};
ghost use Rattle.ksplice_session.specs.inside.Trying.{plan_for, trial_of};

use crate::memory::all_pieces;
use crate::types::Trial;
use apply_hooks::apply_with_hooks;
use frame_watch::{Verdict, Watch};
use ia32_step::{State, Thread};
use image_file::{Image, image_keeps_rules};
use image_memory::pieces_stay_placed;
use image_threads::Machine;
use ks_base::{HookReport, Name, Refusal, Report};
use live_poke::LiveSystem;
use paged_memory::PagedSpace;
use splice_jump::{
    homes_are_not_looked_at, homes_stay_spliced, jumps_change_their_bytes_alone, jumps_leave_views,
};
use std::alloc::{AllocError, Global};
use std::marker::Model;
use symbol_table::SymbolTable;
use update_safety::{hooks_keep_threads_safe, updates_keep_slots};
use update_stack::{Planned, System, Update};

/// The program of a system. It stands for the machine that the system is seen as, in its phase, and a home that is open
/// is that of the newest update.
pub(crate) fn program(live: &LiveSystem<PagedSpace>) -> &Machine<PagedSpace>
    ensures stands { StandsIn live.now.phase result.now live.now.machine }
    ensures built { IsBuilt live.now.machine }
    ensures opened { IsOpenAt live.now.phase live.now.machine }
{
    let system = live.system();
    let _phase = system.phase();
    system.machine()
}

/// A program that runs, and what was seen of its events. A clause sees it as the abstract machine, with the phase in
/// which its newest update is being written, and with the watch over its events.
#[derive(Drop)]
pub struct Session {
    pub(crate) live: LiveSystem<PagedSpace>,
    pub(crate) watch: Watch,
}

impl Model for Session {
    ghost use Rattle.ksplice_session.specs.Watching.{Watched};
    ghost use Rattle.ksplice_session.specs.inside.InStep.{IsInStep};

    ghost Value = { Watched };

    ghost view = { λ s. record { machine = s.live.machine; phase = s.live.phase; watch = s.watch } };

    // In every phase the threads that the watch has run, and each of their frames keeps the slot rule; and the machine has
    // no scratch piece.
    ghost invariant = { λ s. IsInStep s.live.machine s.watch };
}

impl Session {
    /// The session of an image: nothing was replaced, and there is no thread. `Err` comes only if memory runs out.
    pub fn new(alloc: Global, image: Image) -> Result<Self, AllocError>
        ensures { IfOk result (λ session. session ≡ first_watched (contents_of image)) }
    {
        // The regions and stacks of an image are apart, and so are they with the pieces of stacks put among them.
        image_keeps_rules(&image);
        pieces_stay_placed();
        let arena = image.arena;
        let pieces = all_pieces(alloc, &image.pieces, &image.stacks)?;
        let space = PagedSpace::new(alloc, pieces)?;
        let machine = Machine::new(alloc, image, space)?;
        let system = System::new(alloc, machine, arena)?;
        let live = LiveSystem::new(alloc, system);
        let watch = Watch::new(alloc);
        Ok(Session { live, watch })
    }

    /// The system that runs. It stands for the machine that the session is seen as, in its phase.
    pub fn system(&self) -> &System<PagedSpace>
        ensures { result.now ≡ phased self.now.machine self.now.phase }
    {
        self.live.system()
    }

    /// The system, with the phase in which its newest update is being written, and the watch.
    pub fn into_parts(self) -> (LiveSystem<PagedSpace>, Watch)
        ensures live { result.0 ≡ phased self.machine self.phase }
        ensures watch { result.1 ≡ self.watch }
    {
        // The pattern names all fields: a session has nothing else that it could answer from.
        let Session { live, watch } = self;
        (live, watch)
    }

    /// Whether each event so far has kept the discipline, or which one has not.
    pub(crate) fn verdict(&self) -> Verdict
        ensures { result ≡ self.now.watch.verdict }
    {
        self.watch.verdict()
    }

    /// Starts a thread at the function of a name, and answers its number, as the system does. If memory runs out the
    /// thread may have been started, and the watch lack it.
    pub(crate) fn spawn(&mut self, name: &Name, argument: u32) -> Result<u32, Refusal>
        ensures answered { MatchResult result
            (λ number. answered self.old.machine (Spawn name.now argument)
            ≡ Ok (happened self.new.machine (Spawned number)))
            (λ refusal. refusal ≢ Memory → answered self.old.machine (Spawn name.now argument) ≡ Err refusal) }
        ensures noted { OnOk result (self.new ≡ watched_after self.old (Spawn name.now argument)) }
        ensures refused { MatchResult result (λ number. Unit)
            (λ refusal. refusal ≢ Memory → self.new ≡ self.old) }
        ensures front { OnErr result (MadeFront self.old (Spawn name.now argument ∷ []) None self.new) }
    {
        // Each thread has a stack of its own, and jumps, whole or not, don't matter for what is seen of a machine.
        jumps_leave_views();
        jumps_change_their_bytes_alone();
        homes_are_not_looked_at();
        homes_stay_spliced();
        let _threads = program(&self.live).threads();
        let number = self.live.spawn(name, argument)?;
        let machine = program(&self.live);
        let Some(thread) = machine.threads().get(number as usize) else {
            unreachable!()
        };
        self.watch.note_spawn_alone(thread, machine.space())?;
        Ok(number)
    }

    /// Refuses exactly while an update is being written, as the system does.
    pub(crate) fn check_closed(&self) -> Result<(), Refusal>
        ensures refused { Finds Memory result (open_refusal (live_of self.now)) }
        ensures done { OnOk result (self.now.phase ≡ Done) }
    {
        self.live.check_closed()
    }

    /// Makes a try of an update, as the system does, by what was planned for it, and answers what the update did. No update
    /// is being written. The plan is what the system would have for the trial as it is.
    pub(crate) fn try_planned(
        &mut self,
        trial: &Trial<'_>,
        planned: Result<Planned, Refusal>,
    ) -> Result<Report, Refusal>
        requires done { self.old.phase ≡ Done }
        requires planned { plan_for self.old.machine (trial_of trial.now) ≡ planned }
        ensures answered { MatchResult result
            (λ report. answered self.old.machine (event_of (trial_of trial.now))
            ≡ Ok (happened self.new.machine (Applied report)))
            (λ refusal. refusal ≢ Memory → answered self.old.machine (event_of (trial_of trial.now)) ≡ Err refusal) }
        ensures noted { OnOk result (self.new ≡ watched_after self.old (event_of (trial_of trial.now))) }
        ensures refused { OnErr result (self.new ≡ self.old) }
    {
        // Each thread has a stack of its own, and its slots keep what they hold.
        updates_keep_slots();
        let _threads = program(&self.live).threads();
        let planned = planned?;
        self.live.system().check_threads(&planned)?;
        let Some(system) = self.live.system_mut() else {
            unreachable!()
        };
        let (report, _) = system.apply_planned(trial.name, planned)?;
        // After it each of the machine's updates lies on what was there without it.
        let _machine = program(&self.live);
        self.watch.note_update();
        Ok(report)
    }

    /// Replaces functions of the program and runs those that the new object lists, and answers what the update did and
    /// which functions were run. No update is being written. The watch looks at each open frame then.
    pub(crate) fn apply_with_hooks(
        &mut self,
        alloc: Global,
        name: &Name,
        pre: &[u8],
        post: &[u8],
    ) -> Result<HookReport, Refusal>
        requires done { self.old.phase ≡ Done }
        ensures answered { MatchResult result
            (λ done. answered self.old.machine (Hooks name.now pre.now post.now)
            ≡ Ok (happened self.new.machine (Hooked done)))
            (λ refusal. refusal ≢ Memory → answered self.old.machine (Hooks name.now pre.now post.now) ≡ Err refusal) }
        ensures noted { OnOk result (self.new ≡ watched_after self.old (Hooks name.now pre.now post.now)) }
        ensures refused { OnErr result (self.new ≡ self.old) }
    {
        // No thread changes, and jumps, whole or not, don't matter for what is seen of a machine.
        hooks_keep_threads_safe();
        jumps_leave_views();
        jumps_change_their_bytes_alone();
        homes_are_not_looked_at();
        homes_stay_spliced();
        let _threads = program(&self.live).threads();
        let Some(system) = self.live.system_mut() else {
            unreachable!()
        };
        let done = apply_with_hooks(alloc, system, name, pre, post)?;
        let machine = program(&self.live);
        self.watch.note_hooks(machine.threads(), machine.space());
        Ok(done)
    }

    /// Makes an update of one function, and the first of its writes, as the system does, and answers what it did. The
    /// watch notes it here, as any update.
    pub(crate) fn mark(&mut self, name: &Name, pre: &[u8], post: &[u8]) -> Result<Report, Refusal>
        ensures answered { MatchResult result
            (λ report. marked (live_of self.old) name.now pre.now post.now ≡ Ok (live_of self.new, report))
            (λ refusal. refusal ≢ Memory → marked (live_of self.old) name.now pre.now post.now ≡ Err refusal) }
        ensures noted { OnOk result (self.new
            ≡ turned (Some self.new.phase) (watched_after self.old (Apply name.now pre.now post.now))) }
        ensures refused { OnErr result (self.new ≡ self.old) }
    {
        // Each thread has a stack of its own, and its slots keep what they hold.
        updates_keep_slots();
        let _threads = program(&self.live).threads();
        let report = self.live.mark(name, pre, post)?;
        // After it each of the machine's updates lies on what was there without it.
        let _machine = program(&self.live);
        self.watch.note_update();
        Ok(report)
    }

    /// Makes the second write of the update that was marked, as the system does. It takes no memory, and the watch
    /// counts nothing.
    pub(crate) fn tail(&mut self) -> Result<(), Refusal>
        ensures answered { MatchResult result (λ _. tailed (live_of self.old) ≡ Ok (live_of self.new))
            (λ refusal. tailed (live_of self.old) ≡ Err refusal) }
        ensures turned { OnOk result (self.new ≡ turned (Some self.new.phase) self.old) }
        ensures refused { OnErr result (self.new ≡ self.old) }
    {
        self.live.tail()
    }

    /// Makes the third write of the update whose second was made, as the system does. It takes no memory, and the watch
    /// counts nothing.
    pub(crate) fn seal(&mut self) -> Result<(), Refusal>
        ensures answered { MatchResult result (λ _. sealed (live_of self.old) ≡ Ok (live_of self.new))
            (λ refusal. sealed (live_of self.old) ≡ Err refusal) }
        ensures turned { OnOk result (self.new ≡ turned (Some self.new.phase) self.old) }
        ensures refused { OnErr result (self.new ≡ self.old) }
    {
        self.live.seal()
    }

    /// Takes the newest update back, as the system does, and answers its name. No update is being written.
    pub(crate) fn undo(&mut self) -> Result<Name, Refusal>
        requires done { self.old.phase ≡ Done }
        ensures answered { MatchResult result
            (λ name. answered self.old.machine Undo ≡ Ok (happened self.new.machine (Undone name)))
            (λ refusal. answered self.old.machine Undo ≡ Err refusal) }
        ensures noted { OnOk result (self.new ≡ watched_after self.old Undo) }
        ensures refused { OnErr result (self.new ≡ self.old) }
    {
        // Each thread has a stack of its own, and its slots keep what they hold.
        updates_keep_slots();
        let _threads = program(&self.live).threads();
        let Some(system) = self.live.system_mut() else {
            unreachable!()
        };
        let name = system.undo()?;
        // After it each of the machine's updates lies on what was there without it.
        let _machine = program(&self.live);
        self.watch.note_update();
        Ok(name)
    }

    /// Takes the update of a name back, as the system does. No update is being written.
    pub(crate) fn undo_named(&mut self, name: &Name) -> Result<(), Refusal>
        requires done { self.old.phase ≡ Done }
        ensures answered { MatchResult result
            (λ _. answered self.old.machine (UndoNamed name.now) ≡ Ok (happened self.new.machine (Undone name.now)))
            (λ refusal. refusal ≢ Memory → answered self.old.machine (UndoNamed name.now) ≡ Err refusal) }
        ensures noted { OnOk result (self.new ≡ watched_after self.old (UndoNamed name.now)) }
        ensures refused { OnErr result (self.new ≡ self.old) }
    {
        // Each thread has a stack of its own, and its slots keep what they hold.
        updates_keep_slots();
        let _threads = program(&self.live).threads();
        let Some(system) = self.live.system_mut() else {
            unreachable!()
        };
        system.undo_named(name)?;
        // After it each of the machine's updates lies on what was there without it.
        let _machine = program(&self.live);
        self.watch.note_update();
        Ok(())
    }

    /// The live updates, the oldest first.
    pub(crate) fn updates(&self) -> &[Update]
        ensures { result.now ≡ map shown_update self.now.machine.updates }
    {
        self.system().updates().as_slice()
    }

    /// The name of the newest update, empty where none is live.
    pub(crate) fn newest_name(&self) -> Result<Name, AllocError>
        ensures { IfOk result (λ name. name ≡ newest_name self.now.machine) }
    {
        self.live.newest_name()
    }

    /// The threads in the order of their numbers, from 0 on.
    pub(crate) fn threads(&self) -> &[Thread]
        ensures { result.now ≡ self.now.machine.threads }
    {
        program(&self.live).threads().as_slice()
    }

    /// The symbols.
    pub(crate) fn symbols(&self) -> &SymbolTable
        ensures { result.now.symbols ≡ self.now.machine.symbols }
    {
        program(&self.live).symbols()
    }

    /// The thread of a number.
    pub(crate) fn thread(&self, number: u32) -> Option<Thread>
        ensures { result ≡ slice_get self.now.machine.threads number }
    {
        self.threads().get(number as usize).copied()
    }

    /// Whether a running thread has a number.
    pub(crate) fn runs(&self, number: u32) -> bool
        ensures { result ≡ is_some (running_at self.now.machine.threads number) }
    {
        match self.thread(number) {
            Some(thread) => matches!(thread.state, State::Running),
            None => false,
        }
    }
}
