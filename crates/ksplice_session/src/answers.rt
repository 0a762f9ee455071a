//! What the lines of a script do to a session, and their replies.
ghost use Rattle.std.specs.Prelude.{◌≡◌, ◌≢◌, ◌≤◌, ◌<◌, ◌+◌, ◌-◌, ◌^◌, [], length, map};
ghost use Rattle.std.specs.Prelude.{Ok, Err, true, false, IfOk, MatchResult};
ghost use Rattle.ks_base.specs.declared.refusals.Refusal.TheVariants.{Memory};
ghost use Rattle.ks_base.specs.Refusals.{refusal_line};
ghost use Rattle.script_lines.specs.declared.types.Command.TheVariants.{Spawn, Step, RoundRobin, Threads, Peek};
ghost use Rattle.script_lines.specs.declared.types.Command.TheVariants.{Tail, Seal, Undo, UndoNamed, ListUpdates};
ghost use Rattle.script_lines.specs.declared.types.Command.TheVariants.{Watch};
ghost use Rattle.update_stack.specs.AbstractMachine.{shown_update};
ghost use Rattle.script_lines.specs.Allowed.{IsAllowed};
ghost use Rattle.splice_jump.specs.declared.phase.Phase.TheVariants.{Done};
ghost use Rattle.update_stack.specs.Phases.{patched_in};
ghost use Rattle.live_poke.specs.Poke.{newest_name};
ghost use Rattle.ks_io.specs.Loads.{bytes_of};
ghost use Rattle.ksplice_session.specs.Lines.{spawned_line, turns_line, threads_lines, peek_line};
ghost use Rattle.ksplice_session.specs.Lines.{applied_lines, hooked_lines, marked_lines, tailed_line, sealed_line};
ghost use Rattle.ksplice_session.specs.Lines.{undone_line, list_lines, watch_line};
ghost use Rattle.ksplice_session.specs.Replies.{told_of, files_of, apply_told, hooks_told, poke_told, unless_open, live_of, tried};
ghost use Rattle.ksplice_session.specs.Replies.{is_busy, shown, stepped_line_of};
ghost use Rattle.ksplice_session.specs.Replies.{Trial as TrialOf};
ghost use Rattle.ksplice_session.specs.Answers.{Answers};
ghost use Rattle.ksplice_session.specs.inside.Trying.{checked, plan_for, trial_of, IsTryAnswer, Waited};

use crate::lines::{
    put_applied, put_hooked, put_marked, put_peek, put_sealed, put_spawned, put_stepped,
    put_tailed, put_threads, put_turns, put_undone, put_updates, put_watch,
};
use crate::session::{Session, program};
use crate::types::{Answer, Trial};
use ks_base::{HookReport, Line, Name, Refusal, Report};
use script_lines::Command;
use std::alloc::{AllocError, Global};
use update_stack::{Planned, steps_keep_plans};

/// Runs a line of a script that has its files, given the bytes of each, and answers it. `Err` comes only if memory runs
/// out, after a prefix of the line's events was made.
#[tactic(auto, unfolding(crate::specs::Replies::told_of, crate::specs::Replies::files_of))]
pub fn answer(
    alloc: Global,
    session: &mut Session,
    command: &Command,
    held: &[Vec<u8>],
) -> Result<Answer, AllocError>
    requires allowed { IsAllowed command.now }
    requires files { length held.now ≡ length (files_of command.now) }
    ensures { Answers session.old (told_of session.old command.now (bytes_of held.now)) session.new result }
{
    match command {
        Command::Spawn { name, argument } => answer_spawn(alloc, session, name, *argument),
        Command::Step { thread, steps } => answer_step(alloc, session, *thread, *steps),
        Command::RoundRobin { quantum, steps } => answer_turns(alloc, session, *quantum, *steps),
        Command::Threads => answer_threads(alloc, session),
        Command::Peek { address, count } => answer_peek(alloc, session, *address, *count),
        Command::Apply {
            name,
            tries,
            gap,
            ..
        } => answer_apply(alloc, session, name, *tries, *gap, held),
        Command::Hooks { name, .. } => answer_hooks(alloc, session, name, held),
        Command::Poke { name, .. } => answer_poke(alloc, session, name, held),
        Command::Tail => answer_tail(alloc, session),
        Command::Seal => answer_seal(alloc, session),
        Command::Undo => answer_undo(alloc, session),
        Command::UndoNamed { name } => answer_undo_named(alloc, session, name),
        Command::ListUpdates => answer_list(alloc, session),
        Command::Watch => answer_watch(alloc, session),
    }
}

fn answer_spawn(
    alloc: Global,
    session: &mut Session,
    name: &Name,
    argument: u32,
) -> Result<Answer, AllocError>
    ensures { Answers session.old (told_of session.old (Spawn name.now argument) []) session.new result }
{
    match session.spawn(name, argument) {
        Ok(number) => told(spawned_reply(alloc, session, number)),
        Err(refusal) => refused(alloc, &refusal),
    }
}

fn answer_step(
    alloc: Global,
    session: &mut Session,
    thread: u32,
    count: u32,
) -> Result<Answer, AllocError>
    ensures { Answers session.old (told_of session.old (Step thread count) []) session.new result }
{
    if !session.runs(thread) {
        return refused(alloc, &Refusal::NoThread(thread));
    }
    let made = session.run_thread(thread, count);
    told(stepped_reply(alloc, session, thread, made))
}

fn answer_turns(
    alloc: Global,
    session: &mut Session,
    quantum: u32,
    count: u32,
) -> Result<Answer, AllocError>
    requires { 1 ≤ quantum }
    ensures { Answers session.old (told_of session.old (RoundRobin quantum count) []) session.new result }
{
    let made = session.run_turns(quantum, count);
    told(turns_reply(alloc, made))
}

fn answer_threads(alloc: Global, session: &Session) -> Result<Answer, AllocError>
    ensures { Answers session.now (told_of session.now Threads []) session.now result }
{
    told(threads_reply(alloc, session))
}

fn answer_peek(
    alloc: Global,
    session: &Session,
    address: u32,
    count: u32,
) -> Result<Answer, AllocError>
    requires { address + count ≤ 2 ^ 32 }
    ensures { Answers session.now (told_of session.now (Peek address count) []) session.now result }
{
    told(peek_reply(alloc, session, address, count))
}

fn answer_undo(alloc: Global, session: &mut Session) -> Result<Answer, AllocError>
    ensures { Answers session.old (told_of session.old Undo []) session.new result }
{
    if let Err(refusal) = session.check_closed() {
        return refused(alloc, &refusal);
    }
    match session.undo() {
        Ok(name) => told(undone_reply(alloc, &name)),
        Err(refusal) => refused(alloc, &refusal),
    }
}

fn answer_undo_named(
    alloc: Global,
    session: &mut Session,
    name: &Name,
) -> Result<Answer, AllocError>
    ensures { Answers session.old (told_of session.old (UndoNamed name.now) []) session.new result }
{
    if let Err(refusal) = session.check_closed() {
        return refused(alloc, &refusal);
    }
    match session.undo_named(name) {
        Ok(()) => told(undone_reply(alloc, name)),
        Err(refusal) => refused(alloc, &refusal),
    }
}

fn answer_list(alloc: Global, session: &Session) -> Result<Answer, AllocError>
    ensures { Answers session.now (told_of session.now ListUpdates []) session.now result }
{
    told(list_reply(alloc, session))
}

fn answer_watch(alloc: Global, session: &Session) -> Result<Answer, AllocError>
    ensures { Answers session.now (told_of session.now Watch []) session.now result }
{
    told(watch_reply(alloc, session))
}

fn answer_apply(
    alloc: Global,
    session: &mut Session,
    name: &Name,
    tries: u32,
    gap: u32,
    held: &[Vec<u8>],
) -> Result<Answer, AllocError>
    requires tries { 1 ≤ tries }
    requires files { length held.now ≡ 2 }
    ensures { Answers session.old (unless_open (live_of session.old)
        (apply_told session.old.machine name.now tries gap (bytes_of held.now))) session.new result }
{
    if let Err(refusal) = session.check_closed() {
        return refused(alloc, &refusal);
    }
    let [pre, post] = held else { unreachable!() };
    let trial = Trial {
        name,
        pre: pre.as_slice(),
        post: post.as_slice(),
    };
    answer_trial(alloc, session, &trial, tries, gap)
}

/// Tries an update, and again, with steps of the threads in turn between two tries, while a thread stands in its way. What
/// the update would do is worked out once: the steps leave it as it is.
fn answer_trial(
    alloc: Global,
    session: &mut Session,
    trial: &Trial<'_>,
    tries: u32,
    gap: u32,
) -> Result<Answer, AllocError>
    requires tries { 1 ≤ tries }
    requires done { session.old.phase ≡ Done }
    ensures { Answers session.old
        (tried (trial_of trial.now) gap 1 (tries - 1) session.old.machine) session.new result }
{
    let planned = session
        .system()
        .plan_update(trial.name, trial.pre, trial.post);
    if lacks_memory(&planned) {
        return Err(AllocError);
    }
    let number = wait(session, &planned, tries, gap);
    let outcome = session.try_planned(trial, planned);
    answer_outcome(alloc, trial.name, number, outcome)
}

/// Lets the threads make steps in turn between two tries of an update that was planned, while one stands in its way, and
/// answers the number of the try that is left to be made.
fn wait(session: &mut Session, planned: &Result<Planned, Refusal>, tries: u32, gap: u32) -> u32
    requires tries { 1 ≤ tries }
    requires done { session.old.phase ≡ Done }
    ensures done { session.new.phase ≡ Done }
    ensures waited { (trial : TrialOf) → plan_for session.old.machine trial ≡ planned.now →
        Waited trial planned.now gap tries session.old session.new result }
{
    // The law says that what is planned stays so.
    steps_keep_plans();
    for number in 1..tries {
        if !is_in_the_way(session, planned) {
            return number;
        }
        let _program = program(&session.live);
        session.run_turns(1, gap);
    }
    tries
}

/// Whether memory ran out for a plan.
fn lacks_memory(planned: &Result<Planned, Refusal>) -> bool
    ensures { MatchResult planned.now (λ _. result ≡ false) (λ refusal. result ≡ false → refusal ≢ Memory) }
{
    match planned {
        Ok(_) => false,
        Err(refusal) => refusal.is_memory(),
    }
}

/// Whether a thread stands in the way of an update that was planned.
fn is_in_the_way(session: &Session, planned: &Result<Planned, Refusal>) -> bool
    requires { session.now.phase ≡ Done }
    ensures { result ≡ is_busy (checked session.now.machine planned.now) }
{
    match planned {
        Ok(planned) => {
            let outcome = session.system().check_threads(planned);
            is_busy(&outcome)
        }
        Err(refusal) => matches!(refusal, Refusal::Busy(_)),
    }
}

/// Whether a thread stood in the way.
fn is_busy(outcome: &Result<(), Refusal>) -> bool
    ensures { result ≡ is_busy outcome.now }
{
    matches!(outcome, Err(Refusal::Busy(_)))
}

fn answer_hooks(
    alloc: Global,
    session: &mut Session,
    name: &Name,
    held: &[Vec<u8>],
) -> Result<Answer, AllocError>
    requires { length held.now ≡ 2 }
    ensures { Answers session.old (unless_open (live_of session.old)
        (hooks_told session.old.machine name.now (bytes_of held.now))) session.new result }
{
    if let Err(refusal) = session.check_closed() {
        return refused(alloc, &refusal);
    }
    let [pre, post] = held else { unreachable!() };
    match session.apply_with_hooks(alloc, name, pre.as_slice(), post.as_slice()) {
        Ok(done) => told(hooked_reply(alloc, name, &done)),
        Err(refusal) => refused(alloc, &refusal),
    }
}

fn answer_poke(
    alloc: Global,
    session: &mut Session,
    name: &Name,
    held: &[Vec<u8>],
) -> Result<Answer, AllocError>
    requires { length held.now ≡ 2 }
    ensures { Answers session.old (poke_told (live_of session.old) name.now (bytes_of held.now)) session.new result }
{
    let [pre, post] = held else { unreachable!() };
    match session.mark(name, pre.as_slice(), post.as_slice()) {
        Ok(report) => told(marked_reply(alloc, name, &report)),
        Err(refusal) => refused(alloc, &refusal),
    }
}

fn answer_tail(alloc: Global, session: &mut Session) -> Result<Answer, AllocError>
    ensures { Answers session.old (told_of session.old Tail []) session.new result }
{
    match session.tail() {
        Ok(()) => told(tailed_reply(alloc, session)),
        Err(refusal) => refused(alloc, &refusal),
    }
}

fn answer_seal(alloc: Global, session: &mut Session) -> Result<Answer, AllocError>
    ensures { Answers session.old (told_of session.old Seal []) session.new result }
{
    match session.seal() {
        Ok(()) => told(sealed_reply(alloc, session)),
        Err(refusal) => refused(alloc, &refusal),
    }
}

/// The answer to a try of a number, by what came of it.
fn answer_outcome(
    alloc: Global,
    name: &Name,
    number: u32,
    outcome: Result<Report, Refusal>,
) -> Result<Answer, AllocError>
    ensures { IfOk result (IsTryAnswer name.now number outcome) }
{
    match outcome {
        Ok(report) => told(applied_reply(alloc, name, number, &report)),
        Err(refusal) => refused(alloc, &refusal),
    }
}

/// The answer to a line that isn't refused.
fn told(line: Result<Line, AllocError>) -> Result<Answer, AllocError>
    ensures { IfOk result (λ answer. (line ≡ Ok answer.line) × (answer.refused ≡ false)) }
{
    let line = line?;
    Ok(Answer {
        line,
        refused: false,
    })
}

/// The answer to a line that is refused. [`Refusal::Memory`] has none.
fn refused(alloc: Global, refusal: &Refusal) -> Result<Answer, AllocError>
    ensures { IfOk result (λ answer. (answer ≡ record { line = refusal_line refusal.now; refused = true })
        × (refusal.now ≢ Memory)) }
{
    if refusal.is_memory() {
        return Err(AllocError);
    }
    let mut line = Line::new(alloc);
    line.put_refusal(refusal)?;
    Ok(Answer {
        line,
        refused: true,
    })
}

fn spawned_reply(alloc: Global, session: &Session, number: u32) -> Result<Line, AllocError>
    requires { number < length session.now.machine.threads }
    ensures { IfOk result (λ line. line ≡ shown session.now.machine number spawned_line) }
{
    let mut line = Line::new(alloc);
    let thread = &session.threads()[number as usize];
    put_spawned(&mut line, session.symbols(), thread)?;
    Ok(line)
}

fn stepped_reply(
    alloc: Global,
    session: &Session,
    number: u32,
    made: u32,
) -> Result<Line, AllocError>
    requires { number < length session.now.machine.threads }
    ensures { IfOk result (λ line. line ≡ shown session.now.machine number (stepped_line_of made)) }
{
    let mut line = Line::new(alloc);
    let thread = &session.threads()[number as usize];
    put_stepped(&mut line, session.symbols(), thread, made)?;
    Ok(line)
}

fn turns_reply(alloc: Global, made: u32) -> Result<Line, AllocError>
    ensures { IfOk result (λ line. line ≡ turns_line made) }
{
    let mut line = Line::new(alloc);
    put_turns(&mut line, made)?;
    Ok(line)
}

fn threads_reply(alloc: Global, session: &Session) -> Result<Line, AllocError>
    ensures { IfOk result (λ line. line ≡ threads_lines session.now.machine.symbols session.now.machine.threads) }
{
    let mut line = Line::new(alloc);
    put_threads(&mut line, session.symbols(), session.threads())?;
    Ok(line)
}

fn peek_reply(
    alloc: Global,
    session: &Session,
    address: u32,
    count: u32,
) -> Result<Line, AllocError>
    requires { address + count ≤ 2 ^ 32 }
    ensures { IfOk result (λ line. line
        ≡ peek_line (patched_in session.now.phase session.now.machine).pieces address count) }
{
    let mut line = Line::new(alloc);
    put_peek(&mut line, program(&session.live).space(), address, count)?;
    Ok(line)
}

fn applied_reply(
    alloc: Global,
    name: &Name,
    number: u32,
    report: &Report,
) -> Result<Line, AllocError>
    ensures { IfOk result (λ line. line ≡ applied_lines name.now number report.now) }
{
    let mut line = Line::new(alloc);
    put_applied(&mut line, name, number, report)?;
    Ok(line)
}

fn hooked_reply(alloc: Global, name: &Name, done: &HookReport) -> Result<Line, AllocError>
    ensures { IfOk result (λ line. line ≡ hooked_lines name.now done.now) }
{
    let mut line = Line::new(alloc);
    put_hooked(&mut line, name, done)?;
    Ok(line)
}

fn marked_reply(alloc: Global, name: &Name, report: &Report) -> Result<Line, AllocError>
    ensures { IfOk result (λ line. line ≡ marked_lines name.now report.now) }
{
    let mut line = Line::new(alloc);
    put_marked(&mut line, name, report)?;
    Ok(line)
}

fn tailed_reply(alloc: Global, session: &Session) -> Result<Line, AllocError>
    ensures { IfOk result (λ line. line ≡ tailed_line (newest_name session.now.machine)) }
{
    let mut line = Line::new(alloc);
    put_tailed(&mut line, &session.newest_name()?)?;
    Ok(line)
}

fn sealed_reply(alloc: Global, session: &Session) -> Result<Line, AllocError>
    ensures { IfOk result (λ line. line ≡ sealed_line (newest_name session.now.machine)) }
{
    let mut line = Line::new(alloc);
    put_sealed(&mut line, &session.newest_name()?)?;
    Ok(line)
}

fn undone_reply(alloc: Global, name: &Name) -> Result<Line, AllocError>
    ensures { IfOk result (λ line. line ≡ undone_line name.now) }
{
    let mut line = Line::new(alloc);
    put_undone(&mut line, name)?;
    Ok(line)
}

fn list_reply(alloc: Global, session: &Session) -> Result<Line, AllocError>
    ensures { IfOk result (λ line. line ≡ list_lines (map shown_update session.now.machine.updates)) }
{
    let mut line = Line::new(alloc);
    put_updates(&mut line, session.updates())?;
    Ok(line)
}

fn watch_reply(alloc: Global, session: &Session) -> Result<Line, AllocError>
    ensures { IfOk result (λ line. line ≡ watch_line session.now.watch.verdict) }
{
    let mut line = Line::new(alloc);
    put_watch(&mut line, session.verdict())?;
    Ok(line)
}
