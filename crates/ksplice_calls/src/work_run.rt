//! The command `gen`.
ghost use Rattle.std.specs.Prelude.{◌≡◌, ◌≢◌, ◌||◌, ◌==◌, Some, None, map, codes, true, false, IfOk};
ghost use Rattle.std.specs.List.{All};
ghost use Rattle.ks_io.specs.Kept.{SinkKept};
ghost use Rattle.ks_io.specs.Outside.{Rose, no_counts};
ghost use Rattle.ks_io.specs.Held.{files_held};
ghost use Rattle.ks_io.specs.InMemory.{with_file};
ghost use Rattle.script_lines.specs.Allowed.{IsAllowed};
ghost use Rattle.ksplice_session.specs.Session.{files_along, session_played};
ghost use Rattle.work_gen.specs.Work.{work_of};
ghost use Rattle.ksplice_calls.specs.Answer.{OneComesOut, answer_of};
ghost use Rattle.ksplice_calls.specs.Calls.{is_carried_out};
ghost use Rattle.ksplice_calls.specs.Works.{bytes_in, gen_answer, work_files, work_replies};
ghost use Rattle.ksplice_calls.specs.inside.InMemory.{IsWithin};

use crate::saying::say;
use crate::session_run::read_session;
use crate::status::Status;
use crate::summary::{Summary, sum_up};
use ks_base::Refusal;
use ks_io::{Files, MemoryFiles, MemorySink, Sink};
use ksplice_session::{Session, SessionEnd, run_session};
use script_lines::Script;
use std::alloc::{AllocError, Global};
use work_forms::{images_are_read, objects_are_short, scripts_are_read};
use work_gen::{Work, make_work};

/// The most bytes that a write takes of the session's replies.
const MOST_A_WRITE: usize = 65_536;

/// Makes the work of a number and runs its session over files and a sink in memory, and then writes what its replies
/// come to.
#[tactic(auto, using(ks_io::specs::laws::Fronts::nothing_taken))]
pub fn run_work<O: Sink>(alloc: Global, number: u32, out: &mut O) -> Status
    ensures answer { OneComesOut
        (λ answer. answer ≡ gen_answer number) (O.taken out.old) (O.taken out.new) result.code }
    ensures status { is_carried_out result.code ≡ true }
    ensures out { SinkKept O.faults O.quiet out.old out.new }
    ensures sink { result.code ≡ 5 → Rose (O.faults out.old) (O.faults out.new) }
    ensures steady { result.code ≢ 5 → O.faults out.new ≡ O.faults out.old }
    ensures quiet { O.quiet out.old → result.code ≢ 5 }
{
    match sum_up_work(alloc, number) {
        Ok(sum) => say(out, sum.text.as_slice(), sum.status),
        Err(_) => Status::NO_MEMORY,
    }
}

/// What the session of the work of a number comes to.
#[tactic(auto, unfolding(crate::specs::Works::gen_answer))]
fn sum_up_work(alloc: Global, number: u32) -> Result<Summary, AllocError>
    ensures answer { IfOk result (λ sum. answer_of sum.text.items sum.status.code ≡ gen_answer number) }
    ensures status { IfOk result (λ sum. (sum.status.code == 5 || sum.status.code == 6) ≡ false) }
{
    let replies = work_replies(alloc, number)?;
    sum_up(alloc, number, replies.taken())
}

/// What the session of the work of a number replies.
fn work_replies(alloc: Global, number: u32) -> Result<MemorySink, AllocError>
    ensures { IfOk result
        (λ sink. ⟦<MemorySink as Sink>⟧.taken sink ≡ Some (work_replies (work_of number))) }
{
    // The laws say what is read in the files of a work.
    images_are_read();
    scripts_are_read();
    objects_are_short();
    let Work {
        image,
        pre,
        post,
        script,
    } = make_work(alloc, number)?;
    let mut files = files_of(alloc, pre.as_slice(), post.as_slice())?;
    match read_session(alloc, image.into_vec(), script.into_vec()) {
        Ok((mut session, script)) => run_in_memory(alloc, &mut session, &script, &mut files),
        Err(refusal) => Err(want_of_memory(&refusal)),
    }
}

/// A refusal that is want of memory, as an error.
fn want_of_memory(_refusal: &Refusal) -> AllocError
    requires { _refusal.now ≡ Refusal.Memory }
{
    AllocError
}

/// The two objects of a work as files, no load of which fails.
fn files_of(alloc: Global, pre: &[u8], post: &[u8]) -> Result<MemoryFiles, AllocError>
    ensures told { IfOk result (λ files. ⟦<MemoryFiles as Files>⟧.told files
        ≡ Some (with_file (with_file (λ name. None) (codes "pre.o") pre.now) (codes "post.o") post.now)) }
    ensures counts { IfOk result (λ files. ⟦<MemoryFiles as Files>⟧.counts files ≡ no_counts) }
    ensures quiet { IfOk result (λ files. ⟦<MemoryFiles as Files>⟧.quiet files) }
{
    let mut files = MemoryFiles::new(alloc, Vec::new(alloc));
    files.put("pre.o", pre)?;
    files.put("post.o", post)?;
    Ok(files)
}

/// Runs a session over files that have all that its lines name, and a sink, neither of which fails a call: what it
/// replies.
fn run_in_memory(
    alloc: Global,
    session: &mut Session,
    script: &Script,
    files: &mut MemoryFiles,
) -> Result<MemorySink, AllocError>
    requires allowed { All IsAllowed script.now }
    requires given { All (IsWithin (files_held files.old)) (files_along script.now) }
    requires counts { ⟦<MemoryFiles as Files>⟧.counts files.old ≡ no_counts }
    requires quiet { ⟦<MemoryFiles as Files>⟧.quiet files.old }
    ensures { IfOk result (λ sink. ⟦<MemorySink as Sink>⟧.taken sink ≡ Some (session_played session.old script.now
        (map (bytes_in (files_held files.old)) (files_along script.now))).output) }
{
    let mut out = MemorySink::new(alloc, Vec::new(alloc), MOST_A_WRITE);
    match run_session(alloc, session, script, files, &mut out) {
        SessionEnd::Done | SessionEnd::SomeRefused => Ok(out),
        SessionEnd::MemoryEnd => Err(AllocError),
        SessionEnd::FileEnd | SessionEnd::SinkEnd => unreachable!(),
    }
}
