//! Running a script.
ghost use Rattle.std.specs.Prelude.{◌≡◌, ◌≢◌, ◌⊎◌, ℕ, List, length, Option, Ok, Err, IsErrOf};
ghost use Rattle.std.specs.List.{All};
ghost use Rattle.ks_io.specs.Kept.{FilesKept, SinkKept};
ghost use Rattle.ks_io.specs.Loads.{LosesOne, bytes_of};
ghost use Rattle.ks_io.specs.Outside.{Rose};
ghost use Rattle.ks_io.specs.declared.types.FileFault.{FileFault as Fault};
ghost use Rattle.image_file.specs.Reading.{Contents as Image, image_of};
ghost use Rattle.script_lines.specs.Allowed.{IsAllowed};
ghost use Rattle.ksplice_session.specs.inside.LineEnds.{LineEnds, ToldEnds, FileEnds, written_end, file_end};
ghost use Rattle.ksplice_session.specs.Replies.{told_of, files_of};
ghost use Rattle.ksplice_session.specs.inside.ScriptEnds.{ScriptEnds, script_end};
ghost use Rattle.ksplice_session.specs.Session.{Ends, SessionEnds, files_along, script_events};
ghost use Rattle.ksplice_session.specs.Watching.{first_watched};
ghost use Rattle.ksplice_session.specs.Safety.{RanSafely};

use crate::answers::answer;
use crate::files::{files_of, write_file_line};
use crate::laws::disciplined_runs_are_safe;
use crate::session::Session;
use crate::types::SessionEnd;
use ks_io::{FileFault, Files, Lost, Sink, SinkFault, Wanted, load_all, write_all};
use script_lines::{Command, Script};
use std::alloc::Global;

/// Runs the lines of a script one after another. A line's files are loaded before it is run, and its reply is written
/// after that; a refused line changes nothing but by the steps between its tries, and the next is run. The session ends
/// at a file that can't be loaded, when that file's line was written, at a fault of the sink, or when memory runs out.
/// Where it ran from the start of an image, the events that its watch has noted are a prefix of those of the lines over
/// the files that were held; and as long as they kept the discipline, no open frame has lost the code that it returns
/// to.
pub fn run_session<F: Files, O: Sink>(
    alloc: Global,
    session: &mut Session,
    script: &Script,
    files: &mut F,
    out: &mut O,
) -> SessionEnd
    requires { All IsAllowed script.now }
    ensures ends { SessionEnds (F.told files.old) session.old script.now (F.counts files.old) (F.counts files.new)
        (O.taken out.old) (O.taken out.new) session.new result }
    ensures files { FilesKept F.told F.counts F.quiet files.old files.new }
    // Where all lines were run the counts of the files stay. At any other end they do, too, or a file was lost for a
    // fault of the outside.
    ensures stays { (result ≡ SessionEnd.Done) ⊎ (result ≡ SessionEnd.SomeRefused)
        → F.counts files.new ≡ F.counts files.old }
    ensures lost { (F.counts files.new ≡ F.counts files.old)
        ⊎ LosesOne (λ _. files_along script.now) (F.told files.old) (F.counts files.old) (F.counts files.new) }
    ensures out { SinkKept O.faults O.quiet out.old out.new }
    ensures sink { result ≡ SessionEnd.SinkEnd → Rose (O.faults out.old) (O.faults out.new) }
    ensures steady { result ≢ SessionEnd.SinkEnd → O.faults out.new ≡ O.faults out.old }
    ensures quiet { O.quiet out.old → result ≢ SessionEnd.SinkEnd }
    // This is so for all files with which it ends so, among them those of `ends`.
    ensures safe { (file : List ℕ) (image : Image) (held : List (List ℕ)) (lost : Option Fault) →
        image_of file ≡ Ok image → session.old ≡ first_watched image →
        Ends session.old script.now held lost (O.taken out.old) (O.taken out.new) session.new result →
        RanSafely session.old (script_events session.old script.now held) session.new }
{
    // The law says what the discipline spares a run.
    disciplined_runs_are_safe();
    script_end(run_lines(alloc, session, script.as_slice(), files, out))
}

/// How the session ends whose lines were all run, or that a line ended.
fn script_end(ran: Result<bool, SessionEnd>) -> SessionEnd
    ensures { result ≡ script_end ran }
{
    match ran {
        Ok(true) => SessionEnd::SomeRefused,
        Ok(false) => SessionEnd::Done,
        Err(end) => end,
    }
}

fn run_lines<F: Files, O: Sink>(
    alloc: Global,
    session: &mut Session,
    script: &[Command],
    files: &mut F,
    out: &mut O,
) -> Result<bool, SessionEnd>
    requires { All IsAllowed script.now }
    ensures ends { ScriptEnds (F.told files.old) session.old script.now (F.counts files.old) (F.counts files.new)
        (O.taken out.old) (O.taken out.new) session.new result }
    ensures files { FilesKept F.told F.counts F.quiet files.old files.new }
    ensures out { SinkKept O.faults O.quiet out.old out.new }
    ensures sink { IsErrOf result SessionEnd.SinkEnd → Rose (O.faults out.old) (O.faults out.new) }
    ensures steady { result ≢ Err SessionEnd.SinkEnd → O.faults out.new ≡ O.faults out.old }
    ensures quiet { O.quiet out.old → result ≢ Err SessionEnd.SinkEnd }
{
    let mut refused = false;
    for command in script {
        let was_refused = run_line(alloc, session, command, files, out)?;
        refused |= was_refused;
    }
    Ok(refused)
}

/// Runs a line when its files were loaded, and answers whether its reply is a refusal.
fn run_line<F: Files, O: Sink>(
    alloc: Global,
    session: &mut Session,
    command: &Command,
    files: &mut F,
    out: &mut O,
) -> Result<bool, SessionEnd>
    requires { IsAllowed command.now }
    ensures ends { LineEnds (F.told files.old) session.old command.now (F.counts files.old) (F.counts files.new)
        (O.taken out.old) (O.taken out.new) session.new result }
    ensures files { FilesKept F.told F.counts F.quiet files.old files.new }
    ensures out { SinkKept O.faults O.quiet out.old out.new }
    ensures sink { IsErrOf result SessionEnd.SinkEnd → Rose (O.faults out.old) (O.faults out.new) }
    ensures steady { result ≢ Err SessionEnd.SinkEnd → O.faults out.new ≡ O.faults out.old }
    ensures quiet { O.quiet out.old → result ≢ Err SessionEnd.SinkEnd }
{
    let loads = files_of(command);
    let wanted = loads.as_slice();
    match load_all(alloc, files, wanted) {
        Ok(held) => reply(alloc, session, command, held.as_slice(), out),
        Err(lost) => Err(end_at_file(alloc, &wanted[lost.index], lost.fault, out)),
    }
}

/// Runs a line that has its files, and writes its reply.
fn reply<O: Sink>(
    alloc: Global,
    session: &mut Session,
    command: &Command,
    held: &[Vec<u8>],
    out: &mut O,
) -> Result<bool, SessionEnd>
    requires allowed { IsAllowed command.now }
    requires files { length held.now ≡ length (files_of command.now) }
    ensures ends { ToldEnds session.old (told_of session.old command.now (bytes_of held.now))
        (O.taken out.old) (O.taken out.new) session.new result }
    ensures out { SinkKept O.faults O.quiet out.old out.new }
    ensures sink { IsErrOf result SessionEnd.SinkEnd → Rose (O.faults out.old) (O.faults out.new) }
    ensures steady { result ≢ Err SessionEnd.SinkEnd → O.faults out.new ≡ O.faults out.old }
    ensures quiet { O.quiet out.old → result ≢ Err SessionEnd.SinkEnd }
{
    match answer(alloc, session, command, held) {
        Ok(answer) => written_end(write_all(out, answer.line.bytes()), answer.refused),
        Err(_) => Err(SessionEnd::MemoryEnd),
    }
}

/// What a line ends with, by whether its reply was written.
fn written_end(written: Result<(), SinkFault>, refused: bool) -> Result<bool, SessionEnd>
    ensures { result ≡ written_end written refused }
{
    match written {
        Ok(()) => Ok(refused),
        Err(SinkFault::SinkFailed) => Err(SessionEnd::SinkEnd),
        Err(SinkFault::Memory) => Err(SessionEnd::MemoryEnd),
    }
}

/// How the session ends at a file that was not loaded, when its line was written.
fn end_at_file<O: Sink>(
    alloc: Global,
    file: &Wanted<'_>,
    fault: FileFault,
    out: &mut O,
) -> SessionEnd
    ensures ends { FileEnds file.now fault (O.taken out.old) (O.taken out.new) result }
    ensures out { SinkKept O.faults O.quiet out.old out.new }
    ensures sink { result ≡ SessionEnd.SinkEnd → Rose (O.faults out.old) (O.faults out.new) }
    ensures steady { result ≢ SessionEnd.SinkEnd → O.faults out.new ≡ O.faults out.old }
    ensures quiet { O.quiet out.old → result ≢ SessionEnd.SinkEnd }
{
    if let FileFault::Memory = fault {
        return SessionEnd::MemoryEnd;
    }
    file_end(write_file_line(alloc, file.name, fault, out))
}

/// What the session ends with, by whether the line of a file was written.
fn file_end(written: Result<(), SinkFault>) -> SessionEnd
    ensures { result ≡ file_end written }
{
    match written {
        Ok(()) => SessionEnd::FileEnd,
        Err(SinkFault::SinkFailed) => SessionEnd::SinkEnd,
        Err(SinkFault::Memory) => SessionEnd::MemoryEnd,
    }
}
