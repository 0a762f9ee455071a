//! The command `run`.
ghost use Rattle.std.specs.Prelude.{◌≡◌, ◌≢◌, Some, true, IfOk};
ghost use Rattle.std.specs.List.{All};
ghost use Rattle.ks_base.specs.Gives.{Gives};
ghost use Rattle.ks_io.specs.Kept.{FilesKept, SinkKept};
ghost use Rattle.ks_io.specs.Outside.{Rose};
ghost use Rattle.script_lines.specs.Allowed.{IsAllowed};
ghost use Rattle.ksplice_calls.specs.Calls.{Answers, RunAnswers, end_status, is_carried_out};
ghost use Rattle.ksplice_calls.specs.Reply.{session_of};
ghost use Rattle.call_words.specs.Words.{Run};

use crate::held::two_files;
use crate::limits::{IMAGE_LIMIT, SCRIPT_LIMIT};
use crate::saying::{end_with_file, refuse};
use crate::status::Status;
use image_file::read_image;
use ks_base::Refusal;
use ks_io::{Files, Sink, Wanted, load_all};
use ksplice_session::{Session, SessionEnd, run_session};
use script_lines::{Script, read_script};
use std::alloc::Global;

/// Loads the image and the script, and only then runs the session.
pub fn run<F: Files, O: Sink>(
    alloc: Global,
    image: &str,
    script: &str,
    files: &mut F,
    out: &mut O,
) -> Status
    ensures answers { Answers
        (Some (Run image.now script.now)) (F.told files.old) (F.counts files.old) (F.counts files.new)
        (O.taken out.old) (O.taken out.new) result.code }
    ensures status { is_carried_out result.code ≡ true }
    ensures files { FilesKept F.told F.counts F.quiet files.old files.new }
    ensures out { SinkKept O.faults O.quiet out.old out.new }
    ensures sink { result.code ≡ 5 → Rose (O.faults out.old) (O.faults out.new) }
    ensures steady { result.code ≢ 5 → O.faults out.new ≡ O.faults out.old }
    ensures quiet { O.quiet out.old → result.code ≢ 5 }
{
    let wanted = [
        Wanted {
            name: image,
            limit: IMAGE_LIMIT,
        },
        Wanted {
            name: script,
            limit: SCRIPT_LIMIT,
        },
    ];
    match load_all(alloc, files, &wanted) {
        Ok(held) => {
            let (image, script) = two_files(held);
            print_session(alloc, image, script, files, out)
        }
        Err(lost) => end_with_file(alloc, &wanted[lost.index], lost.fault, out),
    }
}

/// Runs the session of an image file and a script file, or writes why there is none.
#[tactic(auto, using(ks_io::specs::laws::Fronts::nothing_taken))]
fn print_session<F: Files, O: Sink>(
    alloc: Global,
    image: Vec<u8>,
    script: Vec<u8>,
    files: &mut F,
    out: &mut O,
) -> Status
    ensures answers { RunAnswers image.items script.items (F.told files.old) (F.counts files.old) (F.counts files.new)
        (O.taken out.old) (O.taken out.new) result.code }
    ensures status { is_carried_out result.code ≡ true }
    ensures files { FilesKept F.told F.counts F.quiet files.old files.new }
    ensures out { SinkKept O.faults O.quiet out.old out.new }
    ensures sink { result.code ≡ 5 → Rose (O.faults out.old) (O.faults out.new) }
    ensures steady { result.code ≢ 5 → O.faults out.new ≡ O.faults out.old }
    ensures quiet { O.quiet out.old → result.code ≢ 5 }
{
    match read_session(alloc, image, script) {
        Ok((mut session, script)) => status_of(run_session(
            alloc,
            &mut session,
            &script,
            files,
            out,
        )),
        Err(refusal) => refuse(alloc, &refusal, out),
    }
}

/// The session of an image file, and the lines of a script file. The image is read first. Their bytes are gone then.
#[tactic(auto, unfolding(crate::specs::Reply::session_of))]
pub(crate) fn read_session(
    alloc: Global,
    image: Vec<u8>,
    script: Vec<u8>,
) -> Result<(Session, Script), Refusal>
    ensures session { Gives (λ both. both) result (session_of image.items script.items) }
    ensures allowed { IfOk result (λ both. All IsAllowed both.1) }
{
    let image = read_image(alloc, &image)?;
    let script = read_script(alloc, &script)?;
    let session = Session::new(alloc, image)?;
    Ok((session, script))
}

/// The status of a session's end.
fn status_of(end: SessionEnd) -> Status
    ensures { result.code ≡ end_status end }
{
    match end {
        SessionEnd::Done => Status::DONE,
        SessionEnd::SomeRefused => Status::REFUSED,
        SessionEnd::FileEnd => Status::NO_FILE,
        SessionEnd::SinkEnd => Status::NO_SINK,
        SessionEnd::MemoryEnd => Status::NO_MEMORY,
    }
}
