//! The program's one call.
ghost use Rattle.std.specs.Prelude.{◌≡◌, ◌≢◌, ◌⊎◌, Some, None, map, string_bytes, true};
ghost use Rattle.ks_io.specs.Kept.{FilesKept, SinkKept};
ghost use Rattle.ks_io.specs.Outside.{Rose};
ghost use Rattle.call_words.specs.Asks.{asked_by};
ghost use Rattle.ksplice_calls.specs.Calls.{Answers, is_carried_out, is_status};
ghost use Rattle.call_words.specs.Words.{reading};

use crate::diffing::diff;
use crate::image_code::code;
use crate::linking::link;
use crate::matching::match_object;
use crate::saying::say;
use crate::session_run::run;
use crate::status::Status;
use crate::work_run::run_work;
use call_words::{Command, read_words};
use ks_io::{Files, Sink};
use std::alloc::Global;

const USAGE: &str = "\
    usage: ksplice diff PRE POST | code IMAGE NAME | match IMAGE PRE | run IMAGE SCRIPT | gen NUMBER \
    | link OBJECT...\n";

/// Carries out a call: the words after the program's name, the files that it may load, and the sink that its
/// output goes to. The status says how it ended.
///
/// - 0: the command was carried out, and its reply is the output.
/// - 2: the words have no reading. The output is the usage line.
/// - 3: the command was refused, or a line of the script. The output is the refusal's line, or the replies to all
///   lines.
/// - 4: a file that a word or a line of the script names is missing, longer than its limit, or could not be read, each
///   of which shows in its count. The output ends with the file's line.
/// - 5: the sink failed, which shows in its count. It has taken a prefix of the output.
/// - 6: memory ran out. The sink has taken a prefix of the output.
/// - 7: the image or the script isn't in its form, and nothing of the script has run. The output is the refusal's line.
pub fn ksplice<F: Files, O: Sink>(
    alloc: Global,
    words: &[String],
    files: &mut F,
    out: &mut O,
) -> Status
    // What the loads came to, and output and status, which are an answer to the words by these loads.
    ensures answers { Answers
        (reading (map string_bytes words.now)) (F.told files.old) (F.counts files.old) (F.counts files.new)
        (O.taken out.old) (O.taken out.new) result.code }
    ensures status { is_status result.code ≡ true }
    // Status 2 comes only where the words have no reading, and then no file is loaded.
    ensures usage { result.code ≡ 2 → reading (map string_bytes words.now) ≡ None }
    ensures unread { reading (map string_bytes words.now) ≡ None → F.counts files.new ≡ F.counts files.old }
    // Nor do the files' counts rise with 0, 3 or 7.
    ensures stays { (result.code ≡ 0) ⊎ (result.code ≡ 3) ⊎ (result.code ≡ 7)
        → F.counts files.new ≡ F.counts files.old }
    ensures files { FilesKept F.told F.counts F.quiet files.old files.new }
    ensures out { SinkKept O.faults O.quiet out.old out.new }
    ensures sink { result.code ≡ 5 → Rose (O.faults out.old) (O.faults out.new) }
    ensures steady { result.code ≢ 5 → O.faults out.new ≡ O.faults out.old }
    ensures quiet { O.quiet out.old → result.code ≢ 5 }
{
    let Ok(asked) = read_words(alloc, words) else {
        return Status::NO_MEMORY;
    };
    match asked {
        Some(command) => carry_out(alloc, command, files, out),
        None => say(out, USAGE.as_bytes(), Status::USAGE),
    }
}

/// Carries out what the words ask for.
fn carry_out<F: Files, O: Sink>(
    alloc: Global,
    command: Command<'_>,
    files: &mut F,
    out: &mut O,
) -> Status
    ensures answers { Answers
        (Some (asked_by command.entry)) (F.told files.old) (F.counts files.old) (F.counts files.new)
        (O.taken out.old) (O.taken out.new) result.code }
    ensures status { is_carried_out result.code ≡ true }
    ensures files { FilesKept F.told F.counts F.quiet files.old files.new }
    ensures out { SinkKept O.faults O.quiet out.old out.new }
    ensures sink { result.code ≡ 5 → Rose (O.faults out.old) (O.faults out.new) }
    ensures steady { result.code ≢ 5 → O.faults out.new ≡ O.faults out.old }
    ensures quiet { O.quiet out.old → result.code ≢ 5 }
{
    match command {
        Command::Diff { pre, post } => diff(alloc, pre, post, files, out),
        Command::Code { image, name } => code(alloc, image, name, files, out),
        Command::Match { image, pre } => match_object(alloc, image, pre, files, out),
        Command::Run { image, script } => run(alloc, image, script, files, out),
        Command::Gen { number } => run_work(alloc, number, out),
        Command::Link { objects } => link(alloc, objects, files, out),
    }
}
