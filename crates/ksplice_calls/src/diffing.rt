//! The command `diff`.
ghost use Rattle.std.specs.Prelude.{◌≡◌, ◌≢◌, Some, true};
ghost use Rattle.ks_io.specs.Kept.{FilesKept, SinkKept};
ghost use Rattle.ks_io.specs.Outside.{Rose};
ghost use Rattle.ksplice_calls.specs.Answer.{OneComesOut};
ghost use Rattle.ksplice_calls.specs.Calls.{Answers, is_carried_out};
ghost use Rattle.ksplice_calls.specs.Reply.{IsReply};
ghost use Rattle.call_words.specs.Words.{Diff};

use crate::comparing::compare;
use crate::saying::{end_with_file, refuse, say};
use crate::status::Status;
use ks_io::{Files, Sink, Wanted, load_all};
use ksplice_session::OBJECT_LIMIT;
use std::alloc::Global;

/// Loads both objects, and only then compares them.
pub fn diff<F: Files, O: Sink>(
    alloc: Global,
    pre: &str,
    post: &str,
    files: &mut F,
    out: &mut O,
) -> Status
    ensures answers { Answers
        (Some (Diff pre.now post.now)) (F.told files.old) (F.counts files.old) (F.counts files.new)
        (O.taken out.old) (O.taken out.new) result.code }
    ensures status { is_carried_out result.code ≡ true }
    ensures files { FilesKept F.told F.counts F.quiet files.old files.new }
    ensures out { SinkKept O.faults O.quiet out.old out.new }
    ensures sink { result.code ≡ 5 → Rose (O.faults out.old) (O.faults out.new) }
    ensures steady { result.code ≢ 5 → O.faults out.new ≡ O.faults out.old }
    ensures quiet { O.quiet out.old → result.code ≢ 5 }
{
    let limit = OBJECT_LIMIT;
    let wanted = [Wanted { name: pre, limit }, Wanted { name: post, limit }];
    match load_all(alloc, files, &wanted) {
        Ok(held) => print_difference(alloc, &held[0], &held[1], out),
        Err(lost) => end_with_file(alloc, &wanted[lost.index], lost.fault, out),
    }
}

/// Writes the reply of a comparison, or its refusal.
#[tactic(auto, using(ks_io::specs::laws::Fronts::nothing_taken))]
fn print_difference<O: Sink>(alloc: Global, pre: &[u8], post: &[u8], out: &mut O) -> Status
    ensures answer { OneComesOut (IsReply pre.now post.now) (O.taken out.old) (O.taken out.new) result.code }
    ensures status { is_carried_out result.code ≡ true }
    ensures out { SinkKept O.faults O.quiet out.old out.new }
    ensures sink { result.code ≡ 5 → Rose (O.faults out.old) (O.faults out.new) }
    ensures steady { result.code ≢ 5 → O.faults out.new ≡ O.faults out.old }
    ensures quiet { O.quiet out.old → result.code ≢ 5 }
{
    match compare(alloc, pre, post) {
        Ok(lines) => say(out, lines.bytes(), Status::DONE),
        Err(refusal) => refuse(alloc, &refusal, out),
    }
}
