//! The command `match`.
ghost use Rattle.std.specs.Prelude.{◌≡◌, ◌≢◌, Some, true};
ghost use Rattle.ks_io.specs.Kept.{FilesKept, SinkKept};
ghost use Rattle.ks_io.specs.Outside.{Rose};
ghost use Rattle.ksplice_calls.specs.Answer.{OneComesOut};
ghost use Rattle.ksplice_calls.specs.Calls.{Answers, is_carried_out};
ghost use Rattle.ksplice_calls.specs.Reply.{match_answer};
ghost use Rattle.call_words.specs.Words.{Match};

use crate::held::two_files;
use crate::limits::IMAGE_LIMIT;
use crate::saying::{end_with_file, refuse, say};
use crate::solution::list_solution;
use crate::status::Status;
use ks_io::{Files, Sink, Wanted, load_all};
use ksplice_session::OBJECT_LIMIT;
use std::alloc::Global;

/// Loads the image and the object, and only then matches the object's code against the image.
pub fn match_object<F: Files, O: Sink>(
    alloc: Global,
    image: &str,
    pre: &str,
    files: &mut F,
    out: &mut O,
) -> Status
    ensures answers { Answers (Some (Match image.now pre.now)) (F.told files.old) (F.counts files.old)
        (F.counts files.new) (O.taken out.old) (O.taken out.new) result.code }
    ensures status { is_carried_out result.code ≡ true }
    ensures files { FilesKept F.told F.counts F.quiet files.old files.new }
    ensures out { SinkKept O.faults O.quiet out.old out.new }
    ensures sink { result.code ≡ 5 → Rose (O.faults out.old) (O.faults out.new) }
    ensures steady { result.code ≢ 5 → O.faults out.new ≡ O.faults out.old }
    ensures quiet { O.quiet out.old → result.code ≢ 5 }
{
    let wanted = [
        Wanted {
            name: image,
            limit: IMAGE_LIMIT,
        },
        Wanted {
            name: pre,
            limit: OBJECT_LIMIT,
        },
    ];
    match load_all(alloc, files, &wanted) {
        Ok(held) => {
            let (image, pre) = two_files(held);
            print_solution(alloc, image, &pre, out)
        }
        Err(lost) => end_with_file(alloc, &wanted[lost.index], lost.fault, out),
    }
}

/// Writes the values of an object in an image, or why there are none.
#[tactic(auto, using(ks_io::specs::laws::Fronts::nothing_taken))]
fn print_solution<O: Sink>(alloc: Global, image: Vec<u8>, pre: &[u8], out: &mut O) -> Status
    ensures answer { OneComesOut
        (λ answer. answer ≡ match_answer image.items pre.now) (O.taken out.old) (O.taken out.new)
        result.code }
    ensures status { is_carried_out result.code ≡ true }
    ensures out { SinkKept O.faults O.quiet out.old out.new }
    ensures sink { result.code ≡ 5 → Rose (O.faults out.old) (O.faults out.new) }
    ensures steady { result.code ≢ 5 → O.faults out.new ≡ O.faults out.old }
    ensures quiet { O.quiet out.old → result.code ≢ 5 }
{
    match list_solution(alloc, image, pre) {
        Ok(lines) => say(out, lines.bytes(), Status::DONE),
        Err(refusal) => refuse(alloc, &refusal, out),
    }
}
