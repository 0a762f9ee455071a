//! `ksplice`: the program. It reads its words, carries out the call, and ends with the call's status.
#![tactic(auto)]

ghost use Rattle.std.specs.Prelude.{◌≡◌, ◌≢◌, ◌⊎◌, [], None, drop, map, string_bytes, true, IfOk, IfErr, MatchResult};
ghost use Rattle.std.specs.IoError.{error_kind};
ghost use Rattle.std.specs.Iterator.{Drains, IsFinite};
ghost use Rattle.ks_io.specs.Kept.{FilesKept, SinkKept};
ghost use Rattle.ks_io.specs.Outside.{Rose};
ghost use Rattle.call_words.specs.Words.{reading};
ghost use Rattle.ksplice_calls.specs.Calls.{Answers, is_status};

use ks_io::{Files, Sink};
use ksplice_calls::{RealFiles, RealSink, Status, ksplice};
use std::alloc::{AllocError, Global};
use std::env;
use std::io::{self, ErrorKind};
use std::process::ExitCode;

/// The words that the program was started with, its name first.
fn words_of(rt: &HostRuntime) -> io::Result<Vec<String>> {
    Ok(listed(rt.alloc(), env::args(rt)?)?)
}

/// All words that come, in order.
fn listed<I: Iterator<Item = String> + Drop>(
    alloc: Global,
    words: I,
) -> Result<Vec<String>, AllocError>
    requires can { I.can_next words }
    requires ends { IsFinite (I.remaining words) }
    ensures { IfOk result (λ list. Drains I.next_gives words list.items) }
{
    let mut list = Vec::new(alloc);
    for word in words {
        list.push(word)?;
    }
    Ok(list)
}

/// The words after the program's name, which comes first.
fn after_name(words: &[String]) -> &[String]
    ensures { result.now ≡ drop 1 words.now }
{
    match words {
        [_name, rest @ ..] => rest,
        [] => &[],
    }
}

/// Carries out the call of a program that was started with these words, its name first; they could be read or not.
fn run<F: Files, O: Sink>(
    alloc: Global,
    words: io::Result<Vec<String>>,
    files: &mut F,
    out: &mut O,
) -> Status
    ensures answers { MatchResult words
        (λ read. Answers (reading (map string_bytes (drop 1 read.items)))
        (F.told files.old) (F.counts files.old) (F.counts files.new) (O.taken out.old) (O.taken out.new) result.code)
        (λ error. Answers (reading [])
        (F.told files.old) (F.counts files.old) (F.counts files.new) (O.taken out.old) (O.taken out.new) result.code) }
    ensures status { is_status result.code ≡ true }
    ensures usage { result.code ≡ 2 → IfOk words (λ read. reading (map string_bytes (drop 1 read.items)) ≡ None) }
    ensures unread { IfErr words (λ error. error_kind error ≢ ErrorKind.InvalidData → result.code ≡ 6) }
    ensures stays { (result.code ≡ 0) ⊎ (result.code ≡ 3) ⊎ (result.code ≡ 7)
        → F.counts files.new ≡ F.counts files.old }
    ensures files { FilesKept F.told F.counts F.quiet files.old files.new }
    ensures out { SinkKept O.faults O.quiet out.old out.new }
    ensures sink { result.code ≡ 5 → Rose (O.faults out.old) (O.faults out.new) }
    ensures steady { result.code ≢ 5 → O.faults out.new ≡ O.faults out.old }
    ensures quiet { O.quiet out.old → result.code ≢ 5 }
{
    match words {
        Ok(words) => ksplice(alloc, after_name(words.as_slice()), files, out),
        // A word that isn't UTF-8 has no reading, and neither has a call without words, which is made in its place.
        Err(error) if error.kind() == ErrorKind::InvalidData => ksplice(alloc, &[], files, out),
        Err(_) => Status::NO_MEMORY,
    }
}

fn main(rt: HostRuntime) -> ExitCode {
    let mut files = RealFiles::new(&rt);
    let mut out = RealSink::new(&rt);
    ExitCode::from(run(rt.alloc(), words_of(&rt), &mut files, &mut out).code)
}
