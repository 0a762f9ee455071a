//! The command `code`.
ghost use Rattle.std.specs.Prelude.{◌≡◌, ◌≢◌, ◌<◌, ℕ, List, Option, Some, true, length, IfSome, IfNone};
ghost use Rattle.ks_base.specs.Gives.{Gives};
ghost use Rattle.ks_io.specs.Kept.{FilesKept, SinkKept};
ghost use Rattle.ks_io.specs.Outside.{Rose};
ghost use Rattle.ksplice_calls.specs.Answer.{ComesOut, OneComesOut, answer_of};
ghost use Rattle.ksplice_calls.specs.Calls.{Answers, is_carried_out};
ghost use Rattle.ksplice_calls.specs.Reply.{code_reply, code_answer};
ghost use Rattle.call_words.specs.Words.{Code};

use crate::limits::IMAGE_LIMIT;
use crate::saying::{end_with_file, refuse};
use crate::status::Status;
use code_listing::{Listing, list_code};
use image_file::read_image;
use ks_base::{Name, Refusal};
use ks_io::{Files, Sink, SinkFault, Wanted, load_all, write_all};
use std::alloc::Global;

/// Loads the image, and then writes the instructions of the function of the name.
pub fn code<F: Files, O: Sink>(
    alloc: Global,
    image: &str,
    name: &str,
    files: &mut F,
    out: &mut O,
) -> Status
    ensures answers { Answers
        (Some (Code image.now name.now)) (F.told files.old) (F.counts files.old) (F.counts files.new)
        (O.taken out.old) (O.taken out.new) result.code }
    ensures status { is_carried_out result.code ≡ true }
    ensures files { FilesKept F.told F.counts F.quiet files.old files.new }
    ensures out { SinkKept O.faults O.quiet out.old out.new }
    ensures sink { result.code ≡ 5 → Rose (O.faults out.old) (O.faults out.new) }
    ensures steady { result.code ≢ 5 → O.faults out.new ≡ O.faults out.old }
    ensures quiet { O.quiet out.old → result.code ≢ 5 }
{
    let wanted = [Wanted {
        name: image,
        limit: IMAGE_LIMIT,
    }];
    match load_all(alloc, files, &wanted) {
        Ok(held) => print_code(alloc, &held[0], name, out),
        Err(lost) => end_with_file(alloc, &wanted[lost.index], lost.fault, out),
    }
}

/// Writes the instructions of a function of an image, or why there are none.
#[tactic(auto, using(ks_io::specs::laws::Fronts::nothing_taken))]
fn print_code<O: Sink>(alloc: Global, bytes: &[u8], name: &str, out: &mut O) -> Status
    ensures status { is_carried_out result.code ≡ true }
    ensures answer { OneComesOut
        (λ answer. answer ≡ code_answer bytes.now name.now) (O.taken out.old) (O.taken out.new) result.code }
    ensures sink { result.code ≡ 5 → Rose (O.faults out.old) (O.faults out.new) }
    ensures steady { result.code ≢ 5 → O.faults out.new ≡ O.faults out.old }
    ensures out { SinkKept O.faults O.quiet out.old out.new }
    ensures quiet { O.quiet out.old → result.code ≢ 5 }
{
    match read_code(alloc, bytes, name) {
        Ok(mut listing) => print_listing(alloc, &mut listing, out),
        Err(refusal) => refuse(alloc, &refusal, out),
    }
}

/// The instructions of a function of an image file.
#[tactic(auto, unfolding(crate::specs::Reply::code_reply))]
fn read_code(alloc: Global, bytes: &[u8], name: &str) -> Result<Listing, Refusal>
    ensures { Gives (λ lines. lines) result (code_reply bytes.now name.now) }
{
    let image = read_image(alloc, bytes)?;
    let name = Name::from_slice(alloc, name.as_bytes())?;
    list_code(alloc, image, &name)
}

/// Writes the pages of a listing, one after another.
fn print_listing<O: Sink>(alloc: Global, listing: &mut Listing, out: &mut O) -> Status
    ensures status { is_carried_out result.code ≡ true }
    ensures answer { ComesOut (answer_of listing.old 0) (O.taken out.old) (O.taken out.new) result.code }
    ensures sink { result.code ≡ 5 → Rose (O.faults out.old) (O.faults out.new) }
    ensures steady { result.code ≢ 5 → O.faults out.new ≡ O.faults out.old }
    ensures out { SinkKept O.faults O.quiet out.old out.new }
    ensures quiet { O.quiet out.old → result.code ≢ 5 }
{
    loop {
        if let Some(status) = print_page(alloc, listing, out) {
            return status;
        }
    }
}

/// Writes the next page of a listing; the status, where the listing ends with it.
#[tactic(auto, using(ks_io::specs::laws::Fronts::nothing_taken, ks_io::specs::laws::Fronts::front_of_part, crate::proofs::Pages::page_came_out))]
fn print_page<O: Sink>(alloc: Global, listing: &mut Listing, out: &mut O) -> Option<Status>
    ensures status { IfSome result (λ status. is_carried_out status.code ≡ true) }
    ensures last { IfSome result
        (λ status. ComesOut (answer_of listing.old 0) (O.taken out.old) (O.taken out.new) status.code) }
    ensures more { IfNone result
        ((now : Option (List ℕ)) (status : ℕ) → ComesOut (answer_of listing.new 0) (O.taken out.new) now status
        → ComesOut (answer_of listing.old 0) (O.taken out.old) now status) }
    ensures shorter { IfNone result (length listing.new < length listing.old) }
    ensures sink { IfSome result (λ status. status.code ≡ 5 → Rose (O.faults out.old) (O.faults out.new)) }
    ensures steady { IfSome result (λ status. status.code ≢ 5 → O.faults out.new ≡ O.faults out.old) }
    ensures going { IfNone result (O.faults out.new ≡ O.faults out.old) }
    ensures out { SinkKept O.faults O.quiet out.old out.new }
    ensures quiet { IfSome result (λ status. O.quiet out.old → status.code ≢ 5) }
{
    let Ok(page) = listing.next_page(alloc) else {
        return Some(Status::NO_MEMORY);
    };
    if page.bytes().is_empty() {
        return Some(Status::DONE);
    }
    match write_all(out, page.bytes()) {
        Ok(()) => None,
        Err(SinkFault::SinkFailed) => Some(Status::NO_SINK),
        Err(SinkFault::Memory) => Some(Status::NO_MEMORY),
    }
}
