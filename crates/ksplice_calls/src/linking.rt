//! The command `link`.
ghost use Rattle.std.specs.Prelude.{◌≡◌, ◌≢◌, Some, map, string_bytes, true, IfOk};
ghost use Rattle.ks_base.specs.Gives.{Gives};
ghost use Rattle.ks_io.specs.Kept.{FilesKept, SinkKept};
ghost use Rattle.ks_io.specs.Loads.{bytes_of, needed_by};
ghost use Rattle.ks_io.specs.Outside.{Rose};
ghost use Rattle.ksplice_calls.specs.Answer.{OneComesOut};
ghost use Rattle.ksplice_calls.specs.Calls.{Answers, is_carried_out, needed_object};
ghost use Rattle.ksplice_calls.specs.Linking.{link_answer, link_reply, linked_of_read, sections_of_all};
ghost use Rattle.image_file.specs.Seen.{contents_of};
ghost use Rattle.call_words.specs.Words.{Link};

use crate::saying::{end_with_file, refuse, say};
use crate::status::Status;
use i386_reloc::{Normal, read_sections};
use image_file::{Image, write_image};
use image_link::link_image;
use ks_base::{Bytes, ListOf, Refusal};
use ks_io::{Files, Sink, Wanted, load_all};
use ksplice_session::OBJECT_LIMIT;
use std::alloc::{AllocError, Global};

/// Loads all objects, and only then links them.
pub fn link<F: Files, O: Sink>(
    alloc: Global,
    objects: &[String],
    files: &mut F,
    out: &mut O,
) -> Status
    ensures answers { Answers (Some (Link (map string_bytes objects.now))) (F.told files.old) (F.counts files.old)
        (F.counts files.new) (O.taken out.old) (O.taken out.new) result.code }
    ensures status { is_carried_out result.code ≡ true }
    ensures files { FilesKept F.told F.counts F.quiet files.old files.new }
    ensures out { SinkKept O.faults O.quiet out.old out.new }
    ensures sink { result.code ≡ 5 → Rose (O.faults out.old) (O.faults out.new) }
    ensures steady { result.code ≢ 5 → O.faults out.new ≡ O.faults out.old }
    ensures quiet { O.quiet out.old → result.code ≢ 5 }
{
    let Ok(wanted) = wanted_objects(alloc, objects) else {
        return Status::NO_MEMORY;
    };
    match load_all(alloc, files, wanted.as_slice()) {
        Ok(held) => print_image(alloc, held.as_slice(), out),
        Err(lost) => end_with_file(alloc, &wanted[lost.index], lost.fault, out),
    }
}

/// The files of objects' names.
fn wanted_objects<'a>(alloc: Global, objects: &'a [String]) -> Result<Vec<Wanted<'a>>, AllocError>
    ensures { IfOk result
        (λ wanted. map needed_by wanted.items ≡ map needed_object (map string_bytes objects.now)) }
{
    let mut wanted = Vec::new(alloc);
    for name in objects {
        wanted.push(Wanted {
            name: name.as_str(),
            limit: OBJECT_LIMIT,
        })?;
    }
    Ok(wanted)
}

/// Writes the image that objects are linked to, or why there is none.
#[tactic(auto, using(ks_io::specs::laws::Fronts::nothing_taken))]
fn print_image<O: Sink>(alloc: Global, objects: &[Vec<u8>], out: &mut O) -> Status
    ensures answer { OneComesOut
        (λ answer. answer ≡ link_answer (bytes_of objects.now)) (O.taken out.old) (O.taken out.new) result.code }
    ensures status { is_carried_out result.code ≡ true }
    ensures out { SinkKept O.faults O.quiet out.old out.new }
    ensures sink { result.code ≡ 5 → Rose (O.faults out.old) (O.faults out.new) }
    ensures steady { result.code ≢ 5 → O.faults out.new ≡ O.faults out.old }
    ensures quiet { O.quiet out.old → result.code ≢ 5 }
{
    match image_bytes(alloc, objects) {
        Ok(bytes) => say(out, bytes.as_slice(), Status::DONE),
        Err(refusal) => refuse(alloc, &refusal, out),
    }
}

/// The bytes of the image that object files are linked to. Refuses what is wrong with the first of them that isn't
/// read, else why they can't be linked.
#[tactic(auto, unfolding(crate::specs::Linking::link_reply))]
fn image_bytes(alloc: Global, objects: &[Vec<u8>]) -> Result<Bytes, Refusal>
    ensures { Gives (λ bytes. bytes) result (link_reply (bytes_of objects.now)) }
{
    let image = image_of_files(alloc, objects)?;
    Ok(write_image(alloc, &image)?)
}

/// The image itself. What was read of the files is dropped before it is spelled.
fn image_of_files(alloc: Global, objects: &[Vec<u8>]) -> Result<Image, Refusal>
    ensures { Gives contents_of result (linked_of_read (sections_of_all (bytes_of objects.now))) }
{
    let read = read_all(alloc, objects)?;
    link_image(alloc, read.as_slice())
}

/// The sections of object files.
fn read_all<'a>(alloc: Global, objects: &'a [Vec<u8>]) -> Result<ListOf<Normal<'a>>, Refusal>
    ensures { Gives (λ read. read) result (sections_of_all (bytes_of objects.now)) }
{
    let mut read = ListOf::new(alloc);
    for object in objects {
        read.push(read_sections(alloc, object)?)?;
    }
    Ok(read)
}
