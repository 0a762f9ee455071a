//! The files that the lines of a script load, and the line of one that can't be loaded.
ghost use Rattle.std.specs.Prelude.{◌≡◌, ◌≢◌, [], ◌∷◌, IfOk, OnOk, OnErr, Err, IsErrOf, map};
ghost use Rattle.script_lines.specs.Allowed.{IsAllowed};
ghost use Rattle.script_lines.specs.Lines.{IsPrintable};
ghost use Rattle.ksplice_session.specs.inside.Loading.{wanted_by};
ghost use Rattle.ks_io.specs.Kept.{SinkKept};
ghost use Rattle.ks_io.specs.Loads.{needed_by};
ghost use Rattle.ks_io.specs.Outside.{Rose, TookPart, grown};
ghost use Rattle.ksplice_session.specs.Replies.{files_of, object_file};
ghost use Rattle.ksplice_session.specs.Session.{file_fault_text, file_line};

use crate::types::Loads;
use ks_base::{Line, Name};
use ks_io::{FileFault, Sink, SinkFault, Wanted, write_all};
use script_lines::{Command, text_of};
use std::alloc::{AllocError, Global};

/// The most bytes that an object file may have: as many as `elf32_object` reads.
pub const OBJECT_LIMIT: u32 = 8_388_608;

impl<'a> Loads<'a> {
    /// The files as a slice.
    pub(crate) fn as_slice(&self) -> &[Wanted<'a>]
        ensures { result.now ≡ wanted_by self.now }
    {
        &self.files[..self.count]
    }
}

/// The files that a line loads before it is run, in order.
#[tactic(auto, unfolding(crate::specs::Replies::files_of))]
pub(crate) fn files_of(command: &Command) -> Loads<'_>
    requires { IsAllowed command.now }
    ensures { map needed_by (wanted_by result) ≡ files_of command.now }
{
    match command {
        Command::Spawn { .. }
        | Command::Step { .. }
        | Command::RoundRobin { .. }
        | Command::Threads
        | Command::Peek { .. }
        | Command::Tail
        | Command::Seal
        | Command::Undo
        | Command::UndoNamed { .. }
        | Command::ListUpdates
        | Command::Watch => no_files(),
        Command::Apply { pre, post, .. }
        | Command::Hooks { pre, post, .. }
        | Command::Poke { pre, post, .. } => object_files(pre, post),
    }
}

fn no_files() -> Loads<'static>
    ensures { map needed_by (wanted_by result) ≡ [] }
{
    let none = Wanted { name: "", limit: 0 };
    Loads {
        files: [none, none],
        count: 0,
    }
}

/// Two object files of names that a line writes.
fn object_files<'a>(pre: &'a Name, post: &'a Name) -> Loads<'a>
    requires pre { IsPrintable pre.now }
    requires post { IsPrintable post.now }
    ensures { map needed_by (wanted_by result) ≡ object_file pre.now ∷ object_file post.now ∷ [] }
{
    Loads {
        files: [object_file(pre), object_file(post)],
        count: 2,
    }
}

/// An object file of a name that a line writes.
fn object_file(name: &Name) -> Wanted<'_>
    requires { IsPrintable name.now }
    ensures { needed_by result ≡ object_file name.now }
{
    Wanted {
        name: text_of(name),
        limit: OBJECT_LIMIT,
    }
}

/// Writes the line of a file that was not loaded, and why. `Err` says that the sink failed or that memory ran out; a
/// part of the line may have come out then.
pub fn write_file_line<O: Sink>(
    alloc: Global,
    name: &str,
    fault: FileFault,
    out: &mut O,
) -> Result<(), SinkFault>
    ensures ok { OnOk result (O.taken out.new ≡ grown (O.taken out.old) (file_line name.now fault)) }
    ensures part { OnErr result (TookPart (O.taken out.old) (file_line name.now fault) (O.taken out.new)) }
    ensures failed { IsErrOf result SinkFault.SinkFailed → Rose (O.faults out.old) (O.faults out.new) }
    ensures steady { OnOk result (O.faults out.new ≡ O.faults out.old) }
    ensures memory { IsErrOf result SinkFault.Memory → O.faults out.new ≡ O.faults out.old }
    ensures kept { SinkKept O.faults O.quiet out.old out.new }
    ensures quiet { O.quiet out.old → result ≢ Err SinkFault.SinkFailed }
{
    let line = file_line(alloc, name, fault)?;
    write_all(out, line.bytes())
}

fn file_line(alloc: Global, name: &str, fault: FileFault) -> Result<Line, AllocError>
    ensures { IfOk result (λ line. line ≡ file_line name.now fault) }
{
    let mut line = Line::new(alloc);
    line.put_text("file ")?;
    line.put_name(&Name::from_slice(alloc, name.as_bytes())?)?;
    line.put_text(" ")?;
    line.put_text(file_fault_word(fault))?;
    line.put_text("\n")?;
    Ok(line)
}

/// Why a file was not loaded. [`FileFault::Memory`] has no word.
fn file_fault_word(fault: FileFault) -> &'static str
    ensures { result.now ≡ file_fault_text fault }
{
    match fault {
        FileFault::Missing => "missing",
        FileFault::TooLong => "too long",
        FileFault::Failed => "failed",
        FileFault::Memory => "",
    }
}
