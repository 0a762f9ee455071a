//! The outside as the operating system gives it: its files, and standard output. What a file holds, and what a reader
//! of the output sees, isn't given in advance; the counts are kept as the traits ask.
ghost use Rattle.std.specs.Prelude.{◌≡◌, ◌≢◌, ◌≤◌, ◌<◌, ◌↔◌, [], length, take, true, IfOk, IfErr, IfSome, OnOk, OnErr};
ghost use Rattle.std.specs.Prelude.{IsErrOf};
ghost use Rattle.std.specs.Result.{is_ok};
ghost use Rattle.std.specs.IoError.{error_kind};
ghost use Rattle.std.specs.Io.KnownBytes.{Appends};
ghost use Rattle.ks_io.specs.Outside.{no_counts, Rose, NeverFall};
ghost use Rattle.ks_io.specs.Answered.{ShowsIn};

use ks_io::{FileFault, Files, Sink, SinkFault};
use std::io::{Error, ErrorKind, Read, Write};
use std::marker::Model;
use std::{fs, io, rt};

/// How often a file was missing, was too long, and could not be read.
#[derive(Drop)]
struct FileCounts {
    absences: u64,
    excesses: u64,
    faults: u64,
}

impl Model for FileCounts {
    ghost use Rattle.ks_io.specs.Outside.{Counts};

    ghost Value = { Counts };

    ghost view = { λ c. record { absences = c.absences; excesses = c.excesses; faults = c.faults } };
}

impl FileCounts {
    /// None of it.
    fn none() -> Self
        ensures { result ≡ no_counts }
    {
        FileCounts {
            absences: 0,
            excesses: 0,
            faults: 0,
        }
    }

    /// Counts a fault. Want of memory is none of a file's.
    fn add(&mut self, fault: FileFault)
        ensures never_fall { NeverFall self.old self.new }
        ensures shown { ShowsIn fault self.old self.new }
        ensures memory { fault ≡ FileFault.Memory → self.new ≡ self.old }
    {
        match fault {
            FileFault::Missing => self.absences = self.absences.saturating_add(1),
            FileFault::TooLong => self.excesses = self.excesses.saturating_add(1),
            FileFault::Failed => self.faults = self.faults.saturating_add(1),
            FileFault::Memory => {}
        }
    }
}

/// The files of the operating system, by their paths.
#[derive(Drop)]
pub struct RealFiles<'a, R: rt::Files> {
    rt: &'a R,
    counts: FileCounts,
}

impl<'a, R: rt::Files> RealFiles<'a, R> {
    /// The files, of which nothing was counted so far.
    pub fn new(rt: &'a R) -> Self
        ensures { ⟦<RealFiles<'a, R> as Files>⟧.counts result ≡ no_counts }
    {
        RealFiles {
            rt,
            counts: FileCounts::none(),
        }
    }
}

impl<R: rt::Files> Files for RealFiles<'_, R> {
    ghost use Rattle.std.specs.Prelude.{None};

    ghost told = { λ _. None };

    ghost counts = { λ files. files.counts };

    ghost quiet = { λ _. ⊥ };

    fn load(&mut self, name: &str, limit: u32, into: &mut Vec<u8>) -> Result<(), FileFault> {
        load_opened(fs::open(self.rt, name), limit, into, &mut self.counts)
    }
}

/// Loads all of a file, once opening it came to this, into `into`, whose bytes before the call are lost; and counts the
/// fault for which it isn't loaded.
fn load_opened<S: Read + Drop>(
    opened: io::Result<S>,
    limit: u32,
    into: &mut Vec<u8>,
    counts: &mut FileCounts,
) -> Result<(), FileFault>
    ensures at_most { OnOk result (length into.new.items ≤ limit) }
    ensures whole { OnOk result (IfOk opened
        (λ source. IfSome (S.remaining source) (λ left. into.new.items ≡ left))) }
    ensures open { OnOk result (is_ok opened ≡ true) }
    ensures missing { IfErr opened (λ error.
        IsErrOf result FileFault.Missing ↔ (error_kind error ≡ ErrorKind.NotFound)) }
    ensures never_fall { NeverFall counts.old counts.new }
    ensures shown { IfErr result (λ fault. ShowsIn fault counts.old counts.new) }
    ensures steady { OnOk result (counts.new ≡ counts.old) }
    ensures memory { IsErrOf result FileFault.Memory → counts.new ≡ counts.old }
    ensures emptied { OnErr result (into.new.items ≡ []) }
{
    into.clear();
    match read_opened(opened, limit, into) {
        Ok(()) => Ok(()),
        Err(fault) => {
            into.clear();
            counts.add(fault);
            Err(fault)
        }
    }
}

/// Reads all of a file, once opening it came to this.
fn read_opened<S: Read + Drop>(
    opened: io::Result<S>,
    limit: u32,
    into: &mut Vec<u8>,
) -> Result<(), FileFault>
    requires { into.old.items ≡ [] }
    ensures at_most { OnOk result (length into.new.items ≤ limit) }
    ensures whole { OnOk result (IfOk opened
        (λ source. IfSome (S.remaining source) (λ left. into.new.items ≡ left))) }
    ensures open { OnOk result (is_ok opened ≡ true) }
    ensures missing { IfErr opened (λ error.
        IsErrOf result FileFault.Missing ↔ (error_kind error ≡ ErrorKind.NotFound)) }
{
    match opened {
        Ok(source) => read_at_most(source, limit, into),
        Err(error) => Err(fault_of(&error)),
    }
}

/// Reads all that a reader has left, where that is no more than `limit` bytes: it is never cut. Of a longer one `limit`
/// and one bytes are read, and it is too long.
fn read_at_most<S: Read + Drop>(source: S, limit: u32, into: &mut Vec<u8>) -> Result<(), FileFault>
    requires { into.old.items ≡ [] }
    ensures at_most { OnOk result (length into.new.items ≤ limit) }
    ensures whole { OnOk result (IfSome (S.remaining source) (λ left. into.new.items ≡ left)) }
    ensures longer { IsErrOf result FileFault.TooLong → IfSome (S.remaining source) (λ left. limit < length left) }
{
    let mut front = source.take(u64::from(limit) + 1);
    match io::copy(&mut front, into) {
        Ok(_) if into.len() > limit as usize => Err(FileFault::TooLong),
        Ok(_) => Ok(()),
        Err(error) => Err(fault_of(&error)),
    }
}

/// The fault of a file by the error that came of it. A folder isn't missing, nor is a file that can't be read.
fn fault_of(error: &Error) -> FileFault
    ensures missing { (result ≡ FileFault.Missing) ↔ (error_kind error.now ≡ ErrorKind.NotFound) }
    ensures memory { (result ≡ FileFault.Memory) ↔ (error_kind error.now ≡ ErrorKind.OutOfMemory) }
    ensures longer { result ≢ FileFault.TooLong }
{
    match error.kind() {
        ErrorKind::NotFound => FileFault::Missing,
        ErrorKind::OutOfMemory => FileFault::Memory,
        _ => FileFault::Failed,
    }
}

/// Standard output. Each write is flushed, and a flush that fails is a fault.
#[derive(Drop)]
pub struct RealSink<'a, R: Print> {
    rt: &'a R,
    faults: u64,
}

impl<'a, R: Print> RealSink<'a, R> {
    /// The output, of which no fault was counted so far.
    pub fn new(rt: &'a R) -> Self
        ensures { ⟦<RealSink<'a, R> as Sink>⟧.faults result ≡ 0 }
    {
        RealSink { rt, faults: 0 }
    }
}

impl<R: Print> Sink for RealSink<'_, R> {
    ghost use Rattle.std.specs.Prelude.{None};

    ghost taken = { λ _. None };

    ghost faults = { λ sink. sink.faults };

    ghost quiet = { λ _. ⊥ };

    fn write(&mut self, piece: &[u8]) -> Result<usize, SinkFault> {
        write_counted(&mut io::writer(self.rt), piece, &mut self.faults)
    }
}

/// Writes a prefix of the piece, and answers how many bytes that is. A write that fails, or takes nothing of a piece
/// that isn't empty, is a fault, which is counted.
fn write_counted<W: Write>(
    output: &mut W,
    piece: &[u8],
    faults: &mut u64,
) -> Result<usize, SinkFault>
    ensures within { IfOk result (λ count. count ≤ length piece.now) }
    ensures front { IfOk result
        (λ count. Appends (W.contents output.old) (W.contents output.new) (take count piece.now)) }
    ensures some { result ≡ Ok 0 → piece.now ≡ [] }
    ensures steady { OnOk result (faults.new ≡ faults.old) }
    ensures failed { OnErr result (IsErrOf result SinkFault.SinkFailed × Rose faults.old faults.new) }
    ensures never_falls { faults.old ≤ faults.new }
{
    match write_through(output, piece) {
        Ok(count) if count > 0 || piece.is_empty() => Ok(count),
        _ => {
            *faults = faults.saturating_add(1);
            Err(SinkFault::SinkFailed)
        }
    }
}

/// Writes a prefix of the piece and flushes it; answers how many bytes that is.
fn write_through<W: Write>(output: &mut W, piece: &[u8]) -> io::Result<usize>
    ensures within { IfOk result (λ count. count ≤ length piece.now) }
    ensures front { IfOk result
        (λ count. Appends (W.contents output.old) (W.contents output.new) (take count piece.now)) }
{
    let count = output.write(piece)?;
    output.flush()?;
    Ok(count)
}
