//! What the program asks of its outside.
ghost use Rattle.std.specs.Prelude.{◌≡◌, ◌≢◌, ℕ, ◌≤◌, ◌<◌, Option, List, [], length};
ghost use Rattle.std.specs.Prelude.{take, OnOk, OnErr, IfOk, IfErr, IsErrOf};
ghost use Rattle.ks_io.specs.Outside.{Counts, Rose, NeverFall, CountsTell, grown};
ghost use Rattle.ks_io.specs.Answered.{LoadGives, ShowsIn};

use crate::types::{FileFault, SinkFault};

/// Files, loaded whole by their names.
///
/// A body may say in advance what its files are, or say nothing, as one over a disk does. It counts
/// absences, excesses and faults; a count that stands at 2^64 - 1 counts as risen in each call.
pub trait Files {
    // The files, from a name's bytes to the file's bytes, where they are given.
    ghost told: { Self → Option (List ℕ → Option (List ℕ)) };

    ghost counts: { Self → Counts };

    // Where this holds of a value, no call of it answers Failed or raises the count of faults.
    ghost quiet: { Self → Type 0 };

    /// Loads the file of this name into `into`, whose bytes before the call are lost. `limit` is the most
    /// bytes that the file may have. Missing: there is no such file. TooLong: it has more bytes. Failed: the
    /// outside failed. Memory: `into` could not grow. After each of these `into` is empty.
    fn load(&mut self, name: &str, limit: u32, into: &mut Vec<u8>) -> Result<(), FileFault>
        ensures told_kept { told self.new ≡ told self.old }
        ensures never_fall { NeverFall (counts self.old) (counts self.new) }
        // Missing comes only where absences rose, TooLong only where excesses rose, Failed only where faults rose.
        ensures shown { IfErr result (λ fault. ShowsIn fault (counts self.old) (counts self.new)) }
        ensures at_most { OnOk result (length into.new.items ≤ limit) }
        // Where the files are given, the answer agrees with the file of this name.
        ensures gives { (files : List ℕ → Option (List ℕ)) → told self.old ≡ Some files
            → LoadGives (files name.now) limit result into.new.items }
        // Where the files are given, absences rise only for a name that has no file, excesses only for a longer one.
        ensures rises { (files : List ℕ → Option (List ℕ)) → told self.old ≡ Some files
            → CountsTell (files name.now) limit (counts self.old) (counts self.new) }
        // A call that loaded the file, or in which memory ran out, counts nothing.
        ensures steady { OnOk result (counts self.new ≡ counts self.old) }
        ensures memory { IsErrOf result FileFault.Memory → counts self.new ≡ counts self.old }
        ensures emptied { OnErr result (into.new.items ≡ []) }
        ensures quiet_kept { quiet self.old → quiet self.new }
        ensures quiet_faults { quiet self.old → (counts self.new).faults ≡ (counts self.old).faults }
        ensures quiet_answer { quiet self.old → result ≢ Err FileFault.Failed };
}

/// A sink that takes bytes, as many a call as it likes.
///
/// A body may show what it has taken, or show nothing. It counts its faults; a count that stands at 2^64 - 1
/// counts as risen in each call. A sink that grows keeps its own allocator.
pub trait Sink {
    // The bytes taken so far, where they are shown.
    ghost taken: { Self → Option (List ℕ) };

    ghost faults: { Self → ℕ };

    // Where this holds of a value, no call of it answers SinkFailed, takes nothing of a piece that isn't
    // empty, or raises the count of faults.
    ghost quiet: { Self → Type 0 };

    /// Takes a prefix of the piece and answers how many bytes that was. SinkFailed: the sink failed and took
    /// nothing. Memory: the sink could not grow and took nothing.
    fn write(&mut self, piece: &[u8]) -> Result<usize, SinkFault>
        ensures within { IfOk result (λ n. n ≤ length piece.now) }
        ensures took { IfOk result (λ n. taken self.new ≡ grown (taken self.old) (take n piece.now)) }
        ensures nothing { OnErr result (taken self.new ≡ taken self.old) }
        ensures failed { IsErrOf result SinkFault.SinkFailed → Rose (faults self.old) (faults self.new) }
        // An Ok that took nothing of a piece that isn't empty is a fault, too.
        ensures stuck { result ≡ Ok 0 → 0 < length piece.now → Rose (faults self.old) (faults self.new) }
        // A call that took something, or in which memory ran out, is no fault.
        ensures steady { IfOk result (λ n. 0 < n → faults self.new ≡ faults self.old) }
        ensures memory { IsErrOf result SinkFault.Memory → faults self.new ≡ faults self.old }
        ensures never_falls { faults self.old ≤ faults self.new }
        ensures quiet_kept { quiet self.old → quiet self.new }
        ensures quiet_faults { quiet self.old → faults self.new ≡ faults self.old }
        ensures quiet_answer { quiet self.old → result ≢ Err SinkFault.SinkFailed }
        ensures quiet_takes { quiet self.old → 0 < length piece.now → result ≢ Ok 0 };
}
