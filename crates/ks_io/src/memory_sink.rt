//! A sink that lives in memory.
ghost use Rattle.std.specs.Prelude.{◌≡◌, ◌≤◌, ◌<◌, ◌↔◌, min, Some, [], ◌++◌};
ghost use Rattle.std.specs.Prelude.{length, take, IsTrue, IfOk, OnErr, IsErrOf};
ghost use Rattle.ks_io.specs.Outside.{raised};
ghost use Rattle.ks_io.specs.InMemory.{fails_at, faults_after};
ghost use Rattle.ks_io.specs.Held.{bytes_taken, faults_of, failing_writes, writes_made, most_a_write};

use crate::outside::Sink;
use crate::types::SinkFault;
use std::alloc::Global;

/// A sink that lives in memory. It shows what it has taken, takes so many bytes a write at most, and the
/// writes that fail are chosen by their numbers.
#[derive(Drop)]
pub struct MemorySink {
    bytes: Vec<u8>,
    failing: Vec<u64>,
    most: usize,
    writes: u64,
    faults: u64,
}

impl MemorySink {
    /// Has taken nothing, and takes at most `most` bytes a write. `failing` has the numbers, from 1, of the
    /// calls of `write` that fail. Takes no memory.
    pub fn new(alloc: Global, failing: Vec<u64>, most: usize) -> MemorySink
        ensures taken { ⟦<MemorySink as Sink>⟧.taken result ≡ Some [] }
        ensures faults { ⟦<MemorySink as Sink>⟧.faults result ≡ 0 }
        ensures quiet { ⟦<MemorySink as Sink>⟧.quiet result ↔ ((failing.items ≡ []) × (0 < most)) }
        ensures failing { failing_writes result ≡ failing.items }
        ensures most { most_a_write result ≡ most }
        ensures writes { writes_made result ≡ 0 }
    {
        MemorySink {
            bytes: Vec::new(alloc),
            failing,
            most,
            writes: 0,
            faults: 0,
        }
    }

    /// The bytes taken so far. Takes no memory.
    pub fn taken(&self) -> &[u8]
        ensures { ⟦<MemorySink as Sink>⟧.taken self.now ≡ Some result.now }
    {
        self.bytes.as_slice()
    }
}

impl Sink for MemorySink {
    ghost taken = { λ s. Some (bytes_taken s) };

    ghost faults = { faults_of };

    ghost quiet = { λ s. (failing_writes s ≡ []) × (0 < most_a_write s) };

    /// Answers as asked of all sinks. SinkFailed comes exactly in the calls whose numbers were given, and
    /// an Ok has taken as much of the piece as a write takes at most.
    fn write(&mut self, piece: &[u8]) -> Result<usize, SinkFault>
        ensures took { IfOk result (λ n. bytes_taken self.new ≡ bytes_taken self.old ++ take n piece.now) }
        ensures count { IfOk result (λ n. n ≡ min (length piece.now) (most_a_write self.old)) }
        ensures nothing { OnErr result (bytes_taken self.new ≡ bytes_taken self.old) }
        ensures fails { IsErrOf result SinkFault.SinkFailed
            ↔ IsTrue (fails_at (failing_writes self.old) (writes_made self.new)) }
        ensures counted { faults_of self.new ≡ faults_after result piece.now (faults_of self.old) }
        ensures never_falls { faults_of self.old ≤ faults_of self.new }
        ensures failing { failing_writes self.new ≡ failing_writes self.old }
        ensures most { most_a_write self.new ≡ most_a_write self.old }
        ensures writes { writes_made self.new ≡ raised (writes_made self.old) }
    {
        self.writes = self.writes.saturating_add(1);
        if self.failing.contains(&self.writes) {
            self.faults = self.faults.saturating_add(1);
            return Err(SinkFault::SinkFailed);
        }
        if self.most == 0 && !piece.is_empty() {
            self.faults = self.faults.saturating_add(1);
            return Ok(0);
        }
        let count = piece.len().min(self.most);
        self.bytes.extend_from_slice(&piece[..count])?;
        Ok(count)
    }
}
