//! Files that live in memory.
ghost use Rattle.std.specs.Prelude.{◌≡◌, ◌≤◌, ◌↔◌, ℕ, List, Option, Some, None, []};
ghost use Rattle.std.specs.Prelude.{length, string_bytes, IsTrue, OnOk, OnErr, IsErrOf};
ghost use Rattle.ks_io.specs.Outside.{no_counts, raised, NeverFall};
ghost use Rattle.ks_io.specs.Answered.{LoadGives};
ghost use Rattle.ks_io.specs.InMemory.{fails_at, with_file, counts_after};
ghost use Rattle.ks_io.specs.Held.{files_held, counts_of, failing_loads, loads_made};

use crate::counters::Counters;
use crate::outside::Files;
use crate::types::FileFault;
use std::alloc::{AllocError, Global};
use std::collections::BTreeMap;

/// Files that live in memory. All of them are given, and the loads that fail are chosen by their numbers.
#[derive(Drop)]
pub struct MemoryFiles {
    alloc: Global,
    files: BTreeMap<String, Vec<u8>>,
    failing: Vec<u64>,
    loads: u64,
    counters: Counters,
}

impl MemoryFiles {
    /// Holds no file. `failing` has the numbers, from 1, of the calls of `load` that fail. Takes no memory.
    pub fn new(alloc: Global, failing: Vec<u64>) -> MemoryFiles
        ensures told { ⟦<MemoryFiles as Files>⟧.told result ≡ Some (λ _. None) }
        ensures counts { ⟦<MemoryFiles as Files>⟧.counts result ≡ no_counts }
        ensures quiet { ⟦<MemoryFiles as Files>⟧.quiet result ↔ (failing.items ≡ []) }
        ensures failing { failing_loads result ≡ failing.items }
        ensures loads { loads_made result ≡ 0 }
    {
        MemoryFiles {
            alloc,
            files: BTreeMap::new(alloc),
            failing,
            loads: 0,
            counters: Counters::new(),
        }
    }

    /// Adds a file, or replaces the one of this name. Fails where memory runs out, and the files are then as
    /// before.
    pub fn put(&mut self, name: &str, bytes: &[u8]) -> Result<(), AllocError>
        ensures ok { OnOk result (⟦<MemoryFiles as Files>⟧.told self.new
            ≡ Some (with_file (files_held self.old) name.now bytes.now)) }
        ensures err { OnErr result (⟦<MemoryFiles as Files>⟧.told self.new ≡ ⟦<MemoryFiles as Files>⟧.told self.old) }
        ensures counts { ⟦<MemoryFiles as Files>⟧.counts self.new ≡ ⟦<MemoryFiles as Files>⟧.counts self.old }
        ensures failing { failing_loads self.new ≡ failing_loads self.old }
        ensures loads { loads_made self.new ≡ loads_made self.old }
    {
        let key = String::from_str(self.alloc, name)?;
        let held = Vec::from_slice(self.alloc, bytes)?;
        self.insert(key, held)?;
        Ok(())
    }

    /// Adds a file under its name, or replaces the one of this name.
    #[tactic(auto, using(std::proofs::lemmas::Map::Text::text_keys))]
    fn insert(&mut self, key: String, held: Vec<u8>) -> Result<(), AllocError>
        ensures ok { OnOk result ((name : List ℕ) → files_held self.new name
            ≡ with_file (files_held self.old) (string_bytes key) held.items name) }
        ensures err { OnErr result (files_held self.new ≡ files_held self.old) }
        ensures counts { counts_of self.new ≡ counts_of self.old }
        ensures failing { failing_loads self.new ≡ failing_loads self.old }
        ensures loads { loads_made self.new ≡ loads_made self.old }
    {
        self.files.insert(key, held)?;
        Ok(())
    }

    /// Whether the load of this number was chosen to fail.
    fn is_chosen(&self) -> bool
        ensures { result ≡ fails_at (failing_loads self.now) (loads_made self.now) }
    {
        self.failing.contains(&self.loads)
    }

    /// What the load of this number answers, `into` being empty.
    fn answer(&self, name: &str, limit: u32, into: &mut Vec<u8>) -> Result<(), FileFault>
        requires { into.old.items ≡ [] }
        ensures at_most { OnOk result (length into.new.items ≤ limit) }
        ensures gives { LoadGives (files_held self.now name.now) limit result into.new.items }
        ensures fails { IsErrOf result FileFault.Failed
            ↔ IsTrue (fails_at (failing_loads self.now) (loads_made self.now)) }
        ensures emptied { OnErr result (into.new.items ≡ []) }
    {
        if self.is_chosen() {
            return Err(FileFault::Failed);
        }
        match self.files.get(name) {
            None => Err(FileFault::Missing),
            Some(file) if file.len() > limit as usize => Err(FileFault::TooLong),
            Some(file) => {
                into.extend_from_slice(file.as_slice())?;
                Ok(())
            }
        }
    }
}

impl Files for MemoryFiles {
    ghost told = { λ s. Some (files_held s) };

    ghost counts = { counts_of };

    ghost quiet = { λ s. failing_loads s ≡ [] };

    /// Answers as asked of all files. Failed comes exactly in the calls whose numbers were given.
    fn load(&mut self, name: &str, limit: u32, into: &mut Vec<u8>) -> Result<(), FileFault>
        ensures told_kept { files_held self.new ≡ files_held self.old }
        ensures at_most { OnOk result (length into.new.items ≤ limit) }
        ensures gives { LoadGives (files_held self.old name.now) limit result into.new.items }
        ensures fails { IsErrOf result FileFault.Failed
            ↔ IsTrue (fails_at (failing_loads self.old) (loads_made self.new)) }
        ensures counted { counts_of self.new ≡ counts_after result (counts_of self.old) }
        ensures never_fall { NeverFall (counts_of self.old) (counts_of self.new) }
        ensures emptied { OnErr result (into.new.items ≡ []) }
        ensures failing { failing_loads self.new ≡ failing_loads self.old }
        ensures loads { loads_made self.new ≡ raised (loads_made self.old) }
    {
        into.clear();
        self.loads = self.loads.saturating_add(1);
        let answer = self.answer(name, limit, into);
        self.counters.count(answer);
        answer
    }
}
