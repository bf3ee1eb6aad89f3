// Files that stand in memory.

use crate::{FileFault, Files, Found};
use slang_names::Name;
use std::alloc::{AllocError, Global};
use std::collections::BTreeMap;

/// Files in memory. They tell all that they hold, and never fail.
#[derive(Drop)]
pub struct MemoryFiles {
    alloc: Global,
    entries: BTreeMap<Vec<u8>, Vec<u8>>,
}

impl MemoryFiles {
    ghost use Rattle.std.specs.Prelude.{◌≡◌, ℕ, List, None};
    ghost use Rattle.std.specs.Option.{option_copied};
    ghost use Rattle.slang_store.specs.Held.{held};

    /// Files that hold nothing yet.
    pub fn new(alloc: Global) -> MemoryFiles
        ensures { (name : List ℕ) → held result name ≡ None }
    {
        MemoryFiles {
            alloc,
            entries: BTreeMap::new(alloc),
        }
    }

    /// The bytes that a name has.
    pub fn get(&self, name: &[u8]) -> Option<&[u8]>
        ensures { option_copied result ≡ held self.now name.now }
    {
        match self.entries.get(name) {
            Some(bytes) => Some(bytes.as_slice()),
            None => None,
        }
    }
}

impl Files for MemoryFiles {
    ghost use Rattle.std.specs.Prelude.{◌≡◌, ◌≤◌, Some, None, OnOk, OnErr, length};
    ghost use Rattle.slang_store.specs.Answers.{IfBytes, OnAbsent, OnTooLong, OnFailed};
    ghost use Rattle.slang_store.specs.Contents.{with_entry, IsLonger};
    ghost use Rattle.slang_store.specs.Held.{held};

    ghost told = { λ files. Some (held files) };

    ghost read_faults = { λ files. 0 };

    ghost put_faults = { λ files. 0 };

    fn read(&mut self, alloc: Global, name: &Name, limit: usize) -> Result<Found, FileFault>
        ensures bytes { IfBytes result (λ b. held self.old name.now ≡ Some b) }
        ensures within_limit { IfBytes result (λ b. length b ≤ limit) }
        ensures absent { OnAbsent result (held self.old name.now ≡ None) }
        ensures too_long { OnTooLong result (IsLonger limit (held self.old name.now)) }
        ensures never_failed { OnFailed result ⊥ }
        ensures stays { self.new ≡ self.old }
    {
        match self.get(name.as_bytes()) {
            None => Ok(Found::Absent),
            Some(bytes) => {
                if bytes.len() <= limit {
                    let bytes = Vec::from_slice(alloc, bytes).map_err(FileFault::Memory)?;
                    Ok(Found::Bytes(bytes))
                } else {
                    Ok(Found::TooLong)
                }
            }
        }
    }

    fn put(&mut self, name: &Name, bytes: &[u8]) -> Result<(), FileFault>
        ensures done { OnOk result (held self.new ≡ with_entry (held self.old) name.now bytes.now) }
        ensures unchanged { OnErr result (held self.new ≡ held self.old) }
        ensures never_failed { OnFailed result ⊥ }
    {
        let key = Vec::from_slice(self.alloc, name.as_bytes()).map_err(FileFault::Memory)?;
        let bytes = Vec::from_slice(self.alloc, bytes).map_err(FileFault::Memory)?;
        match self.entries.insert(key, bytes) {
            Ok(_) => Ok(()),
            Err(_) => Err(FileFault::Memory(AllocError)),
        }
    }
}
