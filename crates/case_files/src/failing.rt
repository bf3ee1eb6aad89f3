// Files in memory of which so many reads and puts come about.

use slang_names::Name;
use slang_store::{FileFault, Files, Found, MemoryFiles};
use std::alloc::Global;

/// Files in memory. So many reads and so many puts come about, and each later one fails and is counted; a put that fails changes
/// nothing. They tell nothing of what they hold.
#[derive(Drop)]
pub struct CaseFiles {
    /// What is held.
    pub held: MemoryFiles,
    /// How many more reads come about.
    pub reads: u64,
    /// How many more puts come about.
    pub puts: u64,
    /// How many reads failed, at most the last value of a u64.
    pub read_faults: u64,
    /// How many puts failed, at most the last value of a u64.
    pub put_faults: u64,
}

impl CaseFiles {
    /// Files that hold nothing yet, and of which all reads and puts come about.
    pub fn new(alloc: Global) -> CaseFiles {
        CaseFiles {
            held: MemoryFiles::new(alloc),
            reads: u64::MAX,
            puts: u64::MAX,
            read_faults: 0,
            put_faults: 0,
        }
    }
}

impl Files for CaseFiles {
    ghost use Rattle.std.specs.Prelude.{None};

    ghost told = { λ files. None };

    ghost read_faults = { λ files. files.read_faults };

    ghost put_faults = { λ files. files.put_faults };

    fn read(&mut self, alloc: Global, name: &Name, limit: usize) -> Result<Found, FileFault> {
        if self.reads == 0 {
            self.read_faults = self.read_faults.saturating_add(1);
            return Err(FileFault::Failed);
        }
        self.reads -= 1;
        self.held.read(alloc, name, limit)
    }

    fn put(&mut self, name: &Name, bytes: &[u8]) -> Result<(), FileFault> {
        if self.puts == 0 {
            self.put_faults = self.put_faults.saturating_add(1);
            return Err(FileFault::Failed);
        }
        self.puts -= 1;
        self.held.put(name, bytes)
    }
}
