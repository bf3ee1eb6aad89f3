// Files, which are read and put whole, by name.

ghost use Rattle.std.specs.Prelude.{◌≡◌, ℕ, ◌≤◌, Option, Some, OnOk, length};
ghost use Rattle.slang_store.specs.Counts.{Rose};
ghost use Rattle.slang_store.specs.Contents.{Contents, with_entry, Partly, IsLonger};
ghost use Rattle.slang_store.specs.Answers.{IfBytes, OnAbsent, OnTooLong, OnFailed, OnMemory};

use slang_names::Name;
use std::alloc::{AllocError, Global};
use thiserror::Error;

/// What a read finds under a name.
#[derive(Drop)]
pub enum Found {
    /// The bytes, at most as many as the limit.
    Bytes(Vec<u8>),
    /// The name is not there.
    Absent,
    /// There are more bytes than the limit.
    TooLong,
}

/// Why a read or a put did not come about.
#[derive(Debug, Drop, Error)]
pub enum FileFault {
    /// The outside failed.
    #[error("the file could not be read or written")]
    Failed,
    /// Memory was wanting.
    #[error(transparent)]
    Memory(#[from(alloc)] AllocError),
}

/// Files by name. An implementation tells what it holds, or tells nothing; and it counts the faults of reads and of
/// puts, so that a fault is answered only where its count rose in that call.
pub trait Files {
    /// What is held, where it is told: the bytes of each name.
    ghost told: { Self → Option Contents };

    /// How many reads failed.
    ghost read_faults: { Self → ℕ };

    /// How many puts failed.
    ghost put_faults: { Self → ℕ };

    /// The bytes of a name, if they are at most `limit`. A want of memory may come at any time.
    fn read(&mut self, alloc: Global, name: &Name, limit: usize) -> Result<Found, FileFault>
        // The answer tells what is held. `TooLong` comes with the bytes, which are more than the limit.
        ensures bytes { (m : Contents) → told self.old ≡ Some m
            → IfBytes result (λ b. m name.now ≡ Some b) }
        ensures within_limit { IfBytes result (λ b. length b ≤ limit) }
        ensures absent { (m : Contents) → told self.old ≡ Some m
            → OnAbsent result (m name.now ≡ None) }
        ensures too_long { (m : Contents) → told self.old ≡ Some m
            → OnTooLong result (IsLonger limit (m name.now)) }

        // A fault is answered only where it was counted.
        ensures failed { OnFailed result (Rose (read_faults self.old) (read_faults self.new)) }
        ensures no_fault_lost { read_faults self.old ≤ read_faults self.new }

        // All else stays.
        ensures map_stays { told self.new ≡ told self.old }
        ensures put_faults_stay { put_faults self.new ≡ put_faults self.old };

    /// Gives a name these bytes, in place of what it had.
    fn put(&mut self, name: &Name, bytes: &[u8]) -> Result<(), FileFault>
        // What is held afterwards, after each answer.
        ensures done { (m : Contents) → told self.old ≡ Some m
            → OnOk result (told self.new ≡ Some (with_entry m name.now bytes.now)) }
        ensures partly { (m : Contents) → told self.old ≡ Some m
            → OnFailed result ((n : Contents) × (told self.new ≡ Some n) × Partly m name.now bytes.now n) }
        ensures unchanged { OnMemory result (told self.new ≡ told self.old) }

        // A fault is answered only where it was counted.
        ensures failed { OnFailed result (Rose (put_faults self.old) (put_faults self.new)) }
        ensures no_fault_lost { put_faults self.old ≤ put_faults self.new }
        ensures read_faults_stay { read_faults self.new ≡ read_faults self.old };
}
