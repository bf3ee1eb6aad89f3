// A sink that stands in memory.

ghost use Rattle.std.specs.Prelude.{◌≡◌, [], IfOk};

use crate::{Failed, Sink};
use std::alloc::{AllocError, Global};
use std::marker::Model;

/// A sink in memory, with room for so many bytes. It tells all that it took. A contract sees the bytes, how many more
/// fit, and the count of faults, which stays at the last value of a u64.
#[derive(Drop)]
pub struct MemorySink {
    bytes: Vec<u8>,
    room: usize,
    faults: u64,
}

impl Model for MemorySink {
    ghost use Rattle.std.specs.Prelude.{ℕ, ◌-◌, ◌≤◌, length, vec_capacity};
    ghost use Rattle.slang_store.specs.Room.{SinkState};

    ghost Value = { SinkState };

    ghost view = { λ s. record { bytes = s.bytes.items; left = s.room - length s.bytes.items; faults = s.faults } };

    ghost invariant = { λ s. (length s.bytes.items ≤ s.room) × (s.room ≤ vec_capacity s.bytes) };
}

impl MemorySink {
    /// A sink with room for this many bytes. The room is taken now, and no later call takes memory.
    pub fn new(alloc: Global, room: usize) -> Result<MemorySink, AllocError>
        ensures empty { IfOk result (λ sink. sink.bytes ≡ []) }
        ensures room { IfOk result (λ sink. sink.left ≡ room) }
        ensures no_fault { IfOk result (λ sink. sink.faults ≡ 0) }
    {
        Ok(MemorySink {
            bytes: Vec::with_capacity(alloc, room)?,
            room,
            faults: 0,
        })
    }

    /// The bytes that were taken.
    pub fn bytes(&self) -> &[u8]
        ensures { result.now ≡ self.now.bytes }
    {
        self.bytes.as_slice()
    }
}

impl Sink for MemorySink {
    ghost use Rattle.std.specs.Prelude.{◌+◌, ◌-◌, ◌<◌, ◌≤◌, ◌↔◌, ◌++◌, Some, IfOk, OnErr, IsErr};
    ghost use Rattle.std.specs.Prelude.{length, min, take};
    ghost use Rattle.slang_store.specs.Counts.{last_count};

    ghost taken = { λ sink. Some sink.bytes };

    ghost faults = { λ sink. sink.faults };

    /// Takes as much of the piece as still fits.
    fn take(&mut self, piece: &[u8]) -> Result<usize, Failed>
        ensures full { IsErr result ↔ ((0 < length piece.now) × (self.old.left ≡ 0)) }
        ensures counted { OnErr result
            (self.new ≡ record self.old { faults = min (self.old.faults + 1) last_count }) }
        ensures amount { IfOk result (λ n. n ≡ min (length piece.now) self.old.left) }
        ensures bytes { IfOk result (λ n. self.new.bytes ≡ self.old.bytes ++ take n piece.now) }
        ensures room { IfOk result (λ n. self.new.left ≡ self.old.left - n) }
        ensures faults { IfOk result (λ n. self.new.faults ≡ self.old.faults) }
        ensures no_fault_lost { self.old.faults ≤ self.new.faults }
    {
        let count = piece.len().min(self.room - self.bytes.len());
        if count == 0 && !piece.is_empty() {
            self.faults = self.faults.saturating_add(1);
            return Err(Failed);
        }
        self.bytes.extend_from_slice(&piece[..count]).unwrap();
        Ok(count)
    }
}
