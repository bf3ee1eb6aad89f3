// The files of the folder where the program was started.

ghost use Rattle.std.specs.Prelude.{◌≡◌, ℕ, ◌+◌, ◌<◌, ◌≤◌, List, ◌++◌, IfOk, IfSome, length};
ghost use Rattle.std.specs.Io.KnownBytes.{Consumes, IsAtEnd};
ghost use Rattle.slang_store.specs.Answers.{IfBytes, OnAbsent, OnTooLong};

use crate::{Failed, FileFault, Files, Found};
use slang_names::Name;
use std::alloc::{AllocError, Global};
use std::io::{Error, ErrorKind, Read};
use std::marker::Model;
use std::rt::Files as HostFiles;
use std::{fs, str};

/// How many bytes one turn of a read takes at most.
const PIECE: usize = 4096;

/// The files of the folder where the program was started, by their names there. They tell nothing of what they hold.
/// A contract sees the counts of faults, each of which stays at the last value of a u64.
#[derive(Drop)]
pub struct HostFolder<R> {
    rt: R,
    read_faults: u64,
    put_faults: u64,
}

impl<R> Model for HostFolder<R> {
    ghost use Rattle.slang_store.specs.Counts.{FaultCounts};

    ghost Value = { FaultCounts };

    ghost view = { λ folder. record { reads = folder.read_faults; puts = folder.put_faults } };
}

impl<R: HostFiles> HostFolder<R> {
    /// The folder, with no fault counted.
    pub fn new(rt: R) -> HostFolder<R>
        ensures reads { result.reads ≡ 0 }
        ensures puts { result.puts ≡ 0 }
    {
        HostFolder {
            rt,
            read_faults: 0,
            put_faults: 0,
        }
    }
}

impl<R: HostFiles> Files for HostFolder<R> {
    ghost use Rattle.std.specs.Prelude.{None};

    ghost told = { λ folder. None };

    ghost read_faults = { λ folder. folder.reads };

    ghost put_faults = { λ folder. folder.puts };

    fn read(&mut self, alloc: Global, name: &Name, limit: usize) -> Result<Found, FileFault> {
        let answer = read_file(&self.rt, alloc, name, limit);
        if let Err(FileFault::Failed) = &answer {
            self.read_faults = self.read_faults.saturating_add(1);
        }
        answer
    }

    fn put(&mut self, name: &Name, bytes: &[u8]) -> Result<(), FileFault> {
        match write_file(&self.rt, name, bytes) {
            Ok(()) => Ok(()),
            Err(Failed) => {
                self.put_faults = self.put_faults.saturating_add(1);
                Err(FileFault::Failed)
            }
        }
    }
}

/// What a file holds. A name that is no text names no file that can be read.
fn read_file<R: HostFiles>(
    files: &R,
    alloc: Global,
    name: &Name,
    limit: usize,
) -> Result<Found, FileFault>
    ensures { IfBytes result (λ b. length b ≤ limit) }
{
    let Ok(path) = str::from_utf8(name.as_bytes()) else {
        return Err(FileFault::Failed);
    };
    match fs::open(files, path) {
        Ok(mut file) => read_up_to(&mut file, alloc, limit),
        Err(e) => match e.kind() {
            ErrorKind::NotFound => Ok(Found::Absent),
            _ => Err(fault_of(&e)),
        },
    }
}

/// All bytes that an input has left. No more than `limit + 1` of them are read.
fn read_up_to<I: Read>(input: &mut I, alloc: Global, limit: usize) -> Result<Found, FileFault>
    ensures within_limit { IfBytes result (λ b. length b ≤ limit) }
    ensures bytes { IfSome (I.remaining input.old) (λ xs. IfBytes result (λ b. b ≡ xs)) }
    ensures too_long { IfSome (I.remaining input.old) (λ xs. OnTooLong result (limit < length xs)) }
    ensures present { OnAbsent result ⊥ }
{
    let mut bytes = Vec::new(alloc);
    while bytes.len() <= limit {
        let room = limit - bytes.len();
        if read_more(input, &mut bytes, room)? == 0 {
            return Ok(Found::Bytes(bytes));
        }
    }
    Ok(Found::TooLong)
}

/// Reads some bytes, at most one more than `room`, and appends them. None are read only at the end.
fn read_more<I: Read>(input: &mut I, bytes: &mut Vec<u8>, room: usize) -> Result<usize, FileFault>
    ensures bound { IfOk result (λ n. n ≤ room + 1) }
    ensures moved { IfOk result (λ n. (piece : List ℕ) × (length piece ≡ n)
        × (bytes.new.items ≡ bytes.old.items ++ piece)
        × Consumes (I.remaining input.old) (I.remaining input.new) piece) }
    ensures end { IfOk result (λ n. n ≡ 0 → IsAtEnd (I.remaining input.new)) }
{
    let mut piece = [0; PIECE];
    let most = room.min(PIECE - 1) + 1;
    let count = match input.read(&mut piece[..most]) {
        Ok(count) => count,
        Err(e) => return Err(fault_of(&e)),
    };
    match bytes.extend_from_slice(&piece[..count]) {
        Ok(()) => Ok(count),
        Err(e) => Err(FileFault::Memory(e)),
    }
}

/// The fault for an error of the host.
fn fault_of(e: &Error) -> FileFault {
    match e.kind() {
        ErrorKind::OutOfMemory => FileFault::Memory(AllocError),
        _ => FileFault::Failed,
    }
}

/// Writes a file anew. A name that is no text names no file that can be written.
fn write_file<R: HostFiles>(files: &R, name: &Name, bytes: &[u8]) -> Result<(), Failed> {
    let Ok(path) = str::from_utf8(name.as_bytes()) else {
        return Err(Failed);
    };
    fs::write(files, path, bytes).map_err(|_| Failed)
}
