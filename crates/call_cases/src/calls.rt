// Calls, and the files that they are over.

use crate::texts::shown;
use case_files::CaseFiles;
use case_scripts::{ScriptFault, command};
use slang_cli::slangc;
use slang_names::Name;
use slang_store::{Files, HostFolder, HostOut, MemorySink};
use std::alloc::{AllocError, Global};
use std::io;

/// The words of a call.
fn words(alloc: Global, line: &str) -> Result<Vec<String>, AllocError> {
    let mut words = Vec::new(alloc);
    for word in line.split_ascii_whitespace() {
        words.push(String::from_str(alloc, word)?)?;
    }
    Ok(words)
}

/// The status of a call.
fn status(alloc: Global, words: &[String], files: &mut CaseFiles, out: &mut MemorySink) -> u8 {
    slangc(alloc, words, files, out).status()
}

/// The status of a call and what it printed, where the output takes so many bytes.
pub fn called(
    alloc: Global,
    files: &mut CaseFiles,
    line: &str,
    room: usize,
) -> Result<String, AllocError> {
    let words = words(alloc, line)?;
    let mut out = MemorySink::new(alloc, room)?;
    let status = status(alloc, words.as_slice(), files, &mut out);
    let printed = shown(alloc, out.bytes())?;
    format!(in alloc; "{status} {printed}")
}

/// The status of a call over the files of the folder, which prints its line.
pub fn host_call(rt: &HostRuntime, line: &str) -> io::Result<u8> {
    let words = words(rt.alloc(), line)?;
    let mut files = HostFolder::new(rt);
    let mut out = HostOut::new(rt);
    Ok(slangc(rt.alloc(), words.as_slice(), &mut files, &mut out).status())
}

/// Gives a file these bytes, whether puts fail or not.
pub fn put(
    alloc: Global,
    files: &mut CaseFiles,
    name: &str,
    bytes: &[u8],
) -> Result<(), ScriptFault> {
    let name = Name::from_slice(alloc, name.as_bytes())?;
    match files.held.put(&name, bytes) {
        Ok(()) => Ok(()),
        Err(_) => Err(ScriptFault::Memory(AllocError)),
    }
}

/// What a file holds, as it is printed.
pub fn held(alloc: Global, files: &CaseFiles, name: &str) -> Result<String, AllocError> {
    match files.held.get(name.as_bytes()) {
        Some(bytes) => shown(alloc, bytes),
        None => String::from_str(alloc, "absent"),
    }
}

/// How many bytes a file holds.
pub fn length(alloc: Global, files: &CaseFiles, name: &str) -> Result<String, AllocError> {
    match files.held.get(name.as_bytes()) {
        Some(bytes) => format!(in alloc; "{}", bytes.len()),
        None => String::from_str(alloc, "absent"),
    }
}

/// Whether the two files of a line hold the same.
pub fn are_same(files: &CaseFiles, line: &str) -> bool {
    let (first, second) = command(line);
    match (
        files.held.get(first.as_bytes()),
        files.held.get(second.as_bytes()),
    ) {
        (Some(first), Some(second)) => first == second,
        _ => false,
    }
}
