// What the lines of a script change and call.

use crate::builds::{append_many, append_repeated, append_series, append_swapped};
use crate::calls::{called, put};
use crate::texts::{append_text, number};
use case_files::CaseFiles;
use case_scripts::{ScriptFault, append_bytes, append_words, command};
use slang_store::MemoryFiles;
use std::alloc::Global;

/// How many bytes the output of a call takes where no line says it.
const ROOM: usize = 200;

/// The files, what is built, the words that are changed, the file and the call of each case, and the room of the output.
#[derive(Drop)]
pub struct State {
    pub files: CaseFiles,
    built: Vec<u8>,
    base: Vec<u8>,
    name: String,
    call: String,
    pub room: usize,
}

impl State {
    /// No file, and nothing that is built.
    pub fn new(alloc: Global) -> State {
        State {
            files: CaseFiles::new(alloc),
            built: Vec::new(alloc),
            base: Vec::new(alloc),
            name: String::new(alloc),
            call: String::new(alloc),
            room: ROOM,
        }
    }
}

/// Gives the file of each case these bytes, and makes its call.
fn case(alloc: Global, state: &mut State, bytes: &[u8]) -> Result<String, ScriptFault> {
    put(alloc, &mut state.files, state.name.as_str(), bytes)?;
    Ok(called(alloc, &mut state.files, state.call.as_str(), state.room)?)
}

/// The case of a text.
pub fn try_text(alloc: Global, state: &mut State, line: &str) -> Result<String, ScriptFault> {
    let mut bytes = Vec::new(alloc);
    append_text(&mut bytes, line)?;
    case(alloc, state, bytes.as_slice())
}

/// The case of a text with parts that stand many times.
pub fn try_many(alloc: Global, state: &mut State, line: &str) -> Result<String, ScriptFault> {
    let mut bytes = Vec::new(alloc);
    append_many(&mut bytes, line)?;
    case(alloc, state, bytes.as_slice())
}

/// The case of the base with other words.
pub fn try_swap(alloc: Global, state: &mut State, line: &str) -> Result<String, ScriptFault> {
    let mut bytes = Vec::new(alloc);
    append_swapped(&mut bytes, state.base.as_slice(), line)?;
    case(alloc, state, bytes.as_slice())
}

/// Gives a file what was built.
fn put_built(alloc: Global, state: &mut State, name: &str) -> Result<(), ScriptFault> {
    put(alloc, &mut state.files, name, state.built.as_slice())?;
    state.built.clear();
    Ok(())
}

/// The words that are changed are what was built.
fn set_base(state: &mut State) -> Result<(), ScriptFault> {
    state.base.clear();
    state.base.extend_from_slice(state.built.as_slice())?;
    state.built.clear();
    Ok(())
}

/// The file and the call of each case that follows.
fn set_case(alloc: Global, state: &mut State, line: &str) -> Result<(), ScriptFault> {
    let (name, call) = command(line);
    state.name = String::from_str(alloc, name)?;
    state.call = String::from_str(alloc, call)?;
    Ok(())
}

/// A number of reads, of puts or of bytes.
fn set_number(state: &mut State, word: &str, line: &str) -> Result<(), ScriptFault> {
    let number = number(line)?;
    match word {
        "reads" => state.files.reads = u64::from(number),
        "puts" => state.files.puts = u64::from(number),
        _ => state.room = number as usize,
    }
    Ok(())
}

/// There is no file any more.
fn clear(alloc: Global, state: &mut State) -> Result<(), ScriptFault> {
    state.files.held = MemoryFiles::new(alloc);
    Ok(())
}

/// Carries out a line of which nothing is printed.
pub fn change(alloc: Global, state: &mut State, word: &str, line: &str) -> Result<(), ScriptFault> {
    match word {
        "text" => append_text(&mut state.built, line),
        "times" => append_repeated(&mut state.built, line),
        "series" => append_series(alloc, &mut state.built, line),
        "bytes" => append_bytes(&mut state.built, line),
        "words" => append_words(&mut state.built, line),
        "put" => put_built(alloc, state, line),
        "base" => set_base(state),
        "each" => set_case(alloc, state, line),
        "reads" | "puts" | "room" => set_number(state, word, line),
        "clear" => clear(alloc, state),
        _ => Err(ScriptFault::Word),
    }
}
