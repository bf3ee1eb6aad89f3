// The lines of a script, one after another.

use crate::answers::{answer, cuts};
use case_scripts::{ScriptFault, append_bytes, command, is_remark};
use std::alloc::Global;
use std::io;

/// What stands before and behind the bytes of each module.
#[derive(Drop)]
struct Frame {
    before: Vec<u8>,
    behind: Vec<u8>,
}

/// The bytes that a line says, between those of the frame.
fn framed(alloc: Global, frame: &Frame, line: &str) -> Result<Vec<u8>, ScriptFault> {
    let mut bytes = Vec::from_slice(alloc, frame.before.as_slice())?;
    append_bytes(&mut bytes, line)?;
    bytes.extend_from_slice(frame.behind.as_slice())?;
    Ok(bytes)
}

/// What is printed of a module, and of its beginnings where they are asked for.
fn tried(alloc: Global, frame: &Frame, line: &str, cut: bool) -> Result<String, ScriptFault> {
    let bytes = framed(alloc, frame, line)?;
    let answer = answer(alloc, bytes.as_slice())?;
    if !cut {
        return Ok(answer);
    }
    let count = cuts(alloc, bytes.as_slice());
    Ok(format!(in alloc; "{answer}, {count} beginnings are cut short")?)
}

/// The bytes of a line, in place of others.
fn replaced(bytes: &mut Vec<u8>, line: &str) -> Result<(), ScriptFault> {
    bytes.clear();
    append_bytes(bytes, line)
}

/// Carries out a line, and answers what is printed.
fn carried(alloc: Global, frame: &mut Frame, line: &str) -> Result<String, ScriptFault> {
    let (word, rest) = command(line);
    match word {
        "title" => Ok(format!(in alloc; "\n{rest}\n")?),
        "before" => {
            replaced(&mut frame.before, rest)?;
            Ok(String::new(alloc))
        }
        "more" => {
            append_bytes(&mut frame.before, rest)?;
            Ok(String::new(alloc))
        }
        "behind" => {
            replaced(&mut frame.behind, rest)?;
            Ok(String::new(alloc))
        }
        "module" => {
            let answer = tried(alloc, frame, rest, false)?;
            Ok(format!(in alloc; "  {rest}: {answer}\n")?)
        }
        "cut" => {
            let answer = tried(alloc, frame, rest, true)?;
            Ok(format!(in alloc; "  {rest}: {answer}\n")?)
        }
        _ => Err(ScriptFault::Word),
    }
}

/// Carries out all lines of a script.
pub fn run_script(rt: &HostRuntime, text: &str) -> io::Result<()> {
    let alloc = rt.alloc();
    let mut frame = Frame {
        before: Vec::new(alloc),
        behind: Vec::new(alloc),
    };
    for line in text.lines() {
        if is_remark(line) {
            continue;
        }
        match carried(alloc, &mut frame, line) {
            Ok(printed) => print!(rt; "{printed}")?,
            Err(_) => println!(rt; "a line that is not understood: {line}")?,
        }
    }
    Ok(())
}
