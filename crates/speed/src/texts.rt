// Texts that are hard on a parser. Each line of the file is one: its name, a front, a part that is repeated as often as there is
// room, and a back, with `|` between them. A line that is empty or begins with `#` is a remark.

use case_scripts::is_remark;
use slang_names::ModuleFault;
use slang_parse::parse;
use std::alloc::{AllocError, Global};
use std::io;
use std::time::Instant;

/// How many bytes a text has at most where no number is asked for, and the most that may be asked for.
const FEW: u32 = 2_000;

const MOST: u32 = 1_048_576;

/// The part of a line up to the next `|`, and the rest behind it.
fn part(line: &str) -> (&str, &str) {
    match line.split_once('|') {
        Some((part, rest)) => (part, rest),
        None => (line, ""),
    }
}

/// Appends the unit as often as it fits into so many bytes.
fn fill(text: &mut Vec<u8>, unit: &str, room: usize) -> Result<(), AllocError> {
    for _unit in 0..room {
        if text.len().saturating_add(unit.len()) > room {
            break;
        }
        text.extend_from_slice(unit.as_bytes())?;
    }
    Ok(())
}

/// The text of a line behind its name, of at most so many bytes.
fn text_of(alloc: Global, line: &str, room: usize) -> Result<Vec<u8>, AllocError> {
    let (front, rest) = part(line);
    let (unit, back) = part(rest);
    let mut text = Vec::from_slice(alloc, front.as_bytes())?;
    fill(&mut text, unit, room.saturating_sub(back.len()))?;
    text.extend_from_slice(back.as_bytes())?;
    Ok(text)
}

/// What comes of a text: that it is parsed, or the code and the place of its refusal.
fn answer(alloc: Global, text: &[u8]) -> Result<String, AllocError> {
    match parse(alloc, text) {
        Ok(_) => String::from_str(alloc, "parsed"),
        Err(ModuleFault::Refused { place, code }) => {
            format!(in alloc; "{} {} {}", code.number(), place.start, place.end)
        }
        Err(ModuleFault::Memory(_)) => String::from_str(alloc, "no memory"),
    }
}

/// Parses the text of a line, and prints what came of it.
fn measure(rt: &HostRuntime, line: &str, room: usize, asked: bool) -> io::Result<()> {
    let (name, rest) = part(line);
    let text = text_of(rt.alloc(), rest, room)?;
    let start = Instant::now(rt)?;
    let answer = answer(rt.alloc(), text.as_slice())?;
    let time = start.elapsed(rt)?;
    println!(rt; "{name}: {answer}")?;
    if asked {
        println!(rt; "{} bytes, {} ms", text.len(), time.as_millis())?;
    }
    Ok(())
}

/// Parses each text, of at most so many bytes where any are asked for.
pub fn parse_texts(rt: &HostRuntime, lines: &str, bytes: u32) -> io::Result<()> {
    let asked = bytes > 0;
    let room = if asked { bytes.min(MOST) } else { FEW };
    for line in lines.lines() {
        if !is_remark(line) {
            measure(rt, line, room as usize, asked)?;
        }
    }
    Ok(())
}
