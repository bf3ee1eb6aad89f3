// What is built of more than one piece.

use crate::texts::{append_text, number, part};
use case_scripts::{ScriptFault, append_words, command};
use std::alloc::Global;

/// Appends a text so many times.
pub fn append_times(out: &mut Vec<u8>, times: u32, text: &str) -> Result<(), ScriptFault> {
    let mut piece = Vec::new(*out.allocator());
    append_text(&mut piece, text)?;
    for _ in 0..times {
        out.extend_from_slice(piece.as_slice())?;
    }
    Ok(())
}

/// Appends what a line `N TEXT` says.
pub fn append_repeated(out: &mut Vec<u8>, line: &str) -> Result<(), ScriptFault> {
    let (times, text) = command(line);
    append_times(out, number(times)?, text)
}

/// Appends a text with a number in it.
fn append_numbered(
    alloc: Global,
    out: &mut Vec<u8>,
    front: &str,
    n: u32,
    back: &str,
) -> Result<(), ScriptFault> {
    let digits = n.to_string(alloc)?;
    append_text(out, front)?;
    append_text(out, digits.as_str())?;
    append_text(out, back)
}

/// Appends what a line `A B TEXT` says: the text for each number from A to before B.
pub fn append_series(alloc: Global, out: &mut Vec<u8>, line: &str) -> Result<(), ScriptFault> {
    let (first, rest) = command(line);
    let (end, text) = command(rest);
    let (front, back) = part(text);
    for n in number(first)?..number(end)? {
        append_numbered(alloc, out, front, n, back)?;
    }
    Ok(())
}

/// Appends what a line `N A$B$C$D$E` says.
pub fn append_many(out: &mut Vec<u8>, line: &str) -> Result<(), ScriptFault> {
    let (times, text) = command(line);
    let times = number(times)?;
    let (first, text) = part(text);
    let (second, text) = part(text);
    let (third, text) = part(text);
    let (fourth, fifth) = part(text);
    append_text(out, first)?;
    append_times(out, times, second)?;
    append_text(out, third)?;
    append_times(out, times, fourth)?;
    append_text(out, fifth)
}

/// The number of the byte where a word begins.
fn byte_of(word: &str) -> Result<usize, ScriptFault> {
    let word = number(word)?;
    Ok((word as usize).saturating_mul(4))
}

/// Appends the bytes of a base, with what a line `A B WORDS` says in place of its words from A to before B.
pub fn append_swapped(out: &mut Vec<u8>, base: &[u8], line: &str) -> Result<(), ScriptFault> {
    let (from, rest) = command(line);
    let (to, words) = command(rest);
    let front = base.get(..byte_of(from)?).ok_or(ScriptFault::Word)?;
    let back = base.get(byte_of(to)?..).ok_or(ScriptFault::Word)?;
    out.extend_from_slice(front)?;
    append_words(out, words)?;
    out.extend_from_slice(back)?;
    Ok(())
}
