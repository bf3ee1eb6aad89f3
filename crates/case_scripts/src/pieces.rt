// The bytes that the words of a line say.

use crate::ScriptFault;

/// How often a piece is repeated at most.
const MOST: u32 = 20_000_000;

/// A number in hexadecimal.
fn hexadecimal(word: &str) -> Result<u32, ScriptFault> {
    match u32::from_str_radix(word, 16) {
        Ok(number) => Ok(number),
        Err(_) => Err(ScriptFault::Word),
    }
}

/// How often a word is said, and the word: `N*WORD` is that word N times.
fn repeated(word: &str) -> Result<(u32, &str), ScriptFault> {
    let Some((times, rest)) = word.split_once('*') else {
        return Ok((1, word));
    };
    match times.parse::<u32>() {
        Ok(times) if times <= MOST => Ok((times, rest)),
        _ => Err(ScriptFault::Word),
    }
}

/// Appends a piece so many times.
fn append_times(out: &mut Vec<u8>, times: u32, piece: &[u8]) -> Result<(), ScriptFault> {
    for _ in 0..times {
        out.extend_from_slice(piece)?;
    }
    Ok(())
}

/// Appends the bytes that words in hexadecimal say, each with two digits a byte. `N*WORD` is a word N times, and `'TEXT` is
/// the bytes of a text without blanks.
pub fn append_bytes(out: &mut Vec<u8>, line: &str) -> Result<(), ScriptFault> {
    for word in line.split_ascii_whitespace() {
        append_byte_word(out, word)?;
    }
    Ok(())
}

/// Appends the bytes of one word.
fn append_byte_word(out: &mut Vec<u8>, word: &str) -> Result<(), ScriptFault> {
    if let Some(text) = word.strip_prefix('\'') {
        out.extend_from_slice(text.as_bytes())?;
        return Ok(());
    }
    let (times, digits) = repeated(word)?;
    match hex::decode(*out.allocator(), digits) {
        Ok(bytes) => append_times(out, times, bytes.as_slice()),
        Err(_) => Err(ScriptFault::Word),
    }
}

/// Appends words of 32 bits in hexadecimal, the lowest byte of each first. `N*WORD` is a word N times.
pub fn append_words(out: &mut Vec<u8>, line: &str) -> Result<(), ScriptFault> {
    for word in line.split_ascii_whitespace() {
        let (times, digits) = repeated(word)?;
        let word = hexadecimal(digits)?;
        append_times(out, times, &word.to_le_bytes())?;
    }
    Ok(())
}

/// Appends a text so many times, where the line is the number, a blank, and the text.
pub fn append_text(out: &mut Vec<u8>, line: &str) -> Result<(), ScriptFault> {
    let Some((times, text)) = line.split_once(' ') else {
        return Err(ScriptFault::Word);
    };
    match times.parse::<u32>() {
        Ok(times) if times <= MOST => append_times(out, times, text.as_bytes()),
        _ => Err(ScriptFault::Word),
    }
}
