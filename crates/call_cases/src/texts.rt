// Texts as scripts write them, and as they are printed.

use case_scripts::ScriptFault;
use std::alloc::{AllocError, Global};

/// The byte that is meant by a backslash and this byte.
fn escaped(byte: u8) -> u8 {
    match byte {
        b'n' => b'\n',
        b'r' => b'\r',
        b't' => b'\t',
        b'v' => 0x0b,
        b's' => b' ',
        _ => byte,
    }
}

/// Appends the bytes of a text.
pub fn append_text(out: &mut Vec<u8>, text: &str) -> Result<(), ScriptFault> {
    let mut behind = false;
    for byte in text.as_bytes() {
        if behind {
            out.push(escaped(*byte))?;
            behind = false;
        } else if *byte == b'\\' {
            behind = true;
        } else {
            out.push(*byte)?;
        }
    }
    Ok(())
}

/// Bytes as they are printed: `\n` for a line feed, and `?` for any other byte that is no sign of ASCII.
pub fn shown(alloc: Global, bytes: &[u8]) -> Result<String, AllocError> {
    let mut text = String::new(alloc);
    for byte in bytes {
        match *byte {
            b'\n' => text.push_str("\\n")?,
            b' '..=b'~' => text.push(char::from(*byte))?,
            _ => text.push('?')?,
        }
    }
    Ok(text)
}

/// A number in decimal digits.
pub fn number(word: &str) -> Result<u32, ScriptFault> {
    match word.parse::<u32>() {
        Ok(number) => Ok(number),
        Err(_) => Err(ScriptFault::Word),
    }
}

/// The part of a text up to the next `$`, and the rest behind it.
pub fn part(text: &str) -> (&str, &str) {
    match text.split_once('$') {
        Some((part, rest)) => (part, rest),
        None => (text, ""),
    }
}
