// Buffers as their text.

ghost use Rattle.std.specs.Prelude.{◌≡◌, ◌++◌, ◌∷◌, [], length, IfOk, OnOk};
ghost use Rattle.std.specs.Fmt.{decimal};
ghost use Rattle.run_buffers.specs.Texts.{line, line_of, text_of};
ghost use Rattle.run_buffers.specs.Lines.{byte_before};

use crate::buffer::Buffer;
use std::alloc::{AllocError, Global};

/// Appends a number in decimal, and a byte.
fn put_number(out: &mut Vec<u8>, n: u64, separator: u8) -> Result<(), AllocError>
    ensures { OnOk result (out.new.items ≡ out.old.items ++ (decimal n ++ separator ∷ [])) }
{
    let mut digits = itoa::Buffer::new();
    out.extend_from_slice(digits.format(n).as_bytes())?;
    out.push(separator)?;
    Ok(())
}

/// What stands behind a number that so many words follow.
fn separator(more: usize) -> u8
    ensures { result ≡ byte_before more }
{
    if more == 0 { b'\n' } else { b' ' }
}

fn put_words(out: &mut Vec<u8>, words: &[u32]) -> Result<(), AllocError>
    ensures { OnOk result (out.new.items ≡ out.old.items ++ line words.now) }
{
    for (i, word) in words.iter().enumerate() {
        put_number(out, u64::from(*word), separator(words.len() - 1 - i))?;
    }
    Ok(())
}

/// Appends the line of a buffer.
fn put_line(out: &mut Vec<u8>, buffer: &Buffer) -> Result<(), AllocError>
    ensures { OnOk result (out.new.items ≡ out.old.items ++ line_of buffer.now) }
{
    let words = buffer.words.as_slice();
    put_number(out, u64::from(buffer.set), b' ')?;
    put_number(out, u64::from(buffer.binding), b' ')?;
    put_number(out, words.len() as u64, separator(words.len()))?;
    put_words(out, words)
}

/// The text of buffers.
pub fn write_text(alloc: Global, buffers: &[Buffer]) -> Result<Vec<u8>, AllocError>
    ensures { IfOk result (λ text. text.items ≡ text_of buffers.now) }
{
    let mut text = Vec::new(alloc);
    for buffer in buffers {
        put_line(&mut text, buffer)?;
    }
    Ok(text)
}
