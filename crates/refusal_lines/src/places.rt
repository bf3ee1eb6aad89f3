// What is told of a text that is refused.

ghost use Rattle.std.specs.Prelude.{◌≤◌, IfSome, length};

use crate::kinds::{number, word};
use crate::positions::locate;
use crate::rows::picture;
use crate::sentences::module_sentence;
use std::alloc::{AllocError, Global};

/// Two bytes of a text: the first of what is refused, and the one behind its last.
#[derive(Clone, Copy)]
struct Span {
    start: usize,
    end: usize,
}

/// The place that a line tells, if the text has it.
fn told_span(words: &[String], text: &[u8]) -> Option<Span>
    ensures { IfSome result (λ s. s.start ≤ length text.now) }
{
    let (Some(start), Some(end)) = (number(words, 4), number(words, 5)) else {
        return None;
    };
    let (Ok(start), Ok(end)) = (usize::try_from(start), usize::try_from(end)) else {
        return None;
    };
    if start <= text.len() {
        Some(Span { start, end })
    } else {
        None
    }
}

/// Where a place ends that goes over several lines, and else nothing.
fn last_line(alloc: Global, text: &[u8], span: Span) -> Result<String, AllocError>
    requires { span.start ≤ length text.now }
{
    if span.end > text.len() {
        return String::from_str(alloc, "  and up to behind the end of this text\n");
    }
    let first = locate(text, span.start);
    let last = locate(text, span.end);
    if first.line == last.line {
        return Ok(String::new(alloc));
    }
    let (line, column) = (last.line, last.column);
    format!(in alloc; "  and up to before line {line}, column {column}\n")
}

/// What is told of a place that the text has.
fn placed(alloc: Global, words: &[String], text: &[u8], span: Span) -> Result<Vec<u8>, AllocError>
    requires { span.start ≤ length text.now }
{
    let position = locate(text, span.start);
    let (line, column) = (position.line, position.column);
    let said = said(alloc, words)?;
    let module = word(words, 1);
    let head = format!(in alloc; "{module}.slang:{line}:{column}: {said}\n")?;
    let mut told = Vec::from_slice(alloc, head.as_bytes())?;
    let picture = picture(alloc, text, span.start, span.end)?;
    told.extend_from_slice(picture.as_slice())?;
    let last = last_line(alloc, text, span)?;
    told.extend_from_slice(last.as_bytes())?;
    Ok(told)
}

/// The code, its name and its sentence.
fn said(alloc: Global, words: &[String]) -> Result<String, AllocError> {
    let sentence = module_sentence(number(words, 2).unwrap_or(0));
    let (code, name) = (word(words, 2), word(words, 3));
    format!(in alloc; "{code} {name}: {sentence}")
}

/// What is told where the text, or the place in it, is not there.
fn unplaced(alloc: Global, words: &[String], why: &str) -> Result<Vec<u8>, AllocError> {
    let said = said(alloc, words)?;
    let (module, start, end) = (word(words, 1), word(words, 4), word(words, 5));
    let told = format!(in alloc;
        "{module}.slang, from byte {start} to before byte {end}: {said}\n  {why}\n"
    )?;
    Vec::from_slice(alloc, told.as_bytes())
}

/// What is told of a form that is not compiled yet, which has no place.
fn not_yet(alloc: Global, words: &[String]) -> Result<Vec<u8>, AllocError> {
    let said = said(alloc, words)?;
    let module = word(words, 1);
    let told = format!(in alloc; "{module}.slang: {said}\n")?;
    Vec::from_slice(alloc, told.as_bytes())
}

/// What is told of a text that is refused.
pub fn refused(
    alloc: Global,
    words: &[String],
    text: Option<&[u8]>,
) -> Result<Vec<u8>, AllocError> {
    if word(words, 2) == "199" {
        return not_yet(alloc, words);
    }
    let Some(text) = text else {
        return unplaced(alloc, words, "the text could not be read");
    };
    match told_span(words, text) {
        Some(span) => placed(alloc, words, text, span),
        None => unplaced(alloc, words, "the text has changed: it has no such place"),
    }
}
