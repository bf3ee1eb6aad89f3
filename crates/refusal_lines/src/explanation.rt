// What a person wants to see of a line.

use crate::kinds::{Kind, kind_of, number, word};
use crate::places::refused;
use crate::sentences::{form_sentence, image_sentence, input_sentence, link_sentence};
use std::alloc::{AllocError, Global};

/// The commands, as they are told where words are none.
const COMMANDS: &str = "the words are no command; the commands are

    slangc compile MODULE.ENTRY IMAGE MODULE
    slangc run IMAGE ENTRY X Y Z STEPS BUFFERS OUT

compile reads the file MODULE.slang of this folder and writes the image of its entry to the file IMAGE. run checks the
image, runs X times Y times Z groups of it, each invocation for at most STEPS steps, over the buffers of the file BUFFERS,
and writes what they hold afterwards to the file OUT. Words stand in this order, without options; files are named without
folders, numbers are decimal without leading zeros, and STEPS is at most 100000000.
";

/// The words of a line from an index on, with blanks between them.
fn said(alloc: Global, words: &[String], from: usize) -> Result<String, AllocError> {
    let mut line = String::new(alloc);
    for (i, word) in words.iter().enumerate() {
        if i >= from {
            if i > from {
                line.push(' ')?;
            }
            line.push_str(word.as_str())?;
        }
    }
    Ok(line)
}

/// What is told of a line with a code, a name and values.
fn coded(
    alloc: Global,
    what: &str,
    words: &[String],
    sentence: &str,
) -> Result<String, AllocError> {
    let said = said(alloc, words, 1)?;
    format!(in alloc; "{what}: {said}: {sentence}\n")
}

/// What is told of an image that is refused: its words are counted from 0.
fn image(alloc: Global, words: &[String]) -> Result<String, AllocError> {
    let sentence = image_sentence(number(words, 1).unwrap_or(0));
    let (code, name, place) = (word(words, 1), word(words, 2), word(words, 3));
    format!(in alloc; "the image, at its word {place}, counted from 0: {code} {name}: {sentence}\n")
}

/// What is told of a stored module that is refused.
fn form(alloc: Global, words: &[String]) -> Result<String, AllocError> {
    let sentence = form_sentence(number(words, 2).unwrap_or(0));
    let (file, code, name, place) = (
        word(words, 1),
        word(words, 2),
        word(words, 3),
        word(words, 4),
    );
    format!(in alloc; "the stored module {file}, at {place}: {code} {name}: {sentence}\n")
}

/// What is told of a run that was stopped.
fn stopped(alloc: Global, words: &[String], undefined: bool) -> Result<String, AllocError> {
    let (invocation, step) = (word(words, 1), word(words, 2));
    if undefined {
        return format!(in alloc;
            "invocation {invocation}, counted from 0, did something undefined at its step {step}: it read or wrote past an end, divided by zero, or shifted by 32 or more\n"
        );
    }
    format!(in alloc;
        "invocation {invocation}, counted from 0, had not ended after its steps: allow more, or look for an endless loop\n"
    )
}

/// What is told of a command that was carried out.
fn done(alloc: Global, words: &[String], ran: bool) -> Result<String, AllocError> {
    let (first, second) = (word(words, 0), word(words, 1));
    if ran {
        return format!(in alloc; "{first} invocations ran, and took {second} steps together\n");
    }
    format!(in alloc; "the image was put into {first}; it has {second} words\n")
}

/// What is told of the outside.
fn outside(alloc: Global, words: &[String], kind: Kind) -> Result<String, AllocError> {
    match kind {
        Kind::Read => String::from_str(alloc, "a file is there and could not be read\n"),
        Kind::Memory => String::from_str(alloc, "memory was wanting\n"),
        Kind::Absent => {
            let name = word(words, 1);
            format!(in alloc; "there is no file {name} in the folder where slangc was started\n")
        }
        Kind::Nothing => String::from_str(
            alloc,
            "nothing was printed: a file or the output could not be written\n",
        ),
        _ => {
            let said = said(alloc, words, 0)?;
            format!(in alloc; "this is no line of slangc: {said}\n")
        }
    }
}

/// What is told of a line that speaks of no text.
fn plain(alloc: Global, words: &[String]) -> Result<String, AllocError> {
    let kind = kind_of(words);
    match kind {
        Kind::Put => done(alloc, words, false),
        Kind::Ran => done(alloc, words, true),
        Kind::Link => {
            let sentence = link_sentence(number(words, 1).unwrap_or(0));
            coded(alloc, "the modules do not link", words, sentence)
        }
        Kind::Words => String::from_str(alloc, COMMANDS),
        Kind::Undefined => stopped(alloc, words, true),
        Kind::Budget => stopped(alloc, words, false),
        Kind::Form => form(alloc, words),
        Kind::Image => image(alloc, words),
        Kind::Input => {
            let sentence = input_sentence(number(words, 1).unwrap_or(0));
            coded(alloc, "the image is not run", words, sentence)
        }
        _ => outside(alloc, words, kind),
    }
}

/// What a person wants to see of a line of `slangc`, whose words are given, and of the text of the module of which it speaks,
/// where that is there. Every line has an answer, also one that `slangc` does not print, and one whose place the text does
/// not have any more.
pub fn explain_line(
    alloc: Global,
    words: &[String],
    text: Option<&[u8]>,
) -> Result<Vec<u8>, AllocError> {
    match kind_of(words) {
        Kind::Refused => refused(alloc, words, text),
        _ => {
            let told = plain(alloc, words)?;
            Vec::from_slice(alloc, told.as_bytes())
        }
    }
}
