//! `explain`: what a line of `slangc` says to a person. The words after the program's name are those of the line, or, where
//! there are none, standard input has it. The text of which the line speaks is looked for in the folder where it is started.
//! It ends with the status with which `slangc` printed the line.
#![tactic(auto)]

use refusal_lines::{explain_line, module_of, status};
use slang_names::{Name, is_name, limits};
use slang_store::{Files, Found, HostFolder, HostOut, write_all};
use std::alloc::AllocError;
use std::process::ExitCode;
use std::{env, io};

/// The words of the line after the program's name.
fn given_words(rt: &HostRuntime) -> io::Result<Vec<String>> {
    let mut args = env::args(rt)?;
    let _program = args.next();
    let mut words = Vec::new(rt.alloc());
    for word in args {
        words.push(word)?;
    }
    Ok(words)
}

/// The words of a line, which blanks part.
fn words_of(rt: &HostRuntime, line: &str) -> Result<Vec<String>, AllocError> {
    let mut words = Vec::new(rt.alloc());
    for word in line.split_ascii_whitespace() {
        words.push(String::from_str(rt.alloc(), word)?)?;
    }
    Ok(words)
}

/// The words of the call, or else those of the first line of standard input. What is no text has none.
fn line_words(rt: &HostRuntime) -> Result<Vec<String>, AllocError> {
    match given_words(rt) {
        Ok(words) if words.len() >= 1 => return Ok(words),
        _ => {}
    }
    let mut line = String::new(rt.alloc());
    match rt.read_line(&mut line) {
        Ok(_) => words_of(rt, line.as_str()),
        Err(_) => Ok(Vec::new(rt.alloc())),
    }
}

/// The text of a module, if the folder has it.
fn text_of(rt: &HostRuntime, module: &str) -> Result<Option<Vec<u8>>, AllocError> {
    if !is_name(module.as_bytes()) {
        return Ok(None);
    }
    let file = format!(in rt.alloc(); "{module}.slang")?;
    let name = Name::from_slice(rt.alloc(), file.as_bytes())?;
    let mut folder = HostFolder::new(rt);
    match folder.read(rt.alloc(), &name, limits::IMAGE_BYTES) {
        Ok(Found::Bytes(text)) => Ok(Some(text)),
        _ => Ok(None),
    }
}

/// What is printed of the words of a line.
fn told(rt: &HostRuntime, words: &[String]) -> Result<Vec<u8>, AllocError> {
    let Some(module) = module_of(words) else {
        return explain_line(rt.alloc(), words, None);
    };
    match text_of(rt, module)? {
        Some(text) => explain_line(rt.alloc(), words, Some(text.as_slice())),
        None => explain_line(rt.alloc(), words, None),
    }
}

/// Prints what is told of the line, and answers its status.
fn explained(rt: &HostRuntime) -> Result<u8, AllocError> {
    let words = line_words(rt)?;
    let told = told(rt, words.as_slice())?;
    let mut out = HostOut::new(rt);
    match write_all(&mut out, told.as_slice()) {
        Ok(()) => Ok(status(words.as_slice())),
        Err(_) => Ok(5),
    }
}

/// 6 is the status of `slangc` where memory was wanting, and 5 where the output failed.
fn main(rt: HostRuntime) -> ExitCode {
    match explained(&rt) {
        Ok(status) => ExitCode::from(status),
        Err(_) => ExitCode::from(6),
    }
}
