//! `slangc`: the words after the program's name ask for something, the files are those of the folder in which it was
//! started, and one line goes to standard output. The exit status says what came of it.
#![tactic(auto)]

use slang_cli::{Outcome, slangc};
use slang_store::{HostFolder, HostOut, write_all};
use std::process::ExitCode;
use std::{env, io};

/// The words after the program's name.
fn words(rt: &HostRuntime) -> io::Result<Vec<String>> {
    let mut args = env::args(rt)?;
    let _program = args.next();
    let mut words = Vec::new(rt.alloc());
    for word in args {
        words.push(word)?;
    }
    Ok(words)
}

/// What comes of the words. Where memory for them was wanting, that is told; words that are no text are no command.
fn outcome(rt: &HostRuntime) -> Outcome {
    let mut files = HostFolder::new(rt);
    let mut out = HostOut::new(rt);
    match words(rt) {
        Ok(words) => slangc(rt.alloc(), words.as_slice(), &mut files, &mut out),
        Err(error) if error.kind() == io::ErrorKind::OutOfMemory => {
            match write_all(&mut out, b"memory\n") {
                Ok(()) => Outcome::Memory,
                Err(_) => Outcome::WriteFault,
            }
        }
        Err(_) => slangc(rt.alloc(), &[], &mut files, &mut out),
    }
}

fn main(rt: HostRuntime) -> ExitCode {
    let outcome = outcome(&rt);
    ExitCode::from(outcome.status())
}
