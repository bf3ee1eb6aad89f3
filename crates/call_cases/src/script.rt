// The lines of a script, one after another.

use crate::calls::{are_same, called, held, host_call, length};
use crate::cases::{State, change, try_many, try_swap, try_text};
use case_scripts::{ScriptFault, command, is_remark};
use std::alloc::Global;
use std::io;

/// Carries out a call or a case, and answers what comes of it; or answers nothing, where the line is neither.
fn answered(
    alloc: Global,
    state: &mut State,
    word: &str,
    line: &str,
) -> Result<Option<String>, ScriptFault> {
    match word {
        "call" => Ok(Some(called(alloc, &mut state.files, line, state.room)?)),
        "show" => Ok(Some(held(alloc, &state.files, line)?)),
        "length" => Ok(Some(length(alloc, &state.files, line)?)),
        "try" => Ok(Some(try_text(alloc, state, line)?)),
        "many" => Ok(Some(try_many(alloc, state, line)?)),
        "swap" => Ok(Some(try_swap(alloc, state, line)?)),
        _ => Ok(None),
    }
}

/// Carries out a line, and prints what comes of it.
fn carry_out(rt: &HostRuntime, state: &mut State, line: &str) -> io::Result<()> {
    let alloc = rt.alloc();
    let (word, rest) = command(line);
    match word {
        "title" => println!(rt; "\n{rest}"),
        "same" => println!(rt; "  {line}: {}", are_same(&state.files, rest)),
        "host" => println!(rt; "  {line}: {}", host_call(rt, rest)?),
        _ => match answered(alloc, state, word, rest) {
            Ok(Some(answer)) => println!(rt; "  {line}: {answer}"),
            Ok(None) => changed(rt, state, word, rest),
            Err(_) => println!(rt; "a line that is not understood: {line}"),
        },
    }
}

/// Carries out a line of which nothing is printed, if it is understood.
fn changed(rt: &HostRuntime, state: &mut State, word: &str, line: &str) -> io::Result<()> {
    match change(rt.alloc(), state, word, line) {
        Ok(()) => Ok(()),
        Err(_) => println!(rt; "a line that is not understood: {word} {line}"),
    }
}

/// Carries out all lines of a script.
pub fn run_script(rt: &HostRuntime, text: &str) -> io::Result<()> {
    let mut state = State::new(rt.alloc());
    for line in text.lines() {
        if !is_remark(line) {
            carry_out(rt, &mut state, line)?;
        }
    }
    Ok(())
}
