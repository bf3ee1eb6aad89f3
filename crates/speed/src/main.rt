//! `speed`: how fast texts are parsed that are hard on a parser, and how fast a loop over scalars runs. The first word behind the
//! program's name is a file of texts, and the second one of the words of an image (`texts.rt` and `loops.rt` say how they look).
//! Each text is parsed with up to 2,000 bytes, and what comes of it is printed; then the loop takes 1,000 turns, and the steps
//! and the result are printed. With a number of bytes, at most 1,048,576, and one of turns, at most 4,000,000, as the third and
//! the fourth word the milliseconds are printed too.
#![tactic(auto)]

mod loops;
mod texts;

use loops::run_loop;
use std::{env, fs, io};
use texts::parse_texts;

/// The number that a word says, and 0 where it says none.
fn number(word: Option<String>) -> u32 {
    match word {
        Some(word) => word.parse::<u32>().unwrap_or(0),
        None => 0,
    }
}

/// What a file holds, or nothing where none is named.
fn file(rt: &HostRuntime, name: Option<String>) -> io::Result<String> {
    match name {
        Some(name) => fs::read_to_string(rt, name),
        None => Ok(String::new(rt.alloc())),
    }
}

fn main(rt: HostRuntime) -> io::Result<()> {
    let mut args = env::args(&rt)?;
    let _program = args.next();
    let texts = file(&rt, args.next())?;
    let words = file(&rt, args.next())?;
    let bytes = number(args.next());
    let turns = number(args.next());
    parse_texts(&rt, texts.as_str(), bytes)?;
    run_loop(&rt, words.as_str(), turns)
}
