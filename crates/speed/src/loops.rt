// A loop over scalars. The lines of the file are the words of its image in hexadecimal; one that is empty or begins with `#` is a
// remark. The buffer with set 0 and binding 0 has the number of turns, and room for the result.

use case_scripts::{append_words, is_remark};
use slang_names::Name;
use spirv_check::check_image;
use spirv_run::{Buffers, Runner, dispatch};
use spirv_words::{from_bytes, read};
use std::alloc::{AllocError, Global};
use std::io;
use std::time::Instant;

/// How many turns are taken where no number is asked for, and the most that may be asked for.
const FEW: u32 = 1_000;

const MOST: u32 = 4_000_000;

/// How many steps are taken at most.
const STEPS: u64 = 100_000_000;

/// The words of the lines, where they are words.
fn words_of(alloc: Global, lines: &str) -> Option<Vec<u32>> {
    let mut bytes = Vec::new(alloc);
    for line in lines.lines() {
        if !is_remark(line) {
            append_words(&mut bytes, line).ok()?;
        }
    }
    from_bytes(alloc, bytes.as_slice()).ok()
}

/// The runner of the image that words spell, where they spell a valid one.
fn runner_of(alloc: Global, words: &[u32]) -> Option<Runner> {
    let image = read(alloc, words).ok()?;
    let image = check_image(alloc, image).ok()?;
    Runner::new(alloc, image).ok()
}

/// A memory with the number of turns.
fn memory(alloc: Global, turns: u32) -> Result<Option<Buffers>, AllocError> {
    let text = format!(in alloc; "0 0 2 {turns} 0\n")?;
    Ok(Buffers::read(alloc, text.as_bytes()).ok())
}

/// Runs the loop, and prints the steps and the result.
fn measure(
    rt: &HostRuntime,
    runner: &mut Runner,
    buffers: &mut Buffers,
    asked: bool,
) -> io::Result<()> {
    let name = Name::from_slice(rt.alloc(), b"main")?;
    let start = Instant::now(rt)?;
    let answer = dispatch(runner, &name, [1, 1, 1], STEPS, buffers);
    let time = start.elapsed(rt)?;
    match answer {
        Ok(ran) => println!(rt; "{} {}", ran.steps, buffers.get(0, 1).unwrap_or(0))?,
        Err(_) => println!(rt; "no end")?,
    }
    if asked {
        println!(rt; "{} ms", time.as_millis())?;
    }
    Ok(())
}

/// Runs the loop, with so many turns where any are asked for.
pub fn run_loop(rt: &HostRuntime, lines: &str, turns: u32) -> io::Result<()> {
    let alloc = rt.alloc();
    let asked = turns > 0;
    let turns = if asked { turns.min(MOST) } else { FEW };
    let Some(words) = words_of(alloc, lines) else {
        return println!(rt; "no words");
    };
    let Some(mut runner) = runner_of(alloc, words.as_slice()) else {
        return println!(rt; "no image");
    };
    let Some(mut buffers) = memory(alloc, turns)? else {
        return println!(rt; "no memory");
    };
    measure(rt, &mut runner, &mut buffers, asked)
}
