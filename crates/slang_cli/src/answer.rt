// What a command comes to before anything is put or printed.

use slang_names::Name;
use slang_outcomes::Outcome;

/// A command is refused, with its line; or it gives a file its bytes, and then prints a line.
#[derive(Drop)]
pub enum Answer {
    Refuses {
        status: Outcome,
        line: Vec<u8>,
    },
    Puts {
        name: Name,
        bytes: Vec<u8>,
        line: Vec<u8>,
    },
}

/// Why a command came to no answer: a read failed, or memory was wanting.
#[derive(Drop)]
pub enum Halt {
    Read,
    Memory,
}
