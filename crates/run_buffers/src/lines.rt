// What reading a line speaks of.

ghost use Rattle.std.specs.Prelude.{◌<◌, ◌^◌};

use std::alloc::AllocError;

/// Where reading ends without an answer: before the last bytes, so many of them, or for want of memory.
pub enum Stop {
    At(usize),
    Memory(AllocError),
}

/// What may come next in a text: at least this set and, with this set, at least this binding; at most so many words.
#[derive(Clone, Copy)]
pub struct Room {
    pub set: u32,
    pub binding: u32,
    pub words: u32,
    ghost bindings: { binding < 2 ^ 32 },
    ghost counts: { words < 2 ^ 32 },
}

/// The numbers of a line before its words.
#[derive(Clone, Copy)]
pub struct Header {
    pub set: u32,
    pub binding: u32,
    pub count: u32,
}
