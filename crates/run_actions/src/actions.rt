// The actions that the instructions of an image are resolved to.

use flat_values::{Binary, Unary};
use sqlite_items::Items;

/// Words that are copied from one place to another.
#[derive(Clone, Copy, Drop)]
pub struct Move {
    pub from: u32,
    pub to: u32,
    pub count: u32,
}

/// How many elements an index may choose from: so many, or as many whole ones as the buffer has.
#[derive(Clone, Copy, Drop)]
pub enum Extent {
    Fixed(u32),
    Whole,
}

/// An index of an access chain: the place of its word, what it chooses from, and how far elements are apart in words. An int
/// below 0 is out of every range.
#[derive(Clone, Copy, Drop)]
pub struct Index {
    pub slot: u32,
    pub extent: Extent,
    pub stride: u32,
    pub signed: bool,
}

/// What an instruction does. Its operands and its result are places of first words; so are the words that a pointer into a
/// variable consists of. A pointer into a buffer is two words: the buffer's number, and the place in it.
#[derive(Drop)]
pub enum Action {
    /// Goes on.
    Pass,
    /// Writes a word that is known.
    Put {
        to: u32,
        word: u32,
    },
    /// Operates on each of so many words.
    One {
        op: Unary,
        from: u32,
        to: u32,
        count: u32,
    },
    /// Operates on the words of two ranges, one by one.
    Two {
        op: Binary,
        left: u32,
        right: u32,
        to: u32,
        count: u32,
    },
    /// Copies words.
    Copy {
        part: Move,
    },
    /// Copies words of several ranges, one after another.
    Gather {
        parts: Items<Move>,
    },
    /// Copies words from where a pointer leads.
    Load {
        pointer: u32,
        to: u32,
        count: u32,
    },
    /// Copies words to where a pointer leads.
    Store {
        pointer: u32,
        from: u32,
        count: u32,
    },
    /// Reads a word of a buffer.
    Read {
        pointer: u32,
        to: u32,
    },
    /// Writes a word of a buffer.
    Write {
        pointer: u32,
        from: u32,
    },
    /// Makes a pointer to a part of what a pointer into a variable leads to.
    Chain {
        pointer: u32,
        to: u32,
        offset: u32,
        steps: Items<Index>,
    },
    /// The same for a pointer into a buffer.
    BufferChain {
        pointer: u32,
        to: u32,
        offset: u32,
        steps: Items<Index>,
    },
    /// Goes to a place.
    Jump {
        place: u32,
    },
    /// Goes to the first place if the word is not 0, and else to the other.
    Choose {
        condition: u32,
        one: u32,
        other: u32,
    },
    /// Copies the arguments, clears the variables, keeps where to go back to and where the result is wanted, and goes to the
    /// function's first block.
    Call {
        place: u32,
        parts: Items<Move>,
        first: u32,
        count: u32,
        frame: u32,
        back: u32,
        to: u32,
    },
    /// Goes back.
    Return {
        frame: u32,
    },
    /// Copies the result to where it is wanted, and goes back.
    GiveBack {
        frame: u32,
        from: u32,
        count: u32,
    },
    /// Ends the run.
    End,
    /// Is never to be reached.
    Unreachable,
    /// Is no instruction that is run.
    Never,
}
