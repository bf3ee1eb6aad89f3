// Numbers as they are written in a text.

/// Whether a number is signed: `7` is an int, `7u` a uint.
#[derive(Clone, Copy)]
pub enum NumberKind {
    Int,
    Uint,
}

/// A number of a text: its value, at most 2147483647 for an int, and its kind.
#[derive(Clone, Copy)]
pub struct Number {
    pub value: u32,
    pub kind: NumberKind,
}
