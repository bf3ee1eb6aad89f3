// What a file of the first form is.

use slang_names::Name;
use sqlite_items::Items;

/// A shader: the buffer of words, the entry, the entry's one parameter (the number of the invocation), the size
/// of a group, and what each invocation writes, in order.
#[derive(Drop)]
pub struct Shader {
    pub buffer: Name,
    pub entry: Name,
    pub parameter: Name,
    pub group: GroupSize,
    pub statements: Items<Statement>,
}

/// How many invocations a group has along each axis.
#[derive(Clone, Copy)]
pub struct GroupSize {
    pub x: u32,
    pub y: u32,
    pub z: u32,
}

/// `BUFFER[index] = value;`
#[derive(Drop)]
pub struct Statement {
    pub index: Sum,
    pub value: Sum,
}

/// `first + rest.0 + rest.1 ..`, from left to right, modulo 2^32.
#[derive(Drop)]
pub struct Sum {
    pub first: Item,
    pub rest: Items<Item>,
}

/// What a sum adds.
#[derive(Clone, Copy)]
pub enum Item {
    /// A number that is written out, as `7u`.
    Number(u32),
    /// The first component of the entry's parameter, as `t.x`.
    X,
}
