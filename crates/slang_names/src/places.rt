// Where a node lies in a text, and the small marks that declarations carry.

/// A part of a text, in bytes: from `start` to before `end`. An empty part has `start` equal to `end`.
#[derive(Clone, Copy)]
pub struct Place {
    pub start: u32,
    pub end: u32,
}

/// Who may use a declaration: everybody, its own module, or its own struct or extension declaration.
#[derive(Clone, Copy)]
pub enum Access {
    Public,
    Internal,
    Private,
}

/// How a parameter is passed: copied in, copied out, or both.
#[derive(Clone, Copy)]
pub enum Mode {
    In,
    Out,
    InOut,
}

/// A number in a type: written out, or the value parameter of that number.
#[derive(Clone, Copy)]
pub enum Value {
    Number(u32),
    Parameter(u32),
}
