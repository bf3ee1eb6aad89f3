// What nodes come to, and in what role they stand.

use slang_core::{BinaryOp, TypeTerm};
use sqlite_items::Items;
use type_terms::Typing;

/// What an expression denotes. A type before a dot is that type; a type that is called is none.
#[derive(Drop)]
pub enum Denoted {
    Value(Typing),
    Kind(Option<TypeTerm>),
    Function(Callee),
}

/// A function that is called: its number among all declarations, and how it was named.
#[derive(Drop)]
pub struct Callee {
    pub function: u32,
    pub reach: Reach,
}

/// How a function was named.
#[derive(Drop)]
pub enum Reach {
    /// A function of the module.
    Free,
    /// A method by its name alone, where there is no `this`.
    Alone,
    ByType,
    ByValue(Typing),
}

/// What an expression is used for.
#[derive(Clone, Copy)]
pub enum Use {
    Value,
    /// As what is indexed or chosen, where a buffer may stand too.
    Indexed,
    /// Before a dot.
    Qualifier,
    Called,
}

/// What a type is used for.
#[derive(Clone, Copy)]
pub enum Standing {
    Result,
    Parameter,
    AliasRight,
    Field,
    Global,
    Local,
    Constant,
    /// Of an array.
    Element,
    /// Before a dot.
    Qualifier,
    /// In a buffer.
    BufferData,
}

/// A local of a declaration: its number, its type and what it begins with.
#[derive(Drop)]
pub struct LocalGiven {
    pub number: u32,
    pub of: TypeTerm,
    pub value: Option<Typing>,
}

/// What an operator between two operands does.
#[derive(Clone, Copy)]
pub enum OperatorKind {
    And,
    Or,
    Arithmetic(BinaryOp),
    Shift(BinaryOp),
    Order(BinaryOp),
    Equality(BinaryOp),
}
