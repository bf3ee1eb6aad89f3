// What an expression of a text comes to.

use slang_core::{Expr, PlaceTerm, Scalar, TypeTerm};
use sqlite_items::Items;

/// A type of numbers: of int or of uint, and one number or a vector of 2 to 4.
#[derive(Clone, Copy)]
pub struct Numeric {
    pub is_unsigned: bool,
    pub size: u8,
}

/// Why a place cannot be written.
#[derive(Clone, Copy)]
pub enum Barred {
    /// It can be.
    Nothing,
    /// It is a constant, a `const` local or read-only data.
    NotAssignable,
    /// It begins with `this` in a method that is not mutating.
    ImmutableThis,
}

/// A value, or a place that can be read, with what bars a write.
#[derive(Drop)]
pub enum Form {
    Value(Expr),
    Place(PlaceTerm, Barred),
}

/// What an expression is: its type, its core, and its number where it is a number token, in parentheses too.
#[derive(Drop)]
pub struct Typing {
    pub of: TypeTerm,
    pub form: Form,
    pub literal: Option<u32>,
}

/// The value of a constant, in two's complement.
#[derive(Clone, Copy)]
pub struct Fixed {
    pub scalar: Scalar,
    pub bits: u32,
}

/// The value of an expression that is made of literals.
#[derive(Drop)]
pub enum Worth {
    /// A number or a vector: whether it is unsigned, and its words.
    Words(bool, Items<u32>),
    Truth(bool),
    /// An operation that is undefined.
    Undefined,
    /// It is made of something else than literals.
    Unknown,
}
