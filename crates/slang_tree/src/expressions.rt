// Trees of expressions.

use crate::{Builtin, GenericArgument, Identifier};
use slang_names::{Number, Place};
use sqlite_items::{Boxed, Items};

/// The operators before an operand.
#[derive(Clone, Copy)]
pub enum UnaryOperator {
    /// `-`
    Minus,
    /// `+`
    Plus,
    /// `!`
    Not,
    /// `~`
    Complement,
}

/// The operators between two operands, loosest first.
#[derive(Clone, Copy)]
pub enum BinaryOperator {
    /// `||`
    Or,
    /// `&&`
    And,
    /// `|`
    BitOr,
    /// `^`
    BitXor,
    /// `&`
    BitAnd,
    /// `==`
    Equal,
    /// `!=`
    NotEqual,
    /// `<`
    Less,
    /// `>`
    Greater,
    /// `<=`
    LessEqual,
    /// `>=`
    GreaterEqual,
    /// `<<`
    ShiftLeft,
    /// `>>`
    ShiftRight,
    /// `+`
    Add,
    /// `-`
    Subtract,
    /// `*`
    Multiply,
    /// `/`
    Divide,
    /// `%`
    Remainder,
}

/// An expression, from its first byte to past its last.
#[cycle(expressions)]
#[derive(Drop)]
pub struct ExprTree {
    pub place: Place,
    pub node: ExprNode,
}

#[cycle(expressions)]
#[derive(Drop)]
pub enum ExprNode {
    Number(Number),
    True,
    False,
    /// `this`.
    ThisValue,
    /// `This`.
    ThisType,
    /// `name` or `name<..>`; no arguments are an empty list.
    Name(Identifier, Items<GenericArgument>),
    /// `int3(..)`.
    Construct(Builtin, Items<ExprTree>),
    /// `(..)`.
    Paren(Boxed<ExprTree>),
    /// `value.name` or `value.name<..>`.
    Member(Boxed<ExprTree>, Identifier, Items<GenericArgument>),
    /// `value[..]`.
    Index(Boxed<ExprTree>, Boxed<ExprTree>),
    /// `callee(..)`.
    Call(Boxed<ExprTree>, Items<ExprTree>),
    Unary(UnaryOperator, Boxed<ExprTree>),
    /// `(int3) value`.
    Cast(Builtin, Boxed<ExprTree>),
    Binary(BinaryOperator, Boxed<ExprTree>, Boxed<ExprTree>),
    /// `condition ? value : value`.
    Choice(Boxed<ExprTree>, Boxed<ExprTree>, Boxed<ExprTree>),
}
