// Bodies of functions.

use crate::{Arg, Evidence, TypeTerm};
use slang_names::{Name, Ref, Value};
use sqlite_items::{Boxed, Items};

/// A body: the types of its locals, which are numbered after the parameters, and its statements.
#[derive(Drop)]
pub struct Body {
    pub locals: Items<TypeTerm>,
    pub statements: Items<Stat>,
}

/// A statement.
#[derive(Drop)]
pub enum Stat {
    Block(Items<Stat>),
    /// The first value of the local of that number.
    Local(u32, Expr),
    Assign(PlaceTerm, Expr),
    /// The place gets what the operator makes of it and the value.
    Change(BinaryOp, Conversions, PlaceTerm, Expr),
    If(Expr, Boxed<Stat>, Boxed<Stat>),
    /// The condition, the step, and what is repeated.
    Loop(Expr, Boxed<Stat>, Boxed<Stat>),
    Return,
    ReturnValue(Expr),
    Break,
    Continue,
    Run(Call),
}

/// Whether a change converts the value that it reads, and converts its result back.
#[derive(Clone, Copy)]
pub struct Conversions {
    pub read: bool,
    pub result: bool,
}

/// An expression.
#[cycle(expr)]
#[derive(Drop)]
pub enum Expr {
    /// A number in two's complement.
    Int(u32),
    Uint(u32),
    False,
    True,
    Read(Boxed<PlaceTerm>),
    Unary(UnaryOp, Boxed<Expr>),
    Binary(BinaryOp, Boxed<Expr>, Boxed<Expr>),
    And(Boxed<Expr>, Boxed<Expr>),
    Or(Boxed<Expr>, Boxed<Expr>),
    /// The second where the first is true, else the third.
    Choose(Boxed<Expr>, Boxed<Expr>, Boxed<Expr>),
    /// Between int and uint.
    Convert(Boxed<Expr>),
    Vector(TypeTerm, Items<Expr>),
    /// A vector of so many equal scalars.
    Repeat(u8, Boxed<Expr>),
    /// The components of these numbers.
    Swizzle(Items<u8>, Boxed<Expr>),
    /// The field of that number.
    Field(u32, Boxed<Expr>),
    Element(Boxed<Expr>, Boxed<Expr>),
    Call(Boxed<Call>),
    List(TypeTerm, Items<Expr>),
    Zero(TypeTerm),
    Fixed(Value),
}

/// Something that can be read, and perhaps written.
#[cycle(expr)]
#[derive(Drop)]
pub enum PlaceTerm {
    /// The parameter or local of that number.
    Local(u32),
    This,
    Global(Ref),
    /// The field of that number.
    FieldOf(u32, Boxed<PlaceTerm>),
    Component(u8, Boxed<PlaceTerm>),
    ElementOf(Boxed<PlaceTerm>, Boxed<Expr>),
}

/// A call. A receiver is the first that is given.
#[cycle(expr)]
#[derive(Drop)]
pub enum Call {
    /// Of a declared function, with what its parameters stand for and evidence for their constraints.
    Direct(Ref, Items<Arg>, Items<Evidence>, Items<Given>),
    /// Of the requirement of that name of an interface, by evidence that a type conforms to it.
    Required(Evidence, Ref, Name, Items<Given>),
}

/// What a parameter is given: a value, or a place for one that is copied out.
#[cycle(expr)]
#[derive(Drop)]
pub enum Given {
    Expr(Expr),
    Place(PlaceTerm),
}

#[derive(Clone, Copy)]
pub enum UnaryOp {
    Negate,
    Complement,
    Not,
}

#[derive(Clone, Copy)]
pub enum BinaryOp {
    Add,
    Subtract,
    Multiply,
    Divide,
    Remainder,
    BitAnd,
    BitOr,
    BitXor,
    ShiftLeft,
    ShiftRight,
    Equal,
    NotEqual,
    Less,
    LessEqual,
    Greater,
    GreaterEqual,
}
