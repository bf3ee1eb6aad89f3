// Types.

use slang_names::{Name, Ref, Value};
use sqlite_items::{Boxed, Items};

/// What a vector is made of.
#[derive(Clone, Copy)]
pub enum Scalar {
    Int,
    Uint,
}

/// A type. Parameters are numbered as their declaration lists them.
#[cycle(types)]
#[derive(Drop)]
pub enum TypeTerm {
    Void,
    Bool,
    Int,
    Uint,
    /// A vector of 2 to 4 scalars.
    Vector(Scalar, u8),
    Array(Boxed<TypeTerm>, Value),
    Struct(Ref, Items<Arg>),
    Parameter(u32),
    /// The associated type of that name, by the constraint to that interface.
    Projection(Boxed<TypeTerm>, Ref, Name),
    StructuredBuffer(Boxed<TypeTerm>),
    RwStructuredBuffer(Boxed<TypeTerm>),
    ConstantBuffer(Boxed<TypeTerm>),
    ParameterBlock(Boxed<TypeTerm>),
}

/// What a parameter of a declaration stands for.
#[cycle(types)]
#[derive(Drop)]
pub enum Arg {
    Term(TypeTerm),
    Fixed(Value),
}
