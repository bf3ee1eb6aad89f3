// Trees of types.

use slang_names::{Name, Number, Place};
use sqlite_items::{Boxed, Items};

/// A name where it stands in the text.
#[derive(Drop)]
pub struct Identifier {
    pub place: Place,
    pub name: Name,
}

/// The types that have a word of their own. Expressions convert to them and make their values by that word.
#[derive(Clone, Copy)]
pub enum Builtin {
    Void,
    Bool,
    Int,
    Int2,
    Int3,
    Int4,
    Uint,
    Uint2,
    Uint3,
    Uint4,
}

/// The kinds of resources.
#[derive(Clone, Copy)]
pub enum Resource {
    StructuredBuffer,
    RwStructuredBuffer,
    ConstantBuffer,
    ParameterBlock,
}

/// A number or a name in brackets, as the length of an array.
#[derive(Drop)]
pub enum Term {
    Number(Place, Number),
    Name(Identifier),
}

/// A type, from its first byte to past its last.
#[cycle(types)]
#[derive(Drop)]
pub struct TypeTree {
    pub place: Place,
    pub node: TypeNode,
}

#[cycle(types)]
#[derive(Drop)]
pub enum TypeNode {
    /// A word such as `int3`.
    Builtin(Builtin),
    /// `This`.
    ThisType,
    /// `name` or `name<..>`; no arguments are an empty list.
    Named(Identifier, Items<GenericArgument>),
    /// `StructuredBuffer<..>` and its like.
    Resource(Resource, Boxed<TypeTree>),
    /// `type.name`.
    Projection(Boxed<TypeTree>, Identifier),
    /// `type[..]`.
    Array(Boxed<TypeTree>, Term),
}

/// What stands between the brackets behind a name.
#[cycle(types)]
#[derive(Drop)]
pub enum GenericArgument {
    Term(TypeTree),
    Number(Place, Number),
}
