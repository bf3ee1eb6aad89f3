// A declaration, with what of the tree it is. Contracts read one by `declaration_of`.

use slang_names::{Access, Place};
use slang_tree::{Alias, Attribute, Constant, Field, Function, Global, Identifier};

/// What is declared. A struct has its number, its name, its place, and whether it is plain: without parameters and heads.
#[derive(Clone, Copy)]
pub enum Node<'a> {
    Struct(u32, &'a Identifier, Place, bool),
    Alias(&'a Alias),
    Function(&'a [Attribute], &'a Function),
    Fields(&'a Field),
    Constant(&'a Constant),
    Global(&'a [Attribute], &'a Global),
    Unbuilt(Place),
}

/// The structs around, by which a path begins.
#[derive(Clone, Copy)]
pub enum Prefix<'a> {
    Nothing,
    Outer(&'a Identifier),
    /// The outer one, and the one that stands in it.
    Inner(&'a Identifier, &'a Identifier),
}

/// A declaration: its place in the list of all, the number of the struct around, what its path begins with, who may see it.
#[derive(Clone, Copy)]
pub struct Declaration<'a> {
    pub number: u32,
    pub owner: Option<u32>,
    pub prefix: Prefix<'a>,
    pub access: Access,
    pub node: Node<'a>,
}
