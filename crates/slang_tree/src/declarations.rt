// Trees of declarations. The place of a declaration is without its attributes and its access word.

use crate::{Attribute, Block, DeclaredName, ExprTree, Identifier, TypeTree};
use slang_names::{Access, Mode, Place};
use sqlite_items::Items;

/// A parameter between `<` and `>`.
#[derive(Drop)]
pub struct GenericParameter {
    pub place: Place,
    pub node: GenericParameterNode,
}

#[derive(Drop)]
pub enum GenericParameterNode {
    /// `name` or `name : interface`.
    Term(Identifier, Option<Identifier>),
    /// `let name : int`.
    Number(Identifier),
}

/// `where name : interface, ..`.
#[derive(Drop)]
pub struct Constraint {
    pub place: Place,
    pub subject: Identifier,
    pub interfaces: Items<Identifier>,
}

/// A parameter of a function: `inout int a[2] : semantic`. Without a word it is `In`.
#[derive(Drop)]
pub struct Parameter {
    pub place: Place,
    pub mode: Mode,
    pub kind: TypeTree,
    pub name: DeclaredName,
    pub semantic: Option<Identifier>,
}

/// A function with its body.
#[derive(Drop)]
pub struct Function {
    pub place: Place,
    pub is_static: bool,
    pub result: TypeTree,
    pub name: Identifier,
    pub generics: Items<GenericParameter>,
    pub parameters: Items<Parameter>,
    pub wheres: Items<Constraint>,
    pub body: Block,
}

/// `typedef type name;` or `typealias name = type;`.
#[derive(Drop)]
pub struct Alias {
    pub place: Place,
    pub kind: TypeTree,
    pub name: Identifier,
}

/// Fields of one declaration.
#[derive(Drop)]
pub struct Field {
    pub place: Place,
    pub kind: TypeTree,
    pub names: Items<DeclaredName>,
}

/// A member of a struct that stands in a struct, or of an extension, which has no fields.
#[derive(Drop)]
pub struct InnerMember {
    pub attributes: Items<Attribute>,
    pub access: Option<Access>,
    pub node: InnerMemberNode,
}

#[derive(Drop)]
pub enum InnerMemberNode {
    Alias(Alias),
    Function(Function),
    Field(Field),
}

/// A struct that stands in a struct.
#[derive(Drop)]
pub struct InnerStruct {
    pub place: Place,
    pub name: Identifier,
    pub generics: Items<GenericParameter>,
    pub heads: Items<Identifier>,
    pub wheres: Items<Constraint>,
    pub members: Items<InnerMember>,
}

/// A member of a struct of the module.
#[derive(Drop)]
pub struct Member {
    pub attributes: Items<Attribute>,
    pub access: Option<Access>,
    pub node: MemberNode,
}

#[derive(Drop)]
pub enum MemberNode {
    Struct(InnerStruct),
    Alias(Alias),
    Function(Function),
    Field(Field),
}

/// A struct of the module, with the semicolon behind it if there is one.
#[derive(Drop)]
pub struct Struct {
    pub place: Place,
    pub name: Identifier,
    pub generics: Items<GenericParameter>,
    pub heads: Items<Identifier>,
    pub wheres: Items<Constraint>,
    pub members: Items<Member>,
}

/// What an interface requires.
#[derive(Drop)]
pub struct Requirement {
    pub place: Place,
    pub node: RequirementNode,
}

#[derive(Drop)]
pub enum RequirementNode {
    /// `associatedtype name;` or `associatedtype name : interface;`.
    Associated(Identifier, Option<Identifier>),
    /// A function without a body: attributes, whether it is static, the result, the name and the parameters.
    Function(Items<Attribute>, bool, TypeTree, Identifier, Items<Parameter>),
}

#[derive(Drop)]
pub struct Interface {
    pub place: Place,
    pub name: Identifier,
    pub requirements: Items<Requirement>,
}

/// An extension of the struct of that name with parameters of these names.
#[derive(Drop)]
pub struct Extension {
    pub place: Place,
    pub generics: Items<GenericParameter>,
    pub name: Identifier,
    pub arguments: Items<Identifier>,
    pub heads: Items<Identifier>,
    pub wheres: Items<Constraint>,
    pub members: Items<InnerMember>,
}

/// `static const type name = value;`.
#[derive(Drop)]
pub struct Constant {
    pub place: Place,
    pub kind: TypeTree,
    pub name: Identifier,
    pub value: ExprTree,
}

/// `type name;`.
#[derive(Drop)]
pub struct Global {
    pub place: Place,
    pub kind: TypeTree,
    pub name: Identifier,
}
