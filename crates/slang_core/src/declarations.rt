// Declarations: what other modules see.

use crate::{Body, Evidence, Scalar, TypeTerm};
use slang_names::{Access, Mode, Name, Ref};
use sqlite_items::Items;

/// A module: the interfaces that it reaches by imports, by ascending name; its own; and one body for each
/// function that it declares, in their order.
#[derive(Drop)]
pub struct CoreModule {
    pub reached: Items<Interface>,
    pub own: Interface,
    pub bodies: Items<Body>,
}

/// What other modules see of a module.
#[derive(Drop)]
pub struct Interface {
    pub name: Name,
    /// Direct imports, ascending.
    pub imports: Items<Name>,
    /// In the order of the text.
    pub decls: Items<Decl>,
}

/// A declaration. Members follow their struct or extension, with paths such as `S.f`.
#[derive(Drop)]
pub enum Decl {
    Struct(StructDecl),
    Interface(InterfaceDecl),
    Extension(ExtensionDecl),
    Function(FunctionDecl),
    Alias(AliasDecl),
    Constant(ConstantDecl),
    Global(GlobalDecl),
}

#[derive(Drop)]
pub struct StructDecl {
    pub path: Name,
    pub access: Access,
    pub params: Params,
    pub fields: Items<Field>,
    pub conformances: Items<Conf>,
    pub bindings: Items<Bind>,
}

#[derive(Drop)]
pub struct InterfaceDecl {
    pub path: Name,
    pub access: Access,
    pub associated: Items<Assoc>,
    pub requirements: Items<Req>,
}

#[derive(Drop)]
pub struct ExtensionDecl {
    /// The struct that is extended.
    pub subject: Ref,
    pub params: Params,
    pub conformances: Items<Conf>,
    pub bindings: Items<Bind>,
}

#[derive(Drop)]
pub struct FunctionDecl {
    pub path: Name,
    pub access: Access,
    /// The struct of a method.
    pub owner: Option<Ref>,
    pub flags: Flags,
    pub params: Params,
    pub parameters: Items<Par>,
    pub result: TypeTerm,
    /// There for a function that a device may start.
    pub entry: Option<Entry>,
}

#[derive(Drop)]
pub struct AliasDecl {
    pub path: Name,
    pub access: Access,
    pub of: TypeTerm,
}

#[derive(Drop)]
pub struct ConstantDecl {
    pub path: Name,
    pub access: Access,
    pub scalar: Scalar,
    /// The value in two's complement.
    pub bits: u32,
}

#[derive(Drop)]
pub struct GlobalDecl {
    pub path: Name,
    pub access: Access,
    pub of: TypeTerm,
    /// Where the text says it.
    pub binding: Option<Binding>,
}

/// Where a resource is bound.
#[derive(Clone, Copy)]
pub struct Binding {
    pub number: u32,
    pub set: u32,
}

#[derive(Drop)]
pub struct Field {
    pub name: Name,
    pub access: Access,
    pub of: TypeTerm,
}

/// The type that a struct or extension gives an associated type.
#[derive(Drop)]
pub struct Bind {
    pub name: Name,
    pub access: Access,
    pub of: TypeTerm,
}

/// An associated type, and the interface that bounds it.
#[derive(Drop)]
pub struct Assoc {
    pub name: Name,
    pub bound: Option<Ref>,
}

/// A parameter of a function.
#[derive(Drop)]
pub struct Par {
    pub mode: Mode,
    pub of: TypeTerm,
}

/// A function that an interface requires.
#[derive(Drop)]
pub struct Req {
    pub name: Name,
    pub flags: Flags,
    pub parameters: Items<Par>,
    pub result: TypeTerm,
}

/// How a function is a member.
#[derive(Clone, Copy)]
pub struct Flags {
    pub is_static: bool,
    pub is_mutating: bool,
}

/// The size of a group, in invocations, and what each parameter is given.
#[derive(Drop)]
pub struct Entry {
    pub x: u32,
    pub y: u32,
    pub z: u32,
    pub inputs: Items<BuiltIn>,
}

/// What an entry's parameter is given.
#[derive(Clone, Copy)]
pub enum BuiltIn {
    GroupId,
    GroupThreadId,
    DispatchThreadId,
    GroupIndex,
}

/// The parameters of a generic declaration, and the interfaces that they are to conform to. The parameters
/// of a method are its struct's or extension's, then its own.
#[derive(Drop)]
pub struct Params {
    pub list: Items<GenericParam>,
    pub constraints: Items<Constraint>,
}

/// A type parameter, or a value parameter.
#[derive(Drop)]
pub enum GenericParam {
    Term(Name),
    Fixed(Name),
}

/// That the parameter of that number conforms to an interface.
#[derive(Drop)]
pub struct Constraint {
    pub parameter: u32,
    pub interface: Ref,
}

/// That a struct conforms to an interface: a type for each associated type, evidence for each bounded one,
/// and a function for each requirement.
#[derive(Drop)]
pub struct Conf {
    pub interface: Ref,
    pub associated: Items<TypeTerm>,
    pub bounds: Items<Evidence>,
    pub members: Items<Ref>,
}
