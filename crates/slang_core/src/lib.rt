//! The core of a module: the interface that other modules see, and the bodies of its functions.
#![tactic(auto)]

mod bodies;
mod declarations;
mod evidence;
mod types;

pub use bodies::{BinaryOp, Body, Call, Conversions, Expr, Given, PlaceTerm, Stat, UnaryOp};
pub use declarations::{
    AliasDecl, Assoc, Bind, Binding, BuiltIn, Conf, ConstantDecl, Constraint, CoreModule, Decl,
    Entry, ExtensionDecl, Field, Flags, FunctionDecl, GenericParam, GlobalDecl, Interface,
    InterfaceDecl, Par, Params, Req, StructDecl,
};
pub use evidence::Evidence;
pub use types::{Arg, Scalar, TypeTerm};
