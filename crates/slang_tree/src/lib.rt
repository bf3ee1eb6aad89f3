//! Syntax trees, and the names, places, codes and limits that they are made of.
#![tactic(auto)]

mod declarations;
mod expressions;
mod file;
mod nesting;
mod statements;
mod tree;
mod types;

pub use declarations::{
    Alias, Constant, Constraint, Extension, Field, Function, GenericParameter,
    GenericParameterNode, Global, InnerMember, InnerMemberNode, InnerStruct, Interface, Member,
    MemberNode, Parameter, Requirement, RequirementNode, Struct,
};
pub use expressions::{BinaryOperator, ExprNode, ExprTree, UnaryOperator};
pub use file::{File, Item, ItemNode, ModuleLine};
pub use slang_names::{
    Access, Counted, FormCode, LinkCause, LinkFault, Mode, ModuleCode, ModuleFault, Name, Number,
    NumberKind, Place, Ref, RunCause, Value, is_name, is_word_byte, limits,
};
pub use statements::{
    Attribute, AttributeNode, Block, Change, ChangeNode, DeclaredName, Initializer, ListTree,
    Literal, Local, LocalName, LoopStart, StatNode, StatTree, Step,
};
pub use tree::Tree;
pub use types::{Builtin, GenericArgument, Identifier, Resource, Term, TypeNode, TypeTree};
