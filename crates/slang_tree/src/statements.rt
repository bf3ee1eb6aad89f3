// Trees of statements.

use crate::{BinaryOperator, ExprTree, Identifier, Term, TypeTree};
use slang_names::{Name, Number, Place};
use sqlite_items::{Boxed, Items};

/// A number or a string in an attribute. The bytes of a string are those between its quotes.
#[derive(Drop)]
pub enum Literal {
    Number(Place, Number),
    String(Place, Name),
}

/// An attribute, with its brackets.
#[derive(Drop)]
pub struct Attribute {
    pub place: Place,
    pub node: AttributeNode,
}

#[derive(Drop)]
pub enum AttributeNode {
    /// `[name]` or `[name(..)]`; no arguments are an empty list.
    Named(Identifier, Items<Literal>),
    /// `[[vk::binding(binding, set)]]`.
    Binding(Number, Number),
}

/// A name that is declared, with the lengths of arrays behind it: `a[2][3]`. Its place goes from the name to past the last
/// bracket; without brackets it is that of the name.
#[derive(Drop)]
pub struct DeclaredName {
    pub place: Place,
    pub name: Identifier,
    pub lengths: Items<Term>,
}

/// A list in braces, with its braces.
#[cycle(lists)]
#[derive(Drop)]
pub struct ListTree {
    pub place: Place,
    pub items: Items<Initializer>,
}

/// What a local begins with: an expression or a list.
#[cycle(lists)]
#[derive(Drop)]
pub enum Initializer {
    Expression(ExprTree),
    List(ListTree),
}

/// One name of a local, and what it begins with.
#[derive(Drop)]
pub struct LocalName {
    pub name: DeclaredName,
    pub value: Option<Initializer>,
}

/// Locals of one declaration, from `const` or the type to before the semicolon.
#[derive(Drop)]
pub struct Local {
    pub place: Place,
    pub is_const: bool,
    pub kind: TypeTree,
    pub names: Items<LocalName>,
}

/// `++` or `--`.
#[derive(Clone, Copy)]
pub enum Step {
    Increment,
    Decrement,
}

/// A change of a place or a call, to before the semicolon.
#[derive(Drop)]
pub struct Change {
    pub place: Place,
    pub node: ChangeNode,
}

#[derive(Drop)]
pub enum ChangeNode {
    /// `place = value`.
    Assign(ExprTree, ExprTree),
    /// `place += value` and its like.
    Update(BinaryOperator, ExprTree, ExprTree),
    /// `++place`.
    StepBefore(Step, ExprTree),
    /// `place++`.
    StepBehind(ExprTree, Step),
    Call(ExprTree),
}

/// The first part of the head of a `for`.
#[derive(Drop)]
pub enum LoopStart {
    Nothing,
    Local(Local),
    Change(Change),
}

/// A statement, with its semicolon; a loop begins at its attributes.
#[cycle(statements)]
#[derive(Drop)]
pub struct StatTree {
    pub place: Place,
    pub node: StatNode,
}

#[cycle(statements)]
#[derive(Drop)]
pub enum StatNode {
    /// `{..}`.
    Block(Items<StatTree>),
    Local(Local),
    Change(Change),
    /// `;`.
    Empty,
    If(ExprTree, Boxed<StatTree>),
    IfElse(ExprTree, Boxed<StatTree>, Boxed<StatTree>),
    For(Items<Attribute>, LoopStart, Option<ExprTree>, Option<Change>, Boxed<StatTree>),
    While(Items<Attribute>, ExprTree, Boxed<StatTree>),
    Return(Option<ExprTree>),
    Break,
    Continue,
}

/// The body of a function, with its braces.
#[derive(Drop)]
pub struct Block {
    pub place: Place,
    pub statements: Items<StatTree>,
}
