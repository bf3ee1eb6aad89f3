// The nodes of expressions.

ghost use Rattle.std.specs.Prelude.{◌≡◌, IfOk};
ghost use Rattle.slang_tree.specs.declared.expressions.ExprNode.TheVariants as n;
ghost use Rattle.slang_grammar.specs.Expressions.{valued};

use slang_names::Place;
use slang_tree::{
    BinaryOperator, Builtin, ExprNode, ExprTree, GenericArgument, Identifier, UnaryOperator,
};
use sqlite_items::{Boxed, Items};
use std::alloc::{AllocError, Global};

/// A node without an expression inside that takes a box.
pub fn plain(place: Place, node: ExprNode) -> ExprTree
    ensures { result ≡ valued place node }
{
    ExprTree { place, node }
}

/// A value between parentheses.
pub fn parenthesized(alloc: Global, place: Place, x: ExprTree) -> Result<ExprTree, AllocError>
    ensures { IfOk result (λ y. y ≡ valued place (n.Paren x)) }
{
    Ok(ExprTree {
        place,
        node: ExprNode::Paren(Boxed::new(alloc, x)?),
    })
}

/// A name behind a dot.
pub fn member(
    alloc: Global,
    place: Place,
    x: ExprTree,
    id: Identifier,
    args: Items<GenericArgument>,
) -> Result<ExprTree, AllocError>
    ensures { IfOk result (λ y. y ≡ valued place (n.Member x id args)) }
{
    Ok(ExprTree {
        place,
        node: ExprNode::Member(Boxed::new(alloc, x)?, id, args),
    })
}

/// A value with an index in brackets.
pub fn indexed(
    alloc: Global,
    place: Place,
    x: ExprTree,
    i: ExprTree,
) -> Result<ExprTree, AllocError>
    ensures { IfOk result (λ y. y ≡ valued place (n.Index x i)) }
{
    Ok(ExprTree {
        place,
        node: ExprNode::Index(Boxed::new(alloc, x)?, Boxed::new(alloc, i)?),
    })
}

/// A call of a value.
pub fn called(
    alloc: Global,
    place: Place,
    x: ExprTree,
    args: Items<ExprTree>,
) -> Result<ExprTree, AllocError>
    ensures { IfOk result (λ y. y ≡ valued place (n.Call x args)) }
{
    Ok(ExprTree {
        place,
        node: ExprNode::Call(Boxed::new(alloc, x)?, args),
    })
}

/// An operator before its operand.
pub fn prefixed(
    alloc: Global,
    place: Place,
    op: UnaryOperator,
    x: ExprTree,
) -> Result<ExprTree, AllocError>
    ensures { IfOk result (λ y. y ≡ valued place (n.Unary op x)) }
{
    Ok(ExprTree {
        place,
        node: ExprNode::Unary(op, Boxed::new(alloc, x)?),
    })
}

/// A cast of a value.
pub fn converted(
    alloc: Global,
    place: Place,
    to: Builtin,
    x: ExprTree,
) -> Result<ExprTree, AllocError>
    ensures { IfOk result (λ y. y ≡ valued place (n.Cast to x)) }
{
    Ok(ExprTree {
        place,
        node: ExprNode::Cast(to, Boxed::new(alloc, x)?),
    })
}

/// An operator between its operands.
pub fn binary(
    alloc: Global,
    place: Place,
    op: BinaryOperator,
    x: ExprTree,
    z: ExprTree,
) -> Result<ExprTree, AllocError>
    ensures { IfOk result (λ y. y ≡ valued place (n.Binary op x z)) }
{
    Ok(ExprTree {
        place,
        node: ExprNode::Binary(op, Boxed::new(alloc, x)?, Boxed::new(alloc, z)?),
    })
}

/// A condition with its two values.
pub fn conditional(
    alloc: Global,
    place: Place,
    x: ExprTree,
    y: ExprTree,
    z: ExprTree,
) -> Result<ExprTree, AllocError>
    ensures { IfOk result (λ w. w ≡ valued place (n.Choice x y z)) }
{
    Ok(ExprTree {
        place,
        node: ExprNode::Choice(
            Boxed::new(alloc, x)?,
            Boxed::new(alloc, y)?,
            Boxed::new(alloc, z)?,
        ),
    })
}
