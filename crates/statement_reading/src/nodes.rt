// The nodes of statements that have statements inside.

ghost use Rattle.std.specs.Prelude.{◌≡◌, IfOk};
ghost use Rattle.slang_tree.specs.declared.statements.StatNode.TheVariants as s;
ghost use Rattle.statement_grammar.specs.Attributes as attributes;
ghost use Rattle.statement_grammar.specs.Statements.{stated};

use slang_names::Place;
use slang_tree::{Attribute, Change, ExprTree, LoopStart, StatNode, StatTree};
use sqlite_items::{Boxed, Items};
use std::alloc::{AllocError, Global};

/// Where a loop with these attributes begins, of which the word lies there.
pub fn begin_of(list: &[Attribute], place: Place) -> Place
    ensures { result ≡ attributes.begin_of list.now place }
{
    match list.first() {
        Some(x) => x.place,
        None => place,
    }
}

/// An `if` without `else`.
pub fn if_alone(
    alloc: Global,
    place: Place,
    x: ExprTree,
    y: StatTree,
) -> Result<StatTree, AllocError>
    ensures { IfOk result (λ z. z ≡ stated place (s.If x y)) }
{
    Ok(StatTree {
        place,
        node: StatNode::If(x, Boxed::new(alloc, y)?),
    })
}

/// An `if` with `else`.
pub fn if_both(
    alloc: Global,
    place: Place,
    x: ExprTree,
    y: StatTree,
    z: StatTree,
) -> Result<StatTree, AllocError>
    ensures { IfOk result (λ w. w ≡ stated place (s.IfElse x y z)) }
{
    let then = Boxed::new(alloc, y)?;
    let otherwise = Boxed::new(alloc, z)?;
    Ok(StatTree {
        place,
        node: StatNode::IfElse(x, then, otherwise),
    })
}

/// A `for` with its attributes.
pub fn for_loop(
    place: Place,
    list: Items<Attribute>,
    head: (LoopStart, Option<ExprTree>, Option<Change>),
    y: Boxed<StatTree>,
) -> StatTree
    ensures { result ≡ stated place (s.For list head.0 head.1 head.2 y) }
{
    let (start, x, step) = head;
    StatTree {
        place,
        node: StatNode::For(list, start, x, step, y),
    }
}

/// A `while` with its attributes.
pub fn while_loop(
    alloc: Global,
    place: Place,
    list: Items<Attribute>,
    x: ExprTree,
    y: StatTree,
) -> Result<StatTree, AllocError>
    ensures { IfOk result (λ z. z ≡ stated place (s.While list x y)) }
{
    Ok(StatTree {
        place,
        node: StatNode::While(list, x, Boxed::new(alloc, y)?),
    })
}
