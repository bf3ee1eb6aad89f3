// Statements.

ghost use Rattle.std.specs.Prelude.{◌≡◌, map};
ghost use Rattle.early_forms.specs.Early as early;

use crate::expressions::{in_expr, in_value};
use crate::types::in_type;
use slang_tree::{
    Block, Change, ChangeNode, ExprTree, Initializer, ListTree, Local, LocalName, LoopStart,
    StatNode, StatTree,
};

#[cycle(lists_in)]
fn in_list(list: &ListTree) -> bool
    ensures { result ≡ early.in_list list.now }
{
    in_initializers(list.items.as_slice())
}

#[cycle(lists_in)]
fn in_initializer(value: &Initializer) -> bool
    ensures { result ≡ early.in_initializer value.now }
{
    match value {
        Initializer::Expression(tree) => in_expr(tree),
        Initializer::List(list) => in_list(list),
    }
}

#[cycle(lists_in)]
fn in_initializers(list: &[Initializer]) -> bool
    ensures { result ≡ early.some_of (map early.in_initializer list.now) }
{
    for item in list {
        if in_initializer(item) {
            return true;
        }
    }
    false
}

fn in_local_name(name: &LocalName) -> bool
    ensures { result ≡ early.in_local_name name.now }
{
    match &name.value {
        Some(value) => in_initializer(value),
        None => false,
    }
}

fn in_local_names(list: &[LocalName]) -> bool
    ensures { result ≡ early.some_of (map early.in_local_name list.now) }
{
    for item in list {
        if in_local_name(item) {
            return true;
        }
    }
    false
}

fn in_local(local: &Local) -> bool
    ensures { result ≡ early.in_local local.now }
{
    in_type(&local.kind) || in_local_names(local.names.as_slice())
}

fn in_change(change: &Change) -> bool
    ensures { result ≡ early.in_change change.now }
{
    match &change.node {
        ChangeNode::Assign(place, value) => in_expr(place) || in_expr(value),
        ChangeNode::Update(_, place, value) => in_expr(place) || in_expr(value),
        ChangeNode::StepBefore(_, place) => in_expr(place),
        ChangeNode::StepBehind(place, _) => in_expr(place),
        ChangeNode::Call(call) => in_expr(call),
    }
}

fn in_start(start: &LoopStart) -> bool
    ensures { result ≡ early.in_start start.now }
{
    match start {
        LoopStart::Nothing => false,
        LoopStart::Local(local) => in_local(local),
        LoopStart::Change(change) => in_change(change),
    }
}

fn in_step(step: &Option<Change>) -> bool
    ensures { result ≡ early.optional early.in_change step.now }
{
    match step {
        Some(step) => in_change(step),
        None => false,
    }
}

/// In the head of a `for`.
fn in_head(start: &LoopStart, condition: &Option<ExprTree>, step: &Option<Change>) -> bool
    ensures { result ≡ early.in_head start.now condition.now step.now }
{
    in_start(start) || in_value(condition) || in_step(step)
}

#[cycle(statements_in)]
fn in_stat(tree: &StatTree) -> bool
    ensures { result ≡ early.in_stat tree.now }
{
    in_stat_node(&tree.node)
}

#[cycle(statements_in)]
fn in_stat_node(node: &StatNode) -> bool
    ensures { result ≡ early.in_stat_node node.now }
{
    match node {
        StatNode::Block(list) => in_stats(list.as_slice()),
        StatNode::Local(local) => in_local(local),
        StatNode::Change(change) => in_change(change),
        StatNode::Empty | StatNode::Break | StatNode::Continue => false,
        StatNode::If(condition, then) => in_expr(condition) || in_stat(then.get()),
        StatNode::IfElse(condition, then, otherwise) => {
            in_expr(condition) || in_stat(then.get()) || in_stat(otherwise.get())
        }
        StatNode::For(_, start, condition, step, body) => {
            in_head(start, condition, step) || in_stat(body.get())
        }
        StatNode::While(_, condition, body) => in_expr(condition) || in_stat(body.get()),
        StatNode::Return(value) => in_value(value),
    }
}

#[cycle(statements_in)]
fn in_stats(list: &[StatTree]) -> bool
    ensures { result ≡ early.some_of (map early.in_stat list.now) }
{
    for item in list {
        if in_stat(item) {
            return true;
        }
    }
    false
}

pub fn in_block(block: &Block) -> bool
    ensures { result ≡ early.in_block block.now }
{
    in_stats(block.statements.as_slice())
}
