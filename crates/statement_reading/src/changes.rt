// Changes of places and calls, with so many nodes inside.

ghost use Rattle.std.specs.Prelude.{◌≡◌};
ghost use Rattle.slang_tree.specs.declared.statements.ChangeNode.TheVariants as c;
ghost use Rattle.slang_reading.specs.Cursor.{Runs};
ghost use Rattle.statement_grammar.specs.Statements as grammar;
ghost use Rattle.statement_grammar.specs.StatementsDescent as spec;
ghost use Rattle.type_reading.specs.Limited.{limits_of};
ghost use Rattle.ahead_reading.specs.Knowing.{Ready};

use crate::primaries::operands;
use ahead_reading::Scans;
use expression_reading::{expressions, sees_joined};
use slang_names::Place;
use slang_reading::{Fault, Tokens, span};
use slang_tokens::{Kind, Mark};
use slang_tree::{BinaryOperator, Change, ChangeNode, ExprNode, ExprTree, Step};
use statement_grammar::{ChangeUse, change_use};
use std::alloc::Global;
use type_reading::Limits;

/// `=`, or an operator with `=`.
fn assigned(op: Option<BinaryOperator>, x: ExprTree, y: ExprTree) -> ChangeNode
    ensures { result ≡ grammar.assigned op x y }
{
    match op {
        None => ChangeNode::Assign(x, y),
        Some(op) => ChangeNode::Update(op, x, y),
    }
}

/// Whether it ends with arguments.
fn is_call(node: &ExprNode) -> bool
    ensures { result ≡ grammar.is_call node.now }
{
    match node {
        ExprNode::Call(_, _) => true,
        _ => false,
    }
}

/// A call as a change.
fn called(x: ExprTree) -> Change
    ensures { result ≡ grammar.changed x.place (c.Call x) }
{
    Change {
        place: x.place,
        node: ChangeNode::Call(x),
    }
}

/// Behind what assigns.
#[tactic(auto, unfolding(statement_grammar::specs::StatementsDescent::assign, slang_reading::specs::Reading::bind))]
fn assign(
    alloc: Global,
    limits: Limits,
    scans: &Scans,
    tokens: &mut Tokens<'_>,
    depth: usize,
    x: ExprTree,
    op: Option<BinaryOperator>,
) -> Result<Change, Fault>
    requires { Ready limits scans.now tokens.old.tokens }
    ensures { Runs (spec.assign (limits_of limits) depth x op) tokens.old result tokens.new }
{
    let (y, _height) = expressions(alloc, limits, scans, tokens, depth)?;
    let place = span(x.place, y.place);
    let node = assigned(op, x, y);
    Ok(Change { place, node })
}

/// Behind `>>`, of which the last lies there.
#[tactic(auto, unfolding(statement_grammar::specs::StatementsDescent::shift_last, slang_reading::specs::Reading::next))]
fn shift_last(
    alloc: Global,
    limits: Limits,
    scans: &Scans,
    tokens: &mut Tokens<'_>,
    depth: usize,
    x: ExprTree,
    place: Place,
) -> Result<Change, Fault>
    requires { Ready limits scans.now tokens.old.tokens }
    ensures { Runs (spec.shift_last (limits_of limits) depth x place) tokens.old result tokens.new }
{
    if !sees_joined(tokens, Mark::Equal, place) {
        return Err(Fault::Stopped);
    }
    tokens.bump();
    let op = Some(BinaryOperator::ShiftRight);
    assign(alloc, limits, scans, tokens, depth, x, op)
}

/// Behind `>`, which lies there.
#[tactic(auto, unfolding(statement_grammar::specs::StatementsDescent::shift_assign, slang_reading::specs::Reading::next))]
fn shift_assign(
    alloc: Global,
    limits: Limits,
    scans: &Scans,
    tokens: &mut Tokens<'_>,
    depth: usize,
    x: ExprTree,
    place: Place,
) -> Result<Change, Fault>
    requires { Ready limits scans.now tokens.old.tokens }
    ensures { Runs (spec.shift_assign (limits_of limits) depth x place) tokens.old result tokens.new }
{
    if !sees_joined(tokens, Mark::Greater, place) {
        return Err(Fault::Stopped);
    }
    let last = tokens.place();
    tokens.bump();
    shift_last(alloc, limits, scans, tokens, depth, x, last)
}

/// Behind the place that is changed, or behind a call.
#[tactic(auto, unfolding(statement_grammar::specs::StatementsDescent::change_rest, slang_reading::specs::Reading::next))]
fn change_rest(
    alloc: Global,
    limits: Limits,
    scans: &Scans,
    tokens: &mut Tokens<'_>,
    depth: usize,
    x: ExprTree,
) -> Result<Change, Fault>
    requires { Ready limits scans.now tokens.old.tokens }
    ensures { Runs (spec.change_rest (limits_of limits) depth x) tokens.old result tokens.new }
{
    let is_call = is_call(&x.node);
    let Some(token) = tokens.peek() else {
        return if is_call {
            Ok(called(x))
        } else {
            Err(Fault::Stopped)
        };
    };
    let Kind::Mark(mark) = token.kind else {
        return if is_call {
            Ok(called(x))
        } else {
            Err(Fault::Stopped)
        };
    };
    match change_use(mark) {
        ChangeUse::Assign => {
            tokens.bump();
            assign(alloc, limits, scans, tokens, depth, x, None)
        }
        ChangeUse::Update(op) => {
            tokens.bump();
            assign(alloc, limits, scans, tokens, depth, x, Some(op))
        }
        ChangeUse::Shift => {
            tokens.bump();
            shift_assign(alloc, limits, scans, tokens, depth, x, token.place)
        }
        ChangeUse::Step(step) => {
            tokens.bump();
            let place = span(x.place, token.place);
            let node = ChangeNode::StepBehind(x, step);
            Ok(Change { place, node })
        }
        ChangeUse::End => {
            if is_call {
                Ok(called(x))
            } else {
                Err(Fault::Stopped)
            }
        }
    }
}

/// Behind `++` or `--`.
#[tactic(auto, unfolding(statement_grammar::specs::StatementsDescent::step_before, slang_reading::specs::Reading::bind))]
fn step_before(
    alloc: Global,
    limits: Limits,
    scans: &Scans,
    tokens: &mut Tokens<'_>,
    depth: usize,
    begin: Place,
    step: Step,
) -> Result<Change, Fault>
    requires { Ready limits scans.now tokens.old.tokens }
    ensures { Runs (spec.step_before (limits_of limits) depth begin step) tokens.old result tokens.new }
{
    let (x, _height) = operands(alloc, limits, scans, tokens, depth)?;
    let place = span(begin, x.place);
    let node = ChangeNode::StepBefore(step, x);
    Ok(Change { place, node })
}

/// A place with what changes it behind, or a call.
#[tactic(auto, unfolding(statement_grammar::specs::StatementsDescent::place_change, slang_reading::specs::Reading::bind))]
fn place_change(
    alloc: Global,
    limits: Limits,
    scans: &Scans,
    tokens: &mut Tokens<'_>,
    depth: usize,
) -> Result<Change, Fault>
    requires { Ready limits scans.now tokens.old.tokens }
    ensures { Runs (spec.place_change (limits_of limits) depth) tokens.old result tokens.new }
{
    let (x, _height) = operands(alloc, limits, scans, tokens, depth)?;
    change_rest(alloc, limits, scans, tokens, depth, x)
}

/// A change of a place, or a call.
#[tactic(auto, unfolding(statement_grammar::specs::StatementsDescent::change, slang_reading::specs::Reading::next))]
pub fn change(
    alloc: Global,
    limits: Limits,
    scans: &Scans,
    tokens: &mut Tokens<'_>,
    depth: usize,
) -> Result<Change, Fault>
    requires { Ready limits scans.now tokens.old.tokens }
    ensures { Runs (spec.change (limits_of limits) depth) tokens.old result tokens.new }
{
    let Some(token) = tokens.peek() else {
        return place_change(alloc, limits, scans, tokens, depth);
    };
    let Kind::Mark(mark) = token.kind else {
        return place_change(alloc, limits, scans, tokens, depth);
    };
    match change_use(mark) {
        ChangeUse::Step(step) => {
            tokens.bump();
            step_before(alloc, limits, scans, tokens, depth, token.place, step)
        }
        _ => place_change(alloc, limits, scans, tokens, depth),
    }
}
