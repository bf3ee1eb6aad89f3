// Parts of statements, with so many nodes inside.

ghost use Rattle.slang_reading.specs.Cursor.{Runs};
ghost use Rattle.slang_reading.specs.Reading.{foresee};
ghost use Rattle.statement_grammar.specs.LocalsAhead as ahead;
ghost use Rattle.statement_grammar.specs.StatementsDescent as spec;
ghost use Rattle.type_reading.specs.Limited.{limits_of};
ghost use Rattle.ahead_reading.specs.Knowing.{Ready};
ghost use Rattle.statement_reading.specs.Meant.{answer};

use crate::ahead::local_follows;
use crate::changes::change;
use crate::locals::{constant, variable};
use ahead_reading::Scans;
use expression_reading::{begins_expression, expressions};
use slang_reading::{Fault, Tokens};
use slang_tokens::{Mark, Word};
use slang_tree::{Change, ExprTree, Local, LoopStart};
use std::alloc::Global;
use type_reading::{Limits, expect};

/// A declaration of locals or a change.
#[derive(Drop)]
pub enum SimpleStatement {
    Local(Local),
    Change(Change),
}

/// A declaration of locals without `const`, or a change.
#[tactic(auto, unfolding(slang_reading::specs::Reading::foresee, slang_reading::specs::Reading::bind))]
fn either(
    alloc: Global,
    limits: Limits,
    scans: &Scans,
    tokens: &mut Tokens<'_>,
    depth: usize,
) -> Result<SimpleStatement, Fault>
    requires { Ready limits scans.now tokens.old.tokens }
    ensures { Runs (foresee (ahead.local_ahead (limits_of limits)) (spec.either (limits_of limits) depth)) tokens.old (answer result) tokens.new }
{
    if local_follows(alloc, limits, scans, tokens)? {
        let x = variable(alloc, limits, scans, tokens, depth)?;
        Ok(SimpleStatement::Local(x))
    } else {
        let x = change(alloc, limits, scans, tokens, depth)?;
        Ok(SimpleStatement::Change(x))
    }
}

/// A declaration of locals or a change.
#[tactic(auto, unfolding(statement_grammar::specs::StatementsDescent::simple, slang_reading::specs::Reading::bind, slang_reading::specs::Reading::next))]
pub fn simple(
    alloc: Global,
    limits: Limits,
    scans: &Scans,
    tokens: &mut Tokens<'_>,
    depth: usize,
) -> Result<SimpleStatement, Fault>
    requires { Ready limits scans.now tokens.old.tokens }
    ensures { Runs (spec.simple (limits_of limits) depth) tokens.old (answer result) tokens.new }
{
    if !tokens.sees_word(Word::Const) {
        return either(alloc, limits, scans, tokens, depth);
    }
    let begin = tokens.place();
    tokens.bump();
    let x = constant(alloc, limits, scans, tokens, depth, begin)?;
    Ok(SimpleStatement::Local(x))
}

/// An expression or nothing.
#[tactic(auto, unfolding(statement_grammar::specs::StatementsDescent::maybe, slang_reading::specs::Reading::bind, slang_reading::specs::Reading::next))]
pub fn maybe(
    alloc: Global,
    limits: Limits,
    scans: &Scans,
    tokens: &mut Tokens<'_>,
    depth: usize,
) -> Result<Option<ExprTree>, Fault>
    requires { Ready limits scans.now tokens.old.tokens }
    ensures { Runs (spec.maybe (limits_of limits) depth) tokens.old result tokens.new }
{
    let Some(token) = tokens.peek() else {
        return Ok(None);
    };
    if !begins_expression(token.kind) {
        return Ok(None);
    }
    let (x, _height) = expressions(alloc, limits, scans, tokens, depth)?;
    Ok(Some(x))
}

/// A condition in parentheses.
#[tactic(auto, unfolding(statement_grammar::specs::StatementsDescent::condition, slang_reading::specs::Reading::bind))]
pub fn condition(
    alloc: Global,
    limits: Limits,
    scans: &Scans,
    tokens: &mut Tokens<'_>,
    depth: usize,
) -> Result<ExprTree, Fault>
    requires { Ready limits scans.now tokens.old.tokens }
    ensures { Runs (spec.condition (limits_of limits) depth) tokens.old result tokens.new }
{
    expect(tokens, Mark::OpenParen)?;
    let (x, _height) = expressions(alloc, limits, scans, tokens, depth)?;
    expect(tokens, Mark::CloseParen)?;
    Ok(x)
}

/// The first part of the head of a `for`.
#[tactic(auto, unfolding(statement_grammar::specs::StatementsDescent::start, slang_reading::specs::Reading::bind, slang_reading::specs::Reading::next))]
fn start(
    alloc: Global,
    limits: Limits,
    scans: &Scans,
    tokens: &mut Tokens<'_>,
    depth: usize,
) -> Result<LoopStart, Fault>
    requires { Ready limits scans.now tokens.old.tokens }
    ensures { Runs (spec.start (limits_of limits) depth) tokens.old result tokens.new }
{
    if tokens.sees(Mark::Semicolon) {
        return Ok(LoopStart::Nothing);
    }
    match simple(alloc, limits, scans, tokens, depth)? {
        SimpleStatement::Local(x) => Ok(LoopStart::Local(x)),
        SimpleStatement::Change(x) => Ok(LoopStart::Change(x)),
    }
}

/// The last part of the head of a `for`.
#[tactic(auto, unfolding(statement_grammar::specs::StatementsDescent::step, slang_reading::specs::Reading::bind, slang_reading::specs::Reading::next))]
fn step(
    alloc: Global,
    limits: Limits,
    scans: &Scans,
    tokens: &mut Tokens<'_>,
    depth: usize,
) -> Result<Option<Change>, Fault>
    requires { Ready limits scans.now tokens.old.tokens }
    ensures { Runs (spec.step (limits_of limits) depth) tokens.old result tokens.new }
{
    if tokens.sees(Mark::CloseParen) {
        return Ok(None);
    }
    let x = change(alloc, limits, scans, tokens, depth)?;
    Ok(Some(x))
}

/// The head of a `for`.
#[tactic(auto, unfolding(statement_grammar::specs::StatementsDescent::head, slang_reading::specs::Reading::bind))]
pub fn head(
    alloc: Global,
    limits: Limits,
    scans: &Scans,
    tokens: &mut Tokens<'_>,
    depth: usize,
) -> Result<(LoopStart, Option<ExprTree>, Option<Change>), Fault>
    requires { Ready limits scans.now tokens.old.tokens }
    ensures { Runs (spec.head (limits_of limits) depth) tokens.old result tokens.new }
{
    expect(tokens, Mark::OpenParen)?;
    let x = start(alloc, limits, scans, tokens, depth)?;
    expect(tokens, Mark::Semicolon)?;
    let y = maybe(alloc, limits, scans, tokens, depth)?;
    expect(tokens, Mark::Semicolon)?;
    let z = step(alloc, limits, scans, tokens, depth)?;
    expect(tokens, Mark::CloseParen)?;
    Ok((x, y, z))
}
