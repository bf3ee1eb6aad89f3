// The descent into expressions. Of what begins inside a node, at most so many nodes stand on a path.

ghost use Rattle.std.specs.Prelude.{ℕ, ◌==◌, ◌≤◌, ◌<◌, ◌^◌, ◌+◌, IfOk, Err};
ghost use Rattle.slang_reading.specs.Cursor.{Runs};
ghost use Rattle.slang_grammar.specs.ExpressionsDescent as spec;
ghost use Rattle.type_reading.specs.Limited.{limits_of};
ghost use Rattle.ahead_reading.specs.Knowing.{Ready};

use crate::nodes::conditional;
use crate::operators::level;
use crate::primaries::primary_and_rest;
use crate::starts::{WHOLE, begins_expression};
use ahead_reading::Scans;
use slang_names::ModuleCode;
use slang_reading::{Fault, Tokens, span};
use slang_tokens::Mark;
use slang_tree::ExprTree;
use std::alloc::Global;
use type_reading::{Limits, expect};

/// The loosest level of operators.
const LOOSEST: u8 = 10;

/// Why no expression is read where no node fits.
#[tactic(auto, unfolding(slang_grammar::specs::ExpressionsDescent::leveled, slang_reading::specs::Reading::next))]
fn no_expression(tokens: &mut Tokens<'_>, limits: Limits, rank: u8) -> Fault
    ensures { Runs (spec.leveled (limits_of limits) 0 rank) tokens.old (Err result) tokens.new }
{
    let Some(token) = tokens.peek() else {
        return Fault::Stopped;
    };
    if begins_expression(token.kind) {
        return Fault::Past(ModuleCode::TooNested, token.place);
    }
    Fault::Stopped
}

/// Behind the question mark of a choice: its two values.
#[tactic(auto, unfolding(slang_grammar::specs::ExpressionsDescent::choice, slang_reading::specs::Reading::bind))]
fn choice<F: Fn(&mut Tokens<'_>, u8) -> Result<(ExprTree, usize), Fault>>(
    alloc: Global,
    limits: Limits,
    scans: &Scans,
    tokens: &mut Tokens<'_>,
    inner: &F,
    depth: usize,
    x: (ExprTree, usize),
) -> Result<(ExprTree, usize), Fault>
    requires room { depth + 1 < 2 ^ 64 }
    requires fits { x.1 ≤ depth }
    requires ready { Ready limits scans.now tokens.old.tokens }
    requires can { (t : _) (l : ℕ) → Ready limits scans.now t.now.tokens → F.pre inner.now t l }
    requires inside { (t : _) (l : ℕ) (r : _) (u : _) → F.post inner.now t l r u → Runs (spec.leveled (limits_of limits) depth l) t.now r u.now }
    requires below { (t : _) (l : ℕ) (r : _) (u : _) → F.post inner.now t l r u → IfOk r (λ x. x.1 ≤ depth) }
    ensures reads { Runs (spec.choice (limits_of limits) depth (spec.leveled (limits_of limits) depth) x) tokens.old result tokens.new }
    ensures within { IfOk result (λ x. x.1 ≤ depth + 1) }
{
    let (condition, tallest) = x;
    let (y, height) = inner(tokens, WHOLE)?;
    expect(tokens, Mark::Colon)?;
    let (z, other) = inner(tokens, WHOLE)?;
    let place = span(condition.place, z.place);
    Ok((
        conditional(alloc, place, condition, y, z)?,
        tallest.max(height.max(other)) + 1,
    ))
}

/// Behind operators of all levels.
#[tactic(auto, unfolding(slang_grammar::specs::ExpressionsDescent::choice_rest, slang_reading::specs::Reading::next))]
fn choice_rest<F: Fn(&mut Tokens<'_>, u8) -> Result<(ExprTree, usize), Fault>>(
    alloc: Global,
    limits: Limits,
    scans: &Scans,
    tokens: &mut Tokens<'_>,
    inner: &F,
    depth: usize,
    x: (ExprTree, usize),
) -> Result<(ExprTree, usize), Fault>
    requires room { depth + 1 < 2 ^ 64 }
    requires fits { x.1 ≤ depth + 1 }
    requires ready { Ready limits scans.now tokens.old.tokens }
    requires can { (t : _) (l : ℕ) → Ready limits scans.now t.now.tokens → F.pre inner.now t l }
    requires inside { (t : _) (l : ℕ) (r : _) (u : _) → F.post inner.now t l r u → Runs (spec.leveled (limits_of limits) depth l) t.now r u.now }
    requires below { (t : _) (l : ℕ) (r : _) (u : _) → F.post inner.now t l r u → IfOk r (λ x. x.1 ≤ depth) }
    ensures reads { Runs (spec.choice_rest (limits_of limits) depth (spec.leveled (limits_of limits) depth) x) tokens.old result tokens.new }
    ensures within { IfOk result (λ x. x.1 ≤ depth + 1) }
{
    if !tokens.sees(Mark::Question) {
        return Ok(x);
    }
    if x.1 > depth {
        return Err(Fault::Past(ModuleCode::TooNested, tokens.place()));
    }
    tokens.bump();
    choice(alloc, limits, scans, tokens, inner, depth, x)
}

/// With the operators that bind more tightly than the level, or a whole expression.
#[tactic(auto, unfolding(slang_reading::specs::Reading::bind))]
fn at_level<F: Fn(&mut Tokens<'_>, u8) -> Result<(ExprTree, usize), Fault>>(
    alloc: Global,
    limits: Limits,
    scans: &Scans,
    tokens: &mut Tokens<'_>,
    inner: &F,
    depth: usize,
    rank: u8,
) -> Result<(ExprTree, usize), Fault>
    requires room { depth + 1 < 2 ^ 64 }
    requires ready { Ready limits scans.now tokens.old.tokens }
    requires can { (t : _) (l : ℕ) → Ready limits scans.now t.now.tokens → F.pre inner.now t l }
    requires inside { (t : _) (l : ℕ) (r : _) (u : _) → F.post inner.now t l r u → Runs (spec.leveled (limits_of limits) depth l) t.now r u.now }
    requires below { (t : _) (l : ℕ) (r : _) (u : _) → F.post inner.now t l r u → IfOk r (λ x. x.1 ≤ depth) }
    ensures reads { Runs (spec.at_level (limits_of limits) depth (spec.leveled (limits_of limits) depth) rank (rank == 11)) tokens.old result tokens.new }
    ensures within { IfOk result (λ x. x.1 ≤ depth + 1) }
{
    if rank != WHOLE {
        return level(alloc, limits, scans, tokens, inner, depth, rank);
    }
    let x = level(alloc, limits, scans, tokens, inner, depth, LOOSEST)?;
    choice_rest(alloc, limits, scans, tokens, inner, depth, x)
}

/// An expression of which at most so many nodes stand on a path, and how many do, with the operators that bind more tightly
/// than the level.
#[tactic(auto, unfolding(slang_grammar::specs::ExpressionsDescent::leveled))]
fn leveled(
    alloc: Global,
    limits: Limits,
    scans: &Scans,
    tokens: &mut Tokens<'_>,
    depth: usize,
    rank: u8,
) -> Result<(ExprTree, usize), Fault>
    requires ready { Ready limits scans.now tokens.old.tokens }
    ensures reads { Runs (spec.leveled (limits_of limits) depth rank) tokens.old result tokens.new }
    ensures within { IfOk result (λ x. x.1 ≤ depth) }
{
    if depth == 0 {
        return Err(no_expression(tokens, limits, rank));
    }
    let less = depth - 1;
    let inner = |t: &mut Tokens<'_>, l: u8|
        requires { Ready limits scans.now t.old.tokens }
        ensures reads { Runs (spec.leveled (limits_of limits) less l) t.old result t.new }
        ensures within { IfOk result (λ x. x.1 ≤ less) }
    { leveled(alloc, limits, scans, t, less, l) };
    at_level(alloc, limits, scans, tokens, &inner, less, rank)
}

/// A primary with what goes on it, with so many nodes inside.
pub fn postfix(
    alloc: Global,
    limits: Limits,
    scans: &Scans,
    tokens: &mut Tokens<'_>,
    depth: usize,
) -> Result<(ExprTree, usize), Fault>
    requires room { depth + 1 < 2 ^ 64 }
    requires ready { Ready limits scans.now tokens.old.tokens }
    ensures reads { Runs (spec.postfix (limits_of limits) depth (spec.leveled (limits_of limits) depth)) tokens.old result tokens.new }
    ensures within { IfOk result (λ x. x.1 ≤ depth + 1) }
{
    let inner = |t: &mut Tokens<'_>, l: u8|
        requires { Ready limits scans.now t.old.tokens }
        ensures reads { Runs (spec.leveled (limits_of limits) depth l) t.old result t.new }
        ensures within { IfOk result (λ x. x.1 ≤ depth) }
    { leveled(alloc, limits, scans, t, depth, l) };
    primary_and_rest(alloc, limits, scans, tokens, &inner, depth)
}

/// An expression of which at most so many nodes stand on a path, and how many do.
pub fn expressions(
    alloc: Global,
    limits: Limits,
    scans: &Scans,
    tokens: &mut Tokens<'_>,
    depth: usize,
) -> Result<(ExprTree, usize), Fault>
    requires { Ready limits scans.now tokens.old.tokens }
    ensures reads { Runs (spec.expressions (limits_of limits) depth) tokens.old result tokens.new }
    ensures within { IfOk result (λ x. x.1 ≤ depth) }
{
    leveled(alloc, limits, scans, tokens, depth, WHOLE)
}
