// Operators before an operand and between operands, and casts.

ghost use Rattle.std.specs.Prelude.{ℕ, false, Some, None, ◌≡◌, ◌≤◌, ◌<◌, ◌^◌, ◌+◌, IfOk};
ghost use Rattle.slang_reading.specs.Cursor.{Runs};
ghost use Rattle.slang_reading.specs.Reading.{attempt};
ghost use Rattle.slang_grammar.specs.ExpressionsDescent as spec;
ghost use Rattle.type_reading.specs.Limited.{limits_of};
ghost use Rattle.ahead_reading.specs.Knowing.{Ready};
ghost use Rattle.expression_reading.specs.Leading.{one_more, turned};

use crate::ahead::cast_ahead;
use crate::choosing::next_operator;
use crate::nodes::{binary, converted, prefixed};
use crate::primaries::{chain_rest, paren, primary_and_rest};
use ahead_reading::Scans;
use slang_grammar::unary_of;
use slang_names::{ModuleCode, Place};
use slang_reading::{Fault, Tokens, span};
use slang_tokens::{Kind, Mark};
use slang_tree::{BinaryOperator, Builtin, ExprTree, UnaryOperator};
use std::alloc::Global;
use type_reading::Limits;

/// Behind an operator before its operand.
#[tactic(auto, unfolding(slang_grammar::specs::ExpressionsDescent::prefix, slang_reading::specs::Reading::bind))]
fn prefix<F: Fn(&mut Tokens<'_>, u8) -> Result<(ExprTree, usize), Fault>>(
    alloc: Global,
    limits: Limits,
    scans: &Scans,
    tokens: &mut Tokens<'_>,
    inner: &F,
    depth: usize,
    begin: Place,
    op: UnaryOperator,
) -> Result<(ExprTree, usize), Fault>
    requires room { depth + 1 < 2 ^ 64 }
    requires ready { Ready limits scans.now tokens.old.tokens }
    requires can { (t : _) (l : ℕ) → Ready limits scans.now t.now.tokens → F.pre inner.now t l }
    requires inside { (t : _) (l : ℕ) (r : _) (u : _) → F.post inner.now t l r u → Runs (spec.leveled (limits_of limits) depth l) t.now r u.now }
    requires below { (t : _) (l : ℕ) (r : _) (u : _) → F.post inner.now t l r u → IfOk r (λ x. x.1 ≤ depth) }
    ensures reads { Runs (spec.prefix (limits_of limits) depth (spec.leveled (limits_of limits) depth) begin op) tokens.old result tokens.new }
    ensures within { IfOk result (λ x. x.1 ≤ depth + 1) }
{
    let (x, height) = inner(tokens, 0)?;
    let place = span(begin, x.place);
    Ok((prefixed(alloc, place, op, x)?, height + 1))
}

/// What stands behind a cast.
#[tactic(auto, unfolding(slang_reading::specs::Reading::bind))]
fn conversion<F: Fn(&mut Tokens<'_>, u8) -> Result<(ExprTree, usize), Fault>>(
    alloc: Global,
    limits: Limits,
    scans: &Scans,
    tokens: &mut Tokens<'_>,
    inner: &F,
    depth: usize,
    begin: Place,
    to: Builtin,
) -> Result<(ExprTree, usize), Fault>
    requires room { depth + 1 < 2 ^ 64 }
    requires ready { Ready limits scans.now tokens.old.tokens }
    requires can { (t : _) (l : ℕ) → Ready limits scans.now t.now.tokens → F.pre inner.now t l }
    requires inside { (t : _) (l : ℕ) (r : _) (u : _) → F.post inner.now t l r u → Runs (spec.leveled (limits_of limits) depth l) t.now r u.now }
    requires below { (t : _) (l : ℕ) (r : _) (u : _) → F.post inner.now t l r u → IfOk r (λ x. x.1 ≤ depth) }
    ensures reads { Runs (spec.cast_by (limits_of limits) depth (spec.leveled (limits_of limits) depth) begin (Some to)) tokens.old result tokens.new }
    ensures within { IfOk result (λ x. x.1 ≤ depth + 1) }
{
    let (x, height) = inner(tokens, 0)?;
    let place = span(begin, x.place);
    Ok((converted(alloc, place, to, x)?, height + 1))
}

/// Behind an opening parenthesis that begins no cast: a value between parentheses with what goes on it.
#[tactic(auto, unfolding(slang_grammar::specs::ExpressionsDescent::chain_rest, slang_reading::specs::Reading::bind))]
fn paren_and_rest<F: Fn(&mut Tokens<'_>, u8) -> Result<(ExprTree, usize), Fault>>(
    alloc: Global,
    limits: Limits,
    scans: &Scans,
    tokens: &mut Tokens<'_>,
    inner: &F,
    depth: usize,
    begin: Place,
) -> Result<(ExprTree, usize), Fault>
    requires room { depth + 1 < 2 ^ 64 }
    requires ready { Ready limits scans.now tokens.old.tokens }
    requires can { (t : _) (l : ℕ) → Ready limits scans.now t.now.tokens → F.pre inner.now t l }
    requires inside { (t : _) (l : ℕ) (r : _) (u : _) → F.post inner.now t l r u → Runs (spec.leveled (limits_of limits) depth l) t.now r u.now }
    requires below { (t : _) (l : ℕ) (r : _) (u : _) → F.post inner.now t l r u → IfOk r (λ x. x.1 ≤ depth) }
    ensures reads { Runs (spec.cast_by (limits_of limits) depth (spec.leveled (limits_of limits) depth) begin None) tokens.old result tokens.new }
    ensures within { IfOk result (λ x. x.1 ≤ depth + 1) }
{
    let x = paren(alloc, limits, scans, tokens, inner, depth, begin)?;
    chain_rest(alloc, limits, scans, tokens, inner, depth, x)
}

/// Behind an opening parenthesis: a cast, or a value between parentheses with what goes on it.
#[tactic(auto, unfolding(slang_reading::specs::Reading::attempt))]
fn cast<F: Fn(&mut Tokens<'_>, u8) -> Result<(ExprTree, usize), Fault>>(
    alloc: Global,
    limits: Limits,
    scans: &Scans,
    tokens: &mut Tokens<'_>,
    inner: &F,
    depth: usize,
    begin: Place,
) -> Result<(ExprTree, usize), Fault>
    requires room { depth + 1 < 2 ^ 64 }
    requires ready { Ready limits scans.now tokens.old.tokens }
    requires can { (t : _) (l : ℕ) → Ready limits scans.now t.now.tokens → F.pre inner.now t l }
    requires inside { (t : _) (l : ℕ) (r : _) (u : _) → F.post inner.now t l r u → Runs (spec.leveled (limits_of limits) depth l) t.now r u.now }
    requires below { (t : _) (l : ℕ) (r : _) (u : _) → F.post inner.now t l r u → IfOk r (λ x. x.1 ≤ depth) }
    ensures reads { Runs (attempt spec.cast_ahead (spec.cast_by (limits_of limits) depth (spec.leveled (limits_of limits) depth) begin)) tokens.old result tokens.new }
    ensures within { IfOk result (λ x. x.1 ≤ depth + 1) }
{
    if let Some(to) = cast_ahead(tokens) {
        return conversion(alloc, limits, scans, tokens, inner, depth, begin, to);
    }
    paren_and_rest(alloc, limits, scans, tokens, inner, depth, begin)
}

/// Operators before an operand, casts, and what stands behind them.
#[tactic(auto, unfolding(slang_grammar::specs::ExpressionsDescent::unary, slang_reading::specs::Reading::next))]
fn unary<F: Fn(&mut Tokens<'_>, u8) -> Result<(ExprTree, usize), Fault>>(
    alloc: Global,
    limits: Limits,
    scans: &Scans,
    tokens: &mut Tokens<'_>,
    inner: &F,
    depth: usize,
) -> Result<(ExprTree, usize), Fault>
    requires room { depth + 1 < 2 ^ 64 }
    requires ready { Ready limits scans.now tokens.old.tokens }
    requires can { (t : _) (l : ℕ) → Ready limits scans.now t.now.tokens → F.pre inner.now t l }
    requires inside { (t : _) (l : ℕ) (r : _) (u : _) → F.post inner.now t l r u → Runs (spec.leveled (limits_of limits) depth l) t.now r u.now }
    requires below { (t : _) (l : ℕ) (r : _) (u : _) → F.post inner.now t l r u → IfOk r (λ x. x.1 ≤ depth) }
    ensures reads { Runs (spec.unary (limits_of limits) depth (spec.leveled (limits_of limits) depth)) tokens.old result tokens.new }
    ensures within { IfOk result (λ x. x.1 ≤ depth + 1) }
{
    let Some(token) = tokens.peek() else {
        return Err(Fault::Stopped);
    };
    match token.kind {
        Kind::Mark(Mark::OpenParen) => {
            tokens.bump();
            cast(alloc, limits, scans, tokens, inner, depth, token.place)
        }
        Kind::Mark(mark) => {
            let Some(op) = unary_of(mark) else {
                return primary_and_rest(alloc, limits, scans, tokens, inner, depth);
            };
            tokens.bump();
            prefix(alloc, limits, scans, tokens, inner, depth, token.place, op)
        }
        _ => primary_and_rest(alloc, limits, scans, tokens, inner, depth),
    }
}

/// What stands on the right of an operator of that level.
#[tactic(auto, unfolding(slang_grammar::specs::ExpressionsDescent::operand, slang_reading::specs::Reading::bind))]
fn operand<F: Fn(&mut Tokens<'_>, u8) -> Result<(ExprTree, usize), Fault>>(
    alloc: Global,
    limits: Limits,
    scans: &Scans,
    tokens: &mut Tokens<'_>,
    inner: &F,
    depth: usize,
    rank: u8,
    op: BinaryOperator,
    x: (ExprTree, usize),
) -> Result<(ExprTree, usize), Fault>
    requires room { depth + 1 < 2 ^ 64 }
    requires fits { x.1 ≤ depth }
    requires ready { Ready limits scans.now tokens.old.tokens }
    requires can { (t : _) (l : ℕ) → Ready limits scans.now t.now.tokens → F.pre inner.now t l }
    requires inside { (t : _) (l : ℕ) (r : _) (u : _) → F.post inner.now t l r u → Runs (spec.leveled (limits_of limits) depth l) t.now r u.now }
    requires below { (t : _) (l : ℕ) (r : _) (u : _) → F.post inner.now t l r u → IfOk r (λ x. x.1 ≤ depth) }
    ensures reads { Runs (spec.operand (limits_of limits) depth (spec.leveled (limits_of limits) depth) rank op x) tokens.old (one_more result) tokens.new }
    ensures within { IfOk result (λ x. x.1 ≤ depth + 1) }
{
    let (left, tallest) = x;
    let (right, height) = inner(tokens, rank)?;
    let place = span(left.place, right.place);
    Ok((
        binary(alloc, place, op, left, right)?,
        tallest.max(height) + 1,
    ))
}

/// One more operator of that level with what stands on its right, and that there is one; or what stood on its left.
fn operator<F: Fn(&mut Tokens<'_>, u8) -> Result<(ExprTree, usize), Fault>>(
    alloc: Global,
    limits: Limits,
    scans: &Scans,
    tokens: &mut Tokens<'_>,
    inner: &F,
    depth: usize,
    rank: u8,
    x: (ExprTree, usize),
) -> Result<((ExprTree, usize), bool), Fault>
    requires room { depth + 1 < 2 ^ 64 }
    requires fits { x.1 ≤ depth + 1 }
    requires ready { Ready limits scans.now tokens.old.tokens }
    requires can { (t : _) (l : ℕ) → Ready limits scans.now t.now.tokens → F.pre inner.now t l }
    requires inside { (t : _) (l : ℕ) (r : _) (u : _) → F.post inner.now t l r u → Runs (spec.leveled (limits_of limits) depth l) t.now r u.now }
    requires below { (t : _) (l : ℕ) (r : _) (u : _) → F.post inner.now t l r u → IfOk r (λ x. x.1 ≤ depth) }
    ensures reads { Runs (spec.operator (limits_of limits) depth (spec.leveled (limits_of limits) depth) rank x) tokens.old (turned result) tokens.new }
    ensures same { IfOk result (λ y. y.1 ≡ false → y.0 ≡ x) }
    ensures within { IfOk result (λ y. y.0.1 ≤ depth + 1) }
{
    let Some(op) = next_operator(limits, tokens, depth, rank, &x)? else {
        return Ok((x, false));
    };
    let y = operand(alloc, limits, scans, tokens, inner, depth, rank, op, x)?;
    Ok((y, true))
}

/// Any number of operators of that level, each with what stands on its right.
fn operators<F: Fn(&mut Tokens<'_>, u8) -> Result<(ExprTree, usize), Fault>>(
    alloc: Global,
    limits: Limits,
    scans: &Scans,
    tokens: &mut Tokens<'_>,
    inner: &F,
    depth: usize,
    rank: u8,
    mut x: (ExprTree, usize),
) -> Result<(ExprTree, usize), Fault>
    requires room { depth + 1 < 2 ^ 64 }
    requires fits { x.1 ≤ depth + 1 }
    requires ready { Ready limits scans.now tokens.old.tokens }
    requires can { (t : _) (l : ℕ) → Ready limits scans.now t.now.tokens → F.pre inner.now t l }
    requires inside { (t : _) (l : ℕ) (r : _) (u : _) → F.post inner.now t l r u → Runs (spec.leveled (limits_of limits) depth l) t.now r u.now }
    requires below { (t : _) (l : ℕ) (r : _) (u : _) → F.post inner.now t l r u → IfOk r (λ x. x.1 ≤ depth) }
    ensures reads { Runs (spec.repeats (spec.operator (limits_of limits) depth (spec.leveled (limits_of limits) depth) rank) limits.turns x) tokens.old result tokens.new }
    ensures within { IfOk result (λ x. x.1 ≤ depth + 1) }
{
    for _turn in 0..limits.turns {
        let (y, more) = operator(alloc, limits, scans, tokens, inner, depth, rank, x)?;
        if !more {
            return Ok(y);
        }
        x = y;
    }
    let (y, more) = operator(alloc, limits, scans, tokens, inner, depth, rank, x)?;
    if more {
        return Err(Fault::Past(ModuleCode::TooLong, Place { start: 0, end: 0 }));
    }
    Ok(y)
}

/// With the operators that bind more tightly than the level.
pub fn level<F: Fn(&mut Tokens<'_>, u8) -> Result<(ExprTree, usize), Fault>>(
    alloc: Global,
    limits: Limits,
    scans: &Scans,
    tokens: &mut Tokens<'_>,
    inner: &F,
    depth: usize,
    rank: u8,
) -> Result<(ExprTree, usize), Fault>
    requires room { depth + 1 < 2 ^ 64 }
    requires ready { Ready limits scans.now tokens.old.tokens }
    requires can { (t : _) (l : ℕ) → Ready limits scans.now t.now.tokens → F.pre inner.now t l }
    requires inside { (t : _) (l : ℕ) (r : _) (u : _) → F.post inner.now t l r u → Runs (spec.leveled (limits_of limits) depth l) t.now r u.now }
    requires below { (t : _) (l : ℕ) (r : _) (u : _) → F.post inner.now t l r u → IfOk r (λ x. x.1 ≤ depth) }
    ensures reads { Runs (spec.level (limits_of limits) depth (spec.leveled (limits_of limits) depth) rank) tokens.old result tokens.new }
    ensures within { IfOk result (λ x. x.1 ≤ depth + 1) }
{
    if rank == 0 {
        return unary(alloc, limits, scans, tokens, inner, depth);
    }
    let x = level(alloc, limits, scans, tokens, inner, depth, rank - 1)?;
    operators(alloc, limits, scans, tokens, inner, depth, rank - 1, x)
}
