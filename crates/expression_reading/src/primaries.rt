// Primaries, and what goes on them: members, indices and calls.

ghost use Rattle.std.specs.Prelude.{ℕ, ◌≡◌, ◌≤◌, ◌<◌, ◌^◌, ◌+◌, length, IfOk};
ghost use Rattle.slang_reading.specs.Cursor.{Runs, taken};
ghost use Rattle.slang_reading.specs.Reading.{next, turns};
ghost use Rattle.slang_grammar.specs.Expressions.{valued};
ghost use Rattle.slang_grammar.specs.ExpressionsDescent as spec;
ghost use Rattle.type_reading.specs.Limited.{limits_of};
ghost use Rattle.ahead_reading.specs.Knowing.{Ready};

use crate::ahead::goes_on;
use crate::given::{identifier, is_short, member_rest, named};
use crate::nodes::{called, indexed, parenthesized, plain};
use crate::starts::WHOLE;
use crate::values::values;
use ahead_reading::Scans;
use slang_grammar::builtin_of;
use slang_names::{ModuleCode, Place};
use slang_reading::{Fault, Tokens, span};
use slang_tokens::{Kind, Mark, Word};
use slang_tree::{Builtin, ExprNode, ExprTree};
use std::alloc::Global;
use type_reading::{Limits, expect};

/// That node in the place of the next token, which is taken.
fn leaf(tokens: &mut Tokens<'_>, place: Place, node: ExprNode) -> (ExprTree, usize)
    requires { tokens.old.at < length tokens.old.tokens }
    ensures is { result ≡ (valued place node, 1) }
    ensures after { tokens.new ≡ taken tokens.old }
{
    tokens.bump();
    (plain(place, node), 1)
}

/// Behind the word of a type.
#[tactic(auto, unfolding(slang_grammar::specs::ExpressionsDescent::construct, slang_reading::specs::Reading::bind))]
fn construct<F: Fn(&mut Tokens<'_>, u8) -> Result<(ExprTree, usize), Fault>>(
    alloc: Global,
    limits: Limits,
    scans: &Scans,
    tokens: &mut Tokens<'_>,
    inner: &F,
    depth: usize,
    begin: Place,
    kind: Builtin,
) -> Result<(ExprTree, usize), Fault>
    requires room { depth + 1 < 2 ^ 64 }
    requires ready { Ready limits scans.now tokens.old.tokens }
    requires can { (t : _) (l : ℕ) → Ready limits scans.now t.now.tokens → F.pre inner.now t l }
    requires inside { (t : _) (l : ℕ) (r : _) (u : _) → F.post inner.now t l r u → Runs (spec.leveled (limits_of limits) depth l) t.now r u.now }
    requires below { (t : _) (l : ℕ) (r : _) (u : _) → F.post inner.now t l r u → IfOk r (λ x. x.1 ≤ depth) }
    ensures reads { Runs (spec.construct (limits_of limits) depth (spec.leveled (limits_of limits) depth) begin kind) tokens.old result tokens.new }
    ensures within { IfOk result (λ x. x.1 ≤ depth + 1) }
{
    expect(tokens, Mark::OpenParen)?;
    let ((items, height), end) = values(alloc, limits, scans, tokens, inner, depth)?;
    let node = ExprNode::Construct(kind, items);
    Ok((plain(span(begin, end), node), height + 1))
}

/// Behind an opening parenthesis that begins no cast.
#[tactic(auto, unfolding(slang_grammar::specs::ExpressionsDescent::paren, slang_reading::specs::Reading::bind))]
pub fn paren<F: Fn(&mut Tokens<'_>, u8) -> Result<(ExprTree, usize), Fault>>(
    alloc: Global,
    limits: Limits,
    scans: &Scans,
    tokens: &mut Tokens<'_>,
    inner: &F,
    depth: usize,
    begin: Place,
) -> Result<(ExprTree, usize), Fault>
    requires room { depth + 1 < 2 ^ 64 }
    requires ready { Ready limits scans.now tokens.old.tokens }
    requires can { (t : _) (l : ℕ) → Ready limits scans.now t.now.tokens → F.pre inner.now t l }
    requires inside { (t : _) (l : ℕ) (r : _) (u : _) → F.post inner.now t l r u → Runs (spec.leveled (limits_of limits) depth l) t.now r u.now }
    requires below { (t : _) (l : ℕ) (r : _) (u : _) → F.post inner.now t l r u → IfOk r (λ x. x.1 ≤ depth) }
    ensures reads { Runs (spec.paren (limits_of limits) depth (spec.leveled (limits_of limits) depth) begin) tokens.old result tokens.new }
    ensures within { IfOk result (λ x. x.1 ≤ depth + 1) }
{
    let (x, height) = inner(tokens, WHOLE)?;
    let end = expect(tokens, Mark::CloseParen)?;
    Ok((parenthesized(alloc, span(begin, end), x)?, height + 1))
}

/// A primary.
#[tactic(auto, unfolding(slang_reading::specs::Reading::next))]
fn primary<F: Fn(&mut Tokens<'_>, u8) -> Result<(ExprTree, usize), Fault>>(
    alloc: Global,
    limits: Limits,
    scans: &Scans,
    tokens: &mut Tokens<'_>,
    inner: &F,
    depth: usize,
) -> Result<(ExprTree, usize), Fault>
    requires room { depth + 1 < 2 ^ 64 }
    requires ready { Ready limits scans.now tokens.old.tokens }
    requires can { (t : _) (l : ℕ) → Ready limits scans.now t.now.tokens → F.pre inner.now t l }
    requires inside { (t : _) (l : ℕ) (r : _) (u : _) → F.post inner.now t l r u → Runs (spec.leveled (limits_of limits) depth l) t.now r u.now }
    requires below { (t : _) (l : ℕ) (r : _) (u : _) → F.post inner.now t l r u → IfOk r (λ x. x.1 ≤ depth) }
    ensures reads { Runs (next (spec.primary_at (limits_of limits) depth (spec.leveled (limits_of limits) depth))) tokens.old result tokens.new }
    ensures within { IfOk result (λ x. x.1 ≤ depth + 1) }
{
    let Some(token) = tokens.peek() else {
        return Err(Fault::Stopped);
    };
    match token.kind {
        Kind::Number(number) => Ok(leaf(tokens, token.place, ExprNode::Number(number))),
        Kind::Word(Word::True) => Ok(leaf(tokens, token.place, ExprNode::True)),
        Kind::Word(Word::False) => Ok(leaf(tokens, token.place, ExprNode::False)),
        Kind::Word(Word::ThisValue) => Ok(leaf(tokens, token.place, ExprNode::ThisValue)),
        Kind::Word(Word::ThisType) => Ok(leaf(tokens, token.place, ExprNode::ThisType)),
        Kind::Word(word) => {
            let Some(kind) = builtin_of(word) else {
                return Err(Fault::Stopped);
            };
            tokens.bump();
            construct(
                alloc,
                limits,
                scans,
                tokens,
                inner,
                depth,
                token.place,
                kind,
            )
        }
        Kind::Name => {
            if !is_short(limits, tokens) {
                return Err(Fault::Past(ModuleCode::TooLong, token.place));
            }
            let id = identifier(alloc, tokens, token.place)?;
            tokens.bump();
            named(alloc, limits, scans, tokens, depth, id)
        }
        Kind::Mark(Mark::OpenParen) => {
            tokens.bump();
            paren(alloc, limits, scans, tokens, inner, depth, token.place)
        }
        _ => Err(Fault::Stopped),
    }
}

/// Behind an opening bracket.
#[tactic(auto, unfolding(slang_grammar::specs::ExpressionsDescent::index, slang_reading::specs::Reading::bind))]
fn index<F: Fn(&mut Tokens<'_>, u8) -> Result<(ExprTree, usize), Fault>>(
    alloc: Global,
    limits: Limits,
    scans: &Scans,
    tokens: &mut Tokens<'_>,
    inner: &F,
    depth: usize,
    x: (ExprTree, usize),
) -> Result<(ExprTree, usize), Fault>
    requires room { depth + 1 < 2 ^ 64 }
    requires fits { x.1 ≤ depth }
    requires ready { Ready limits scans.now tokens.old.tokens }
    requires can { (t : _) (l : ℕ) → Ready limits scans.now t.now.tokens → F.pre inner.now t l }
    requires inside { (t : _) (l : ℕ) (r : _) (u : _) → F.post inner.now t l r u → Runs (spec.leveled (limits_of limits) depth l) t.now r u.now }
    requires below { (t : _) (l : ℕ) (r : _) (u : _) → F.post inner.now t l r u → IfOk r (λ x. x.1 ≤ depth) }
    ensures reads { Runs (spec.index (limits_of limits) depth (spec.leveled (limits_of limits) depth) x) tokens.old result tokens.new }
    ensures within { IfOk result (λ x. x.1 ≤ depth + 1) }
{
    let (of, tallest) = x;
    let (i, height) = inner(tokens, WHOLE)?;
    let end = expect(tokens, Mark::CloseBracket)?;
    let place = span(of.place, end);
    Ok((indexed(alloc, place, of, i)?, tallest.max(height) + 1))
}

/// Behind the opening parenthesis of a call.
#[tactic(auto, unfolding(slang_grammar::specs::ExpressionsDescent::call, slang_reading::specs::Reading::bind))]
fn call<F: Fn(&mut Tokens<'_>, u8) -> Result<(ExprTree, usize), Fault>>(
    alloc: Global,
    limits: Limits,
    scans: &Scans,
    tokens: &mut Tokens<'_>,
    inner: &F,
    depth: usize,
    x: (ExprTree, usize),
) -> Result<(ExprTree, usize), Fault>
    requires room { depth + 1 < 2 ^ 64 }
    requires fits { x.1 ≤ depth }
    requires ready { Ready limits scans.now tokens.old.tokens }
    requires can { (t : _) (l : ℕ) → Ready limits scans.now t.now.tokens → F.pre inner.now t l }
    requires inside { (t : _) (l : ℕ) (r : _) (u : _) → F.post inner.now t l r u → Runs (spec.leveled (limits_of limits) depth l) t.now r u.now }
    requires below { (t : _) (l : ℕ) (r : _) (u : _) → F.post inner.now t l r u → IfOk r (λ x. x.1 ≤ depth) }
    ensures reads { Runs (spec.call (limits_of limits) depth (spec.leveled (limits_of limits) depth) x) tokens.old result tokens.new }
    ensures within { IfOk result (λ x. x.1 ≤ depth + 1) }
{
    let (callee, tallest) = x;
    let ((items, height), end) = values(alloc, limits, scans, tokens, inner, depth)?;
    let place = span(callee.place, end);
    Ok((
        called(alloc, place, callee, items)?,
        tallest.max(height) + 1,
    ))
}

/// A member, an index or a call.
#[tactic(auto, unfolding(slang_grammar::specs::ExpressionsDescent::chain, slang_reading::specs::Reading::next))]
fn chain<F: Fn(&mut Tokens<'_>, u8) -> Result<(ExprTree, usize), Fault>>(
    alloc: Global,
    limits: Limits,
    scans: &Scans,
    tokens: &mut Tokens<'_>,
    inner: &F,
    depth: usize,
    x: (ExprTree, usize),
) -> Result<(ExprTree, usize), Fault>
    requires room { depth + 1 < 2 ^ 64 }
    requires ready { Ready limits scans.now tokens.old.tokens }
    requires can { (t : _) (l : ℕ) → Ready limits scans.now t.now.tokens → F.pre inner.now t l }
    requires inside { (t : _) (l : ℕ) (r : _) (u : _) → F.post inner.now t l r u → Runs (spec.leveled (limits_of limits) depth l) t.now r u.now }
    requires below { (t : _) (l : ℕ) (r : _) (u : _) → F.post inner.now t l r u → IfOk r (λ x. x.1 ≤ depth) }
    ensures reads { Runs (spec.chain (limits_of limits) depth (spec.leveled (limits_of limits) depth) x) tokens.old result tokens.new }
    ensures within { IfOk result (λ x. x.1 ≤ depth + 1) }
{
    let Some(token) = tokens.peek() else {
        return Err(Fault::Stopped);
    };
    let Kind::Mark(mark) = token.kind else {
        return Err(Fault::Stopped);
    };
    match mark {
        Mark::Dot => {
            if x.1 > depth {
                return Err(Fault::Past(ModuleCode::TooNested, token.place));
            }
            tokens.bump();
            member_rest(alloc, limits, scans, tokens, depth, x)
        }
        Mark::OpenBracket => {
            if x.1 > depth {
                return Err(Fault::Past(ModuleCode::TooNested, token.place));
            }
            tokens.bump();
            index(alloc, limits, scans, tokens, inner, depth, x)
        }
        Mark::OpenParen => {
            if x.1 > depth {
                return Err(Fault::Past(ModuleCode::TooNested, token.place));
            }
            tokens.bump();
            call(alloc, limits, scans, tokens, inner, depth, x)
        }
        _ => Err(Fault::Stopped),
    }
}

/// Behind a primary.
pub fn chain_rest<F: Fn(&mut Tokens<'_>, u8) -> Result<(ExprTree, usize), Fault>>(
    alloc: Global,
    limits: Limits,
    scans: &Scans,
    tokens: &mut Tokens<'_>,
    inner: &F,
    depth: usize,
    mut x: (ExprTree, usize),
) -> Result<(ExprTree, usize), Fault>
    requires room { depth + 1 < 2 ^ 64 }
    requires fits { x.1 ≤ depth + 1 }
    requires ready { Ready limits scans.now tokens.old.tokens }
    requires can { (t : _) (l : ℕ) → Ready limits scans.now t.now.tokens → F.pre inner.now t l }
    requires inside { (t : _) (l : ℕ) (r : _) (u : _) → F.post inner.now t l r u → Runs (spec.leveled (limits_of limits) depth l) t.now r u.now }
    requires below { (t : _) (l : ℕ) (r : _) (u : _) → F.post inner.now t l r u → IfOk r (λ x. x.1 ≤ depth) }
    ensures reads { Runs (turns (spec.chains (limits_of limits) depth (spec.leveled (limits_of limits) depth)) (spec.chain (limits_of limits) depth (spec.leveled (limits_of limits) depth)) limits.turns x) tokens.old result tokens.new }
    ensures within { IfOk result (λ x. x.1 ≤ depth + 1) }
{
    for _turn in 0..limits.turns {
        if !goes_on(tokens) {
            return Ok(x);
        }
        x = chain(alloc, limits, scans, tokens, inner, depth, x)?;
    }
    if goes_on(tokens) {
        return Err(Fault::Past(ModuleCode::TooLong, tokens.place()));
    }
    Ok(x)
}

/// A primary with what goes on it, with so many nodes inside.
#[tactic(auto, unfolding(slang_grammar::specs::ExpressionsDescent::postfix, slang_grammar::specs::ExpressionsDescent::chain_rest, slang_reading::specs::Reading::bind))]
pub fn primary_and_rest<F: Fn(&mut Tokens<'_>, u8) -> Result<(ExprTree, usize), Fault>>(
    alloc: Global,
    limits: Limits,
    scans: &Scans,
    tokens: &mut Tokens<'_>,
    inner: &F,
    depth: usize,
) -> Result<(ExprTree, usize), Fault>
    requires room { depth + 1 < 2 ^ 64 }
    requires ready { Ready limits scans.now tokens.old.tokens }
    requires can { (t : _) (l : ℕ) → Ready limits scans.now t.now.tokens → F.pre inner.now t l }
    requires inside { (t : _) (l : ℕ) (r : _) (u : _) → F.post inner.now t l r u → Runs (spec.leveled (limits_of limits) depth l) t.now r u.now }
    requires below { (t : _) (l : ℕ) (r : _) (u : _) → F.post inner.now t l r u → IfOk r (λ x. x.1 ≤ depth) }
    ensures reads { Runs (spec.postfix (limits_of limits) depth (spec.leveled (limits_of limits) depth)) tokens.old result tokens.new }
    ensures within { IfOk result (λ x. x.1 ≤ depth + 1) }
{
    let x = primary(alloc, limits, scans, tokens, inner, depth)?;
    chain_rest(alloc, limits, scans, tokens, inner, depth, x)
}
