// Values between parentheses.

ghost use Rattle.std.specs.Prelude.{ℕ, ◌≤◌, IfOk};
ghost use Rattle.slang_reading.specs.Cursor.{Runs};
ghost use Rattle.slang_reading.specs.Kinds.{sees};
ghost use Rattle.slang_reading.specs.Reading.{turns};
ghost use Rattle.slang_tokens.specs.declared.tokens.Mark.TheVariants as m;
ghost use Rattle.slang_grammar.specs.ExpressionsDescent as spec;
ghost use Rattle.type_reading.specs.Limited.{limits_of};
ghost use Rattle.ahead_reading.specs.Knowing.{Ready};

use crate::starts::{WHOLE, begins_expression};
use ahead_reading::Scans;
use slang_names::{ModuleCode, Place};
use slang_reading::{Fault, Tokens};
use slang_tokens::Mark;
use slang_tree::ExprTree;
use sqlite_items::Items;
use std::alloc::Global;
use type_reading::{Limits, expect};

/// A value behind so many others.
#[tactic(auto, unfolding(slang_grammar::specs::ExpressionsDescent::value, slang_reading::specs::Reading::next))]
fn value<F: Fn(&mut Tokens<'_>, u8) -> Result<(ExprTree, usize), Fault>>(
    alloc: Global,
    limits: Limits,
    scans: &Scans,
    tokens: &mut Tokens<'_>,
    inner: &F,
    depth: usize,
    count: usize,
) -> Result<(ExprTree, usize), Fault>
    requires ready { Ready limits scans.now tokens.old.tokens }
    requires can { (t : _) (l : ℕ) → Ready limits scans.now t.now.tokens → F.pre inner.now t l }
    requires inside { (t : _) (l : ℕ) (r : _) (u : _) → F.post inner.now t l r u → Runs (spec.leveled (limits_of limits) depth l) t.now r u.now }
    requires below { (t : _) (l : ℕ) (r : _) (u : _) → F.post inner.now t l r u → IfOk r (λ x. x.1 ≤ depth) }
    ensures reads { Runs (spec.value (limits_of limits) depth (spec.leveled (limits_of limits) depth) count) tokens.old result tokens.new }
    ensures within { IfOk result (λ x. x.1 ≤ depth) }
{
    let Some(token) = tokens.peek() else {
        return Err(Fault::Stopped);
    };
    if !begins_expression(token.kind) {
        return Err(Fault::Stopped);
    }
    if depth == 0 {
        return Err(Fault::Past(ModuleCode::TooNested, token.place));
    }
    if count >= limits.items {
        return Err(Fault::Past(ModuleCode::TooLong, token.place));
    }
    inner(tokens, WHOLE)
}

/// A comma and one more value.
#[tactic(auto, unfolding(slang_grammar::specs::ExpressionsDescent::value_more, slang_reading::specs::Reading::bind))]
fn value_more<F: Fn(&mut Tokens<'_>, u8) -> Result<(ExprTree, usize), Fault>>(
    alloc: Global,
    limits: Limits,
    scans: &Scans,
    tokens: &mut Tokens<'_>,
    inner: &F,
    depth: usize,
    list: (Items<ExprTree>, usize),
) -> Result<(Items<ExprTree>, usize), Fault>
    requires fits { list.1 ≤ depth }
    requires ready { Ready limits scans.now tokens.old.tokens }
    requires can { (t : _) (l : ℕ) → Ready limits scans.now t.now.tokens → F.pre inner.now t l }
    requires inside { (t : _) (l : ℕ) (r : _) (u : _) → F.post inner.now t l r u → Runs (spec.leveled (limits_of limits) depth l) t.now r u.now }
    requires below { (t : _) (l : ℕ) (r : _) (u : _) → F.post inner.now t l r u → IfOk r (λ x. x.1 ≤ depth) }
    ensures reads { Runs (spec.value_more (limits_of limits) depth (spec.leveled (limits_of limits) depth) list) tokens.old result tokens.new }
    ensures within { IfOk result (λ x. x.1 ≤ depth) }
{
    let (mut items, tallest) = list;
    expect(tokens, Mark::Comma)?;
    let (item, height) = value(alloc, limits, scans, tokens, inner, depth, items.len())?;
    items.push(item)?;
    Ok((items, tallest.max(height)))
}

/// The values behind the first.
fn value_list<F: Fn(&mut Tokens<'_>, u8) -> Result<(ExprTree, usize), Fault>>(
    alloc: Global,
    limits: Limits,
    scans: &Scans,
    tokens: &mut Tokens<'_>,
    inner: &F,
    depth: usize,
    mut list: (Items<ExprTree>, usize),
) -> Result<(Items<ExprTree>, usize), Fault>
    requires fits { list.1 ≤ depth }
    requires ready { Ready limits scans.now tokens.old.tokens }
    requires can { (t : _) (l : ℕ) → Ready limits scans.now t.now.tokens → F.pre inner.now t l }
    requires inside { (t : _) (l : ℕ) (r : _) (u : _) → F.post inner.now t l r u → Runs (spec.leveled (limits_of limits) depth l) t.now r u.now }
    requires below { (t : _) (l : ℕ) (r : _) (u : _) → F.post inner.now t l r u → IfOk r (λ x. x.1 ≤ depth) }
    ensures reads { Runs (turns (sees m.Comma) (spec.value_more (limits_of limits) depth (spec.leveled (limits_of limits) depth)) limits.turns list) tokens.old result tokens.new }
    ensures within { IfOk result (λ x. x.1 ≤ depth) }
{
    for _turn in 0..limits.turns {
        if !tokens.sees(Mark::Comma) {
            return Ok(list);
        }
        list = value_more(alloc, limits, scans, tokens, inner, depth, list)?;
    }
    if tokens.sees(Mark::Comma) {
        return Err(Fault::Past(ModuleCode::TooLong, tokens.place()));
    }
    Ok(list)
}

/// Behind the opening parenthesis, values and the place of the parenthesis that closes them.
#[tactic(auto, unfolding(slang_grammar::specs::ExpressionsDescent::values, slang_reading::specs::Reading::bind, slang_reading::specs::Reading::next))]
pub fn values<F: Fn(&mut Tokens<'_>, u8) -> Result<(ExprTree, usize), Fault>>(
    alloc: Global,
    limits: Limits,
    scans: &Scans,
    tokens: &mut Tokens<'_>,
    inner: &F,
    depth: usize,
) -> Result<((Items<ExprTree>, usize), Place), Fault>
    requires ready { Ready limits scans.now tokens.old.tokens }
    requires can { (t : _) (l : ℕ) → Ready limits scans.now t.now.tokens → F.pre inner.now t l }
    requires inside { (t : _) (l : ℕ) (r : _) (u : _) → F.post inner.now t l r u → Runs (spec.leveled (limits_of limits) depth l) t.now r u.now }
    requires below { (t : _) (l : ℕ) (r : _) (u : _) → F.post inner.now t l r u → IfOk r (λ x. x.1 ≤ depth) }
    ensures reads { Runs (spec.values (limits_of limits) depth (spec.leveled (limits_of limits) depth)) tokens.old result tokens.new }
    ensures within { IfOk result (λ x. x.0.1 ≤ depth) }
{
    if tokens.sees(Mark::CloseParen) {
        let end = expect(tokens, Mark::CloseParen)?;
        return Ok(((Items::new(alloc), 0), end));
    }
    let (item, height) = value(alloc, limits, scans, tokens, inner, depth, 0)?;
    let mut items = Items::new(alloc);
    items.push(item)?;
    let list = value_list(alloc, limits, scans, tokens, inner, depth, (items, height))?;
    let end = expect(tokens, Mark::CloseParen)?;
    Ok((list, end))
}
