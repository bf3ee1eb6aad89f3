// Statements in braces. What reads a statement inside is given.

ghost use Rattle.std.specs.Prelude.{true};
ghost use Rattle.slang_reading.specs.Cursor.{Runs};
ghost use Rattle.slang_reading.specs.Reading.{turns};
ghost use Rattle.statement_grammar.specs.StatementsDescent as spec;
ghost use Rattle.type_reading.specs.Limited.{limits_of};
ghost use Rattle.ahead_reading.specs.Knowing.{Ready};

use crate::plain::in_block;
use ahead_reading::Scans;
use slang_names::{ModuleCode, Place};
use slang_reading::{Fault, Tokens, span};
use slang_tokens::Mark;
use slang_tree::{StatNode, StatTree};
use sqlite_items::Items;
use std::alloc::Global;
use type_reading::{Limits, expect};

/// One more statement of a block.
#[tactic(auto, unfolding(statement_grammar::specs::StatementsDescent::stat_more, slang_reading::specs::Reading::bind))]
fn stat_more<F: Fn(&mut Tokens<'_>) -> Result<StatTree, Fault>>(
    limits: Limits,
    scans: &Scans,
    tokens: &mut Tokens<'_>,
    inner: &F,
    depth: usize,
    mut list: Items<StatTree>,
) -> Result<Items<StatTree>, Fault>
    requires ready { Ready limits scans.now tokens.old.tokens }
    requires can { (t : _) → Ready limits scans.now t.now.tokens → F.pre inner.now t }
    requires inside { (t : _) (r : _) (u : _) → F.post inner.now t r u → Runs (spec.statements (limits_of limits) depth) t.now r u.now }
    ensures { Runs (spec.stat_more (limits_of limits) true depth (spec.statements (limits_of limits) depth) list) tokens.old result tokens.new }
{
    let x = inner(tokens)?;
    list.push(x)?;
    Ok(list)
}

/// The statements of a block.
fn stat_list<F: Fn(&mut Tokens<'_>) -> Result<StatTree, Fault>>(
    limits: Limits,
    scans: &Scans,
    tokens: &mut Tokens<'_>,
    inner: &F,
    depth: usize,
    mut list: Items<StatTree>,
) -> Result<Items<StatTree>, Fault>
    requires ready { Ready limits scans.now tokens.old.tokens }
    requires can { (t : _) → Ready limits scans.now t.now.tokens → F.pre inner.now t }
    requires inside { (t : _) (r : _) (u : _) → F.post inner.now t r u → Runs (spec.statements (limits_of limits) depth) t.now r u.now }
    ensures { Runs (turns (spec.in_block (limits_of limits) true depth (spec.statements (limits_of limits) depth)) (spec.stat_more (limits_of limits) true depth (spec.statements (limits_of limits) depth)) limits.turns list) tokens.old result tokens.new }
{
    for _turn in 0..limits.turns {
        if !in_block(tokens) {
            return Ok(list);
        }
        list = stat_more(limits, scans, tokens, inner, depth, list)?;
    }
    if in_block(tokens) {
        return Err(Fault::Past(ModuleCode::TooLong, tokens.place()));
    }
    Ok(list)
}

/// Behind an opening brace: the statements, and where the closing brace lies.
#[tactic(auto, unfolding(statement_grammar::specs::StatementsDescent::stats, slang_reading::specs::Reading::bind))]
pub fn stats<F: Fn(&mut Tokens<'_>) -> Result<StatTree, Fault>>(
    alloc: Global,
    limits: Limits,
    scans: &Scans,
    tokens: &mut Tokens<'_>,
    inner: &F,
    depth: usize,
) -> Result<(Items<StatTree>, Place), Fault>
    requires ready { Ready limits scans.now tokens.old.tokens }
    requires can { (t : _) → Ready limits scans.now t.now.tokens → F.pre inner.now t }
    requires inside { (t : _) (r : _) (u : _) → F.post inner.now t r u → Runs (spec.statements (limits_of limits) depth) t.now r u.now }
    ensures { Runs (spec.stats (limits_of limits) true depth (spec.statements (limits_of limits) depth)) tokens.old result tokens.new }
{
    let list = stat_list(limits, scans, tokens, inner, depth, Items::new(alloc))?;
    let end = expect(tokens, Mark::CloseBrace)?;
    Ok((list, end))
}

/// A block, behind its brace.
#[tactic(auto, unfolding(statement_grammar::specs::StatementsDescent::block_rest, slang_reading::specs::Reading::bind))]
pub fn block_rest<F: Fn(&mut Tokens<'_>) -> Result<StatTree, Fault>>(
    alloc: Global,
    limits: Limits,
    scans: &Scans,
    tokens: &mut Tokens<'_>,
    inner: &F,
    depth: usize,
    begin: Place,
) -> Result<StatTree, Fault>
    requires ready { Ready limits scans.now tokens.old.tokens }
    requires can { (t : _) → Ready limits scans.now t.now.tokens → F.pre inner.now t }
    requires inside { (t : _) (r : _) (u : _) → F.post inner.now t r u → Runs (spec.statements (limits_of limits) depth) t.now r u.now }
    ensures { Runs (spec.block_rest (limits_of limits) true depth (spec.statements (limits_of limits) depth) begin) tokens.old result tokens.new }
{
    let (list, end) = stats(alloc, limits, scans, tokens, inner, depth)?;
    let place = span(begin, end);
    let node = StatNode::Block(list);
    Ok(StatTree { place, node })
}
