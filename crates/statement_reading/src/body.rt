// The body of a function.

ghost use Rattle.std.specs.Prelude.{true, Err};
ghost use Rattle.slang_reading.specs.Cursor.{Runs};
ghost use Rattle.statement_grammar.specs.StatementsDescent as spec;
ghost use Rattle.type_reading.specs.Limited.{limits_of};
ghost use Rattle.ahead_reading.specs.Knowing.{Ready};

use crate::braces::stats;
use crate::descent::statements;
use ahead_reading::Scans;
use slang_names::{ModuleCode, Place};
use slang_reading::{Fault, Tokens, span};
use slang_tokens::Mark;
use slang_tree::{Block, StatTree};
use std::alloc::Global;
use type_reading::Limits;

/// Behind the opening brace.
#[tactic(auto, unfolding(statement_grammar::specs::StatementsDescent::body_rest, slang_reading::specs::Reading::bind))]
fn body_rest<F: Fn(&mut Tokens<'_>) -> Result<StatTree, Fault>>(
    alloc: Global,
    limits: Limits,
    scans: &Scans,
    tokens: &mut Tokens<'_>,
    inner: &F,
    depth: usize,
    begin: Place,
) -> Result<Block, Fault>
    requires ready { Ready limits scans.now tokens.old.tokens }
    requires can { (t : _) → Ready limits scans.now t.now.tokens → F.pre inner.now t }
    requires inside { (t : _) (r : _) (u : _) → F.post inner.now t r u → Runs (spec.statements (limits_of limits) depth) t.now r u.now }
    ensures { Runs (spec.body_rest (limits_of limits) true depth (spec.statements (limits_of limits) depth) begin) tokens.old result tokens.new }
{
    let (statements, end) = stats(alloc, limits, scans, tokens, inner, depth)?;
    let place = span(begin, end);
    Ok(Block { place, statements })
}

/// A body, where a node fits.
#[tactic(auto, unfolding(statement_grammar::specs::StatementsDescent::body, slang_reading::specs::Reading::next))]
fn body<F: Fn(&mut Tokens<'_>) -> Result<StatTree, Fault>>(
    alloc: Global,
    limits: Limits,
    scans: &Scans,
    tokens: &mut Tokens<'_>,
    inner: &F,
    depth: usize,
) -> Result<Block, Fault>
    requires ready { Ready limits scans.now tokens.old.tokens }
    requires can { (t : _) → Ready limits scans.now t.now.tokens → F.pre inner.now t }
    requires inside { (t : _) (r : _) (u : _) → F.post inner.now t r u → Runs (spec.statements (limits_of limits) depth) t.now r u.now }
    ensures { Runs (spec.body (limits_of limits) true depth (spec.statements (limits_of limits) depth)) tokens.old result tokens.new }
{
    if !tokens.sees(Mark::OpenBrace) {
        return Err(Fault::Stopped);
    }
    let begin = tokens.place();
    tokens.bump();
    body_rest(alloc, limits, scans, tokens, inner, depth, begin)
}

/// A body, where no node fits.
#[tactic(auto, unfolding(statement_grammar::specs::StatementsDescent::blocks, statement_grammar::specs::StatementsDescent::body, slang_reading::specs::Reading::next))]
fn no_body(tokens: &mut Tokens<'_>, limits: Limits) -> Fault
    ensures { Runs (spec.blocks (limits_of limits) 0) tokens.old (Err result) tokens.new }
{
    if tokens.sees(Mark::OpenBrace) {
        return Fault::Past(ModuleCode::TooNested, tokens.place());
    }
    Fault::Stopped
}

/// The body of a function, of which at most so many nodes stand on a path.
pub fn blocks(
    alloc: Global,
    limits: Limits,
    scans: &Scans,
    tokens: &mut Tokens<'_>,
    depth: usize,
) -> Result<Block, Fault>
    requires { Ready limits scans.now tokens.old.tokens }
    ensures { Runs (spec.blocks (limits_of limits) depth) tokens.old result tokens.new }
{
    if depth == 0 {
        return Err(no_body(tokens, limits));
    }
    let less = depth - 1;
    let inner = |t: &mut Tokens<'_>|
        requires { Ready limits scans.now t.old.tokens }
        ensures { Runs (spec.statements (limits_of limits) less) t.old result t.new }
    { statements(alloc, limits, scans, t, less) };
    body(alloc, limits, scans, tokens, &inner, less)
}
