// Statements without statements inside.

ghost use Rattle.std.specs.Prelude.{◌≡◌, true, Err, not, drop};
ghost use Rattle.slang_tree.specs.declared.statements.StatNode.TheVariants as s;
ghost use Rattle.slang_tokens.specs.declared.tokens.Mark.TheVariants as m;
ghost use Rattle.slang_reading.specs.Cursor.{Runs, looked};
ghost use Rattle.slang_reading.specs.Kinds as kinds;
ghost use Rattle.slang_reading.specs.Reading.{bind, first, pure};
ghost use Rattle.slang_grammar.specs.Descent as grammar;
ghost use Rattle.statement_grammar.specs.Statements.{stated};
ghost use Rattle.statement_grammar.specs.StatementsDescent as spec;
ghost use Rattle.type_reading.specs.Limited.{limits_of};
ghost use Rattle.ahead_reading.specs.Knowing.{Ready};

use crate::parts::{SimpleStatement, maybe, simple};
use ahead_reading::Scans;
use slang_names::{ModuleCode, Place};
use slang_reading::{Fault, Tokens, span};
use slang_tokens::Mark;
use slang_tree::{Change, Local, StatNode, StatTree};
use statement_grammar::{StatementUse, statement_use};
use std::alloc::Global;
use type_reading::{Limits, expect};

/// Whether a block goes on with the next token.
pub fn in_block(tokens: &mut Tokens<'_>) -> bool
    ensures is { result ≡ not (kinds.sees m.CloseBrace (first (drop tokens.old.at tokens.old.tokens))) }
    ensures after { tokens.new ≡ looked tokens.old }
{
    !tokens.sees(Mark::CloseBrace)
}

/// Why no statement is read where no node fits.
#[tactic(auto, unfolding(statement_grammar::specs::StatementsDescent::statements, statement_grammar::specs::StatementsDescent::stat, slang_reading::specs::Reading::next))]
pub fn no_statement(tokens: &mut Tokens<'_>, limits: Limits) -> Fault
    ensures { Runs (spec.statements (limits_of limits) 0) tokens.old (Err result) tokens.new }
{
    let Some(token) = tokens.peek() else {
        return Fault::Stopped;
    };
    match statement_use(token.kind) {
        StatementUse::Nothing => Fault::Stopped,
        _ => Fault::Past(ModuleCode::TooNested, token.place),
    }
}

/// The semicolon behind locals.
#[tactic(auto, unfolding(slang_reading::specs::Reading::bind))]
fn local_rest(tokens: &mut Tokens<'_>, x: Local) -> Result<StatTree, Fault>
    ensures { Runs (bind (grammar.expect m.Semicolon) (λ end. pure (stated (kinds.span x.place end) (s.Local x)))) tokens.old result tokens.new }
{
    let end = expect(tokens, Mark::Semicolon)?;
    let place = span(x.place, end);
    let node = StatNode::Local(x);
    Ok(StatTree { place, node })
}

/// The semicolon behind a change.
#[tactic(auto, unfolding(slang_reading::specs::Reading::bind))]
fn change_rest(tokens: &mut Tokens<'_>, x: Change) -> Result<StatTree, Fault>
    ensures { Runs (bind (grammar.expect m.Semicolon) (λ end. pure (stated (kinds.span x.place end) (s.Change x)))) tokens.old result tokens.new }
{
    let end = expect(tokens, Mark::Semicolon)?;
    let place = span(x.place, end);
    let node = StatNode::Change(x);
    Ok(StatTree { place, node })
}

/// A declaration of locals or a change, with its semicolon.
#[tactic(auto, unfolding(statement_grammar::specs::StatementsDescent::simple_stat, slang_reading::specs::Reading::bind))]
pub fn simple_stat(
    alloc: Global,
    limits: Limits,
    scans: &Scans,
    tokens: &mut Tokens<'_>,
    depth: usize,
) -> Result<StatTree, Fault>
    requires { Ready limits scans.now tokens.old.tokens }
    ensures { Runs (spec.simple_stat (limits_of limits) true depth (spec.statements (limits_of limits) depth)) tokens.old result tokens.new }
{
    match simple(alloc, limits, scans, tokens, depth)? {
        SimpleStatement::Local(x) => local_rest(tokens, x),
        SimpleStatement::Change(x) => change_rest(tokens, x),
    }
}

/// Behind `return`.
#[tactic(auto, unfolding(statement_grammar::specs::StatementsDescent::return_rest, slang_reading::specs::Reading::bind))]
pub fn return_rest(
    alloc: Global,
    limits: Limits,
    scans: &Scans,
    tokens: &mut Tokens<'_>,
    depth: usize,
    begin: Place,
) -> Result<StatTree, Fault>
    requires { Ready limits scans.now tokens.old.tokens }
    ensures { Runs (spec.return_rest (limits_of limits) true depth (spec.statements (limits_of limits) depth) begin) tokens.old result tokens.new }
{
    let x = maybe(alloc, limits, scans, tokens, depth)?;
    let end = expect(tokens, Mark::Semicolon)?;
    let place = span(begin, end);
    let node = StatNode::Return(x);
    Ok(StatTree { place, node })
}

/// Behind `break`.
#[tactic(auto, unfolding(statement_grammar::specs::StatementsDescent::break_rest, slang_reading::specs::Reading::bind))]
pub fn break_rest(
    limits: Limits,
    tokens: &mut Tokens<'_>,
    depth: usize,
    begin: Place,
) -> Result<StatTree, Fault>
    ensures { Runs (spec.break_rest (limits_of limits) true depth (spec.statements (limits_of limits) depth) begin) tokens.old result tokens.new }
{
    let end = expect(tokens, Mark::Semicolon)?;
    let place = span(begin, end);
    let node = StatNode::Break;
    Ok(StatTree { place, node })
}

/// Behind `continue`.
#[tactic(auto, unfolding(statement_grammar::specs::StatementsDescent::continue_rest, slang_reading::specs::Reading::bind))]
pub fn continue_rest(
    limits: Limits,
    tokens: &mut Tokens<'_>,
    depth: usize,
    begin: Place,
) -> Result<StatTree, Fault>
    ensures { Runs (spec.continue_rest (limits_of limits) true depth (spec.statements (limits_of limits) depth) begin) tokens.old result tokens.new }
{
    let end = expect(tokens, Mark::Semicolon)?;
    let place = span(begin, end);
    let node = StatNode::Continue;
    Ok(StatTree { place, node })
}
