// Statements behind `if`. What reads a statement inside is given.

ghost use Rattle.std.specs.Prelude.{true};
ghost use Rattle.slang_reading.specs.Cursor.{Runs};
ghost use Rattle.statement_grammar.specs.StatementsDescent as spec;
ghost use Rattle.type_reading.specs.Limited.{limits_of};
ghost use Rattle.ahead_reading.specs.Knowing.{Ready};

use crate::nodes::{if_alone, if_both};
use crate::parts::condition;
use ahead_reading::Scans;
use slang_names::Place;
use slang_reading::{Fault, Tokens, span};
use slang_tokens::Word;
use slang_tree::{ExprTree, StatTree};
use std::alloc::Global;
use type_reading::Limits;

/// Behind `else`.
#[tactic(auto, unfolding(statement_grammar::specs::StatementsDescent::if_else, slang_reading::specs::Reading::bind))]
fn if_else<F: Fn(&mut Tokens<'_>) -> Result<StatTree, Fault>>(
    alloc: Global,
    limits: Limits,
    scans: &Scans,
    tokens: &mut Tokens<'_>,
    inner: &F,
    depth: usize,
    begin: Place,
    x: ExprTree,
    y: StatTree,
) -> Result<StatTree, Fault>
    requires ready { Ready limits scans.now tokens.old.tokens }
    requires can { (t : _) → Ready limits scans.now t.now.tokens → F.pre inner.now t }
    requires inside { (t : _) (r : _) (u : _) → F.post inner.now t r u → Runs (spec.statements (limits_of limits) depth) t.now r u.now }
    ensures { Runs (spec.if_else (limits_of limits) true depth (spec.statements (limits_of limits) depth) begin x y) tokens.old result tokens.new }
{
    let z = inner(tokens)?;
    let place = span(begin, z.place);
    Ok(if_both(alloc, place, x, y, z)?)
}

/// Behind `if`.
#[tactic(auto, unfolding(statement_grammar::specs::StatementsDescent::if_rest, slang_reading::specs::Reading::bind, slang_reading::specs::Reading::next))]
pub fn if_rest<F: Fn(&mut Tokens<'_>) -> Result<StatTree, Fault>>(
    alloc: Global,
    limits: Limits,
    scans: &Scans,
    tokens: &mut Tokens<'_>,
    inner: &F,
    depth: usize,
    begin: Place,
) -> Result<StatTree, Fault>
    requires ready { Ready limits scans.now tokens.old.tokens }
    requires can { (t : _) → Ready limits scans.now t.now.tokens → F.pre inner.now t }
    requires inside { (t : _) (r : _) (u : _) → F.post inner.now t r u → Runs (spec.statements (limits_of limits) depth) t.now r u.now }
    ensures { Runs (spec.if_rest (limits_of limits) true depth (spec.statements (limits_of limits) depth) begin) tokens.old result tokens.new }
{
    let x = condition(alloc, limits, scans, tokens, depth)?;
    let y = inner(tokens)?;
    if tokens.sees_word(Word::Else) {
        tokens.bump();
        return if_else(alloc, limits, scans, tokens, inner, depth, begin, x, y);
    }
    let place = span(begin, y.place);
    Ok(if_alone(alloc, place, x, y)?)
}
