// Operands of changes: a primary with what goes on it.

ghost use Rattle.std.specs.Prelude.{◌≡◌, Err};
ghost use Rattle.slang_reading.specs.Cursor.{Runs};
ghost use Rattle.statement_grammar.specs.StatementsDescent as spec;
ghost use Rattle.type_reading.specs.Limited.{limits_of};
ghost use Rattle.ahead_reading.specs.Knowing.{Ready};

use ahead_reading::Scans;
use expression_reading::{begins_expression, postfix};
use slang_names::ModuleCode;
use slang_reading::{Fault, Tokens};
use slang_tokens::{Kind, Mark};
use slang_tree::ExprTree;
use std::alloc::Global;
use type_reading::Limits;

/// Whether an operand begins with a token of that kind.
fn begins_operand(kind: Kind) -> bool
    ensures { result ≡ spec.operand_by kind }
{
    match kind {
        Kind::Mark(Mark::OpenParen) => true,
        Kind::Mark(_) => false,
        _ => begins_expression(kind),
    }
}

/// Why no operand is read where no node fits.
#[tactic(auto, unfolding(statement_grammar::specs::StatementsDescent::operands, slang_reading::specs::Reading::bind, slang_reading::specs::Reading::next))]
fn no_operand(tokens: &mut Tokens<'_>, limits: Limits) -> Fault
    ensures { Runs (spec.operands (limits_of limits) 0) tokens.old (Err result) tokens.new }
{
    let Some(token) = tokens.peek() else {
        return Fault::Stopped;
    };
    if begins_operand(token.kind) {
        return Fault::Past(ModuleCode::TooNested, token.place);
    }
    Fault::Stopped
}

/// An operand of which at most so many nodes stand on a path, and how many do.
pub fn operands(
    alloc: Global,
    limits: Limits,
    scans: &Scans,
    tokens: &mut Tokens<'_>,
    depth: usize,
) -> Result<(ExprTree, usize), Fault>
    requires { Ready limits scans.now tokens.old.tokens }
    ensures { Runs (spec.operands (limits_of limits) depth) tokens.old result tokens.new }
{
    if depth == 0 {
        return Err(no_operand(tokens, limits));
    }
    postfix(alloc, limits, scans, tokens, depth - 1)
}
