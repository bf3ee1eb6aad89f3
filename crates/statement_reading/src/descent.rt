// The descent into statements. Of what begins inside a statement, at most so many nodes stand on a path.

ghost use Rattle.std.specs.Prelude.{true};
ghost use Rattle.slang_reading.specs.Cursor.{Runs};
ghost use Rattle.statement_grammar.specs.StatementsDescent as spec;
ghost use Rattle.type_reading.specs.Limited.{limits_of};
ghost use Rattle.ahead_reading.specs.Knowing.{Ready};

use crate::braces::block_rest;
use crate::branches::if_rest;
use crate::loops::{for_rest, loop_rest, while_rest};
use crate::plain::{break_rest, continue_rest, no_statement, return_rest, simple_stat};
use ahead_reading::Scans;
use slang_reading::{Fault, Tokens};
use slang_tree::{StatNode, StatTree};
use sqlite_items::Items;
use statement_grammar::{StatementUse, statement_use};
use std::alloc::Global;
use type_reading::Limits;

/// A statement, where a node fits.
#[tactic(auto, unfolding(statement_grammar::specs::StatementsDescent::stat, slang_reading::specs::Reading::next))]
fn stat<F: Fn(&mut Tokens<'_>) -> Result<StatTree, Fault>>(
    alloc: Global,
    limits: Limits,
    scans: &Scans,
    tokens: &mut Tokens<'_>,
    inner: &F,
    depth: usize,
) -> Result<StatTree, Fault>
    requires ready { Ready limits scans.now tokens.old.tokens }
    requires can { (t : _) → Ready limits scans.now t.now.tokens → F.pre inner.now t }
    requires inside { (t : _) (r : _) (u : _) → F.post inner.now t r u → Runs (spec.statements (limits_of limits) depth) t.now r u.now }
    ensures { Runs (spec.stat (limits_of limits) true depth (spec.statements (limits_of limits) depth)) tokens.old result tokens.new }
{
    let Some(token) = tokens.peek() else {
        return Err(Fault::Stopped);
    };
    let place = token.place;
    match statement_use(token.kind) {
        StatementUse::Block => {
            tokens.bump();
            block_rest(alloc, limits, scans, tokens, inner, depth, place)
        }
        StatementUse::Attributes => loop_rest(alloc, limits, scans, tokens, inner, depth),
        StatementUse::If => {
            tokens.bump();
            if_rest(alloc, limits, scans, tokens, inner, depth, place)
        }
        StatementUse::For => {
            tokens.bump();
            let list = Items::new(alloc);
            for_rest(alloc, limits, scans, tokens, inner, depth, list, place)
        }
        StatementUse::While => {
            tokens.bump();
            let list = Items::new(alloc);
            while_rest(alloc, limits, scans, tokens, inner, depth, list, place)
        }
        StatementUse::Empty => {
            tokens.bump();
            Ok(StatTree {
                place,
                node: StatNode::Empty,
            })
        }
        StatementUse::Simple => simple_stat(alloc, limits, scans, tokens, depth),
        StatementUse::Return => {
            tokens.bump();
            return_rest(alloc, limits, scans, tokens, depth, place)
        }
        StatementUse::Break => {
            tokens.bump();
            break_rest(limits, tokens, depth, place)
        }
        StatementUse::Continue => {
            tokens.bump();
            continue_rest(limits, tokens, depth, place)
        }
        StatementUse::Nothing => Err(Fault::Stopped),
    }
}

/// A statement of which at most so many nodes stand on a path.
pub fn statements(
    alloc: Global,
    limits: Limits,
    scans: &Scans,
    tokens: &mut Tokens<'_>,
    depth: usize,
) -> Result<StatTree, Fault>
    requires { Ready limits scans.now tokens.old.tokens }
    ensures { Runs (spec.statements (limits_of limits) depth) tokens.old result tokens.new }
{
    if depth == 0 {
        return Err(no_statement(tokens, limits));
    }
    let less = depth - 1;
    let inner = |t: &mut Tokens<'_>|
        requires { Ready limits scans.now t.old.tokens }
        ensures { Runs (spec.statements (limits_of limits) less) t.old result t.new }
    { statements(alloc, limits, scans, t, less) };
    stat(alloc, limits, scans, tokens, &inner, less)
}
