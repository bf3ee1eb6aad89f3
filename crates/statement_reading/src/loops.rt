// Loops. What reads a statement inside is given.

ghost use Rattle.std.specs.Prelude.{true};
ghost use Rattle.slang_reading.specs.Cursor.{Runs};
ghost use Rattle.statement_grammar.specs.StatementsDescent as spec;
ghost use Rattle.type_reading.specs.Limited.{limits_of};
ghost use Rattle.ahead_reading.specs.Knowing.{Ready};

use crate::nodes::{begin_of, for_loop, while_loop};
use crate::parts::{condition, head};
use ahead_reading::Scans;
use attribute_reading::attributes;
use slang_names::Place;
use slang_reading::{Fault, Tokens, span};
use slang_tree::{Attribute, StatTree};
use sqlite_items::{Boxed, Items};
use statement_grammar::{StatementUse, Target, statement_use};
use std::alloc::Global;
use type_reading::Limits;

/// Behind `for`, of a loop with these attributes.
#[tactic(auto, unfolding(statement_grammar::specs::StatementsDescent::for_rest, slang_reading::specs::Reading::bind))]
pub fn for_rest<F: Fn(&mut Tokens<'_>) -> Result<StatTree, Fault>>(
    alloc: Global,
    limits: Limits,
    scans: &Scans,
    tokens: &mut Tokens<'_>,
    inner: &F,
    depth: usize,
    list: Items<Attribute>,
    begin: Place,
) -> Result<StatTree, Fault>
    requires ready { Ready limits scans.now tokens.old.tokens }
    requires can { (t : _) → Ready limits scans.now t.now.tokens → F.pre inner.now t }
    requires inside { (t : _) (r : _) (u : _) → F.post inner.now t r u → Runs (spec.statements (limits_of limits) depth) t.now r u.now }
    ensures { Runs (spec.for_rest (limits_of limits) true depth (spec.statements (limits_of limits) depth) list begin) tokens.old result tokens.new }
{
    let parts = head(alloc, limits, scans, tokens, depth)?;
    let y = inner(tokens)?;
    let place = span(begin_of(list.as_slice(), begin), y.place);
    let y = Boxed::new(alloc, y)?;
    Ok(for_loop(place, list, parts, y))
}

/// Behind `while`, of a loop with these attributes.
#[tactic(auto, unfolding(statement_grammar::specs::StatementsDescent::while_rest, slang_reading::specs::Reading::bind))]
pub fn while_rest<F: Fn(&mut Tokens<'_>) -> Result<StatTree, Fault>>(
    alloc: Global,
    limits: Limits,
    scans: &Scans,
    tokens: &mut Tokens<'_>,
    inner: &F,
    depth: usize,
    list: Items<Attribute>,
    begin: Place,
) -> Result<StatTree, Fault>
    requires ready { Ready limits scans.now tokens.old.tokens }
    requires can { (t : _) → Ready limits scans.now t.now.tokens → F.pre inner.now t }
    requires inside { (t : _) (r : _) (u : _) → F.post inner.now t r u → Runs (spec.statements (limits_of limits) depth) t.now r u.now }
    ensures { Runs (spec.while_rest (limits_of limits) true depth (spec.statements (limits_of limits) depth) list begin) tokens.old result tokens.new }
{
    let x = condition(alloc, limits, scans, tokens, depth)?;
    let y = inner(tokens)?;
    let place = span(begin_of(list.as_slice(), begin), y.place);
    Ok(while_loop(alloc, place, list, x, y)?)
}

/// A loop with attributes.
#[tactic(auto, unfolding(statement_grammar::specs::StatementsDescent::loop_rest, slang_reading::specs::Reading::bind, slang_reading::specs::Reading::next))]
pub fn loop_rest<F: Fn(&mut Tokens<'_>) -> Result<StatTree, Fault>>(
    alloc: Global,
    limits: Limits,
    scans: &Scans,
    tokens: &mut Tokens<'_>,
    inner: &F,
    depth: usize,
) -> Result<StatTree, Fault>
    requires ready { Ready limits scans.now tokens.old.tokens }
    requires can { (t : _) → Ready limits scans.now t.now.tokens → F.pre inner.now t }
    requires inside { (t : _) (r : _) (u : _) → F.post inner.now t r u → Runs (spec.statements (limits_of limits) depth) t.now r u.now }
    ensures { Runs (spec.loop_rest (limits_of limits) true depth (spec.statements (limits_of limits) depth)) tokens.old result tokens.new }
{
    let (list, _noted) = attributes(alloc, limits, tokens, &[Target::Loop])?;
    let Some(token) = tokens.peek() else {
        return Err(Fault::Stopped);
    };
    match statement_use(token.kind) {
        StatementUse::For => {
            tokens.bump();
            for_rest(
                alloc,
                limits,
                scans,
                tokens,
                inner,
                depth,
                list,
                token.place,
            )
        }
        StatementUse::While => {
            tokens.bump();
            while_rest(
                alloc,
                limits,
                scans,
                tokens,
                inner,
                depth,
                list,
                token.place,
            )
        }
        _ => Err(Fault::Stopped),
    }
}
