// Declarations of locals, with so many nodes inside.

ghost use Rattle.std.specs.Prelude.{true, false};
ghost use Rattle.slang_reading.specs.Cursor.{Runs};
ghost use Rattle.slang_reading.specs.Kinds.{sees};
ghost use Rattle.slang_reading.specs.Reading.{turns};
ghost use Rattle.slang_tokens.specs.declared.tokens.Mark.TheVariants as m;
ghost use Rattle.statement_grammar.specs.StatementsDescent as spec;
ghost use Rattle.type_reading.specs.Limited.{limits_of};
ghost use Rattle.ahead_reading.specs.Knowing.{Ready};

use crate::lists::initials;
use ahead_reading::Scans;
use attribute_reading::declared_name;
use slang_names::{ModuleCode, Place};
use slang_reading::{Fault, Tokens, span};
use slang_tokens::Mark;
use slang_tree::{Local, LocalName, TypeTree};
use sqlite_items::Items;
use std::alloc::Global;
use type_reading::{Limits, expect, types};

/// A declared name and what it begins with, and a place that ends with it.
#[tactic(auto, unfolding(statement_grammar::specs::StatementsDescent::one_name, slang_reading::specs::Reading::bind, slang_reading::specs::Reading::next))]
fn one_name(
    alloc: Global,
    limits: Limits,
    scans: &Scans,
    tokens: &mut Tokens<'_>,
    depth: usize,
) -> Result<(LocalName, Place), Fault>
    requires { Ready limits scans.now tokens.old.tokens }
    ensures { Runs (spec.one_name (limits_of limits) depth) tokens.old result tokens.new }
{
    let (name, place) = declared_name(alloc, limits, tokens)?;
    if !tokens.sees(Mark::Equal) {
        return Ok((LocalName { name, value: None }, place));
    }
    tokens.bump();
    let (x, end) = initials(alloc, limits, scans, tokens, depth)?;
    let value = Some(x);
    Ok((LocalName { name, value }, end))
}

/// A comma and one more name.
#[tactic(auto, unfolding(statement_grammar::specs::StatementsDescent::name_more, slang_reading::specs::Reading::bind))]
fn name_more(
    alloc: Global,
    limits: Limits,
    scans: &Scans,
    tokens: &mut Tokens<'_>,
    depth: usize,
    names: (Items<LocalName>, Place),
) -> Result<(Items<LocalName>, Place), Fault>
    requires { Ready limits scans.now tokens.old.tokens }
    ensures { Runs (spec.name_more (limits_of limits) depth names) tokens.old result tokens.new }
{
    let (mut list, _last) = names;
    expect(tokens, Mark::Comma)?;
    let (x, end) = one_name(alloc, limits, scans, tokens, depth)?;
    list.push(x)?;
    Ok((list, end))
}

/// The names behind the first.
fn name_list(
    alloc: Global,
    limits: Limits,
    scans: &Scans,
    tokens: &mut Tokens<'_>,
    depth: usize,
    mut names: (Items<LocalName>, Place),
) -> Result<(Items<LocalName>, Place), Fault>
    requires { Ready limits scans.now tokens.old.tokens }
    ensures { Runs (turns (sees m.Comma) (spec.name_more (limits_of limits) depth) limits.turns names) tokens.old result tokens.new }
{
    for _turn in 0..limits.turns {
        if !tokens.sees(Mark::Comma) {
            return Ok(names);
        }
        names = name_more(alloc, limits, scans, tokens, depth, names)?;
    }
    if tokens.sees(Mark::Comma) {
        return Err(Fault::Past(ModuleCode::TooLong, tokens.place()));
    }
    Ok(names)
}

/// Behind the type of locals.
#[tactic(auto, unfolding(statement_grammar::specs::StatementsDescent::names_rest, slang_reading::specs::Reading::bind))]
fn names_rest(
    alloc: Global,
    limits: Limits,
    scans: &Scans,
    tokens: &mut Tokens<'_>,
    depth: usize,
    begin: Place,
    is_const: bool,
    kind: TypeTree,
) -> Result<Local, Fault>
    requires { Ready limits scans.now tokens.old.tokens }
    ensures { Runs (spec.names_rest (limits_of limits) depth begin is_const kind) tokens.old result tokens.new }
{
    let (x, last) = one_name(alloc, limits, scans, tokens, depth)?;
    let mut list = Items::new(alloc);
    list.push(x)?;
    let (names, end) = name_list(alloc, limits, scans, tokens, depth, (list, last))?;
    let place = span(begin, end);
    Ok(Local {
        place,
        is_const,
        kind,
        names,
    })
}

/// Locals without `const`.
#[tactic(auto, unfolding(statement_grammar::specs::StatementsDescent::variable, slang_reading::specs::Reading::bind))]
pub fn variable(
    alloc: Global,
    limits: Limits,
    scans: &Scans,
    tokens: &mut Tokens<'_>,
    depth: usize,
) -> Result<Local, Fault>
    requires { Ready limits scans.now tokens.old.tokens }
    ensures { Runs (spec.variable (limits_of limits) depth) tokens.old result tokens.new }
{
    let (kind, _height) = types(alloc, limits, tokens, depth)?;
    let begin = kind.place;
    names_rest(alloc, limits, scans, tokens, depth, begin, false, kind)
}

/// Behind `const`.
#[tactic(auto, unfolding(statement_grammar::specs::StatementsDescent::constant, slang_reading::specs::Reading::bind))]
pub fn constant(
    alloc: Global,
    limits: Limits,
    scans: &Scans,
    tokens: &mut Tokens<'_>,
    depth: usize,
    begin: Place,
) -> Result<Local, Fault>
    requires { Ready limits scans.now tokens.old.tokens }
    ensures { Runs (spec.constant (limits_of limits) depth begin) tokens.old result tokens.new }
{
    let (kind, _height) = types(alloc, limits, tokens, depth)?;
    names_rest(alloc, limits, scans, tokens, depth, begin, true, kind)
}
