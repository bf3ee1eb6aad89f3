// The names of the parameters of a struct that is extended.

ghost use Rattle.slang_reading.specs.Cursor.{Runs};
ghost use Rattle.slang_reading.specs.Kinds.{sees};
ghost use Rattle.slang_reading.specs.Reading.{turns};
ghost use Rattle.slang_tokens.specs.declared.tokens.Mark.TheVariants as m;
ghost use Rattle.declaration_grammar.specs.DeclarationsDescent as spec;
ghost use Rattle.type_reading.specs.Limited.{limits_of};

use slang_names::ModuleCode;
use slang_reading::{Fault, Tokens};
use slang_tokens::{Kind, Mark};
use slang_tree::Identifier;
use sqlite_items::Items;
use std::alloc::Global;
use type_reading::{Limits, expect, name};

/// A name behind so many others.
#[tactic(auto, unfolding(declaration_grammar::specs::DeclarationsDescent::extended_name, slang_grammar::specs::Descent::name, slang_reading::specs::Reading::next))]
fn extended_name(
    alloc: Global,
    limits: Limits,
    tokens: &mut Tokens<'_>,
    _depth: usize,
    count: usize,
) -> Result<Identifier, Fault>
    ensures { Runs (spec.extended_name (limits_of limits) _depth count) tokens.old result tokens.new }
{
    if count < limits.items {
        return name(alloc, limits, tokens);
    }
    let Some(token) = tokens.peek() else {
        return Err(Fault::Stopped);
    };
    match token.kind {
        Kind::Name => Err(Fault::Past(ModuleCode::TooLong, token.place)),
        _ => Err(Fault::Stopped),
    }
}

/// A comma and one more name.
#[tactic(auto, unfolding(declaration_grammar::specs::DeclarationsDescent::extended_more, slang_reading::specs::Reading::bind))]
fn extended_more(
    alloc: Global,
    limits: Limits,
    tokens: &mut Tokens<'_>,
    depth: usize,
    mut list: Items<Identifier>,
) -> Result<Items<Identifier>, Fault>
    ensures { Runs (spec.extended_more (limits_of limits) depth list) tokens.old result tokens.new }
{
    expect(tokens, Mark::Comma)?;
    let id = extended_name(alloc, limits, tokens, depth, list.len())?;
    list.push(id)?;
    Ok(list)
}

/// The names behind the first.
fn extended_list(
    alloc: Global,
    limits: Limits,
    tokens: &mut Tokens<'_>,
    depth: usize,
    mut list: Items<Identifier>,
) -> Result<Items<Identifier>, Fault>
    ensures { Runs (turns (sees m.Comma) (spec.extended_more (limits_of limits) depth) limits.turns list) tokens.old result tokens.new }
{
    for _turn in 0..limits.turns {
        if !tokens.sees(Mark::Comma) {
            return Ok(list);
        }
        list = extended_more(alloc, limits, tokens, depth, list)?;
    }
    if tokens.sees(Mark::Comma) {
        return Err(Fault::Past(ModuleCode::TooLong, tokens.place()));
    }
    Ok(list)
}

/// The names behind `<`, which is taken, and the bracket that closes them.
#[tactic(auto, unfolding(declaration_grammar::specs::DeclarationsDescent::extended_rest, slang_reading::specs::Reading::bind))]
fn extended_rest(
    alloc: Global,
    limits: Limits,
    tokens: &mut Tokens<'_>,
    depth: usize,
) -> Result<Items<Identifier>, Fault>
    ensures { Runs (spec.extended_rest (limits_of limits) depth) tokens.old result tokens.new }
{
    let id = extended_name(alloc, limits, tokens, depth, 0)?;
    let mut names = Items::new(alloc);
    names.push(id)?;
    let list = extended_list(alloc, limits, tokens, depth, names)?;
    expect(tokens, Mark::Greater)?;
    Ok(list)
}

/// The names with their brackets, or none.
#[tactic(auto, unfolding(declaration_grammar::specs::DeclarationsDescent::extended, slang_reading::specs::Reading::next))]
pub(crate) fn extended(
    alloc: Global,
    limits: Limits,
    tokens: &mut Tokens<'_>,
    depth: usize,
) -> Result<Items<Identifier>, Fault>
    ensures { Runs (spec.extended (limits_of limits) depth) tokens.old result tokens.new }
{
    if !tokens.sees(Mark::Less) {
        return Ok(Items::new(alloc));
    }
    tokens.bump();
    extended_rest(alloc, limits, tokens, depth)
}
