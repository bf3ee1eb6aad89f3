// Interfaces.

ghost use Rattle.std.specs.Prelude.{[]};
ghost use Rattle.slang_reading.specs.Cursor.{Runs};
ghost use Rattle.slang_reading.specs.Reading.{turns};
ghost use Rattle.declaration_grammar.specs.DeclarationsDescent as spec;
ghost use Rattle.type_reading.specs.Limited.{limits_of};

use crate::requirements::{begins_requirement, requirement};
use part_reading::closed;
use slang_names::{ModuleCode, Place};
use slang_reading::{Fault, Tokens, span};
use slang_tokens::Mark;
use slang_tree::{Interface, Requirement};
use sqlite_items::Items;
use std::alloc::Global;
use type_reading::{Limits, expect, name};

/// One more requirement.
fn requirement_more(
    alloc: Global,
    limits: Limits,
    tokens: &mut Tokens<'_>,
    depth: usize,
    mut list: Items<Requirement>,
) -> Result<Items<Requirement>, Fault>
    ensures { Runs (spec.requirement_more (limits_of limits) depth list) tokens.old result tokens.new }
{
    if !begins_requirement(tokens) {
        return Err(Fault::Stopped);
    }
    if list.len() >= limits.items {
        return Err(Fault::Past(ModuleCode::TooLong, tokens.place()));
    }
    let y = requirement(alloc, limits, tokens, depth)?;
    list.push(y)?;
    Ok(list)
}

/// Requirements up to the closing brace.
fn requirements(
    alloc: Global,
    limits: Limits,
    tokens: &mut Tokens<'_>,
    depth: usize,
) -> Result<Items<Requirement>, Fault>
    ensures { Runs (turns (spec.in_braces (limits_of limits) depth) (spec.requirement_more (limits_of limits) depth) limits.turns []) tokens.old result tokens.new }
{
    let mut list = Items::new(alloc);
    for _turn in 0..limits.turns {
        if tokens.sees(Mark::CloseBrace) {
            return Ok(list);
        }
        list = requirement_more(alloc, limits, tokens, depth, list)?;
    }
    if !tokens.sees(Mark::CloseBrace) {
        return Err(Fault::Past(ModuleCode::TooLong, tokens.place()));
    }
    Ok(list)
}

/// An interface behind its word.
#[tactic(auto, unfolding(declaration_grammar::specs::DeclarationsDescent::interface_rest, slang_reading::specs::Reading::bind))]
pub(crate) fn interface_rest(
    alloc: Global,
    limits: Limits,
    tokens: &mut Tokens<'_>,
    depth: usize,
    begin: Place,
) -> Result<Interface, Fault>
    ensures { Runs (spec.interface_rest (limits_of limits) depth begin) tokens.old result tokens.new }
{
    let id = name(alloc, limits, tokens)?;
    expect(tokens, Mark::OpenBrace)?;
    let list = requirements(alloc, limits, tokens, depth)?;
    let end = closed(tokens)?;
    Ok(Interface {
        place: span(begin, end),
        name: id,
        requirements: list,
    })
}
