// The descent into types. Of what begins inside a node, at most so many nodes stand on a path.

ghost use Rattle.std.specs.Prelude.{◌≡◌, ◌≤◌, ◌<◌, ◌^◌, ◌+◌, true, length, IfOk, Err};
ghost use Rattle.slang_reading.specs.Cursor.{Runs};
ghost use Rattle.slang_reading.specs.Kinds.{sees};
ghost use Rattle.slang_reading.specs.Reading.{turns};
ghost use Rattle.slang_tokens.specs.declared.tokens.Mark.TheVariants as m;
ghost use Rattle.slang_grammar.specs.TypesDescent as spec;
ghost use Rattle.type_reading.specs.Limited.{limits_of};

use crate::leaves::{expect, identifier, is_short};
use crate::limits::Limits;
use crate::nodes::{builtin, named, resource, this_type};
use crate::starts::{begins_type, is_this};
use crate::suffixes::type_rest;
use slang_grammar::{builtin_of, resource_of};
use slang_names::{ModuleCode, Place};
use slang_reading::{Fault, Tokens, span};
use slang_tokens::{Kind, Mark, Word};
use slang_tree::{GenericArgument, Identifier, Resource, TypeTree};
use sqlite_items::Items;
use std::alloc::Global;

/// Why no type is read where no node fits.
#[tactic(auto, unfolding(slang_grammar::specs::TypesDescent::types, slang_grammar::specs::TypesDescent::type_name, slang_reading::specs::Reading::bind, slang_reading::specs::Reading::next))]
fn no_type(tokens: &mut Tokens<'_>, limits: Limits) -> Fault
    ensures { Runs (spec.types (limits_of limits) 0) tokens.old (Err result) tokens.new }
{
    let Some(token) = tokens.peek() else {
        return Fault::Stopped;
    };
    if begins_type(token.kind) {
        return Fault::Past(ModuleCode::TooNested, token.place);
    }
    Fault::Stopped
}

/// A generic argument behind so many others.
#[cycle(types)]
#[tactic(auto, unfolding(slang_grammar::specs::TypesDescent::argument, slang_grammar::specs::TypesDescent::type_argument, slang_reading::specs::Reading::bind, slang_reading::specs::Reading::next))]
fn argument(
    alloc: Global,
    limits: Limits,
    tokens: &mut Tokens<'_>,
    depth: usize,
    count: usize,
) -> Result<(GenericArgument, usize), Fault>
    ensures reads { Runs (spec.argument (limits_of limits) true depth (spec.types (limits_of limits) depth) count) tokens.old result tokens.new }
    ensures within { IfOk result (λ x. x.1 ≤ depth) }
{
    let Some(token) = tokens.peek() else {
        return Err(Fault::Stopped);
    };
    if let Kind::Number(number) = token.kind {
        if count >= limits.items {
            return Err(Fault::Past(ModuleCode::TooLong, token.place));
        }
        tokens.bump();
        return Ok((GenericArgument::Number(token.place, number), 0));
    }
    if !begins_type(token.kind) {
        return Err(Fault::Stopped);
    }
    if depth == 0 {
        return Err(Fault::Past(ModuleCode::TooNested, token.place));
    }
    if count >= limits.items {
        return Err(Fault::Past(ModuleCode::TooLong, token.place));
    }
    let (x, height) = types(alloc, limits, tokens, depth)?;
    Ok((GenericArgument::Term(x), height))
}

/// A comma and one more argument.
#[cycle(types)]
#[tactic(auto, unfolding(slang_grammar::specs::TypesDescent::argument_more, slang_reading::specs::Reading::bind))]
fn argument_more(
    alloc: Global,
    limits: Limits,
    tokens: &mut Tokens<'_>,
    depth: usize,
    list: (Items<GenericArgument>, usize),
) -> Result<(Items<GenericArgument>, usize), Fault>
    requires { list.1 ≤ depth }
    ensures reads { Runs (spec.argument_more (limits_of limits) true depth (spec.types (limits_of limits) depth) list) tokens.old result tokens.new }
    ensures within { IfOk result (λ x. x.1 ≤ depth) }
{
    let (mut items, tallest) = list;
    expect(tokens, Mark::Comma)?;
    let (item, height) = argument(alloc, limits, tokens, depth, items.len())?;
    items.push(item)?;
    Ok((items, tallest.max(height)))
}

/// The arguments behind the first.
#[cycle(types)]
fn argument_list(
    alloc: Global,
    limits: Limits,
    tokens: &mut Tokens<'_>,
    depth: usize,
    mut list: (Items<GenericArgument>, usize),
) -> Result<(Items<GenericArgument>, usize), Fault>
    requires { list.1 ≤ depth }
    ensures reads { Runs (turns (sees m.Comma) (spec.argument_more (limits_of limits) true depth (spec.types (limits_of limits) depth)) limits.turns list) tokens.old result tokens.new }
    ensures within { IfOk result (λ x. x.1 ≤ depth) }
{
    for _turn in 0..limits.turns {
        if !tokens.sees(Mark::Comma) {
            return Ok(list);
        }
        list = argument_more(alloc, limits, tokens, depth, list)?;
    }
    if tokens.sees(Mark::Comma) {
        return Err(Fault::Past(ModuleCode::TooLong, tokens.place()));
    }
    Ok(list)
}

/// Generic arguments with their brackets, and the place of the bracket that closes them.
#[cycle(types)]
#[tactic(auto, unfolding(slang_grammar::specs::TypesDescent::arguments, slang_reading::specs::Reading::bind))]
pub fn arguments(
    alloc: Global,
    limits: Limits,
    tokens: &mut Tokens<'_>,
    depth: usize,
) -> Result<((Items<GenericArgument>, usize), Place), Fault>
    ensures reads { Runs (spec.arguments (limits_of limits) true depth (spec.types (limits_of limits) depth)) tokens.old result tokens.new }
    ensures within { IfOk result (λ x. x.0.1 ≤ depth) }
{
    expect(tokens, Mark::Less)?;
    let (item, height) = argument(alloc, limits, tokens, depth, 0)?;
    let mut items = Items::new(alloc);
    items.push(item)?;
    let list = argument_list(alloc, limits, tokens, depth, (items, height))?;
    let end = expect(tokens, Mark::Greater)?;
    Ok((list, end))
}

/// Behind a name.
#[cycle(types)]
#[tactic(auto, unfolding(slang_grammar::specs::TypesDescent::name_rest, slang_reading::specs::Reading::bind, slang_reading::specs::Reading::next))]
fn name_rest(
    alloc: Global,
    limits: Limits,
    tokens: &mut Tokens<'_>,
    depth: usize,
    id: Identifier,
) -> Result<(TypeTree, usize), Fault>
    requires { depth + 1 < 2 ^ 64 }
    ensures reads { Runs (spec.name_rest (limits_of limits) true depth (spec.types (limits_of limits) depth) id) tokens.old result tokens.new }
    ensures within { IfOk result (λ x. x.1 ≤ depth + 1) }
{
    let begin = id.place;
    if !tokens.sees(Mark::Less) {
        return Ok((named(begin, id, Items::new(alloc)), 1));
    }
    let ((args, height), end) = arguments(alloc, limits, tokens, depth)?;
    Ok((named(span(begin, end), id, args), height + 1))
}

/// Behind the word of a resource.
#[cycle(types)]
#[tactic(auto, unfolding(slang_grammar::specs::TypesDescent::resource_rest, slang_reading::specs::Reading::bind))]
fn resource_rest(
    alloc: Global,
    limits: Limits,
    tokens: &mut Tokens<'_>,
    depth: usize,
    begin: Place,
    kind: Resource,
) -> Result<(TypeTree, usize), Fault>
    requires { depth + 1 < 2 ^ 64 }
    ensures reads { Runs (spec.resource_rest (limits_of limits) true depth (spec.types (limits_of limits) depth) begin kind) tokens.old result tokens.new }
    ensures within { IfOk result (λ x. x.1 ≤ depth + 1) }
{
    expect(tokens, Mark::Less)?;
    let (inner, height) = types(alloc, limits, tokens, depth)?;
    let end = expect(tokens, Mark::Greater)?;
    Ok((resource(alloc, span(begin, end), kind, inner)?, height + 1))
}

/// The name of a type, with its arguments.
#[cycle(types)]
#[tactic(auto, unfolding(slang_grammar::specs::TypesDescent::type_name, slang_reading::specs::Reading::next))]
fn type_name(
    alloc: Global,
    limits: Limits,
    tokens: &mut Tokens<'_>,
    depth: usize,
) -> Result<(TypeTree, usize), Fault>
    requires { depth + 1 < 2 ^ 64 }
    ensures reads { Runs (spec.type_name (limits_of limits) true depth (spec.types (limits_of limits) depth)) tokens.old result tokens.new }
    ensures within { IfOk result (λ x. x.1 ≤ depth + 1) }
{
    let Some(token) = tokens.peek() else {
        return Err(Fault::Stopped);
    };
    match token.kind {
        Kind::Name => {
            if !is_short(limits, tokens) {
                return Err(Fault::Past(ModuleCode::TooLong, token.place));
            }
            let id = identifier(alloc, tokens, token.place)?;
            tokens.bump();
            name_rest(alloc, limits, tokens, depth, id)
        }
        Kind::Word(word) => {
            if let Some(kind) = builtin_of(word) {
                tokens.bump();
                return Ok((builtin(token.place, kind), 1));
            }
            if let Some(kind) = resource_of(word) {
                tokens.bump();
                return resource_rest(alloc, limits, tokens, depth, token.place, kind);
            }
            if is_this(word) {
                tokens.bump();
                return Ok((this_type(token.place), 1));
            }
            Err(Fault::Stopped)
        }
        _ => Err(Fault::Stopped),
    }
}

/// A type of which at most so many nodes stand on a path, and how many do.
#[cycle(types)]
#[tactic(auto, unfolding(slang_grammar::specs::TypesDescent::types, slang_reading::specs::Reading::bind))]
pub fn types(
    alloc: Global,
    limits: Limits,
    tokens: &mut Tokens<'_>,
    depth: usize,
) -> Result<(TypeTree, usize), Fault>
    ensures reads { Runs (spec.types (limits_of limits) depth) tokens.old result tokens.new }
    ensures within { IfOk result (λ x. x.1 ≤ depth) }
{
    if depth == 0 {
        return Err(no_type(tokens, limits));
    }
    let x = type_name(alloc, limits, tokens, depth - 1)?;
    type_rest(alloc, limits, tokens, depth, x)
}
