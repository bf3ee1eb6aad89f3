// Functions and aliases.

ghost use Rattle.slang_reading.specs.Cursor.{Runs};
ghost use Rattle.declaration_grammar.specs.DeclarationsDescent as spec;
ghost use Rattle.type_reading.specs.Limited.{limits_of};
ghost use Rattle.ahead_reading.specs.Knowing.{Ready};

use ahead_reading::Scans;
use part_reading::{constraints, generics, parameters};
use slang_names::Place;
use slang_reading::{Fault, Tokens, span};
use slang_tokens::Mark;
use slang_tree::{Alias, Function, Identifier, TypeTree};
use statement_reading::blocks;
use std::alloc::Global;
use type_reading::{Limits, expect, name, types};

/// A type and the name behind it.
#[tactic(auto, unfolding(declaration_grammar::specs::DeclarationsDescent::type_name, slang_reading::specs::Reading::bind))]
pub fn type_name(
    alloc: Global,
    limits: Limits,
    tokens: &mut Tokens<'_>,
    depth: usize,
) -> Result<(TypeTree, Identifier), Fault>
    ensures { Runs (spec.type_name (limits_of limits) depth) tokens.old result tokens.new }
{
    let (kind, _height) = types(alloc, limits, tokens, depth)?;
    let id = name(alloc, limits, tokens)?;
    Ok((kind, id))
}

/// A function behind its name.
#[tactic(auto, unfolding(declaration_grammar::specs::DeclarationsDescent::function_rest, slang_reading::specs::Reading::bind))]
pub fn function_rest(
    alloc: Global,
    limits: Limits,
    scans: &Scans,
    tokens: &mut Tokens<'_>,
    depth: usize,
    begin: Place,
    is_static: bool,
    x: (TypeTree, Identifier),
) -> Result<Function, Fault>
    requires { Ready limits scans.now tokens.old.tokens }
    ensures { Runs (spec.function_rest (limits_of limits) depth begin is_static x) tokens.old result tokens.new }
{
    let (kind, id) = x;
    let generics = generics(alloc, limits, tokens)?;
    let parameters = parameters(alloc, limits, tokens, depth)?;
    let wheres = constraints(alloc, limits, tokens)?;
    let body = blocks(alloc, limits, scans, tokens, depth)?;
    let place = span(begin, body.place);
    Ok(Function {
        place,
        is_static,
        result: kind,
        name: id,
        generics,
        parameters,
        wheres,
        body,
    })
}

/// A function behind `static`.
#[tactic(auto, unfolding(declaration_grammar::specs::DeclarationsDescent::static_rest, slang_reading::specs::Reading::bind))]
pub fn static_rest(
    alloc: Global,
    limits: Limits,
    scans: &Scans,
    tokens: &mut Tokens<'_>,
    depth: usize,
    begin: Place,
) -> Result<Function, Fault>
    requires { Ready limits scans.now tokens.old.tokens }
    ensures { Runs (spec.static_rest (limits_of limits) depth begin) tokens.old result tokens.new }
{
    let x = type_name(alloc, limits, tokens, depth)?;
    function_rest(alloc, limits, scans, tokens, depth, begin, true, x)
}

/// An alias behind `typedef`.
#[tactic(auto, unfolding(declaration_grammar::specs::DeclarationsDescent::type_def, slang_reading::specs::Reading::bind))]
pub fn type_def(
    alloc: Global,
    limits: Limits,
    tokens: &mut Tokens<'_>,
    depth: usize,
    begin: Place,
) -> Result<Alias, Fault>
    ensures { Runs (spec.type_def (limits_of limits) depth begin) tokens.old result tokens.new }
{
    let (kind, name) = type_name(alloc, limits, tokens, depth)?;
    let end = expect(tokens, Mark::Semicolon)?;
    Ok(Alias {
        place: span(begin, end),
        kind,
        name,
    })
}

/// An alias behind `typealias`.
#[tactic(auto, unfolding(declaration_grammar::specs::DeclarationsDescent::type_alias, slang_reading::specs::Reading::bind))]
pub fn type_alias(
    alloc: Global,
    limits: Limits,
    tokens: &mut Tokens<'_>,
    depth: usize,
    begin: Place,
) -> Result<Alias, Fault>
    ensures { Runs (spec.type_alias (limits_of limits) depth begin) tokens.old result tokens.new }
{
    let id = name(alloc, limits, tokens)?;
    expect(tokens, Mark::Equal)?;
    let (kind, _height) = types(alloc, limits, tokens, depth)?;
    let end = expect(tokens, Mark::Semicolon)?;
    Ok(Alias {
        place: span(begin, end),
        kind,
        name: id,
    })
}
