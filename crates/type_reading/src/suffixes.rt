// What follows the name of a type: projections, and a length in brackets.

ghost use Rattle.std.specs.Prelude.{◌≤◌, ◌<◌, IfOk};
ghost use Rattle.slang_reading.specs.Cursor.{Runs};
ghost use Rattle.slang_reading.specs.Kinds.{sees};
ghost use Rattle.slang_reading.specs.Reading.{turns};
ghost use Rattle.slang_tokens.specs.declared.tokens.Mark.TheVariants as m;
ghost use Rattle.slang_grammar.specs.TypesDescent as types;
ghost use Rattle.type_reading.specs.Limited.{limits_of};

use crate::leaves::{bracketed, expect, name};
use crate::limits::Limits;
use crate::nodes::{array, projection};
use slang_names::ModuleCode;
use slang_reading::{Fault, Tokens, span};
use slang_tokens::Mark;
use slang_tree::TypeTree;
use std::alloc::Global;

/// Behind a dot.
#[tactic(auto, unfolding(slang_grammar::specs::TypesDescent::project_rest, slang_reading::specs::Reading::bind))]
fn project_rest(
    alloc: Global,
    limits: Limits,
    tokens: &mut Tokens<'_>,
    depth: usize,
    x: (TypeTree, usize),
) -> Result<(TypeTree, usize), Fault>
    requires { x.1 < depth }
    ensures reads { Runs (types.project_rest (limits_of limits) depth x) tokens.old result tokens.new }
    ensures within { IfOk result (λ y. y.1 ≤ depth) }
{
    let (inner, height) = x;
    let id = name(alloc, limits, tokens)?;
    let place = span(inner.place, id.place);
    Ok((projection(alloc, place, inner, id)?, height + 1))
}

/// A dot and a name.
#[tactic(auto, unfolding(slang_grammar::specs::TypesDescent::project, slang_reading::specs::Reading::next))]
fn project(
    alloc: Global,
    limits: Limits,
    tokens: &mut Tokens<'_>,
    depth: usize,
    x: (TypeTree, usize),
) -> Result<(TypeTree, usize), Fault>
    ensures reads { Runs (types.project (limits_of limits) depth x) tokens.old result tokens.new }
    ensures within { IfOk result (λ y. y.1 ≤ depth) }
{
    if !tokens.sees(Mark::Dot) {
        return Err(Fault::Stopped);
    }
    if x.1 >= depth {
        return Err(Fault::Past(ModuleCode::TooNested, tokens.place()));
    }
    tokens.bump();
    project_rest(alloc, limits, tokens, depth, x)
}

/// Any number of projections.
fn projections(
    alloc: Global,
    limits: Limits,
    tokens: &mut Tokens<'_>,
    depth: usize,
    mut x: (TypeTree, usize),
) -> Result<(TypeTree, usize), Fault>
    requires { x.1 ≤ depth }
    ensures reads { Runs (turns (sees m.Dot) (types.project (limits_of limits) depth) limits.turns x) tokens.old result tokens.new }
    ensures within { IfOk result (λ y. y.1 ≤ depth) }
{
    for _turn in 0..limits.turns {
        if !tokens.sees(Mark::Dot) {
            return Ok(x);
        }
        x = project(alloc, limits, tokens, depth, x)?;
    }
    if tokens.sees(Mark::Dot) {
        return Err(Fault::Past(ModuleCode::TooLong, tokens.place()));
    }
    Ok(x)
}

/// Behind an opening bracket.
#[tactic(auto, unfolding(slang_grammar::specs::TypesDescent::length_rest, slang_reading::specs::Reading::bind))]
fn length_rest(
    alloc: Global,
    limits: Limits,
    tokens: &mut Tokens<'_>,
    depth: usize,
    x: (TypeTree, usize),
) -> Result<(TypeTree, usize), Fault>
    requires { x.1 < depth }
    ensures reads { Runs (types.length_rest (limits_of limits) depth x) tokens.old result tokens.new }
    ensures within { IfOk result (λ y. y.1 ≤ depth) }
{
    let (element, height) = x;
    let count = bracketed(alloc, limits, tokens)?;
    let end = expect(tokens, Mark::CloseBracket)?;
    let place = span(element.place, end);
    Ok((array(alloc, place, element, count)?, height + 1))
}

/// A length in brackets, or nothing.
#[tactic(auto, unfolding(slang_grammar::specs::TypesDescent::array, slang_reading::specs::Reading::next))]
fn length(
    alloc: Global,
    limits: Limits,
    tokens: &mut Tokens<'_>,
    depth: usize,
    x: (TypeTree, usize),
) -> Result<(TypeTree, usize), Fault>
    requires { x.1 ≤ depth }
    ensures reads { Runs (types.array (limits_of limits) depth x) tokens.old result tokens.new }
    ensures within { IfOk result (λ y. y.1 ≤ depth) }
{
    if !tokens.sees(Mark::OpenBracket) {
        return Ok(x);
    }
    if x.1 >= depth {
        return Err(Fault::Past(ModuleCode::TooNested, tokens.place()));
    }
    tokens.bump();
    length_rest(alloc, limits, tokens, depth, x)
}

/// Behind the name of a type.
#[tactic(auto, unfolding(slang_grammar::specs::TypesDescent::type_rest, slang_reading::specs::Reading::bind))]
pub fn type_rest(
    alloc: Global,
    limits: Limits,
    tokens: &mut Tokens<'_>,
    depth: usize,
    x: (TypeTree, usize),
) -> Result<(TypeTree, usize), Fault>
    requires { x.1 ≤ depth }
    ensures reads { Runs (types.type_rest (limits_of limits) depth x) tokens.old result tokens.new }
    ensures within { IfOk result (λ y. y.1 ≤ depth) }
{
    let x = projections(alloc, limits, tokens, depth, x)?;
    length(alloc, limits, tokens, depth, x)
}
