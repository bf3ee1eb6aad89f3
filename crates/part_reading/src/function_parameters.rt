// The descent into parameters. In the type of each, at most so many nodes stand on a path.

ghost use Rattle.slang_reading.specs.Cursor.{Runs};
ghost use Rattle.slang_reading.specs.Kinds.{sees};
ghost use Rattle.slang_reading.specs.Reading.{next, turns};
ghost use Rattle.slang_tokens.specs.declared.tokens.Mark.TheVariants as m;
ghost use Rattle.declaration_grammar.specs.PartsDescent as spec;
ghost use Rattle.type_reading.specs.Limited.{limits_of};

use attribute_reading::declared_name;
use declaration_grammar::{DeclarationUse, declaration_use, mode_of};
use slang_names::{Mode, ModuleCode, Place};
use slang_reading::{Fault, Tokens, span};
use slang_tokens::{Kind, Mark};
use slang_tree::{Identifier, Parameter, TypeTree};
use sqlite_items::Items;
use std::alloc::Global;
use type_reading::{Limits, expect, name, types};

/// A colon and a name, or nothing; and the place of the last token, which before them is that one.
#[tactic(auto, unfolding(declaration_grammar::specs::PartsDescent::semantic, slang_reading::specs::Reading::bind, slang_reading::specs::Reading::next))]
fn semantic(
    alloc: Global,
    limits: Limits,
    tokens: &mut Tokens<'_>,
    depth: usize,
    place: Place,
) -> Result<(Option<Identifier>, Place), Fault>
    ensures { Runs (spec.semantic (limits_of limits) depth place) tokens.old result tokens.new }
{
    if !tokens.sees(Mark::Colon) {
        return Ok((None, place));
    }
    tokens.bump();
    let id = name(alloc, limits, tokens)?;
    let last = id.place;
    Ok((Some(id), last))
}

/// Behind the type of a parameter that begins at that place.
#[tactic(auto, unfolding(declaration_grammar::specs::PartsDescent::parameter_rest, slang_reading::specs::Reading::bind))]
fn parameter_rest(
    alloc: Global,
    limits: Limits,
    tokens: &mut Tokens<'_>,
    depth: usize,
    begin: Place,
    mode: Mode,
    kind: TypeTree,
) -> Result<Parameter, Fault>
    ensures { Runs (spec.parameter_rest (limits_of limits) depth begin mode kind) tokens.old result tokens.new }
{
    let (name, last) = declared_name(alloc, limits, tokens)?;
    let (semantic, end) = semantic(alloc, limits, tokens, depth, last)?;
    Ok(Parameter {
        place: span(begin, end),
        mode,
        kind,
        name,
        semantic,
    })
}

/// A parameter that begins with its type.
#[tactic(auto, unfolding(declaration_grammar::specs::PartsDescent::plain_parameter, slang_reading::specs::Reading::bind))]
fn plain_parameter(
    alloc: Global,
    limits: Limits,
    tokens: &mut Tokens<'_>,
    depth: usize,
) -> Result<Parameter, Fault>
    ensures { Runs (spec.plain_parameter (limits_of limits) depth) tokens.old result tokens.new }
{
    let (kind, _height) = types(alloc, limits, tokens, depth)?;
    let begin = kind.place;
    parameter_rest(alloc, limits, tokens, depth, begin, Mode::In, kind)
}

/// Behind the word at that place, which says how the parameter is passed.
#[tactic(auto, unfolding(declaration_grammar::specs::PartsDescent::moded_parameter, slang_reading::specs::Reading::bind))]
fn moded_parameter(
    alloc: Global,
    limits: Limits,
    tokens: &mut Tokens<'_>,
    depth: usize,
    begin: Place,
    mode: Mode,
) -> Result<Parameter, Fault>
    ensures { Runs (spec.moded_parameter (limits_of limits) depth begin mode) tokens.old result tokens.new }
{
    let (kind, _height) = types(alloc, limits, tokens, depth)?;
    parameter_rest(alloc, limits, tokens, depth, begin, mode, kind)
}

/// A parameter behind so many others.
#[tactic(auto, unfolding(declaration_grammar::specs::PartsDescent::parameter, slang_reading::specs::Reading::next))]
fn parameter(
    alloc: Global,
    limits: Limits,
    tokens: &mut Tokens<'_>,
    depth: usize,
    count: usize,
) -> Result<Parameter, Fault>
    ensures { Runs (spec.parameter (limits_of limits) depth count) tokens.old result tokens.new }
{
    let Some(token) = tokens.peek() else {
        return Err(Fault::Stopped);
    };
    match token.kind {
        Kind::Name => {
            if count >= limits.items {
                return Err(Fault::Past(ModuleCode::TooLong, token.place));
            }
            plain_parameter(alloc, limits, tokens, depth)
        }
        Kind::Word(word) => {
            if let Some(mode) = mode_of(word) {
                if count >= limits.items {
                    return Err(Fault::Past(ModuleCode::TooLong, token.place));
                }
                tokens.bump();
                return moded_parameter(alloc, limits, tokens, depth, token.place, mode);
            }
            let DeclarationUse::Typed = declaration_use(token.kind) else {
                return Err(Fault::Stopped);
            };
            if count >= limits.items {
                return Err(Fault::Past(ModuleCode::TooLong, token.place));
            }
            plain_parameter(alloc, limits, tokens, depth)
        }
        _ => Err(Fault::Stopped),
    }
}

/// A comma and one more parameter.
#[tactic(auto, unfolding(declaration_grammar::specs::PartsDescent::parameter_more, slang_reading::specs::Reading::bind))]
fn parameter_more(
    alloc: Global,
    limits: Limits,
    tokens: &mut Tokens<'_>,
    depth: usize,
    mut list: Items<Parameter>,
) -> Result<Items<Parameter>, Fault>
    ensures { Runs (spec.parameter_more (limits_of limits) depth list) tokens.old result tokens.new }
{
    expect(tokens, Mark::Comma)?;
    let item = parameter(alloc, limits, tokens, depth, list.len())?;
    list.push(item)?;
    Ok(list)
}

/// The parameters behind the first.
fn parameter_list(
    alloc: Global,
    limits: Limits,
    tokens: &mut Tokens<'_>,
    depth: usize,
    mut list: Items<Parameter>,
) -> Result<Items<Parameter>, Fault>
    ensures { Runs (turns (sees m.Comma) (spec.parameter_more (limits_of limits) depth) limits.turns list) tokens.old result tokens.new }
{
    for _turn in 0..limits.turns {
        if !tokens.sees(Mark::Comma) {
            return Ok(list);
        }
        list = parameter_more(alloc, limits, tokens, depth, list)?;
    }
    if tokens.sees(Mark::Comma) {
        return Err(Fault::Past(ModuleCode::TooLong, tokens.place()));
    }
    Ok(list)
}

/// At least one parameter, and the parenthesis that closes them.
#[tactic(auto, unfolding(declaration_grammar::specs::PartsDescent::some_parameters, slang_reading::specs::Reading::bind))]
fn some_parameters(
    alloc: Global,
    limits: Limits,
    tokens: &mut Tokens<'_>,
    depth: usize,
) -> Result<Items<Parameter>, Fault>
    ensures { Runs (spec.some_parameters (limits_of limits) depth) tokens.old result tokens.new }
{
    let item = parameter(alloc, limits, tokens, depth, 0)?;
    let mut items = Items::new(alloc);
    items.push(item)?;
    let list = parameter_list(alloc, limits, tokens, depth, items)?;
    expect(tokens, Mark::CloseParen)?;
    Ok(list)
}

/// Behind the opening parenthesis.
#[tactic(auto, unfolding(slang_reading::specs::Reading::bind, slang_reading::specs::Reading::next))]
fn parameters_rest(
    alloc: Global,
    limits: Limits,
    tokens: &mut Tokens<'_>,
    depth: usize,
) -> Result<Items<Parameter>, Fault>
    ensures { Runs (next (λ x. spec.parameters_by (limits_of limits) depth (sees m.CloseParen x))) tokens.old result tokens.new }
{
    if !tokens.sees(Mark::CloseParen) {
        return some_parameters(alloc, limits, tokens, depth);
    }
    expect(tokens, Mark::CloseParen)?;
    Ok(Items::new(alloc))
}

/// Parameters with their parentheses, with so many nodes on a path.
#[tactic(auto, unfolding(declaration_grammar::specs::PartsDescent::parameters, slang_reading::specs::Reading::bind))]
pub fn parameters(
    alloc: Global,
    limits: Limits,
    tokens: &mut Tokens<'_>,
    depth: usize,
) -> Result<Items<Parameter>, Fault>
    ensures { Runs (spec.parameters (limits_of limits) depth) tokens.old result tokens.new }
{
    expect(tokens, Mark::OpenParen)?;
    parameters_rest(alloc, limits, tokens, depth)
}
