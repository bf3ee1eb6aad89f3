// The descent into generic parameters.

ghost use Rattle.slang_reading.specs.Cursor.{Runs};
ghost use Rattle.slang_reading.specs.Kinds.{sees};
ghost use Rattle.slang_reading.specs.Reading.{turns};
ghost use Rattle.slang_tokens.specs.declared.tokens.Mark.TheVariants as m;
ghost use Rattle.declaration_grammar.specs.PartsDescent as spec;
ghost use Rattle.type_reading.specs.Limited.{limits_of};

use crate::marks::expect_word;
use slang_names::{ModuleCode, Place};
use slang_reading::{Fault, Tokens, is_word, span};
use slang_tokens::{Kind, Mark, Word};
use slang_tree::{GenericParameter, GenericParameterNode, Identifier};
use sqlite_items::Items;
use std::alloc::Global;
use type_reading::{Limits, expect, name};

/// Behind the name of a type parameter.
#[tactic(auto, unfolding(declaration_grammar::specs::PartsDescent::bound_rest, slang_reading::specs::Reading::bind, slang_reading::specs::Reading::next))]
fn bound_rest(
    alloc: Global,
    limits: Limits,
    tokens: &mut Tokens<'_>,
    id: Identifier,
) -> Result<GenericParameter, Fault>
    ensures { Runs (spec.bound_rest (limits_of limits) id) tokens.old result tokens.new }
{
    let begin = id.place;
    if !tokens.sees(Mark::Colon) {
        return Ok(GenericParameter {
            place: begin,
            node: GenericParameterNode::Term(id, None),
        });
    }
    tokens.bump();
    let bound = name(alloc, limits, tokens)?;
    Ok(GenericParameter {
        place: span(begin, bound.place),
        node: GenericParameterNode::Term(id, Some(bound)),
    })
}

/// Behind `let`, which lies at that place.
#[tactic(auto, unfolding(declaration_grammar::specs::PartsDescent::number_rest, slang_reading::specs::Reading::bind))]
fn number_rest(
    alloc: Global,
    limits: Limits,
    tokens: &mut Tokens<'_>,
    begin: Place,
) -> Result<GenericParameter, Fault>
    ensures { Runs (spec.number_rest (limits_of limits) begin) tokens.old result tokens.new }
{
    let id = name(alloc, limits, tokens)?;
    expect(tokens, Mark::Colon)?;
    let end = expect_word(tokens, Word::Int)?;
    Ok(GenericParameter {
        place: span(begin, end),
        node: GenericParameterNode::Number(id),
    })
}

/// A parameter behind so many others.
#[tactic(auto, unfolding(declaration_grammar::specs::PartsDescent::generic, slang_grammar::specs::Descent::name, slang_reading::specs::Reading::next))]
fn generic(
    alloc: Global,
    limits: Limits,
    tokens: &mut Tokens<'_>,
    count: usize,
) -> Result<GenericParameter, Fault>
    ensures { Runs (spec.generic (limits_of limits) count) tokens.old result tokens.new }
{
    let Some(token) = tokens.peek() else {
        return Err(Fault::Stopped);
    };
    match token.kind {
        Kind::Name => {
            if count >= limits.items {
                return Err(Fault::Past(ModuleCode::TooLong, token.place));
            }
            let id = name(alloc, limits, tokens)?;
            bound_rest(alloc, limits, tokens, id)
        }
        Kind::Word(_) => {
            if !is_word(Word::Let, token.kind) {
                return Err(Fault::Stopped);
            }
            if count >= limits.items {
                return Err(Fault::Past(ModuleCode::TooLong, token.place));
            }
            tokens.bump();
            number_rest(alloc, limits, tokens, token.place)
        }
        _ => Err(Fault::Stopped),
    }
}

/// A comma and one more parameter.
#[tactic(auto, unfolding(declaration_grammar::specs::PartsDescent::generic_more, slang_reading::specs::Reading::bind))]
fn generic_more(
    alloc: Global,
    limits: Limits,
    tokens: &mut Tokens<'_>,
    mut list: Items<GenericParameter>,
) -> Result<Items<GenericParameter>, Fault>
    ensures { Runs (spec.generic_more (limits_of limits) list) tokens.old result tokens.new }
{
    expect(tokens, Mark::Comma)?;
    let item = generic(alloc, limits, tokens, list.len())?;
    list.push(item)?;
    Ok(list)
}

/// The parameters behind the first.
fn generic_list(
    alloc: Global,
    limits: Limits,
    tokens: &mut Tokens<'_>,
    mut list: Items<GenericParameter>,
) -> Result<Items<GenericParameter>, Fault>
    ensures { Runs (turns (sees m.Comma) (spec.generic_more (limits_of limits)) limits.turns list) tokens.old result tokens.new }
{
    for _turn in 0..limits.turns {
        if !tokens.sees(Mark::Comma) {
            return Ok(list);
        }
        list = generic_more(alloc, limits, tokens, list)?;
    }
    if tokens.sees(Mark::Comma) {
        return Err(Fault::Past(ModuleCode::TooLong, tokens.place()));
    }
    Ok(list)
}

/// Behind `<`.
#[tactic(auto, unfolding(declaration_grammar::specs::PartsDescent::generics_rest, slang_reading::specs::Reading::bind))]
fn generics_rest(
    alloc: Global,
    limits: Limits,
    tokens: &mut Tokens<'_>,
) -> Result<Items<GenericParameter>, Fault>
    ensures { Runs (spec.generics_rest (limits_of limits)) tokens.old result tokens.new }
{
    let item = generic(alloc, limits, tokens, 0)?;
    let mut items = Items::new(alloc);
    items.push(item)?;
    let list = generic_list(alloc, limits, tokens, items)?;
    expect(tokens, Mark::Greater)?;
    Ok(list)
}

/// Generic parameters with their brackets, or none.
#[tactic(auto, unfolding(declaration_grammar::specs::PartsDescent::generics, slang_reading::specs::Reading::next))]
pub fn generics(
    alloc: Global,
    limits: Limits,
    tokens: &mut Tokens<'_>,
) -> Result<Items<GenericParameter>, Fault>
    ensures { Runs (spec.generics (limits_of limits)) tokens.old result tokens.new }
{
    if !tokens.sees(Mark::Less) {
        return Ok(Items::new(alloc));
    }
    tokens.bump();
    generics_rest(alloc, limits, tokens)
}
