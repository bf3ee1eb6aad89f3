// The descent into what stands behind the name of an attribute.

ghost use Rattle.std.specs.Prelude.{◌≡◌};
ghost use Rattle.slang_reading.specs.Cursor.{Runs};
ghost use Rattle.slang_reading.specs.Kinds.{sees};
ghost use Rattle.slang_reading.specs.Reading.{turns};
ghost use Rattle.slang_tokens.specs.declared.tokens.Mark.TheVariants as m;
ghost use Rattle.statement_grammar.specs.Attributes as attributes;
ghost use Rattle.statement_grammar.specs.AttributesDescent as spec;
ghost use Rattle.type_reading.specs.Limited.{limits_of};

use crate::wants::Wants;
use slang_names::{ModuleCode, Name, Place};
use slang_reading::{Fault, Tokens, is_mark};
use slang_tokens::{Kind, Mark};
use slang_tree::Literal;
use sqlite_items::Items;
use std::alloc::Global;
use type_reading::{Limits, expect};

/// The bytes between the quotes of a string.
fn unquoted(bytes: &[u8]) -> &[u8]
    ensures { result.now ≡ attributes.unquoted bytes.now }
{
    let rest = &bytes[bytes.len().min(1)..];
    &rest[..bytes.len().saturating_sub(2)]
}

/// A literal of an attribute whose name lies at that place, behind those that are read.
#[tactic(auto, unfolding(statement_grammar::specs::AttributesDescent::literal, slang_reading::specs::Reading::next))]
fn literal(
    alloc: Global,
    limits: Limits,
    tokens: &mut Tokens<'_>,
    place: Place,
    list: (Items<Literal>, Wants),
) -> Result<(Items<Literal>, Wants), Fault>
    ensures { Runs (spec.literal (limits_of limits) place list) tokens.old result tokens.new }
{
    let (mut items, wants) = list;
    let Some(token) = tokens.peek() else {
        return Err(Fault::Stopped);
    };
    let item = match token.kind {
        Kind::Number(number) => Literal::Number(token.place, number),
        Kind::String => {
            Literal::String(
                token.place,
                Name::from_slice(alloc, unquoted(tokens.bytes()))?,
            )
        }
        _ => return Err(Fault::Stopped),
    };
    if !wants.met_by(&item) {
        return Err(Fault::Past(ModuleCode::Unsupported, place));
    }
    tokens.bump();
    items.push(item)?;
    Ok((items, wants.later()))
}

/// A comma and one more literal.
#[tactic(auto, unfolding(statement_grammar::specs::AttributesDescent::literal_more, slang_reading::specs::Reading::next))]
fn literal_more(
    alloc: Global,
    limits: Limits,
    tokens: &mut Tokens<'_>,
    place: Place,
    list: (Items<Literal>, Wants),
) -> Result<(Items<Literal>, Wants), Fault>
    ensures { Runs (spec.literal_more (limits_of limits) place list) tokens.old result tokens.new }
{
    if !tokens.sees(Mark::Comma) {
        return Err(Fault::Stopped);
    }
    if !list.1.more() {
        return Err(Fault::Past(ModuleCode::Unsupported, place));
    }
    tokens.bump();
    literal(alloc, limits, tokens, place, list)
}

/// The literals behind the first.
fn literal_list(
    alloc: Global,
    limits: Limits,
    tokens: &mut Tokens<'_>,
    place: Place,
    mut list: (Items<Literal>, Wants),
) -> Result<(Items<Literal>, Wants), Fault>
    ensures { Runs (turns (sees m.Comma) (spec.literal_more (limits_of limits) place) limits.turns list) tokens.old result tokens.new }
{
    for _turn in 0..limits.turns {
        if !tokens.sees(Mark::Comma) {
            return Ok(list);
        }
        list = literal_more(alloc, limits, tokens, place, list)?;
    }
    if tokens.sees(Mark::Comma) {
        return Err(Fault::Past(ModuleCode::TooLong, tokens.place()));
    }
    Ok(list)
}

/// The parenthesis behind the literals.
#[tactic(auto, unfolding(statement_grammar::specs::AttributesDescent::close, slang_reading::specs::Reading::next))]
fn close(
    limits: Limits,
    tokens: &mut Tokens<'_>,
    place: Place,
    list: (Items<Literal>, Wants),
) -> Result<Items<Literal>, Fault>
    ensures { Runs (spec.close (limits_of limits) place list) tokens.old result tokens.new }
{
    let (items, wants) = list;
    if !tokens.sees(Mark::CloseParen) {
        return Err(Fault::Stopped);
    }
    if wants.more() {
        return Err(Fault::Past(ModuleCode::Unsupported, place));
    }
    tokens.bump();
    Ok(items)
}

/// Behind the opening parenthesis, with both marks that close the attribute, and where the last one lies.
#[tactic(auto, unfolding(statement_grammar::specs::AttributesDescent::literals, slang_reading::specs::Reading::bind))]
fn literals(
    alloc: Global,
    limits: Limits,
    tokens: &mut Tokens<'_>,
    place: Place,
    wants: Wants,
) -> Result<(Items<Literal>, Place), Fault>
    ensures { Runs (spec.literals (limits_of limits) place wants) tokens.old result tokens.new }
{
    let list = literal(alloc, limits, tokens, place, (Items::new(alloc), wants))?;
    let list = literal_list(alloc, limits, tokens, place, list)?;
    let items = close(limits, tokens, place, list)?;
    let end = expect(tokens, Mark::CloseBracket)?;
    Ok((items, end))
}

/// Behind the name of an attribute.
#[tactic(auto, unfolding(statement_grammar::specs::AttributesDescent::attribute_rest, slang_reading::specs::Reading::next))]
pub(crate) fn attribute_rest(
    alloc: Global,
    limits: Limits,
    tokens: &mut Tokens<'_>,
    place: Place,
    wants: Wants,
) -> Result<(Items<Literal>, Place), Fault>
    ensures { Runs (spec.attribute_rest (limits_of limits) place wants) tokens.old result tokens.new }
{
    let Some(token) = tokens.peek() else {
        return Err(Fault::Stopped);
    };
    if is_mark(Mark::OpenParen, token.kind) {
        if !wants.more() {
            return Err(Fault::Past(ModuleCode::Unsupported, place));
        }
        tokens.bump();
        return literals(alloc, limits, tokens, place, wants);
    }
    if !is_mark(Mark::CloseBracket, token.kind) {
        return Err(Fault::Stopped);
    }
    if wants.more() {
        return Err(Fault::Past(ModuleCode::Unsupported, place));
    }
    tokens.bump();
    Ok((Items::new(alloc), token.place))
}
