// The descent into attributes.

ghost use Rattle.std.specs.Prelude.{◌≡◌};
ghost use Rattle.slang_reading.specs.Cursor.{Runs};
ghost use Rattle.slang_reading.specs.Reading.{next};
ghost use Rattle.statement_grammar.specs.AttributesDescent as spec;
ghost use Rattle.type_reading.specs.Limited.{limits_of};

use crate::binding::binding;
use crate::known::admits;
use crate::literals::attribute_rest;
use crate::wants::Wants;
use slang_names::{ModuleCode, Place};
use slang_reading::{Fault, Tokens, span};
use slang_tokens::{Kind, Mark};
use slang_tree::{Attribute, AttributeNode, Identifier};
use sqlite_items::Items;
use statement_grammar::{KnownAttribute, Target, attribute_of};
use std::alloc::Global;
use type_reading::{Limits, expect, name};

/// Behind the name of an attribute that begins at that place.
#[tactic(auto, unfolding(statement_grammar::specs::AttributesDescent::named, slang_reading::specs::Reading::bind))]
fn named(
    alloc: Global,
    limits: Limits,
    tokens: &mut Tokens<'_>,
    targets: &[Target],
    given: (Items<Attribute>, Items<(KnownAttribute, Place)>),
    begin: Place,
    id: Identifier,
    known: Option<KnownAttribute>,
) -> Result<(Items<Attribute>, Items<(KnownAttribute, Place)>), Fault>
    ensures { Runs (spec.named (limits_of limits) targets.now given begin id known) tokens.old result tokens.new }
{
    let (mut items, mut noted) = given;
    let place = id.place;
    let (list, end) = attribute_rest(alloc, limits, tokens, place, Wants::of(known))?;
    items.push(Attribute {
        place: span(begin, end),
        node: AttributeNode::Named(id, list),
    })?;
    if let Some(known) = known {
        noted.push((known, place))?;
    }
    Ok((items, noted))
}

/// Behind the bracket at that place.
#[tactic(auto, unfolding(slang_grammar::specs::Descent::name, slang_reading::specs::Reading::next))]
fn attribute_behind(
    alloc: Global,
    limits: Limits,
    tokens: &mut Tokens<'_>,
    targets: &[Target],
    given: (Items<Attribute>, Items<(KnownAttribute, Place)>),
    begin: Place,
) -> Result<(Items<Attribute>, Items<(KnownAttribute, Place)>), Fault>
    ensures { Runs (next (spec.attribute_at (limits_of limits) targets.now given begin)) tokens.old result tokens.new }
{
    let Some(token) = tokens.peek() else {
        return Err(Fault::Stopped);
    };
    match token.kind {
        Kind::Name => {
            let id = name(alloc, limits, tokens)?;
            let known = attribute_of(id.name.as_bytes());
            if !admits(targets, given.1.as_slice(), known, token.place) {
                return Err(Fault::Past(ModuleCode::Unsupported, token.place));
            }
            named(alloc, limits, tokens, targets, given, begin, id, known)
        }
        Kind::Mark(Mark::OpenBracket) => {
            tokens.bump();
            binding(limits, tokens, targets, given, begin)
        }
        _ => Err(Fault::Stopped),
    }
}

/// One more attribute.
#[tactic(auto, unfolding(statement_grammar::specs::AttributesDescent::attribute, slang_reading::specs::Reading::bind))]
fn attribute(
    alloc: Global,
    limits: Limits,
    tokens: &mut Tokens<'_>,
    targets: &[Target],
    given: (Items<Attribute>, Items<(KnownAttribute, Place)>),
) -> Result<(Items<Attribute>, Items<(KnownAttribute, Place)>), Fault>
    ensures { Runs (spec.attribute (limits_of limits) targets.now given) tokens.old result tokens.new }
{
    let begin = expect(tokens, Mark::OpenBracket)?;
    attribute_behind(alloc, limits, tokens, targets, given, begin)
}

/// The attributes before one of these things, and which of them are known, each with the place of its name.
#[tactic(auto, unfolding(statement_grammar::specs::AttributesDescent::attributes))]
pub fn attributes(
    alloc: Global,
    limits: Limits,
    tokens: &mut Tokens<'_>,
    targets: &[Target],
) -> Result<(Items<Attribute>, Items<(KnownAttribute, Place)>), Fault>
    ensures { Runs (spec.attributes (limits_of limits) targets.now) tokens.old result tokens.new }
{
    let mut given = (Items::new(alloc), Items::new(alloc));
    for _turn in 0..limits.turns {
        if !tokens.sees(Mark::OpenBracket) {
            return Ok(given);
        }
        given = attribute(alloc, limits, tokens, targets, given)?;
    }
    if tokens.sees(Mark::OpenBracket) {
        return Err(Fault::Past(ModuleCode::TooLong, tokens.place()));
    }
    Ok(given)
}
