// The descent into `vk::binding(binding, set)`.

ghost use Rattle.std.specs.Prelude.{◌≡◌, ◌++◌, ◌∷◌, [], Some};
ghost use Rattle.slang_reading.specs.Cursor.{Runs};
ghost use Rattle.slang_reading.specs.Reading.{next};
ghost use Rattle.statement_grammar.specs.AttributesDescent as spec;
ghost use Rattle.type_reading.specs.Limited.{limits_of};

use crate::known::admits;
use slang_names::{ModuleCode, Number, Place};
use slang_reading::{Fault, Tokens, span};
use slang_tokens::{Kind, Mark};
use slang_tree::{Attribute, AttributeNode};
use sqlite_items::Items;
use statement_grammar::{KnownAttribute, Target};
use type_reading::{Limits, expect};

/// The name that is spelled so.
#[tactic(auto, unfolding(statement_grammar::specs::AttributesDescent::spelled, slang_reading::specs::Reading::next))]
fn spelled(tokens: &mut Tokens<'_>, bytes: &[u8]) -> Result<Place, Fault>
    ensures { Runs (spec.spelled bytes.now) tokens.old result tokens.new }
{
    let Some(token) = tokens.peek() else {
        return Err(Fault::Stopped);
    };
    match token.kind {
        Kind::Name => {
            if bytes != tokens.bytes() {
                return Err(Fault::Stopped);
            }
            tokens.bump();
            Ok(token.place)
        }
        _ => Err(Fault::Stopped),
    }
}

/// A number.
#[tactic(auto, unfolding(statement_grammar::specs::AttributesDescent::number, slang_reading::specs::Reading::next))]
fn number(tokens: &mut Tokens<'_>) -> Result<Number, Fault>
    ensures { Runs spec.number tokens.old result tokens.new }
{
    let Some(token) = tokens.peek() else {
        return Err(Fault::Stopped);
    };
    match token.kind {
        Kind::Number(number) => {
            tokens.bump();
            Ok(number)
        }
        _ => Err(Fault::Stopped),
    }
}

/// Behind `vk::binding`, which lies at that place, in an attribute that begins at the first place.
#[tactic(auto, unfolding(statement_grammar::specs::AttributesDescent::binding_rest, slang_reading::specs::Reading::bind))]
fn binding_rest(
    limits: Limits,
    tokens: &mut Tokens<'_>,
    targets: &[Target],
    given: (Items<Attribute>, Items<(KnownAttribute, Place)>),
    begin: Place,
    place: Place,
) -> Result<(Items<Attribute>, Items<(KnownAttribute, Place)>), Fault>
    ensures { Runs (spec.binding_rest (limits_of limits) targets.now given begin place) tokens.old result tokens.new }
{
    let (mut items, mut noted) = given;
    expect(tokens, Mark::OpenParen)?;
    let binding = number(tokens)?;
    expect(tokens, Mark::Comma)?;
    let set = number(tokens)?;
    expect(tokens, Mark::CloseParen)?;
    expect(tokens, Mark::CloseBracket)?;
    let end = expect(tokens, Mark::CloseBracket)?;
    items.push(Attribute {
        place: span(begin, end),
        node: AttributeNode::Binding(binding, set),
    })?;
    noted.push((KnownAttribute::Binding, place))?;
    Ok((items, noted))
}

/// Behind `vk::`, of which the name begins at the last place.
#[tactic(auto, unfolding(slang_reading::specs::Reading::next))]
fn binding_name(
    limits: Limits,
    tokens: &mut Tokens<'_>,
    targets: &[Target],
    given: (Items<Attribute>, Items<(KnownAttribute, Place)>),
    begin: Place,
    from: Place,
) -> Result<(Items<Attribute>, Items<(KnownAttribute, Place)>), Fault>
    ensures { Runs (next (spec.binding_at (limits_of limits) targets.now given begin from)) tokens.old result tokens.new }
{
    let Some(token) = tokens.peek() else {
        return Err(Fault::Stopped);
    };
    match token.kind {
        Kind::Name => {
            if b"binding".as_slice() != tokens.bytes() {
                return Err(Fault::Stopped);
            }
            let place = span(from, token.place);
            let known = Some(KnownAttribute::Binding);
            if !admits(targets, given.1.as_slice(), known, place) {
                return Err(Fault::Past(ModuleCode::Unsupported, place));
            }
            tokens.bump();
            binding_rest(limits, tokens, targets, given, begin, place)
        }
        _ => Err(Fault::Stopped),
    }
}

/// Behind both brackets, of which the first lies at that place.
#[tactic(auto, unfolding(statement_grammar::specs::AttributesDescent::binding, slang_reading::specs::Reading::bind))]
pub(crate) fn binding(
    limits: Limits,
    tokens: &mut Tokens<'_>,
    targets: &[Target],
    given: (Items<Attribute>, Items<(KnownAttribute, Place)>),
    begin: Place,
) -> Result<(Items<Attribute>, Items<(KnownAttribute, Place)>), Fault>
    ensures { Runs (spec.binding (limits_of limits) targets.now given begin) tokens.old result tokens.new }
{
    let from = spelled(tokens, b"vk")?;
    expect(tokens, Mark::DoubleColon)?;
    binding_name(limits, tokens, targets, given, begin, from)
}
