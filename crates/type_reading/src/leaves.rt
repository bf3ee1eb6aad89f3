// What takes one token: marks, names, and what stands between brackets.

ghost use Rattle.std.specs.Prelude.{◌≡◌, drop, IfOk, IfSome};
ghost use Rattle.slang_reading.specs.Reading.{first};
ghost use Rattle.slang_reading.specs.Cursor.{Runs};
ghost use Rattle.slang_grammar.specs.Descent as descent;
ghost use Rattle.type_reading.specs.Limited.{limits_of};

use crate::limits::Limits;
use slang_names::{ModuleCode, Name, Place};
use slang_reading::{Fault, Tokens, is_mark};
use slang_tokens::{Kind, Mark};
use slang_tree::{Identifier, Term};
use std::alloc::{AllocError, Global};

/// That mark, and where it lies.
#[tactic(auto, unfolding(slang_grammar::specs::Descent::expect, slang_reading::specs::Reading::next))]
pub fn expect(tokens: &mut Tokens<'_>, mark: Mark) -> Result<Place, Fault>
    ensures { Runs (descent.expect mark) tokens.old result tokens.new }
{
    let Some(token) = tokens.peek() else {
        return Err(Fault::Stopped);
    };
    if !is_mark(mark, token.kind) {
        return Err(Fault::Stopped);
    }
    tokens.bump();
    Ok(token.place)
}

/// The next token as a name of the tree, whatever it is.
pub(crate) fn identifier(
    alloc: Global,
    tokens: &Tokens<'_>,
    place: Place,
) -> Result<Identifier, AllocError>
    ensures { IfSome (first (drop tokens.now.at tokens.now.tokens)) (λ t. IfOk result (λ id. id ≡ record { place = place; name = t.bytes })) }
{
    Ok(Identifier {
        place,
        name: Name::from_slice(alloc, tokens.bytes())?,
    })
}

/// Whether the next token is short enough to be a name.
pub(crate) fn is_short(limits: Limits, tokens: &Tokens<'_>) -> bool
    ensures { IfSome (first (drop tokens.now.at tokens.now.tokens)) (λ t. result ≡ descent.is_short (limits_of limits) t) }
{
    tokens.bytes().len() <= limits.names
}

/// A name.
#[tactic(auto, unfolding(slang_grammar::specs::Descent::name, slang_reading::specs::Reading::next))]
pub fn name(alloc: Global, limits: Limits, tokens: &mut Tokens<'_>) -> Result<Identifier, Fault>
    ensures { Runs (descent.name (limits_of limits)) tokens.old result tokens.new }
{
    let Some(token) = tokens.peek() else {
        return Err(Fault::Stopped);
    };
    match token.kind {
        Kind::Name => {
            if !is_short(limits, tokens) {
                return Err(Fault::Past(ModuleCode::TooLong, token.place));
            }
            let id = identifier(alloc, tokens, token.place)?;
            tokens.bump();
            Ok(id)
        }
        _ => Err(Fault::Stopped),
    }
}

/// A number or a name, as it stands between brackets.
#[tactic(auto, unfolding(slang_grammar::specs::Descent::bracketed, slang_reading::specs::Reading::next))]
pub fn bracketed(alloc: Global, limits: Limits, tokens: &mut Tokens<'_>) -> Result<Term, Fault>
    ensures { Runs (descent.bracketed (limits_of limits)) tokens.old result tokens.new }
{
    let Some(token) = tokens.peek() else {
        return Err(Fault::Stopped);
    };
    match token.kind {
        Kind::Number(number) => {
            tokens.bump();
            Ok(Term::Number(token.place, number))
        }
        Kind::Name => {
            if !is_short(limits, tokens) {
                return Err(Fault::Past(ModuleCode::TooLong, token.place));
            }
            let id = identifier(alloc, tokens, token.place)?;
            tokens.bump();
            Ok(Term::Name(id))
        }
        _ => Err(Fault::Stopped),
    }
}
