// Words and marks of declarations.

ghost use Rattle.slang_reading.specs.Cursor.{Runs};
ghost use Rattle.declaration_grammar.specs.PartsDescent as spec;

use declaration_grammar::access_of;
use slang_names::{Access, Place};
use slang_reading::{Fault, Tokens, is_word};
use slang_tokens::{Kind, Mark, Word};
use type_reading::expect;

/// That word, and where it lies.
#[tactic(auto, unfolding(declaration_grammar::specs::PartsDescent::expect_word, slang_reading::specs::Reading::next))]
pub fn expect_word(tokens: &mut Tokens<'_>, word: Word) -> Result<Place, Fault>
    ensures { Runs (spec.expect_word word) tokens.old result tokens.new }
{
    let Some(token) = tokens.peek() else {
        return Err(Fault::Stopped);
    };
    if !is_word(word, token.kind) {
        return Err(Fault::Stopped);
    }
    tokens.bump();
    Ok(token.place)
}

/// An access word, or none.
#[tactic(auto, unfolding(declaration_grammar::specs::PartsDescent::access, slang_reading::specs::Reading::next))]
pub fn access(tokens: &mut Tokens<'_>) -> Result<Option<Access>, Fault>
    ensures { Runs spec.access tokens.old result tokens.new }
{
    let Some(token) = tokens.peek() else {
        return Ok(None);
    };
    match token.kind {
        Kind::Word(word) => {
            let Some(access) = access_of(word) else {
                return Ok(None);
            };
            tokens.bump();
            Ok(Some(access))
        }
        _ => Ok(None),
    }
}

/// The closing brace with a semicolon behind it, if one stands there; the place of the last of them.
#[tactic(auto, unfolding(declaration_grammar::specs::PartsDescent::closed, slang_reading::specs::Reading::bind, slang_reading::specs::Reading::next))]
pub fn closed(tokens: &mut Tokens<'_>) -> Result<Place, Fault>
    ensures { Runs spec.closed tokens.old result tokens.new }
{
    let brace = expect(tokens, Mark::CloseBrace)?;
    if !tokens.sees(Mark::Semicolon) {
        return Ok(brace);
    }
    let place = tokens.place();
    tokens.bump();
    Ok(place)
}
