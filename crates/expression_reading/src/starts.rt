// With which tokens an expression begins.

ghost use Rattle.std.specs.Prelude.{◌≡◌, drop};
ghost use Rattle.slang_reading.specs.Cursor.{looked};
ghost use Rattle.slang_reading.specs.Reading.{first};
ghost use Rattle.slang_grammar.specs.ExpressionsDescent as spec;

use slang_grammar::{builtin_of, unary_of};
use slang_names::Place;
use slang_reading::{Tokens, is_mark};
use slang_tokens::{Kind, Mark, Word};

/// The level behind the loosest, which is that of whole expressions.
pub const WHOLE: u8 = 11;

/// Whether the word is a literal, `this` or `This`.
fn word_begins(word: Word) -> bool
    ensures { result ≡ spec.word_begins word }
{
    match word {
        Word::True => true,
        Word::False => true,
        Word::ThisValue => true,
        Word::ThisType => true,
        _ => builtin_of(word).is_some(),
    }
}

/// Whether an expression begins with a token of that kind.
pub fn begins_expression(kind: Kind) -> bool
    ensures { result ≡ spec.begins_by kind }
{
    match kind {
        Kind::Name => true,
        Kind::Number(_) => true,
        Kind::String => false,
        Kind::Word(word) => word_begins(word),
        Kind::Mark(Mark::OpenParen) => true,
        Kind::Mark(mark) => unary_of(mark).is_some(),
    }
}

/// Whether the next token is that mark, directly behind that place.
pub fn sees_joined(tokens: &mut Tokens<'_>, mark: Mark, place: Place) -> bool
    ensures is { result ≡ spec.joined mark place (first (drop tokens.old.at tokens.old.tokens)) }
    ensures after { tokens.new ≡ looked tokens.old }
{
    match tokens.peek() {
        Some(token) => is_mark(mark, token.kind) && place.end == token.place.start,
        None => false,
    }
}
