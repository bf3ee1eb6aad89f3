// What a token is, as tests.

ghost use Rattle.std.specs.Prelude.{◌≡◌};
ghost use Rattle.slang_reading.specs.Kinds as spec;

use slang_names::Place;
use slang_tokens::{Kind, Mark, Word};

fn mark_code(mark: Mark) -> u8
    ensures { result ≡ spec.mark_code mark }
{
    match mark {
        Mark::OpenBrace => 0,
        Mark::CloseBrace => 1,
        Mark::OpenParen => 2,
        Mark::CloseParen => 3,
        Mark::OpenBracket => 4,
        Mark::CloseBracket => 5,
        Mark::Less => 6,
        Mark::Equal => 7,
        Mark::Semicolon => 8,
        Mark::Comma => 9,
        Mark::Colon => 10,
        Mark::DoubleColon => 11,
        Mark::Dot => 12,
        Mark::Question => 13,
        Mark::Plus => 14,
        Mark::Minus => 15,
        Mark::Star => 16,
        Mark::Slash => 17,
        Mark::Percent => 18,
        Mark::And => 19,
        Mark::Or => 20,
        Mark::Caret => 21,
        Mark::Not => 22,
        Mark::Tilde => 23,
        Mark::AndAnd => 24,
        Mark::OrOr => 25,
        Mark::EqualEqual => 26,
        Mark::NotEqual => 27,
        Mark::LessEqual => 28,
        Mark::ShiftLeft => 29,
        Mark::PlusPlus => 30,
        Mark::MinusMinus => 31,
        Mark::PlusEqual => 32,
        Mark::MinusEqual => 33,
        Mark::StarEqual => 34,
        Mark::SlashEqual => 35,
        Mark::PercentEqual => 36,
        Mark::AndEqual => 37,
        Mark::OrEqual => 38,
        Mark::CaretEqual => 39,
        Mark::ShiftLeftEqual => 40,
        Mark::Greater => 41,
    }
}

fn word_code(word: Word) -> u8
    ensures { result ≡ spec.word_code word }
{
    match word {
        Word::AssociatedType => 0,
        Word::Bool => 1,
        Word::Break => 2,
        Word::Const => 3,
        Word::Continue => 4,
        Word::Else => 5,
        Word::Extension => 6,
        Word::False => 7,
        Word::For => 8,
        Word::If => 9,
        Word::Import => 10,
        Word::In => 11,
        Word::InOut => 12,
        Word::Int => 13,
        Word::Int2 => 14,
        Word::Int3 => 15,
        Word::Int4 => 16,
        Word::Interface => 17,
        Word::Internal => 18,
        Word::Let => 19,
        Word::Module => 20,
        Word::Out => 21,
        Word::Private => 22,
        Word::Public => 23,
        Word::Return => 24,
        Word::Static => 25,
        Word::Struct => 26,
        Word::ThisType => 27,
        Word::ThisValue => 28,
        Word::True => 29,
        Word::TypeAlias => 30,
        Word::TypeDef => 31,
        Word::Uint => 32,
        Word::Uint2 => 33,
        Word::Uint3 => 34,
        Word::Uint4 => 35,
        Word::Void => 36,
        Word::Where => 37,
        Word::While => 38,
        Word::StructuredBuffer => 39,
        Word::RwStructuredBuffer => 40,
        Word::ConstantBuffer => 41,
        Word::ParameterBlock => 42,
    }
}

/// Whether a token of that kind is this mark.
pub fn is_mark(mark: Mark, kind: Kind) -> bool
    ensures { result ≡ spec.is_mark mark kind }
{
    match kind {
        Kind::Mark(other) => mark_code(mark) == mark_code(other),
        _ => false,
    }
}

/// Whether a token of that kind is this word.
pub fn is_word(word: Word, kind: Kind) -> bool
    ensures { result ≡ spec.is_word word kind }
{
    match kind {
        Kind::Word(other) => word_code(word) == word_code(other),
        _ => false,
    }
}

/// From the first byte of one place to past the last of the other.
pub fn span(from: Place, to: Place) -> Place
    ensures { result ≡ spec.span from to }
{
    Place {
        start: from.start,
        end: to.end,
    }
}
