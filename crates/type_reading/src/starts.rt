// With which tokens a type begins.

ghost use Rattle.std.specs.Prelude.{◌≡◌, if◌then◌else◌};
ghost use Rattle.slang_grammar.specs.TypesDescent.{other_use, IsThis, IsOther};
ghost use Rattle.slang_tokens.specs.declared.tokens.Kind.TheVariants as k;
ghost use Rattle.type_reading.specs.Starts as spec;

use slang_grammar::{builtin_of, resource_of};
use slang_tokens::{Kind, Word};

/// Whether it is the word `This`.
pub fn is_this(word: Word) -> bool
    ensures { other_use word ≡ (if result then IsThis else IsOther) }
{
    match word {
        Word::ThisType => true,
        _ => false,
    }
}

/// Whether a type begins with a token of that kind.
pub fn begins_type(kind: Kind) -> bool
    ensures { result ≡ spec.begins_type kind }
{
    match kind {
        Kind::Name => true,
        Kind::Word(word) => begins_with(word),
        _ => false,
    }
}

fn begins_with(word: Word) -> bool
    ensures { result ≡ spec.begins_type (k.Word word) }
{
    if let Some(_) = builtin_of(word) {
        return true;
    }
    if let Some(_) = resource_of(word) {
        return true;
    }
    is_this(word)
}
