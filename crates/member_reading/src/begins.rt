// What tokens begin a member, and what tokens go on with one.

ghost use Rattle.std.specs.Prelude.{◌≡◌, ◌||◌, ℕ, Bool, drop};
ghost use Rattle.slang_tokens.specs.declared.tokens.Mark.TheVariants as m;
ghost use Rattle.slang_reading.specs.Kinds as kinds;
ghost use Rattle.slang_reading.specs.Reading.{first};
ghost use Rattle.slang_reading.specs.Cursor.{looked};
ghost use Rattle.slang_grammar.specs.Descent.{Limits};
ghost use Rattle.declaration_grammar.specs.Parts.{is_access, access_by};
ghost use Rattle.declaration_grammar.specs.DeclarationsDescent as spec;

use declaration_grammar::{DeclarationUse, access_of, declaration_use};
use slang_reading::{Tokens, is_mark};
use slang_tokens::{Kind, Mark};

/// Whether generics or parameters begin with a token of that kind, which makes a function of a type and a name.
pub fn begins_parameters(kind: Kind) -> bool
    ensures { result ≡ (kinds.is_mark m.OpenParen kind || kinds.is_mark m.Less kind) }
{
    is_mark(Mark::OpenParen, kind) || is_mark(Mark::Less, kind)
}

/// Whether a token of that kind makes a field of a type and a name.
pub(crate) fn goes_on_field(kind: Kind) -> bool
    ensures { result ≡ (kinds.is_mark m.OpenBracket kind || kinds.is_mark m.Comma kind || kinds.is_mark m.Semicolon kind) }
{
    is_mark(Mark::OpenBracket, kind) || is_mark(Mark::Comma, kind) || is_mark(Mark::Semicolon, kind)
}

fn is_access(kind: Kind) -> bool
    ensures { result ≡ is_access (access_by kind) }
{
    match kind {
        Kind::Word(word) => access_of(word).is_some(),
        _ => false,
    }
}

/// Whether a member of a struct in a struct, or of an extension, begins with the next token.
pub(crate) fn begins_inner(tokens: &mut Tokens<'_>) -> bool
    ensures is { (limits : Limits) (nodes : ℕ) (fields : Bool) → result ≡ spec.inner_begins limits nodes fields (first (drop tokens.old.at tokens.old.tokens)) }
    ensures after { tokens.new ≡ looked tokens.old }
{
    let Some(token) = tokens.peek() else {
        return false;
    };
    if is_mark(Mark::OpenBracket, token.kind) || is_access(token.kind) {
        return true;
    }
    match declaration_use(token.kind) {
        DeclarationUse::TypeDef => true,
        DeclarationUse::TypeAlias => true,
        DeclarationUse::Static => true,
        DeclarationUse::Typed => true,
        _ => false,
    }
}

/// Whether a member of a struct of the module begins with the next token.
pub(crate) fn begins_member(tokens: &mut Tokens<'_>) -> bool
    ensures is { (limits : Limits) (nodes : ℕ) → result ≡ spec.member_begins limits nodes (first (drop tokens.old.at tokens.old.tokens)) }
    ensures after { tokens.new ≡ looked tokens.old }
{
    let Some(token) = tokens.peek() else {
        return false;
    };
    if is_mark(Mark::OpenBracket, token.kind) || is_access(token.kind) {
        return true;
    }
    match declaration_use(token.kind) {
        DeclarationUse::Struct => true,
        DeclarationUse::TypeDef => true,
        DeclarationUse::TypeAlias => true,
        DeclarationUse::Static => true,
        DeclarationUse::Typed => true,
        _ => false,
    }
}
