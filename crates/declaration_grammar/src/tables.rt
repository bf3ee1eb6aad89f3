// What tokens begin a declaration.

ghost use Rattle.std.specs.Prelude.{◌≡◌};
ghost use Rattle.declaration_grammar.specs.Tables as tables;

use slang_names::{Access, Mode};
use slang_tokens::{Kind, Word};

/// What a token begins where a declaration stands.
#[derive(Clone, Copy)]
pub enum DeclarationUse {
    Struct,
    Interface,
    Extension,
    /// `typedef`, with the type before the name.
    TypeDef,
    /// `typealias`, with the name before the type.
    TypeAlias,
    /// `static`, before a constant of a module or a function of a struct.
    Static,
    /// `associatedtype`
    Associated,
    /// A type, before the name of a function, a field or a global.
    Typed,
    /// No declaration.
    Nothing,
}

/// The access that has that word.
pub fn access_of(word: Word) -> Option<Access>
    ensures { result ≡ tables.access_of word }
{
    match word {
        Word::Public => Some(Access::Public),
        Word::Internal => Some(Access::Internal),
        Word::Private => Some(Access::Private),
        _ => None,
    }
}

/// How the parameter is passed that begins with that word.
pub fn mode_of(word: Word) -> Option<Mode>
    ensures { result ≡ tables.mode_of word }
{
    match word {
        Word::In => Some(Mode::In),
        Word::Out => Some(Mode::Out),
        Word::InOut => Some(Mode::InOut),
        _ => None,
    }
}

fn word_use(word: Word) -> DeclarationUse
    ensures { result ≡ tables.word_use word }
{
    match word {
        Word::Struct => DeclarationUse::Struct,
        Word::Interface => DeclarationUse::Interface,
        Word::Extension => DeclarationUse::Extension,
        Word::TypeDef => DeclarationUse::TypeDef,
        Word::TypeAlias => DeclarationUse::TypeAlias,
        Word::Static => DeclarationUse::Static,
        Word::AssociatedType => DeclarationUse::Associated,
        Word::ThisType => DeclarationUse::Typed,
        Word::Void => DeclarationUse::Typed,
        Word::Bool => DeclarationUse::Typed,
        Word::Int => DeclarationUse::Typed,
        Word::Int2 => DeclarationUse::Typed,
        Word::Int3 => DeclarationUse::Typed,
        Word::Int4 => DeclarationUse::Typed,
        Word::Uint => DeclarationUse::Typed,
        Word::Uint2 => DeclarationUse::Typed,
        Word::Uint3 => DeclarationUse::Typed,
        Word::Uint4 => DeclarationUse::Typed,
        Word::StructuredBuffer => DeclarationUse::Typed,
        Word::RwStructuredBuffer => DeclarationUse::Typed,
        Word::ConstantBuffer => DeclarationUse::Typed,
        Word::ParameterBlock => DeclarationUse::Typed,
        _ => DeclarationUse::Nothing,
    }
}

/// What a token of that kind begins where a declaration stands, behind attributes and an access word.
pub fn declaration_use(kind: Kind) -> DeclarationUse
    ensures { result ≡ tables.declaration_use kind }
{
    match kind {
        Kind::Name => DeclarationUse::Typed,
        Kind::Word(word) => word_use(word),
        Kind::Number(_) => DeclarationUse::Nothing,
        Kind::String => DeclarationUse::Nothing,
        Kind::Mark(_) => DeclarationUse::Nothing,
    }
}
