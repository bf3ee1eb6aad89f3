// The tables of marks and words.

ghost use Rattle.std.specs.Prelude.{◌≡◌};
ghost use Rattle.slang_tokens.specs.Tables as tables;
ghost use Rattle.slang_tokens.specs.Tables.{entry_of, texts};

use crate::tokens::{Mark, Word};
use slang_names::ModuleCode;

/// What the table says of these bytes.
fn look_up<T: Copy + Drop>(table: &[(&str, T)], bytes: &[u8]) -> Option<T>
    ensures { result ≡ entry_of (texts table.now) bytes.now }
{
    for (text, entry) in table {
        if text.as_bytes() == bytes {
            return Some(*entry);
        }
    }
    None
}

static MARKS: [(&str, Mark); 42] = [
    ("{", Mark::OpenBrace),
    ("}", Mark::CloseBrace),
    ("(", Mark::OpenParen),
    (")", Mark::CloseParen),
    ("[", Mark::OpenBracket),
    ("]", Mark::CloseBracket),
    ("<", Mark::Less),
    ("=", Mark::Equal),
    (";", Mark::Semicolon),
    (",", Mark::Comma),
    (":", Mark::Colon),
    ("::", Mark::DoubleColon),
    (".", Mark::Dot),
    ("?", Mark::Question),
    ("+", Mark::Plus),
    ("-", Mark::Minus),
    ("*", Mark::Star),
    ("/", Mark::Slash),
    ("%", Mark::Percent),
    ("&", Mark::And),
    ("|", Mark::Or),
    ("^", Mark::Caret),
    ("!", Mark::Not),
    ("~", Mark::Tilde),
    ("&&", Mark::AndAnd),
    ("||", Mark::OrOr),
    ("==", Mark::EqualEqual),
    ("!=", Mark::NotEqual),
    ("<=", Mark::LessEqual),
    ("<<", Mark::ShiftLeft),
    ("++", Mark::PlusPlus),
    ("--", Mark::MinusMinus),
    ("+=", Mark::PlusEqual),
    ("-=", Mark::MinusEqual),
    ("*=", Mark::StarEqual),
    ("/=", Mark::SlashEqual),
    ("%=", Mark::PercentEqual),
    ("&=", Mark::AndEqual),
    ("|=", Mark::OrEqual),
    ("^=", Mark::CaretEqual),
    ("<<=", Mark::ShiftLeftEqual),
    (">", Mark::Greater),
];

static WORDS: [(&str, Word); 43] = [
    ("associatedtype", Word::AssociatedType),
    ("bool", Word::Bool),
    ("break", Word::Break),
    ("const", Word::Const),
    ("continue", Word::Continue),
    ("else", Word::Else),
    ("extension", Word::Extension),
    ("false", Word::False),
    ("for", Word::For),
    ("if", Word::If),
    ("import", Word::Import),
    ("in", Word::In),
    ("inout", Word::InOut),
    ("int", Word::Int),
    ("int2", Word::Int2),
    ("int3", Word::Int3),
    ("int4", Word::Int4),
    ("interface", Word::Interface),
    ("internal", Word::Internal),
    ("let", Word::Let),
    ("module", Word::Module),
    ("out", Word::Out),
    ("private", Word::Private),
    ("public", Word::Public),
    ("return", Word::Return),
    ("static", Word::Static),
    ("struct", Word::Struct),
    ("This", Word::ThisType),
    ("this", Word::ThisValue),
    ("true", Word::True),
    ("typealias", Word::TypeAlias),
    ("typedef", Word::TypeDef),
    ("uint", Word::Uint),
    ("uint2", Word::Uint2),
    ("uint3", Word::Uint3),
    ("uint4", Word::Uint4),
    ("void", Word::Void),
    ("where", Word::Where),
    ("while", Word::While),
    ("StructuredBuffer", Word::StructuredBuffer),
    ("RWStructuredBuffer", Word::RwStructuredBuffer),
    ("ConstantBuffer", Word::ConstantBuffer),
    ("ParameterBlock", Word::ParameterBlock),
];

static REFUSED: [(&str, ModuleCode); 51] = [
    ("Texture1D", ModuleCode::Texture),
    ("Texture2D", ModuleCode::Texture),
    ("Texture3D", ModuleCode::Texture),
    ("TextureCube", ModuleCode::Texture),
    ("Texture1DArray", ModuleCode::Texture),
    ("Texture2DArray", ModuleCode::Texture),
    ("TextureCubeArray", ModuleCode::Texture),
    ("Texture2DMS", ModuleCode::Texture),
    ("RWTexture1D", ModuleCode::Texture),
    ("RWTexture2D", ModuleCode::Texture),
    ("RWTexture3D", ModuleCode::Texture),
    ("SamplerState", ModuleCode::Texture),
    ("SamplerComparisonState", ModuleCode::Texture),
    ("class", ModuleCode::Unsupported),
    ("enum", ModuleCode::Unsupported),
    ("property", ModuleCode::Unsupported),
    ("operator", ModuleCode::Unsupported),
    ("switch", ModuleCode::Unsupported),
    ("case", ModuleCode::Unsupported),
    ("default", ModuleCode::Unsupported),
    ("do", ModuleCode::Unsupported),
    ("groupshared", ModuleCode::Unsupported),
    ("cbuffer", ModuleCode::Unsupported),
    ("tbuffer", ModuleCode::Unsupported),
    ("uniform", ModuleCode::Unsupported),
    ("extern", ModuleCode::Unsupported),
    ("export", ModuleCode::Unsupported),
    ("func", ModuleCode::Unsupported),
    ("var", ModuleCode::Unsupported),
    ("namespace", ModuleCode::Unsupported),
    ("discard", ModuleCode::Unsupported),
    ("throw", ModuleCode::Unsupported),
    ("try", ModuleCode::Unsupported),
    ("defer", ModuleCode::Unsupported),
    ("__include", ModuleCode::Unsupported),
    ("__subscript", ModuleCode::Unsupported),
    ("__init", ModuleCode::Unsupported),
    ("__exported", ModuleCode::Unsupported),
    ("bool2", ModuleCode::Unsupported),
    ("bool3", ModuleCode::Unsupported),
    ("bool4", ModuleCode::Unsupported),
    ("int8_t", ModuleCode::Unsupported),
    ("int16_t", ModuleCode::Unsupported),
    ("int64_t", ModuleCode::Unsupported),
    ("uint8_t", ModuleCode::Unsupported),
    ("uint16_t", ModuleCode::Unsupported),
    ("uint64_t", ModuleCode::Unsupported),
    ("ByteAddressBuffer", ModuleCode::Unsupported),
    ("RWByteAddressBuffer", ModuleCode::Unsupported),
    ("AppendStructuredBuffer", ModuleCode::Unsupported),
    ("ConsumeStructuredBuffer", ModuleCode::Unsupported),
];

/// The mark that is spelled so.
pub(crate) fn mark_of(bytes: &[u8]) -> Option<Mark>
    ensures { result ≡ tables.mark_of bytes.now }
{
    look_up(&MARKS, bytes)
}

/// The word with a use that is spelled so.
pub(crate) fn word_of(bytes: &[u8]) -> Option<Word>
    ensures { result ≡ tables.word_of bytes.now }
{
    look_up(&WORDS, bytes)
}

/// The code by which the word that is spelled so is refused, of those that stand in the table one by one.
pub(crate) fn refused_of(bytes: &[u8]) -> Option<ModuleCode>
    ensures { result ≡ tables.refused_of bytes.now }
{
    look_up(&REFUSED, bytes)
}
