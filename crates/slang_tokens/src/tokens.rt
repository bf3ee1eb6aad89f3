// Tokens and what they are.

use slang_names::{Number, Place};

/// The marks. `>` is always a mark by itself: `>>`, `>=` and `>>=` are marks that stand directly behind each other.
#[derive(Clone, Copy)]
pub enum Mark {
    /// `{`
    OpenBrace,
    /// `}`
    CloseBrace,
    /// `(`
    OpenParen,
    /// `)`
    CloseParen,
    /// `[`
    OpenBracket,
    /// `]`
    CloseBracket,
    /// `<`
    Less,
    /// `=`
    Equal,
    /// `;`
    Semicolon,
    /// `,`
    Comma,
    /// `:`
    Colon,
    /// `::`
    DoubleColon,
    /// `.`
    Dot,
    /// `?`
    Question,
    /// `+`
    Plus,
    /// `-`
    Minus,
    /// `*`
    Star,
    /// `/`
    Slash,
    /// `%`
    Percent,
    /// `&`
    And,
    /// `|`
    Or,
    /// `^`
    Caret,
    /// `!`
    Not,
    /// `~`
    Tilde,
    /// `&&`
    AndAnd,
    /// `||`
    OrOr,
    /// `==`
    EqualEqual,
    /// `!=`
    NotEqual,
    /// `<=`
    LessEqual,
    /// `<<`
    ShiftLeft,
    /// `++`
    PlusPlus,
    /// `--`
    MinusMinus,
    /// `+=`
    PlusEqual,
    /// `-=`
    MinusEqual,
    /// `*=`
    StarEqual,
    /// `/=`
    SlashEqual,
    /// `%=`
    PercentEqual,
    /// `&=`
    AndEqual,
    /// `|=`
    OrEqual,
    /// `^=`
    CaretEqual,
    /// `<<=`
    ShiftLeftEqual,
    /// `>`
    Greater,
}

/// The words of the language that have a use in a text.
#[derive(Clone, Copy)]
pub enum Word {
    /// `associatedtype`
    AssociatedType,
    /// `bool`
    Bool,
    /// `break`
    Break,
    /// `const`
    Const,
    /// `continue`
    Continue,
    /// `else`
    Else,
    /// `extension`
    Extension,
    /// `false`
    False,
    /// `for`
    For,
    /// `if`
    If,
    /// `import`
    Import,
    /// `in`
    In,
    /// `inout`
    InOut,
    /// `int`
    Int,
    /// `int2`
    Int2,
    /// `int3`
    Int3,
    /// `int4`
    Int4,
    /// `interface`
    Interface,
    /// `internal`
    Internal,
    /// `let`
    Let,
    /// `module`
    Module,
    /// `out`
    Out,
    /// `private`
    Private,
    /// `public`
    Public,
    /// `return`
    Return,
    /// `static`
    Static,
    /// `struct`
    Struct,
    /// `This`
    ThisType,
    /// `this`
    ThisValue,
    /// `true`
    True,
    /// `typealias`
    TypeAlias,
    /// `typedef`
    TypeDef,
    /// `uint`
    Uint,
    /// `uint2`
    Uint2,
    /// `uint3`
    Uint3,
    /// `uint4`
    Uint4,
    /// `void`
    Void,
    /// `where`
    Where,
    /// `while`
    While,
    /// `StructuredBuffer`
    StructuredBuffer,
    /// `RWStructuredBuffer`
    RwStructuredBuffer,
    /// `ConstantBuffer`
    ConstantBuffer,
    /// `ParameterBlock`
    ParameterBlock,
}

/// What a token is. The bytes of a name or a string are those of the text at the token's place; a string's quotes
/// are part of its place.
#[derive(Clone, Copy)]
pub enum Kind {
    Name,
    Word(Word),
    Number(Number),
    String,
    Mark(Mark),
}

/// A token and where it lies in its text.
#[derive(Clone, Copy)]
pub struct Token {
    pub kind: Kind,
    pub place: Place,
}
