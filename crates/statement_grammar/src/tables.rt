// What tokens begin a statement, and what stands behind the place of a change.

ghost use Rattle.std.specs.Prelude.{◌≡◌};
ghost use Rattle.statement_grammar.specs.Tables as tables;

use slang_tokens::{Kind, Mark, Word};
use slang_tree::{BinaryOperator, Step};

/// What a mark does behind the place of a change.
#[derive(Clone, Copy)]
pub enum ChangeUse {
    /// `=`
    Assign,
    /// `+=` and its like, of one mark.
    Update(BinaryOperator),
    /// `>`, which may begin `>>=`.
    Shift,
    /// `++` or `--`.
    Step(Step),
    /// The change ends before it.
    End,
}

/// What a token begins where a statement stands.
#[derive(Clone, Copy)]
pub enum StatementUse {
    /// `{`
    Block,
    /// `;`
    Empty,
    /// `[`, which begins the attributes of a loop.
    Attributes,
    /// A declaration of locals, a change or a call.
    Simple,
    If,
    For,
    While,
    Return,
    Break,
    Continue,
    /// No statement.
    Nothing,
}

/// What the mark does behind the place of a change.
pub fn change_use(mark: Mark) -> ChangeUse
    ensures { result ≡ tables.change_use mark }
{
    match mark {
        Mark::Equal => ChangeUse::Assign,
        Mark::PlusEqual => ChangeUse::Update(BinaryOperator::Add),
        Mark::MinusEqual => ChangeUse::Update(BinaryOperator::Subtract),
        Mark::StarEqual => ChangeUse::Update(BinaryOperator::Multiply),
        Mark::SlashEqual => ChangeUse::Update(BinaryOperator::Divide),
        Mark::PercentEqual => ChangeUse::Update(BinaryOperator::Remainder),
        Mark::AndEqual => ChangeUse::Update(BinaryOperator::BitAnd),
        Mark::OrEqual => ChangeUse::Update(BinaryOperator::BitOr),
        Mark::CaretEqual => ChangeUse::Update(BinaryOperator::BitXor),
        Mark::ShiftLeftEqual => ChangeUse::Update(BinaryOperator::ShiftLeft),
        Mark::Greater => ChangeUse::Shift,
        Mark::PlusPlus => ChangeUse::Step(Step::Increment),
        Mark::MinusMinus => ChangeUse::Step(Step::Decrement),
        _ => ChangeUse::End,
    }
}

fn mark_use(mark: Mark) -> StatementUse
    ensures { result ≡ tables.mark_use mark }
{
    match mark {
        Mark::OpenBrace => StatementUse::Block,
        Mark::Semicolon => StatementUse::Empty,
        Mark::OpenBracket => StatementUse::Attributes,
        Mark::OpenParen => StatementUse::Simple,
        Mark::PlusPlus => StatementUse::Simple,
        Mark::MinusMinus => StatementUse::Simple,
        _ => StatementUse::Nothing,
    }
}

fn word_use(word: Word) -> StatementUse
    ensures { result ≡ tables.word_use word }
{
    match word {
        Word::If => StatementUse::If,
        Word::For => StatementUse::For,
        Word::While => StatementUse::While,
        Word::Return => StatementUse::Return,
        Word::Break => StatementUse::Break,
        Word::Continue => StatementUse::Continue,
        Word::Const => StatementUse::Simple,
        Word::True => StatementUse::Simple,
        Word::False => StatementUse::Simple,
        Word::ThisValue => StatementUse::Simple,
        Word::ThisType => StatementUse::Simple,
        Word::Void => StatementUse::Simple,
        Word::Bool => StatementUse::Simple,
        Word::Int => StatementUse::Simple,
        Word::Int2 => StatementUse::Simple,
        Word::Int3 => StatementUse::Simple,
        Word::Int4 => StatementUse::Simple,
        Word::Uint => StatementUse::Simple,
        Word::Uint2 => StatementUse::Simple,
        Word::Uint3 => StatementUse::Simple,
        Word::Uint4 => StatementUse::Simple,
        Word::StructuredBuffer => StatementUse::Simple,
        Word::RwStructuredBuffer => StatementUse::Simple,
        Word::ConstantBuffer => StatementUse::Simple,
        Word::ParameterBlock => StatementUse::Simple,
        _ => StatementUse::Nothing,
    }
}

/// What a token of that kind begins where a statement stands.
pub fn statement_use(kind: Kind) -> StatementUse
    ensures { result ≡ tables.statement_use kind }
{
    match kind {
        Kind::Name => StatementUse::Simple,
        Kind::Number(_) => StatementUse::Simple,
        Kind::String => StatementUse::Nothing,
        Kind::Word(word) => word_use(word),
        Kind::Mark(mark) => mark_use(mark),
    }
}
