// Which words are types, and which marks are operators.

ghost use Rattle.std.specs.Prelude.{◌≡◌};
ghost use Rattle.slang_grammar.specs.Tables as tables;

use slang_tokens::{Mark, Word};
use slang_tree::{BinaryOperator, Builtin, Resource, UnaryOperator};

/// The type that has that word.
pub fn builtin_of(word: Word) -> Option<Builtin>
    ensures { result ≡ tables.builtin_of word }
{
    match word {
        Word::Void => Some(Builtin::Void),
        Word::Bool => Some(Builtin::Bool),
        Word::Int => Some(Builtin::Int),
        Word::Int2 => Some(Builtin::Int2),
        Word::Int3 => Some(Builtin::Int3),
        Word::Int4 => Some(Builtin::Int4),
        Word::Uint => Some(Builtin::Uint),
        Word::Uint2 => Some(Builtin::Uint2),
        Word::Uint3 => Some(Builtin::Uint3),
        Word::Uint4 => Some(Builtin::Uint4),
        _ => None,
    }
}

/// The kind of resource that has that word.
pub fn resource_of(word: Word) -> Option<Resource>
    ensures { result ≡ tables.resource_of word }
{
    match word {
        Word::StructuredBuffer => Some(Resource::StructuredBuffer),
        Word::RwStructuredBuffer => Some(Resource::RwStructuredBuffer),
        Word::ConstantBuffer => Some(Resource::ConstantBuffer),
        Word::ParameterBlock => Some(Resource::ParameterBlock),
        _ => None,
    }
}

/// The operator before an operand that is spelled by that mark.
pub fn unary_of(mark: Mark) -> Option<UnaryOperator>
    ensures { result ≡ tables.unary_of mark }
{
    match mark {
        Mark::Minus => Some(UnaryOperator::Minus),
        Mark::Plus => Some(UnaryOperator::Plus),
        Mark::Not => Some(UnaryOperator::Not),
        Mark::Tilde => Some(UnaryOperator::Complement),
        _ => None,
    }
}

/// The operator between operands that is spelled by that mark alone.
pub fn binary_of(mark: Mark) -> Option<BinaryOperator>
    ensures { result ≡ tables.binary_of mark }
{
    match mark {
        Mark::OrOr => Some(BinaryOperator::Or),
        Mark::AndAnd => Some(BinaryOperator::And),
        Mark::Or => Some(BinaryOperator::BitOr),
        Mark::Caret => Some(BinaryOperator::BitXor),
        Mark::And => Some(BinaryOperator::BitAnd),
        Mark::EqualEqual => Some(BinaryOperator::Equal),
        Mark::NotEqual => Some(BinaryOperator::NotEqual),
        Mark::Less => Some(BinaryOperator::Less),
        Mark::Greater => Some(BinaryOperator::Greater),
        Mark::LessEqual => Some(BinaryOperator::LessEqual),
        Mark::ShiftLeft => Some(BinaryOperator::ShiftLeft),
        Mark::Plus => Some(BinaryOperator::Add),
        Mark::Minus => Some(BinaryOperator::Subtract),
        Mark::Star => Some(BinaryOperator::Multiply),
        Mark::Slash => Some(BinaryOperator::Divide),
        Mark::Percent => Some(BinaryOperator::Remainder),
        _ => None,
    }
}

/// How loosely an operator binds: 0 for `*`, 9 for `||`.
pub fn level_of(operator: BinaryOperator) -> u8
    ensures { result ≡ tables.level_of operator }
{
    match operator {
        BinaryOperator::Or => 9,
        BinaryOperator::And => 8,
        BinaryOperator::BitOr => 7,
        BinaryOperator::BitXor => 6,
        BinaryOperator::BitAnd => 5,
        BinaryOperator::Equal => 4,
        BinaryOperator::NotEqual => 4,
        BinaryOperator::Less => 3,
        BinaryOperator::Greater => 3,
        BinaryOperator::LessEqual => 3,
        BinaryOperator::GreaterEqual => 3,
        BinaryOperator::ShiftLeft => 2,
        BinaryOperator::ShiftRight => 2,
        BinaryOperator::Add => 1,
        BinaryOperator::Subtract => 1,
        BinaryOperator::Multiply => 0,
        BinaryOperator::Divide => 0,
        BinaryOperator::Remainder => 0,
    }
}
