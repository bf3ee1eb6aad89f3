// The operators as data, and what they make of words.

ghost use Rattle.std.specs.Prelude.{◌≡◌};
ghost use Rattle.flat_values.specs.Operators.{unary_of, binary_of, word_of};

use crate::words::{
    add, and, complement, mul, negate, or, sar, sdiv, shl, shr, sle, slt, srem, sub, udiv, umod,
    xor,
};

/// An operator of one operand.
#[derive(Clone, Copy, Drop)]
pub enum Unary {
    Negate,
    Not,
    /// A bool turned over.
    Flip,
}

/// An operator of two operands. A comparison gives the word 0 or 1; those of bools are `Equal` and `NotEqual`.
#[derive(Clone, Copy, Drop)]
pub enum Binary {
    Add,
    Sub,
    Mul,
    UDiv,
    SDiv,
    UMod,
    SRem,
    ShiftLeft,
    ShiftRight,
    ShiftRightSigned,
    And,
    Or,
    Xor,
    Equal,
    NotEqual,
    ULess,
    ULessEqual,
    SLess,
    SLessEqual,
}

/// 1 for true and 0 for false.
#[inline]
pub fn flag(b: bool) -> u32
    ensures { result ≡ word_of b }
{
    if b { 1 } else { 0 }
}

/// What the operator makes of a word.
#[inline]
pub fn operate_one(op: Unary, a: u32) -> u32
    ensures { result ≡ unary_of op a }
{
    match op {
        Unary::Negate => negate(a),
        Unary::Not => complement(a),
        Unary::Flip => flag(a == 0),
    }
}

/// What the operator makes of two words; nothing where that is undefined.
#[inline]
pub fn operate_two(op: Binary, a: u32, b: u32) -> Option<u32>
    ensures { result ≡ binary_of op a b }
{
    match op {
        Binary::Add => Some(add(a, b)),
        Binary::Sub => Some(sub(a, b)),
        Binary::Mul => Some(mul(a, b)),
        Binary::UDiv => udiv(a, b),
        Binary::SDiv => sdiv(a, b),
        Binary::UMod => umod(a, b),
        Binary::SRem => srem(a, b),
        Binary::ShiftLeft => shl(a, b),
        Binary::ShiftRight => shr(a, b),
        Binary::ShiftRightSigned => sar(a, b),
        Binary::And => Some(and(a, b)),
        Binary::Or => Some(or(a, b)),
        Binary::Xor => Some(xor(a, b)),
        Binary::Equal => Some(flag(a == b)),
        Binary::NotEqual => Some(flag(a != b)),
        Binary::ULess => Some(flag(a < b)),
        Binary::ULessEqual => Some(flag(a <= b)),
        Binary::SLess => Some(flag(slt(a, b))),
        Binary::SLessEqual => Some(flag(sle(a, b))),
    }
}
