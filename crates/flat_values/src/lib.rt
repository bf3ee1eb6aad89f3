//! Values as words in a row, and operations on words and on ranges of them.
#![tactic(auto)]

mod laws;
mod operators;
mod ranges;
mod words;

pub use laws::{
    operators_go_word_by_word, parts_stand_at_their_pieces, values_are_their_words,
    what_is_written_stands, zeros_are_zeros,
};
pub use operators::{Binary, Unary, flag, operate_one, operate_two};
pub use ranges::{clear_words, copy_words, operate_one_each, operate_two_each};
pub use words::{
    add, and, complement, mul, negate, or, sar, sdiv, shl, shr, sle, slt, srem, sub, udiv, umod,
    xor,
};
