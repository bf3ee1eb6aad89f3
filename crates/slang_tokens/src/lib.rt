//! The tokens of a text: its cutting into the longest lexemes, and the first of them that is refused.
#![tactic(auto)]

mod bounds;
mod bytes;
mod cutting;
mod laws;
mod lexemes;
mod numbers;
mod tables;
mod tokens;
mod words;

pub use cutting::lex;
pub use laws::{cut_or_refused, one_cutting};
pub use lexemes::Lexeme;
pub use tokens::{Kind, Mark, Token, Word};
