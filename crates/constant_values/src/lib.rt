//! The value of an expression that is made of literals.
#![tactic(auto)]

mod evaluation;
mod joins;
mod laws;
mod operators;
mod parts;

pub use evaluation::value_of;
pub use laws::{operators_keep_the_sign, unsigned_numbers_are_naturals};
