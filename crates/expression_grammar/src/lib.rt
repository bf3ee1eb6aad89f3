//! Laws of the descent into expressions against the grammar.
#![tactic(auto)]

mod laws;

pub use laws::expressions_are_read;
