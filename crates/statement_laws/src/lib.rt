//! Laws of the descent into statements against the grammar.
#![tactic(auto)]

mod laws;

pub use laws::{blocks_are_read, statements_are_read};
