//! Laws of the descent into declarations and files against the grammar.
#![tactic(auto)]

mod laws;

pub use laws::files_are_read;
