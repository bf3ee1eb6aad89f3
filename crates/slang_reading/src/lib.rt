//! Parsers as functions on lists of tokens, what each of them does by its parts, and the cursor of the code.
#![tactic(auto)]

mod cursor;
mod faults;
mod kinds;

pub use cursor::Tokens;
pub use faults::Fault;
pub use kinds::{is_mark, is_word, span};
