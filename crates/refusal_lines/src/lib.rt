//! What the lines of `slangc` say to a person: the sentence of each, and the place in the text with the line marked.
#![tactic(auto)]

mod explanation;
mod kinds;
mod places;
mod positions;
mod rows;
mod sentences;

pub use explanation::explain_line;
pub use kinds::{module_of, status};
pub use positions::{Position, line_end, line_start, locate};
pub use rows::picture;
