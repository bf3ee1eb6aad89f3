//! What the program answers: its outcomes, the exit status of each, and the line that it prints.
#![tactic(auto)]

mod lines;
mod outcome;

pub use lines::{line, number, refusal_line};
pub use outcome::Outcome;
