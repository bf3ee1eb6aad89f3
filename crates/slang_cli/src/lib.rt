//! The commands of `slangc`: which words are one, what each answers, and the one call that does all that the program does.
#![tactic(auto)]

mod answer;
mod calls;
mod command;
mod compile;
mod laws;
mod runs;
mod top;

pub use laws::at_most_one_answer;
pub use slang_outcomes::Outcome;
pub use top::slangc;
