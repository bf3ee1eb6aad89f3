//! The command `run`: which words ask for a run, and what it comes to over the files.
#![tactic(auto)]

mod answer;
mod command;
mod images;
mod laws;
mod reads;
mod request;
mod running;

pub use answer::RunAnswer;
pub use command::run;
pub use laws::at_most_one_run;
pub use request::{Run, parse_run};
