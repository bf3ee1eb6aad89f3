//! What a word of a command can be: a name, a file of the folder, a number.
#![tactic(auto)]

mod laws;
mod names;
mod numbers;

pub use laws::numbers_are_decimal;
pub use names::{is_file_name, is_short_name};
pub use numbers::number_within;
