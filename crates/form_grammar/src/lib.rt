//! The grammar of stored modules as data, what a tree of it spells, and its numbers and texts.
#![tactic(auto)]

mod codes;
mod numbers;

pub use codes::{FieldFault, Level, ReadFault, Stop, refused, short};
pub use numbers::{count_at, number_at, put_count, put_num, put_text, text_at};
