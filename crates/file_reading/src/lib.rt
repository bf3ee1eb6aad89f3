//! The file that a text spells: the length of the text is looked at first, then its tokens, then the descent.
#![tactic(auto)]

mod whole;

pub use whole::read_file;
