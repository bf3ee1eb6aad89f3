//! A place for each value of a run among its words.
#![tactic(auto)]

mod calls;
mod laws;
mod offsets;
mod parts;
mod places;
mod tables;
mod widths;
mod words;

pub use call_layout::Fault;
pub use places::Places;
