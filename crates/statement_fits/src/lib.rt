//! Laws of the descent into statements that keep the limits.
#![tactic(auto)]

mod laws;

pub use laws::statements_are_answered;
