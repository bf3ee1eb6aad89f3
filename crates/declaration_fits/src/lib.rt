//! Laws of the descent into declarations and files that keep the limits.
#![tactic(auto)]

mod laws;

pub use laws::files_are_answered;
