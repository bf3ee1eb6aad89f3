//! Laws of where the descent into a whole file stops.
#![tactic(auto)]

mod laws;

pub use laws::{files_are_spelled, files_go_on, limits_go_on};
