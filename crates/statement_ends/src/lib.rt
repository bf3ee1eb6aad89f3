//! Laws of where the descent into statements stops.
#![tactic(auto)]

mod laws;

pub use laws::{blocks_go_on, statements_are_spelled, statements_go_on};
