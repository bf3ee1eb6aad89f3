//! The actions of a valid image do to words what its instructions do to values.
#![tactic(auto)]

mod laws;

pub use laws::{the_machines_begin_together, the_machines_step_together};
