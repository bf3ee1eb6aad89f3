//! What is judged of types and expressions, and in which order, and which declarations they need.
#![tactic(auto)]

mod laws;

pub use laws::needs_are_told_by_the_plans;
