//! Laws of the descent into types and expressions: which limit is told, and where.
#![tactic(auto)]

mod laws;

pub use laws::{expressions_tell_the_limit, types_tell_the_limit};
