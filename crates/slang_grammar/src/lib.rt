//! The grammar: which tokens spell which tree. Its relation stands in the definitions; the tables of words and operators
//! are code too.
#![tactic(auto)]

mod laws;
mod tables;

pub use laws::types_are_read;
pub use tables::{binary_of, builtin_of, level_of, resource_of, unary_of};
