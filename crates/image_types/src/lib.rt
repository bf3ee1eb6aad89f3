//! The rules on the types of an image: which instructions have operands or results of other types than they may have.
#![tactic(auto)]

mod checking;
mod faults;
mod functions;
mod parts;
mod rules;

pub use faults::first_type_fault;
pub use functions::Context;
pub use rules::Rule;
