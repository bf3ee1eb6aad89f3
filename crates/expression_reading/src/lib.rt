//! The functions that read expressions from the tokens of a text: each runs its parser of the descent.
#![tactic(auto)]

mod ahead;
mod choosing;
mod descent;
mod given;
mod nodes;
mod operators;
mod primaries;
mod starts;
mod values;

pub use descent::{expressions, postfix};
pub use starts::{begins_expression, sees_joined};
