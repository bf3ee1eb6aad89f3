//! The functions that read parts of declarations from the tokens of a text: each runs its parser of the descent.
#![tactic(auto)]

mod conforming;
mod function_parameters;
mod marks;
mod type_parameters;

pub use conforming::{constraints, heads};
pub use function_parameters::parameters;
pub use marks::{access, closed, expect_word};
pub use type_parameters::generics;
