//! Laws of the sizes of shaders of the first form.
#![tactic(auto)]

mod laws;

pub use laws::forms_are_short;
