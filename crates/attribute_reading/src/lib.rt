//! The functions that read attributes and declared names from the tokens of a text: each runs its parser of the descent.
#![tactic(auto)]

mod binding;
mod given;
mod known;
mod literals;
mod names;
mod suits;
mod wants;

pub use given::attributes;
pub use names::{declared_name, lengths};
pub use suits::misfit;
