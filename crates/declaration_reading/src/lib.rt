//! The functions that read declarations and whole files from the tokens of a text: each runs its parser of the descent.
#![tactic(auto)]

mod descent;
mod extended;
mod extensions;
mod interfaces;
mod items;
mod lines;
mod requirements;

pub use descent::files;
