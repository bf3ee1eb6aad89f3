//! The shaders of the first form, from the trees of their files.
#![tactic(auto)]

mod attributes;
mod heads;
mod kinds;
mod laws;
mod shader;
mod statements;
mod sums;
mod words;

pub use laws::forms_are_shaders;
pub use shader::shader_of;
