//! The shaders of the first form: one buffer of words, and one entry whose statements write sums into it.
#![tactic(auto)]

mod shader;
mod words;

pub use shader::{GroupSize, Item, Shader, Statement, Sum};
pub use words::is_free_name;
