//! Laws of nesting: what the fold over the tree calls too deep, and what the descent answers.
#![tactic(auto)]

mod laws;

pub use laws::{heights_tell_the_nesting, what_is_read_is_nested};
