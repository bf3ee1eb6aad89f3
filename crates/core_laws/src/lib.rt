//! Laws of cores: what a core spells tells the core, and which cores can be spelled.
#![tactic(auto)]

mod laws;

pub use laws::{plain_cores_are_spelled, tree_tells_core};
