//! Laws of limits: what the descent answers keeps them.
#![tactic(auto)]

mod laws;

pub use laws::what_is_read_fits;
