//! The kernel, a small language for bodies in which all is resolved, and what its programs mean.
#![tactic(auto)]

mod laws;

pub use laws::{more_extends_a_run, names_do_not_matter};
