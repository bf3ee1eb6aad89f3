//! Where the words of functions begin, each behind those of all that call it.
#![tactic(auto)]

mod faults;
mod layout;

pub use faults::Fault;
pub use layout::begins;
