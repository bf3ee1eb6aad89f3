//! The rules on the calls of an image: their arguments, and that no call leads back to the function that makes it.
#![tactic(auto)]

mod arguments;
mod checking;
mod edges;
mod laws;

pub use checking::first_call_fault;
pub use edges::calls;
pub use laws::calls_lead_nowhere_back;
