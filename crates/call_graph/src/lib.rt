//! Graphs of calls: which functions one leads to, whether a call is on a cycle, and an order of functions in which each one
//! stands behind those that call it.
#![tactic(auto)]

mod cycles;
mod edges;
mod ordering;
mod ranks;
mod reach;

pub use cycles::{descending, leads_back};
pub use edges::callees;
pub use ordering::{callers, order};
pub use reach::callees_of;
