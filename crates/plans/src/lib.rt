//! What is judged of a node of a text, and in which order, as a value: the node's parts in their order, and its line.
#![tactic(auto)]

mod faults;

pub use faults::Fault;
