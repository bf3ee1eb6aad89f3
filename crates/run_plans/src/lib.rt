//! From a valid image to the actions of its instructions, and to the words with which a run begins.
#![tactic(auto)]

mod actions;
mod base;
mod buffers;
mod calls;
mod chains;
mod composites;
mod ends;
mod kinds;
mod members;
mod parts;
mod plan;
mod steps;
mod words;

pub use base::Bound;
pub use call_layout::Fault;
pub use kinds::{Kind, kind_of};
pub use plan::{Plan, plan_of};
