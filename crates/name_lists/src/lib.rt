//! Names in order, each found by its bytes.
#![tactic(auto)]

mod lists;

pub use lists::NameList;
