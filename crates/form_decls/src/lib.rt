//! Declarations and interfaces in stored modules.
#![tactic(auto)]

mod decls;
mod items;
mod marks;
mod parts;

pub use items::{Stored, list_at, put_list};
