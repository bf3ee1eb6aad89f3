//! Which instructions of a valid image are run, one after another, and which values may be named at them.
#![tactic(auto)]

mod laws;

pub use laws::{
    what_is_run_fits, what_is_run_next, what_is_used_is_seen, where_functions_begin_and_end,
};
