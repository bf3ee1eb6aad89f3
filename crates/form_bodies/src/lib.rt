//! Statements and bodies in stored modules.
#![tactic(auto)]

mod bodies;
mod stats;
mod writing;

pub use bodies::{bodies_of, body_of, put_bodies, put_body};
pub use stats::{stat_at, stat_of, stats_of};
pub use writing::{put_stat, put_stats};
