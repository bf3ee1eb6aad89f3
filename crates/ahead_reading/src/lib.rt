//! What is read ahead: generic arguments behind a name, each scanned once for a text.
#![tactic(auto)]

mod ahead;
mod brackets;
mod scanning;
mod scans;

pub use ahead::{arguments_follow, scan_known};
pub use scans::{Known, Scans};
