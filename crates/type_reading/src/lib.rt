//! The functions that read types from the tokens of a text: each runs its parser of the descent. And the scan of generic
//! arguments ahead, without trees and recursion.
#![tactic(auto)]

mod descent;
mod entry;
mod laws;
mod leaves;
mod limits;
mod nodes;
mod scanning;
mod starts;
mod steps;
mod suffixes;

pub use descent::{arguments, types};
pub use entry::read_type;
pub use laws::arguments_are_scanned;
pub use leaves::{bracketed, expect, name};
pub use limits::{LANGUAGE, Limits};
pub use scanning::scan_arguments;
pub use starts::begins_type;
pub use steps::{Awaited, Open, Step, step_of};
