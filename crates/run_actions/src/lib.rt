//! The actions that the instructions of an image are resolved to, and one step of a machine whose memory is one row of words.
#![tactic(auto)]

mod actions;
mod chains;
mod ranges;
mod steps;
mod turns;

pub use actions::{Action, Extent, Index, Move};
pub use chains::step_all;
pub use ranges::{clear, copy, gather, is_inside, is_read_first, one, put, put_both};
pub use steps::step;
pub use turns::{Followed, Turn};
