//! The runs of valid images: one step, and the invocations of a dispatch one after another.
#![tactic(auto)]

mod access;
mod advance;
mod beginning;
mod binding;
mod dispatching;
mod finish;
mod laws;
mod ran;
mod runner;
mod turns;

pub use dispatching::dispatch;
pub use laws::{dispatch_answers, one_dispatch};
pub use ran::Ran;
pub use run_buffers::{Buffers, Ids, RunFault};
pub use runner::Runner;
pub use turns::Turn;
