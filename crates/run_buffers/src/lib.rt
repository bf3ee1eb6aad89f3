//! The buffers of a run and their text; the invocations of a run and their built-in values.
#![tactic(auto)]

mod access;
mod buffer;
mod buffers;
mod faults;
mod fields;
mod ids;
mod invocations;
mod laws;
mod line_reading;
mod lines;
mod numbers;
mod reading;
mod steps;
mod writing;

pub use buffer::Buffer;
pub use buffers::Buffers;
pub use faults::RunFault;
pub use ids::Ids;
pub use invocations::{ids_of, invocation_count};
pub use laws::{each_invocation_once, one_reading, one_refusal, write_changes_one_word};
