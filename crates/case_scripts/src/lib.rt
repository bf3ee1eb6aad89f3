//! The lines of scripts of cases, and the bytes and texts that they say. A line is a command and, behind a blank, what it is
//! about.
#![tactic(auto)]

mod fault;
mod lines;
mod pieces;

pub use fault::ScriptFault;
pub use lines::{command, is_remark};
pub use pieces::{append_bytes, append_text, append_words};
