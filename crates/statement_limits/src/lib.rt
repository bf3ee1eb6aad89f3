//! Laws of the descent into statements: which limit or rule on attributes is told, and where.
#![tactic(auto)]

mod laws;

pub use laws::{blocks_tell_the_limit, statements_tell_the_limit};
