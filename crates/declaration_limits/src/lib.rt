//! Laws of the descent into declarations and files: which limit or rule on attributes is told, and where.
#![tactic(auto)]

mod laws;

pub use laws::{files_tell_the_limit, what_fits_breaks_nothing};
