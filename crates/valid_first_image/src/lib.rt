//! The image of a shader of the first form is valid, and tells its entry.
#![tactic(auto)]

mod laws;

pub use laws::{the_entry_is_told, the_image_is_valid};
