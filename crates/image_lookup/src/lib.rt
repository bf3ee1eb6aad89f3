//! What the ids of an image stand for: the instruction that defines an id, found without a search through the image.
#![tactic(auto)]

mod definitions;
mod entry;
mod sorts;
mod words;

pub use definitions::Definitions;
pub use entry::entry_of;
pub use sorts::{Sort, sort_of};
pub use words::word_of;
