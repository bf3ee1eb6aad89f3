//! Whether an image keeps all rules of this profile, and what it says of its entry.
#![tactic(auto)]

mod check;
mod entry;
mod faults;
mod laws;
mod valid;

pub use check::check_image;
pub use laws::{
    a_valid_image_begins_with_its_entry, an_image_has_one_first_fault, entry_name_is_read,
};
pub use valid::ValidImage;
