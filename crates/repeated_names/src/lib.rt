//! Names that are declared for the second time in their group.
#![tactic(auto)]

mod groups;
mod names;
mod repeats;
mod statements;

pub use groups::Group;
pub use names::{Named, all_names};
pub use repeats::{twice, twice_line};
