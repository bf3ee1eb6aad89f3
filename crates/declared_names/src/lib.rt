//! The declarations of a text in their order, and which names a module and its structs declare.
#![tactic(auto)]

mod declared;
mod listed;
mod listing;
mod naming;
mod open_files;
mod paths;

pub use declared::{Declared, FieldAt, MemberKind, MemberName, Own, OwnKind, StructNames};
pub use listed::{Declaration, Node, Prefix};
pub use listing::declarations;
pub use naming::declared_of;
pub use open_files::is_plain;
pub use paths::path_of;
