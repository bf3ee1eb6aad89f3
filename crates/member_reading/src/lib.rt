//! The functions that read structs with their members, functions and aliases from the tokens of a text: each runs its parser
//! of the descent.
#![tactic(auto)]

mod begins;
mod fields;
mod functions;
mod inner;
mod members;
mod structs;

pub use begins::begins_parameters;
pub use functions::{function_rest, static_rest, type_alias, type_def, type_name};
pub use inner::inner_members;
pub use members::struct_rest;
