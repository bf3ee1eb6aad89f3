//! What is known of a module's declarations, and what a name means where it stands.
#![tactic(auto)]

mod frames;
mod heads;
mod known;
mod laws;
mod members;
mod names;
mod structs;

pub use frames::{Frame, InForce, Local, Within};
pub use heads::{Head, Outline, Signature, Spelling};
pub use known::{
    alias_at, constant_at, field_type, fields_in, function_at, global_at, head_at, spelling_at,
};
pub use laws::an_inner_local_is_found_first;
pub use members::{member_named, own_named};
pub use names::{Found, look_up, outside};
pub use structs::{fields_at, number_of_struct, struct_number, struct_ref, struct_type};
