//! The lines of the rules: of each node of a text its rules in their order, each with its code, and what the node comes to.
#![tactic(auto)]

mod answers;
mod asked;

pub use answers::{Callee, Denoted, LocalGiven, OperatorKind, Reach, Standing, Use};
pub use asked::{
    attribute_named, bars_void, builtin_type, has_attribute, has_entry_word, inner_use, is_called,
    is_field, is_global, is_uint_number, is_value, operator_kind,
};
