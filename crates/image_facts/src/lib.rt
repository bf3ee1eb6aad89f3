//! What a valid image says of its types and of what its ids stand for.
#![tactic(auto)]

mod laws;

pub use laws::{
    buffers_are_spaced, declarations_stand, members_are_fields, types_have_shapes,
    values_have_the_parts_of_their_shapes, values_stand_for_operands, variables_hold_data,
};
