//! What the checking of a text asks of types and expressions of a core.
#![tactic(auto)]

mod copies;
mod elements;
mod forms;
mod kinds;
mod laws;
mod numbers;
mod sameness;
mod sizes;
mod typings;

pub use copies::{copy_arg, copy_ref, copy_term};
pub use elements::{elements_of, length_in};
pub use forms::{
    call_of, component_form, element_form, field_form, fixed_typing, number_expr, place, read_of,
    truth_expr, typed, value, with_sign, with_size,
};
pub use kinds::{is_bool, is_read_only, is_resource, is_void, struct_of};
pub use laws::{numbers_have_their_types, sameness_is_equality};
pub use numbers::{is_uint, is_whole, number_type, numeric_of, scalar_of, type_of_numeric};
pub use sameness::{same, same_arg, same_ref, same_scalar, same_value};
pub use sizes::has_fewer_nodes;
pub use typings::{Barred, Fixed, Form, Numeric, Typing, Worth};
