//! The types of operands: of operators, of pointers and what they lead to, of composites, and of what decorations decorate.
#![tactic(auto)]

mod composites;
mod marks;
mod memory;
mod operators;

pub use composites::{construct_fits, extract_fits};
pub use marks::{completed, has_offsets, is_strided, mark_fits, member_mark_fits};
pub use memory::{chain_fits, global_fits, is_pointer, load_fits, store_fits};
pub use operators::{
    Numbers, binary_fits, bits_fit, comparison_fits, condition_fits, is_bool, is_int, logical_fits,
    negation_fits, shift_fits, unary_fits,
};
