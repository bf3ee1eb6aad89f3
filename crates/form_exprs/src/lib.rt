//! Expressions, places and calls in stored modules.
#![tactic(auto)]

mod exprs;
mod leaves;
mod marks;
mod writing;

pub use exprs::{call_of, expr_at, expr_of, place_at, place_of};
pub use marks::{
    binary_byte, binary_of, bool_byte, bool_of, bytes_of, put_bytes, unary_byte, unary_of,
};
pub use writing::{put_call, put_expr, put_place};
