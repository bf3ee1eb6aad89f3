//! Where bytes are refused as a stored module, and by which code.
#![tactic(auto)]

mod laws;

pub use laws::{
    all_are_answered, limit_is_refused, long_module_is_refused, long_reading_is_refused,
    no_module_is_refused, one_refusal, refusal_stands, trailing_is_refused,
};
