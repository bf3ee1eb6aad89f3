//! Laws of the stored form: one spelling for each module, none of which begins another.
#![tactic(auto)]

mod laws;
mod numbers;

pub use laws::{first_refusal, limit_refusal, one_form, read_is_spelled, spelled_is_read};
pub use numbers::num_at;
