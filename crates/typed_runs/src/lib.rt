//! Runs of valid images keep the types of all that they hold, and are never stuck.
#![tactic(auto)]

mod laws;

pub use laws::{a_valid_image_is_never_stuck, states_stay_typed};
