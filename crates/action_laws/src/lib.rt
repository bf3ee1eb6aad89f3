//! What each action does to words of which it is known what stands among them.
#![tactic(auto)]

mod laws;

pub use laws::{
    actions_do_what_stands, buffer_chains_lead_to_bytes, calls_do_what_stands,
    chains_lead_to_pieces,
};
