//! Whether a form that is not built yet stands in a text.
#![tactic(auto)]

mod declarations;
mod expressions;
mod statements;
mod types;

pub use declarations::has_early_form;
