//! The trees of whole texts: which text has one, and where and why any other is refused.
#![tactic(auto)]

mod laws;
mod parsing;

pub use laws::{
    a_text_is_parsed_or_refused, the_first_break_is_told, tokens_spell_one_file,
    wrong_tokens_are_the_first,
};
pub use parsing::parse;
