//! Whole stored modules: a core as bytes, and bytes as a core.
#![tactic(auto)]

mod decoding;
mod encoding;
mod faults;
mod laws;
mod parts;

pub use decoding::decode;
pub use encoding::encode;
pub use faults::FormFault;
pub use form_grammar::{FieldFault, put_num};
pub use form_laws::num_at;
pub use laws::{bytes_again, core_again, no_beginning, one_core, one_spelling};
pub use slang_names::FormCode;
