//! SPIR-V images as instructions, the words that spell them, and what the words do: one step of an instruction, and
//! the run of an image for one invocation. The definitions are those of SPIR-V 1.5, cut to the opcodes of this profile.
#![tactic(auto)]

mod bytes;
mod faults;
mod images;
mod laws;
mod layouts;
mod opcodes;
mod reading;
mod strings;
mod writing;

pub use bytes::{from_bytes, to_bytes};
pub use faults::{ImageCode, ImageFault};
pub use images::{Image, Instruction};
pub use laws::{the_wrong_word_is_the_first, words_have_one_reading};
pub use opcodes::Op;
pub use reading::read;
pub use strings::{string_is_read, string_is_short, string_words};
pub use writing::write;
