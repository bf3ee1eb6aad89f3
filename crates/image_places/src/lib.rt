//! Where things stand in an image: the place of an instruction in words, the Function and the Label under which it stands,
//! and what each of its operands is. The rules of images are stated in these words.
#![tactic(auto)]

mod cursor;
mod laws;
mod roles;

pub use cursor::Cursor;
pub use laws::{places_grow, the_first_wrong_instruction_is_the_first_fault};
pub use roles::{Role, result_of, role_of, text_end};
