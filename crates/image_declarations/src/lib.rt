//! What the declarations of an image say: its decorations, which types hold data and how many bytes of a buffer they take,
//! and which types the buffers have.
#![tactic(auto)]

mod declarations;
mod decorations;
mod reach;
mod types;

pub use declarations::Declarations;
pub use decorations::{Decorations, Mark};
pub use reach::{buffer_of, is_buffer_class, operand_of, pointed};
pub use types::length_of;
