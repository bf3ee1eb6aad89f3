//! Places, names, numbers, codes of refusals and limits, which every layer of the compiler shares.
#![tactic(auto)]

mod codes;
mod faults;
mod form_codes;
mod letters;
pub mod limits;
mod names;
mod numbers;
mod places;

pub use codes::ModuleCode;
pub use faults::{Counted, LinkCause, LinkFault, ModuleFault, RunCause};
pub use form_codes::FormCode;
pub use letters::{is_name, is_word_byte};
pub use names::{Name, Ref};
pub use numbers::{Number, NumberKind};
pub use places::{Access, Mode, Place, Value};
