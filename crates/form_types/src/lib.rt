//! Names, types and evidence in stored modules.
#![tactic(auto)]

mod evidence;
mod evidence_writing;
mod leaves;
mod types;
mod writing;

pub use evidence::{evidence_of, evidences_of};
pub use evidence_writing::{put_evidence, put_evidences};
pub use leaves::{byte_of, name_of, ref_of, scalar_of, value_of};
pub use types::{arg_of, args_of, term_of};
pub use writing::{put_arg, put_args, put_name, put_ref, put_term, put_value, scalar_byte};
