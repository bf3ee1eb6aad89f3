// Why bytes are not decoded.

use slang_names::FormCode;
use std::alloc::AllocError;
use thiserror::Error;

/// Why bytes give no core.
#[derive(Debug, Drop, Error)]
pub enum FormFault {
    /// They are no stored module within the limits: the place of the first byte with which none goes on, and why.
    #[error("not a stored module")]
    Refused { place: u64, code: FormCode },
    /// Memory was wanting.
    #[error(transparent)]
    Memory(#[from(alloc)] AllocError),
}
