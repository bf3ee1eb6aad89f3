// Why a line is not carried out.

use std::alloc::AllocError;
use thiserror::Error;

/// Why a line of a script is not carried out.
#[derive(Debug, Drop, Error)]
pub enum ScriptFault {
    /// A word of the line is none of those that may stand there.
    #[error("a word that may not stand there")]
    Word,
    /// Memory was wanting.
    #[error(transparent)]
    Memory(#[from(alloc)] AllocError),
}
