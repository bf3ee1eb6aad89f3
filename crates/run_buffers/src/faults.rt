// Why a run did not come to its end.

use slang_names::RunCause;
use std::alloc::AllocError;

/// Why a run did not come to its end: it was refused, an invocation did what is undefined at this step of its own, which
/// are counted from 1, an invocation had not ended after its steps, or want of memory.
#[derive(Drop)]
pub enum RunFault {
    Refused(RunCause),
    Undefined { invocation: u32, step: u64 },
    Budget { invocation: u32 },
    Memory(AllocError),
}
