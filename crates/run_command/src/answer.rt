// What a run comes to.

use slang_names::{Name, RunCause};
use spirv_words::ImageCode;

/// What a run comes to, unless a read fails or memory is wanting.
#[derive(Drop)]
pub enum RunAnswer {
    /// A file is not there.
    Absent {
        name: Name,
    },
    /// The image is refused, at a word, or for 410 at the limit of bytes.
    ImageRefused {
        place: u64,
        code: ImageCode,
    },
    /// The image is not run over these buffers.
    InputRefused(RunCause),
    /// The first invocation that did something undefined, at a step of its own, counted from 1.
    Undefined {
        invocation: u32,
        step: u64,
    },
    /// The first invocation that had not ended after its steps.
    Budget {
        invocation: u32,
    },
    /// All ended: the text of the buffers afterwards, how many invocations there were, and how many steps in all.
    Ran {
        text: Vec<u8>,
        invocations: u32,
        steps: u64,
    },
}
