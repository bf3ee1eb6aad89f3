// What the program answers.

ghost use Rattle.std.specs.Prelude.{◌≡◌};

use slang_names::{FormCode, LinkCause, ModuleCode, Name, Place, RunCause};
use spirv_words::ImageCode;

/// What a call of the program came to: one variant for each exit status. Beside `ReadFault`, `WriteFault` and `Memory`
/// an outcome tells of the words and of what the files hold alone.
#[derive(Drop)]
pub enum Outcome {
    /// 0: the command was carried out.
    Done,
    /// 1: a text was refused, at a place in bytes.
    ModuleRefused {
        module: Name,
        place: Place,
        code: ModuleCode,
    },
    /// 2: the modules do not link to the entry.
    LinkRefused(LinkCause),
    /// 3: the words are no command.
    Words,
    /// 4: a file could not be read.
    ReadFault,
    /// 5: a file or the output could not be written.
    WriteFault,
    /// 6: memory was wanting.
    Memory,
    /// 7: an invocation did something undefined, at a step counted from 1.
    Undefined {
        invocation: u32,
        step: u64,
    },
    /// 8: an invocation did not end within its steps.
    Budget {
        invocation: u32,
    },
    /// 9: a file is not there.
    Absent {
        name: Name,
    },
    /// 10: a stored module was refused, at a byte, or for 306 at a node of its core.
    FormRefused {
        name: Name,
        place: u64,
        code: FormCode,
    },
    /// 11: an image was refused, at a word.
    ImageRefused {
        place: u64,
        code: ImageCode,
    },
    /// 12: the image is not run over these buffers.
    InputRefused(RunCause),
}

impl Outcome {
    ghost use Rattle.slang_outcomes.specs.Statuses.{status_of};

    /// The exit status of the program.
    pub fn status(&self) -> u8
        ensures { result ≡ status_of self.now }
    {
        match self {
            Outcome::Done => 0,
            Outcome::ModuleRefused { .. } => 1,
            Outcome::LinkRefused(_) => 2,
            Outcome::Words => 3,
            Outcome::ReadFault => 4,
            Outcome::WriteFault => 5,
            Outcome::Memory => 6,
            Outcome::Undefined { .. } => 7,
            Outcome::Budget { .. } => 8,
            Outcome::Absent { .. } => 9,
            Outcome::FormRefused { .. } => 10,
            Outcome::ImageRefused { .. } => 11,
            Outcome::InputRefused(_) => 12,
        }
    }
}
