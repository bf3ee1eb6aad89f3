// Why a function of the descent answers nothing.

use slang_names::{ModuleCode, Place};
use std::alloc::AllocError;

/// Why nothing is read.
#[derive(Drop)]
pub enum Fault {
    Memory(AllocError),
    /// No file goes on with the last token that was looked at.
    Stopped,
    /// A limit is passed, or a rule beside the grammar is broken.
    Past(ModuleCode, Place),
}

impl From<AllocError> for Fault {
    ghost use Rattle.std.specs.Prelude.{◌≡◌};
    ghost use Rattle.slang_reading.specs.declared.faults.Fault.TheVariants.{Memory};

    ghost from_gives = { λ a e. e ≡ Memory a };

    fn from(e: AllocError) -> Fault {
        Fault::Memory(e)
    }
}
