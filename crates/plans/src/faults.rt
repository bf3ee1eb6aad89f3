// Why a node has no answer.

use slang_names::{ModuleCode, Place};
use std::alloc::AllocError;

/// Why nothing is answered: want of memory, or the place and the code of the first wrong node.
#[derive(Drop)]
pub enum Fault {
    Memory(AllocError),
    Wrong(Place, ModuleCode),
}

impl From<AllocError> for Fault {
    ghost use Rattle.std.specs.Prelude.{◌≡◌};
    ghost use Rattle.plans.specs.declared.faults.Fault.TheVariants.{Memory};

    ghost from_gives = { λ a e. e ≡ Memory a };

    fn from(e: AllocError) -> Fault {
        Fault::Memory(e)
    }
}
