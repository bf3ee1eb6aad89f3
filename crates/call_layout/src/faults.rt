// Why functions have no places.

use std::alloc::{AllocError, AllocFailed};

/// Why there are no places: want of memory, or 32 bits do not tell all words.
#[derive(Drop)]
pub enum Fault {
    Memory(AllocError),
    TooLarge,
}

impl From<AllocError> for Fault {
    ghost use Rattle.std.specs.Prelude.{◌≡◌};
    ghost use Rattle.call_layout.specs.declared.faults.Fault.TheVariants.{Memory};

    ghost from_gives = { λ a e. e ≡ Memory a };

    fn from(e: AllocError) -> Fault {
        Fault::Memory(e)
    }
}

impl<T: Drop> From<AllocFailed<T>> for Fault {
    ghost use Rattle.std.specs.Prelude.{◌≡◌};
    ghost use Rattle.std.specs.Allocator.{alloc_error};
    ghost use Rattle.call_layout.specs.declared.faults.Fault.TheVariants.{Memory};

    ghost from_gives = { λ a e. e ≡ Memory alloc_error };

    fn from(_e: AllocFailed<T>) -> Fault {
        Fault::Memory(AllocError)
    }
}
