// Why bytes are no stored module.

ghost use Rattle.std.specs.Prelude.{◌≡◌, length};

use slang_names::FormCode;
use std::alloc::{AllocError, Global};

/// Where reading stopped, and why: so many bytes were left from the refused one on.
#[derive(Clone, Copy)]
pub struct Stop {
    pub code: FormCode,
    pub left: usize,
}

/// Why one number is not read.
#[derive(Clone, Copy)]
pub enum FieldFault {
    /// The bytes end before the number does.
    Short,
    /// The place of the first byte with which no number goes on.
    Wrong(usize),
}

/// Why a part of a form is not read.
#[derive(Drop)]
pub enum ReadFault {
    Memory(AllocError),
    Refused(Stop),
}

impl From<AllocError> for ReadFault {
    ghost use Rattle.std.specs.Prelude.{◌≡◌};
    ghost use Rattle.form_grammar.specs.declared.codes.ReadFault.TheVariants.{Memory};

    ghost from_gives = { λ a e. e ≡ Memory a };

    fn from(e: AllocError) -> ReadFault {
        ReadFault::Memory(e)
    }
}

impl From<Stop> for ReadFault {
    ghost use Rattle.std.specs.Prelude.{◌≡◌};
    ghost use Rattle.form_grammar.specs.declared.codes.ReadFault.TheVariants.{Refused};

    ghost from_gives = { λ s e. e ≡ Refused s };

    fn from(s: Stop) -> ReadFault {
        ReadFault::Refused(s)
    }
}

/// Where a form is read: with this allocator, and with so many more productions nested in one another at most.
#[derive(Clone, Copy)]
pub struct Level {
    pub alloc: Global,
    pub depth: usize,
}

/// The bytes end too early.
pub fn short() -> ReadFault
    ensures { result ≡ ReadFault.Refused (record { code = FormCode.Short; left = 0 }) }
{
    ReadFault::Refused(Stop {
        code: FormCode::Short,
        left: 0,
    })
}

/// The first of these bytes is refused.
pub fn refused(code: FormCode, bytes: &[u8]) -> ReadFault
    ensures { result ≡ ReadFault.Refused (record { code = code; left = length bytes.now }) }
{
    ReadFault::Refused(Stop {
        code,
        left: bytes.len(),
    })
}
