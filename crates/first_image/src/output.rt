// What is emitted.

ghost use Rattle.std.specs.Prelude.{◌≡◌, ◌+◌, ◌^◌, ◌<◌, [], ◌∷◌, ◌++◌, IfOk, OnOk};
ghost use Rattle.first_image.specs.Templates.{ins};

use spirv_words::{Instruction, Op};
use sqlite_items::Items;
use std::alloc::{AllocError, Global};

/// The instructions so far, and the next id.
#[derive(Drop)]
pub struct Output {
    pub instructions: Items<Instruction>,
    pub next: u32,
}

/// One more instruction.
pub fn push(
    alloc: Global,
    instructions: &mut Items<Instruction>,
    op: Op,
    operands: &[u32],
) -> Result<(), AllocError>
    ensures { OnOk result (instructions.new ≡ instructions.old ++ ins op operands.now ∷ []) }
{
    let operands = Items::from_slice(alloc, operands)?;
    instructions.push(Instruction { op, operands })
}

/// The next id, which no instruction has yet.
pub fn fresh(out: &mut Output) -> u32
    requires { out.old.next + 1 < 2 ^ 32 }
    ensures id { result ≡ out.old.next }
    ensures out { out.new ≡ record out.old { next = out.old.next + 1 } }
{
    let id = out.next;
    out.next += 1;
    id
}
