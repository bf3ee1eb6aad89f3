// The entry of an image.

ghost use Rattle.std.specs.Prelude.{◌≡◌};
ghost use Rattle.spirv_words.specs.Runs.{entry_of, entry_at};

use spirv_words::{Instruction, Op};

/// The function that the first EntryPoint names.
pub fn entry_of(code: &[Instruction]) -> Option<u32>
    ensures { result ≡ entry_of code.now }
{
    for instruction in code {
        match named_by(instruction) {
            Some(function) => return Some(function),
            None => {}
        }
    }
    None
}

fn named_by(instruction: &Instruction) -> Option<u32>
    ensures { result ≡ entry_at instruction.now.op instruction.now.operands None }
{
    match (instruction.op, instruction.operands.as_slice()) {
        (Op::EntryPoint, [_, function, ..]) => Some(*function),
        _ => None,
    }
}
