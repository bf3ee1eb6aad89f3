// Instructions and images.

ghost use Rattle.std.specs.Prelude.{◌≡◌, ◌+◌, ◌<◌, length};
ghost use Rattle.spirv_words.specs.Words.{instruction_words};

use crate::Op;
use sqlite_items::Items;

/// One instruction: its opcode, and the words after its first. The operands are as the SPIR-V specification lists them
/// for the opcode: the type of the result and the result where it has them, then ids and literal words.
#[derive(Drop)]
pub struct Instruction {
    pub op: Op,
    pub operands: Items<u32>,
}

/// An image (a SPIR-V module): its instructions in order, whose ids are all below `bound`.
#[derive(Drop)]
pub struct Image {
    pub bound: u32,
    pub instructions: Items<Instruction>,
}

impl Instruction {
    ghost use Rattle.spirv_words.specs.declared.images.Instruction.{Instruction};

    /// How many words spell the instruction, its first word included.
    pub fn length(&self) -> usize
        ensures { result ≡ length (instruction_words self.now) }
    {
        self.operands.as_slice().len() + 1
    }
}
