// Images as words, and words as bytes.

ghost use Rattle.std.specs.Prelude.{◌≡◌, ◌+◌, ◌++◌, length, IfOk, OnOk};
ghost use Rattle.spirv_words.specs.Words.{body_words, instruction_words, image_words, AreInstructions, IsInstruction, CanBeSpelled};

use crate::{Image, Instruction};
use std::alloc::{AllocError, Global};

/// The words that spell an image that can be spelled (SPIR-V 1.5, section 2.3): the header with the magic number,
/// version 1.5, generator 0, the bound and schema 0, and then each instruction.
pub fn write(alloc: Global, image: &Image) -> Result<Vec<u32>, AllocError>
    requires { CanBeSpelled image.now }
    ensures { IfOk result (λ words. words.items ≡ image_words image.now) }
{
    let mut words = vec![in alloc; 0x0723_0203, 0x0001_0500, 0, image.bound, 0]?;
    write_body(&mut words, image.instructions.as_slice())?;
    Ok(words)
}

fn write_body(words: &mut Vec<u32>, body: &[Instruction]) -> Result<(), AllocError>
    requires { AreInstructions body.now }
    ensures { OnOk result (words.new.items ≡ words.old.items ++ body_words body.now) }
{
    for instruction in body {
        write_instruction(words, instruction)?;
    }
    Ok(())
}

fn write_instruction(words: &mut Vec<u32>, instruction: &Instruction) -> Result<(), AllocError>
    requires { IsInstruction instruction.now }
    ensures { OnOk result (words.new.items ≡ words.old.items ++ instruction_words instruction.now) }
{
    let operands = instruction.operands.as_slice();
    words.push((operands.len() as u32 + 1) * 65536 + instruction.op.number())?;
    words.extend_from_slice(operands)?;
    Ok(())
}
