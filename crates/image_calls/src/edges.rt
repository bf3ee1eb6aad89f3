// Which function calls which.

ghost use Rattle.std.specs.Prelude.{◌≡◌, None, IfOk, slice_index};
ghost use Rattle.image_calls.specs.Edges.{open_after, edge_of, calls};

use spirv_words::{Instruction, Op};
use std::alloc::{AllocError, Global};

pub fn operand_of(instruction: &Instruction, number: usize) -> u32
    ensures { result ≡ slice_index instruction.now.operands number }
{
    instruction
        .operands
        .as_slice()
        .get(number)
        .copied()
        .unwrap_or(0)
}

/// The function that is open behind an instruction.
pub fn open_after(instruction: &Instruction, inside: Option<u32>) -> Option<u32>
    ensures { result ≡ open_after instruction.now inside }
{
    match instruction.op {
        Op::Function => Some(operand_of(instruction, 1)),
        Op::FunctionEnd => None,
        _ => inside,
    }
}

/// The function that calls and the one that it calls, if an instruction is a call in a function.
pub fn edge_of(instruction: &Instruction, inside: Option<u32>) -> Option<(u32, u32)>
    ensures { result ≡ edge_of instruction.now inside }
{
    match instruction.op {
        Op::FunctionCall => match inside {
            Some(caller) => Some((caller, operand_of(instruction, 2))),
            None => None,
        },
        _ => None,
    }
}

/// All calls, by the function that calls and the one that it calls.
pub fn calls(alloc: Global, code: &[Instruction]) -> Result<Vec<(u32, u32)>, AllocError>
    ensures { IfOk result (λ edges. edges.items ≡ calls None code.now) }
{
    let mut edges = Vec::new(alloc);
    let mut inside = None;
    for instruction in code {
        match edge_of(instruction, inside) {
            Some(edge) => edges.push(edge)?,
            None => {}
        }
        inside = open_after(instruction, inside);
    }
    Ok(edges)
}
