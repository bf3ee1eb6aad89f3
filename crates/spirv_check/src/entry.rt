// What an image says of its entry.

ghost use Rattle.std.specs.Prelude.{◌≡◌, ◌≤◌, length, take, drop, slice_index, IfOk};
ghost use Rattle.spirv_check.specs.Entry.{first_operands, before_zero, entry_name, group_size};

use slang_names::Name;
use spirv_words::{Instruction, Op, to_bytes};
use std::alloc::{AllocError, Global};

/// The name of the entry point.
pub fn entry_name(alloc: Global, instructions: &[Instruction]) -> Result<Name, AllocError>
    ensures { IfOk result (λ name. name ≡ entry_name instructions.now) }
{
    let words = behind_two(first_operands(Op::EntryPoint, instructions));
    let bytes = to_bytes(alloc, words)?;
    let end = length_before_zero(bytes.as_slice());
    Name::from_slice(alloc, &bytes.as_slice()[..end])
}

fn behind_two(words: &[u32]) -> &[u32]
    ensures { result.now ≡ drop 2 words.now }
{
    if words.len() < 2 {
        return &[];
    }
    &words[2..]
}

/// The sizes of a group in x, y and z.
pub fn group_size(instructions: &[Instruction]) -> [u32; 3]
    ensures { result ≡ group_size instructions.now }
{
    let operands = first_operands(Op::ExecutionMode, instructions);
    [
        word_at(operands, 2),
        word_at(operands, 3),
        word_at(operands, 4),
    ]
}

fn word_at(words: &[u32], at: usize) -> u32
    ensures { result ≡ slice_index words.now at }
{
    words.get(at).copied().unwrap_or(0)
}

/// The operands of the first instruction of an opcode.
fn first_operands(op: Op, instructions: &[Instruction]) -> &[u32]
    ensures { result.now ≡ first_operands op instructions.now }
{
    for instruction in instructions {
        if instruction.op.number() == op.number() {
            return instruction.operands.as_slice();
        }
    }
    &[]
}

/// How many bytes stand before the first 0.
fn length_before_zero(bytes: &[u8]) -> usize
    ensures text { take result bytes.now ≡ before_zero bytes.now }
    ensures within { result ≤ length bytes.now }
{
    for (i, byte) in bytes.iter().enumerate() {
        if *byte == 0 {
            return i;
        }
    }
    bytes.len()
}
