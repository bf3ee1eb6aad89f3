// How many words an instruction's result has, and how many words a variable holds.

ghost use Rattle.std.specs.Prelude.{◌≡◌, length, IfOk, Some};
ghost use Rattle.image_facts.specs.Operands.{globals_of};
ghost use Rattle.image_places.specs.Places.{function_of, under_function};
ghost use Rattle.run_rooms.specs.Rooms.{size_of};
ghost use Rattle.run_rooms.specs.Widths.{Tells};
ghost use Rattle.run_rooms.specs.Layout.{slot_words, room_words, slot_words_at, room_words_at, IsTable};

use crate::widths::Widths;
use image_declarations::{is_buffer_class, operand_of};
use image_lookup::{Definitions, Sort, sort_of};
use spirv_words::{Instruction, Op};
use std::alloc::{AllocError, Global};

/// How many words an operand of a type has: two for a pointer into a buffer, and one for another pointer.
pub fn size_of(definitions: &Definitions, widths: &Widths, id: u32) -> u32
    requires { Tells widths.now (globals_of definitions.now) }
    ensures { result ≡ size_of definitions.now id }
{
    match definitions.sort(id) {
        Sort::PointerType => {
            if is_buffer_class(definitions.operand(id, 1)) {
                2
            } else {
                1
            }
        }
        _ => widths.of(id),
    }
}

/// How many words the result of an instruction has; 0 where it is no value.
fn slot_words(definitions: &Definitions, widths: &Widths, instruction: &Instruction) -> u32
    requires { Tells widths.now (globals_of definitions.now) }
    ensures { result ≡ slot_words definitions.now instruction.now }
{
    if sort_of(instruction.op).is_value() {
        size_of(definitions, widths, operand_of(instruction, 0))
    } else {
        0
    }
}

/// How many words the variable of a function holds that an instruction declares; 0 for another instruction.
fn room_words(definitions: &Definitions, widths: &Widths, instruction: &Instruction) -> u32
    requires { Tells widths.now (globals_of definitions.now) }
    ensures { result ≡ room_words definitions.now instruction.now }
{
    match sort_of(instruction.op) {
        Sort::Holder => {
            if operand_of(instruction, 2) == 7 {
                widths.of(definitions.operand(operand_of(instruction, 0), 2))
            } else {
                0
            }
        }
        _ => 0,
    }
}

/// The words of the result of each instruction.
pub fn slot_table(
    alloc: Global,
    definitions: &Definitions,
    widths: &Widths,
) -> Result<Vec<u32>, AllocError>
    requires { Tells widths.now (globals_of definitions.now) }
    ensures { IfOk result (λ table. IsTable (slot_words_at definitions.now) (length definitions.now) table.items) }
{
    let mut table = Vec::new(alloc);
    for instruction in definitions.code() {
        table.push(slot_words(definitions, widths, instruction))?;
    }
    Ok(table)
}

/// The words that each instruction's variable holds.
pub fn room_table(
    alloc: Global,
    definitions: &Definitions,
    widths: &Widths,
) -> Result<Vec<u32>, AllocError>
    requires { Tells widths.now (globals_of definitions.now) }
    ensures { IfOk result (λ table. IsTable (room_words_at definitions.now) (length definitions.now) table.items) }
{
    let mut table = Vec::new(alloc);
    for instruction in definitions.code() {
        table.push(room_words(definitions, widths, instruction))?;
    }
    Ok(table)
}

fn under_function(op: Op, here: usize, before: usize) -> usize
    ensures { result ≡ under_function (Some op) here before }
{
    match op {
        Op::Function => here,
        Op::FunctionEnd => 0,
        _ => before,
    }
}

/// The function that is open before each instruction.
pub fn homes(alloc: Global, code: &[Instruction]) -> Result<Vec<usize>, AllocError>
    ensures { IfOk result (λ homes. IsTable (function_of code.now) (length code.now) homes.items) }
{
    let mut homes = Vec::new(alloc);
    let mut function = 0;
    for (number, instruction) in code.iter().enumerate() {
        homes.push(function)?;
        function = under_function(instruction.op, number + 1, function);
    }
    Ok(homes)
}
