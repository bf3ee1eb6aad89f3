// Which functions are called, by their numbers.

ghost use Rattle.std.specs.Prelude.{◌≡◌, ◌^◌, ◌<◌, ◌≤◌, suc, length, IfOk, IfSome};
ghost use Rattle.std.specs.Option.{option_map};
ghost use Rattle.spirv_words.specs.declared.opcodes.Op.TheVariants.{FunctionCall};
ghost use Rattle.spirv_words.specs.Machine.{place_of};
ghost use Rattle.image_places.specs.Places.{function_of};
ghost use Rattle.run_rooms.specs.Layout.{called, called_by, IsTable};
ghost use Rattle.run_rooms.specs.Calls.{AreCalls};

use image_lookup::Definitions;
use spirv_words::{Instruction, Op};
use std::alloc::{AllocError, Global};

/// The number of the function that an instruction calls, counted from 1 on, if it is a call.
fn called(definitions: &Definitions, instruction: &Instruction) -> Option<usize>
    ensures called { result ≡ called definitions.now instruction.now }
    ensures within { IfSome result (λ number. number ≤ length definitions.now) }
{
    match instruction.op {
        Op::FunctionCall => place_called(definitions, instruction.operands.as_slice()),
        _ => None,
    }
}

fn place_called(definitions: &Definitions, operands: &[u32]) -> Option<usize>
    ensures called { result ≡ called_by definitions.now FunctionCall operands.now }
    ensures within { IfSome result (λ number. number ≤ length definitions.now) }
{
    match operands {
        [_, _, function, ..] => number_of(definitions, *function),
        _ => None,
    }
}

/// The number of the instruction that defines an id, counted from 1 on.
fn number_of(definitions: &Definitions, id: u32) -> Option<usize>
    ensures number { result ≡ option_map suc (place_of definitions.now id 0) }
    ensures within { IfSome result (λ number. number ≤ length definitions.now) }
{
    match definitions.place(id) {
        Some(place) => {
            if place < definitions.code().len() {
                Some(place + 1)
            } else {
                None
            }
        }
        None => None,
    }
}

/// All calls, by the numbers of the functions that call and of those that are called.
pub fn edges(
    alloc: Global,
    definitions: &Definitions,
    homes: &[usize],
) -> Result<Vec<(u32, u32)>, AllocError>
    requires homes { IsTable (function_of definitions.now) (length definitions.now) homes.now }
    requires few { length definitions.now < 2 ^ 32 }
    ensures { IfOk result (λ edges. AreCalls definitions.now (length definitions.now) edges.items) }
{
    let mut edges = Vec::new(alloc);
    for (number, instruction) in definitions.code().iter().enumerate() {
        match called(definitions, instruction) {
            Some(callee) => edges.push((homes[number] as u32, callee as u32))?,
            None => {}
        }
    }
    Ok(edges)
}
