// The arguments of a call.

ghost use Rattle.std.specs.Prelude.{◌≡◌, drop};
ghost use Rattle.image_calls.specs.Arguments.{is_argument, are_arguments, arguments_fit, is_bad};

use crate::edges::operand_of;
use image_lookup::{Definitions, Sort};
use spirv_words::{Instruction, Op};

/// Whether this is a value of a type.
fn is_argument(definitions: &Definitions, of: u32, value: u32) -> bool
    ensures { result ≡ is_argument definitions.now of value }
{
    definitions.is_value(value) && definitions.operand(value, 0) == of
}

/// Whether these are values of these types, one each.
fn are_arguments(definitions: &Definitions, types: &[u32], values: &[u32]) -> bool
    ensures { result ≡ are_arguments definitions.now types.now values.now }
{
    if types.len() != values.len() {
        return false;
    }
    for (at, of) in types.iter().enumerate() {
        if !is_argument(definitions, *of, values[at]) {
            return false;
        }
    }
    true
}

/// The operands behind so many.
fn behind(operands: &[u32], count: usize) -> &[u32]
    ensures { result.now ≡ drop count operands.now }
{
    if count <= operands.len() {
        &operands[count..]
    } else {
        &[]
    }
}

/// A call of a function has an argument of the type of each of its parameters.
#[tactic(auto, unfolding(crate::specs::Arguments::arguments_fit))]
fn arguments_fit(definitions: &Definitions, instruction: &Instruction) -> bool
    ensures { result ≡ arguments_fit definitions.now instruction.now }
{
    let function = operand_of(instruction, 2);
    match definitions.sort(function) {
        Sort::Callee => {
            let types = behind(definitions.operands(definitions.operand(function, 3)), 2);
            are_arguments(
                definitions,
                types,
                behind(instruction.operands.as_slice(), 3),
            )
        }
        _ => true,
    }
}

/// Whether an instruction is a call with other arguments, or a call of the entry.
pub fn is_bad(definitions: &Definitions, entry: Option<u32>, instruction: &Instruction) -> bool
    ensures { result ≡ is_bad definitions.now entry instruction.now }
{
    match instruction.op {
        Op::FunctionCall => {
            !arguments_fit(definitions, instruction) || entry == Some(operand_of(instruction, 2))
        }
        _ => false,
    }
}
