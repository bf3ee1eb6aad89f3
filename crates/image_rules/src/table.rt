// The definitions of an image's ids.

ghost use Rattle.std.specs.Prelude.{◌≡◌, ◌<◌, ◌+◌, ◌^◌, ℕ, Some, None, cond, length, IfOk, OnOk};
ghost use Rattle.std.specs.Ordering.{nat_cmp};
ghost use Rattle.std.specs.BTreeMap.{get};
ghost use Rattle.spirv_words.specs.Words.{body_words};
ghost use Rattle.spirv_words.specs.Machine.{result_of, is_some_number};
ghost use Rattle.image_rules.specs.Ids.{scope_of, definition, or_second};

use image_places::{Cursor, places_grow, result_of};
use spirv_words::{Instruction, Op};
use std::alloc::{AllocError, Global};
use std::collections::BTreeMap;

/// How far a definition holds.
#[derive(Clone, Copy)]
pub enum Scope {
    /// In the whole image.
    Everywhere,
    /// After the instruction with this number.
    After(usize),
    /// In the function with this number.
    InFunction(usize),
    /// In the block with this number, after the instruction with this one.
    InBlock(usize, usize),
}

/// The definition of an id.
#[derive(Clone, Copy)]
pub struct Definition {
    /// The number of the instruction that defines the id, counted from 0 on.
    pub number: usize,
    pub scope: Scope,
}

/// The first definition of each id.
pub fn definitions(
    alloc: Global,
    instructions: &[Instruction],
) -> Result<BTreeMap<u32, Definition>, AllocError>
    requires { 5 + length (body_words instructions.now) < 2 ^ 64 }
    ensures { IfOk result (λ map. (id : ℕ) → get nat_cmp map id ≡ definition instructions.now id) }
{
    places_grow();
    let mut map = BTreeMap::new(alloc);
    let mut cursor = Cursor::start();
    for instruction in instructions {
        let number = cursor.number;
        cursor.pass(instruction);
        let scope = scope_of(instruction.op, number, cursor.function, cursor.block);
        add_result(&mut map, instruction, Definition { number, scope })?;
    }
    Ok(map)
}

/// Adds the definition of an instruction's result, if it has one and its id is not defined before.
fn add_result(
    map: &mut BTreeMap<u32, Definition>,
    instruction: &Instruction,
    definition: Definition,
) -> Result<(), AllocError>
    ensures { OnOk result ((q : ℕ) → get nat_cmp map.new q ≡ or_second (get nat_cmp map.old q)
        (cond (is_some_number (result_of instruction.now.op instruction.now.operands) q) (Some definition) None)) }
{
    match result_of(instruction.op, instruction.operands.as_slice()) {
        Some(id) => add_first(map, id, definition),
        None => Ok(()),
    }
}

fn add_first(
    map: &mut BTreeMap<u32, Definition>,
    id: u32,
    definition: Definition,
) -> Result<(), AllocError>
    ensures { OnOk result ((q : ℕ) → get nat_cmp map.new q ≡ or_second (get nat_cmp map.old q) (cond (is_some_number (Some id) q) (Some definition) None)) }
{
    if map.get(&id).is_none() {
        map.insert(id, definition)?;
    }
    Ok(())
}

/// How far the definition of an opcode holds which stands at this instruction, in this function and this block.
fn scope_of(op: Op, number: usize, function: usize, block: usize) -> Scope
    ensures { result ≡ scope_of op number function block }
{
    match op {
        Op::TypeVoid
        | Op::TypeBool
        | Op::TypeInt
        | Op::TypeVector
        | Op::TypeArray
        | Op::TypeRuntimeArray
        | Op::TypeStruct
        | Op::TypePointer
        | Op::TypeFunction
        | Op::ConstantTrue
        | Op::ConstantFalse
        | Op::Constant
        | Op::ConstantNull => Scope::After(number),
        Op::Function | Op::Label => Scope::Everywhere,
        Op::FunctionParameter => Scope::InFunction(function),
        Op::Variable => scope_of_variable(function),
        _ => Scope::InBlock(block, number),
    }
}

fn scope_of_variable(function: usize) -> Scope
    ensures { result ≡ scope_of Op.Variable 0 function 0 }
{
    if function == 0 {
        Scope::Everywhere
    } else {
        Scope::InFunction(function)
    }
}
