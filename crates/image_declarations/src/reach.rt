// Which types a buffer's wrapper reaches.

ghost use Rattle.std.specs.Prelude.{◌≡◌, ℕ, ◌||◌, IfOk, OnOk, nat_eq, slice_index, drop, take};
ghost use Rattle.std.specs.List.{list_any};
ghost use Rattle.std.specs.HashSet.{contains};
ghost use Rattle.image_declarations.specs.Reach.{pointed, is_buffer_class, buffer_of, wrapper_of, parts_of, adds, Reaches, Wraps};

use image_lookup::{Definitions, Sort, sort_of};
use spirv_words::{Instruction, Op};
use std::alloc::{AllocError, Global};
use std::collections::HashSet;

/// The type that a type of pointers leads to.
pub fn pointed(definitions: &Definitions, pointer: u32) -> Option<u32>
    ensures { result ≡ pointed definitions.now pointer }
{
    match definitions.sort(pointer) {
        Sort::PointerType => Some(definitions.operand(pointer, 2)),
        _ => None,
    }
}

/// Uniform and StorageBuffer (SPIR-V 1.5, section 3.7).
pub fn is_buffer_class(class: u32) -> bool
    ensures { result ≡ is_buffer_class class }
{
    class == 2 || class == 12
}

/// One of the operands of an instruction, counted from 0; 0 where there is none.
pub fn operand_of(instruction: &Instruction, number: usize) -> u32
    ensures { result ≡ slice_index instruction.now.operands number }
{
    instruction
        .operands
        .as_slice()
        .get(number)
        .copied()
        .unwrap_or(0)
}

/// The type of a buffer, if an instruction is its variable.
pub fn buffer_of(definitions: &Definitions, instruction: &Instruction) -> Option<u32>
    ensures { result ≡ buffer_of definitions.now instruction.now }
{
    match instruction.op {
        Op::Variable if is_buffer_class(operand_of(instruction, 2)) => {
            pointed(definitions, operand_of(instruction, 0))
        }
        _ => None,
    }
}

/// The same for a variable of class StorageBuffer alone.
fn wrapper_of(definitions: &Definitions, instruction: &Instruction) -> Option<u32>
    ensures { result ≡ wrapper_of definitions.now instruction.now }
{
    match instruction.op {
        Op::Variable if operand_of(instruction, 2) == 12 => {
            pointed(definitions, operand_of(instruction, 0))
        }
        _ => None,
    }
}

/// The types of an array's elements or of a struct's members.
fn parts_of(instruction: &Instruction) -> &[u32]
    ensures { result.now ≡ parts_of instruction.now }
{
    let rest = behind_first(instruction.operands.as_slice());
    match sort_of(instruction.op) {
        Sort::ArrayType | Sort::RuntimeArrayType => first_alone(rest),
        Sort::StructType => rest,
        _ => &[],
    }
}

pub(crate) fn behind_first(operands: &[u32]) -> &[u32]
    ensures { result.now ≡ drop 1 operands.now }
{
    match operands {
        [_, rest @ ..] => rest,
        [] => &[],
    }
}

fn first_alone(operands: &[u32]) -> &[u32]
    ensures { result.now ≡ take 1 operands.now }
{
    if operands.len() <= 1 {
        operands
    } else {
        &operands[..1]
    }
}

fn insert_all(types: &mut HashSet<u32>, parts: &[u32]) -> Result<(), AllocError>
    ensures { OnOk result ((q : ℕ) → contains nat_eq types.new q ≡ (list_any (nat_eq q) parts.now || contains nat_eq types.old q)) }
{
    for part in parts {
        types.insert(*part)?;
    }
    Ok(())
}

fn add_reached(
    types: &mut HashSet<u32>,
    definitions: &Definitions,
    instruction: &Instruction,
) -> Result<(), AllocError>
    ensures { OnOk result ((q : ℕ) → contains nat_eq types.new q
        ≡ (adds definitions.now instruction.now (contains nat_eq types.old) q || contains nat_eq types.old q)) }
{
    match buffer_of(definitions, instruction) {
        Some(of) => {
            types.insert(of)?;
        }
        None => {
            if types.contains(&operand_of(instruction, 0)) {
                insert_all(types, parts_of(instruction))?;
            }
        }
    }
    Ok(())
}

/// The types that the buffers of an image have, with their parts at any depth. A type stands behind its parts, so one way
/// from the last instruction to the first finds all.
pub fn reached(alloc: Global, definitions: &Definitions) -> Result<HashSet<u32>, AllocError>
    ensures { IfOk result (λ types. Reaches types definitions.now definitions.now) }
{
    let mut types = HashSet::new(alloc);
    let mut left = definitions.code();
    while let Some((last, before)) = left.split_last() {
        add_reached(&mut types, definitions, last)?;
        left = before;
    }
    Ok(types)
}

/// The types to which a variable of class StorageBuffer points.
pub fn wrappers(alloc: Global, definitions: &Definitions) -> Result<HashSet<u32>, AllocError>
    ensures { IfOk result (λ types. Wraps types definitions.now definitions.now) }
{
    let mut types = HashSet::new(alloc);
    let mut left = definitions.code();
    while let Some((last, before)) = left.split_last() {
        match wrapper_of(definitions, last) {
            Some(of) => {
                types.insert(of)?;
            }
            None => {}
        }
        left = before;
    }
    Ok(types)
}
