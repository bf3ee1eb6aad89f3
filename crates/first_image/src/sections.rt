// The sections that every image has.

ghost use Rattle.std.specs.Prelude.{◌≡◌, ◌+◌, ◌^◌, ◌<◌, ◌++◌, length, OnOk};
ghost use Rattle.first_image.specs.Sections.{beginning, plain_types, constants_code, pointer_types, nulls};

use crate::output::push;
use spirv_words::{Instruction, Op};
use sqlite_items::Items;
use std::alloc::{AllocError, Global};

// Storage classes (SPIR-V 1.5, section 3.7).
pub const INPUT: u32 = 1;

pub const UNIFORM: u32 = 2;

pub const FUNCTION: u32 = 7;

pub const STORAGE_BUFFER: u32 = 12;

// The ids of the types and constants that every image begins with.
pub const VOID: u32 = 1;

pub const BOOL: u32 = 2;

pub const INT: u32 = 3;

pub const UINT: u32 = 4;

pub const INT2: u32 = 5;

pub const INT3: u32 = 6;

pub const INT4: u32 = 7;

pub const UINT2: u32 = 8;

pub const UINT3: u32 = 9;

pub const UINT4: u32 = 10;

pub const TRUE: u32 = 11;

pub const FALSE: u32 = 12;

pub const FIRST_CONSTANT: u32 = 13;

/// What the image needs of its reader, and how it names memory.
pub fn emit_beginning(alloc: Global, code: &mut Items<Instruction>) -> Result<(), AllocError>
    ensures { OnOk result (code.new ≡ code.old ++ beginning) }
{
    push(alloc, code, Op::Capability, &[1])?;
    push(alloc, code, Op::MemoryModel, &[0, 1])?;
    Ok(())
}

/// The types of words and vectors, and true and false.
pub fn emit_plain_types(alloc: Global, code: &mut Items<Instruction>) -> Result<(), AllocError>
    ensures { OnOk result (code.new ≡ code.old ++ plain_types) }
{
    push(alloc, code, Op::TypeVoid, &[VOID])?;
    push(alloc, code, Op::TypeBool, &[BOOL])?;
    push(alloc, code, Op::TypeInt, &[INT, 32, 1])?;
    push(alloc, code, Op::TypeInt, &[UINT, 32, 0])?;
    push(alloc, code, Op::TypeVector, &[INT2, INT, 2])?;
    push(alloc, code, Op::TypeVector, &[INT3, INT, 3])?;
    push(alloc, code, Op::TypeVector, &[INT4, INT, 4])?;
    push(alloc, code, Op::TypeVector, &[UINT2, UINT, 2])?;
    push(alloc, code, Op::TypeVector, &[UINT3, UINT, 3])?;
    push(alloc, code, Op::TypeVector, &[UINT4, UINT, 4])?;
    push(alloc, code, Op::ConstantTrue, &[BOOL, TRUE])?;
    push(alloc, code, Op::ConstantFalse, &[BOOL, FALSE])?;
    Ok(())
}

/// The constants, of the type uint.
pub fn emit_constants(
    alloc: Global,
    code: &mut Items<Instruction>,
    numbers: &[u32],
) -> Result<(), AllocError>
    requires { length numbers.now < 2 ^ 28 }
    ensures { OnOk result (code.new ≡ code.old ++ constants_code 13 numbers.now) }
{
    for (i, number) in numbers.iter().enumerate() {
        push(
            alloc,
            code,
            Op::Constant,
            &[UINT, FIRST_CONSTANT + i as u32, *number],
        )?;
    }
    Ok(())
}

/// The types of pointers: to bools, words and vectors in variables of a function, and to words in buffers and constant
/// data, and to what is built in.
pub fn emit_pointer_types(
    alloc: Global,
    code: &mut Items<Instruction>,
    id: u32,
) -> Result<(), AllocError>
    requires { id + 15 < 2 ^ 32 }
    ensures { OnOk result (code.new ≡ code.old ++ pointer_types id) }
{
    push(alloc, code, Op::TypePointer, &[id, FUNCTION, BOOL])?;
    push(alloc, code, Op::TypePointer, &[id + 1, FUNCTION, INT])?;
    push(alloc, code, Op::TypePointer, &[id + 2, FUNCTION, UINT])?;
    push(alloc, code, Op::TypePointer, &[id + 3, FUNCTION, INT2])?;
    push(alloc, code, Op::TypePointer, &[id + 4, FUNCTION, INT3])?;
    push(alloc, code, Op::TypePointer, &[id + 5, FUNCTION, INT4])?;
    push(alloc, code, Op::TypePointer, &[id + 6, FUNCTION, UINT2])?;
    push(alloc, code, Op::TypePointer, &[id + 7, FUNCTION, UINT3])?;
    push(alloc, code, Op::TypePointer, &[id + 8, FUNCTION, UINT4])?;
    push(alloc, code, Op::TypePointer, &[id + 9, STORAGE_BUFFER, INT])?;
    push(
        alloc,
        code,
        Op::TypePointer,
        &[id + 10, STORAGE_BUFFER, UINT],
    )?;
    push(alloc, code, Op::TypePointer, &[id + 11, UNIFORM, INT])?;
    push(alloc, code, Op::TypePointer, &[id + 12, UNIFORM, UINT])?;
    push(alloc, code, Op::TypePointer, &[id + 13, INPUT, UINT3])?;
    push(alloc, code, Op::TypePointer, &[id + 14, INPUT, UINT])?;
    Ok(())
}

/// The nulls of bool, words and vectors.
pub fn emit_nulls(alloc: Global, code: &mut Items<Instruction>, id: u32) -> Result<(), AllocError>
    requires { id + 9 < 2 ^ 32 }
    ensures { OnOk result (code.new ≡ code.old ++ nulls id) }
{
    push(alloc, code, Op::ConstantNull, &[BOOL, id])?;
    push(alloc, code, Op::ConstantNull, &[INT, id + 1])?;
    push(alloc, code, Op::ConstantNull, &[UINT, id + 2])?;
    push(alloc, code, Op::ConstantNull, &[INT2, id + 3])?;
    push(alloc, code, Op::ConstantNull, &[INT3, id + 4])?;
    push(alloc, code, Op::ConstantNull, &[INT4, id + 5])?;
    push(alloc, code, Op::ConstantNull, &[UINT2, id + 6])?;
    push(alloc, code, Op::ConstantNull, &[UINT3, id + 7])?;
    push(alloc, code, Op::ConstantNull, &[UINT4, id + 8])?;
    Ok(())
}
