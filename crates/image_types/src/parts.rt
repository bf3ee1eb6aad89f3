// The types that declarations are made of.

ghost use Rattle.std.specs.Prelude.{◌≡◌, drop};
ghost use Rattle.std.specs.List.{list_all};
ghost use Rattle.image_types.specs.Parts.{is_type, vector_fits, array_fits, runtime_array_fits, have_offsets, struct_fits, pointer_fits, is_parameter_type, function_type_fits, has_stride, is_length, may_be_member};

use crate::functions::is_void;
use image_declarations::{Declarations, operand_of};
use image_lookup::Sort;
use image_operands::{has_offsets, is_bool, is_int, is_pointer, is_strided};
use spirv_words::Instruction;

fn is_type(image: &Declarations, id: u32) -> bool
    ensures { result ≡ is_type image.now id }
{
    match image.sort(id) {
        Sort::VoidType
        | Sort::BoolType
        | Sort::IntType
        | Sort::VectorType
        | Sort::ArrayType
        | Sort::RuntimeArrayType
        | Sort::StructType
        | Sort::PointerType
        | Sort::FunctionType => true,
        _ => false,
    }
}

/// A vector is of bool, int or uint.
#[tactic(auto, unfolding(crate::specs::Parts::vector_fits))]
pub fn vector_fits(image: &Declarations, instruction: &Instruction) -> bool
    ensures { result ≡ vector_fits image.now instruction.now }
{
    let of = operand_of(instruction, 1);
    is_bool(image, of) || is_int(image, of)
}

fn has_stride(image: &Declarations, id: u32) -> bool
    ensures { result ≡ has_stride image.now id }
{
    !is_strided(image, id) || image.decorations().mark(id, 6).is_some()
}

/// The length of an array is a Constant of int or uint.
fn is_length(image: &Declarations, id: u32) -> bool
    ensures { result ≡ is_length image.now id }
{
    match image.sort(id) {
        Sort::Number => is_int(image, image.operand(id, 0)),
        _ => false,
    }
}

/// An array is of data, and has a stride in a buffer.
#[tactic(auto, unfolding(crate::specs::Parts::array_fits))]
pub fn array_fits(image: &Declarations, instruction: &Instruction) -> bool
    ensures { result ≡ array_fits image.now instruction.now }
{
    runtime_array_fits(image, instruction) && is_length(image, operand_of(instruction, 2))
}

/// The same for an array without length.
#[tactic(auto, unfolding(crate::specs::Parts::runtime_array_fits))]
pub fn runtime_array_fits(image: &Declarations, instruction: &Instruction) -> bool
    ensures { result ≡ runtime_array_fits image.now instruction.now }
{
    image.is_data(operand_of(instruction, 1)) && has_stride(image, operand_of(instruction, 0))
}

fn members_of(instruction: &Instruction) -> &[u32]
    ensures { result.now ≡ drop 1 instruction.now.operands }
{
    match instruction.operands.as_slice() {
        [_, rest @ ..] => rest,
        _ => &[],
    }
}

/// Whether each of so many members of a struct has an Offset.
fn have_offsets(image: &Declarations, id: u32, count: usize) -> bool
    ensures { result ≡ have_offsets image.now id count }
{
    for member in 0..count {
        if image.decorations().member_mark(id, member).is_none() {
            return false;
        }
    }
    true
}

/// Whether these are data, or hold arrays without length where they may.
fn may_be_members(image: &Declarations, wraps: bool, members: &[u32]) -> bool
    ensures { result ≡ list_all (λ t. may_be_member image.now wraps t) members.now }
{
    for member in members {
        if !may_be_member(image, wraps, *member) {
            return false;
        }
    }
    true
}

fn may_be_member(image: &Declarations, wraps: bool, of: u32) -> bool
    ensures { result ≡ may_be_member image.now wraps of }
{
    image.is_data(of) || (wraps && image.is_unbounded(of))
}

/// A struct is of data, and has Offsets in a buffer. What a variable of class StorageBuffer points to may hold arrays
/// without length: there the variable is judged.
#[tactic(auto, unfolding(crate::specs::Parts::struct_fits))]
pub fn struct_fits(image: &Declarations, instruction: &Instruction) -> bool
    ensures { result ≡ struct_fits image.now instruction.now }
{
    let id = operand_of(instruction, 0);
    let members = members_of(instruction);
    may_be_members(image, image.is_wrapper(id), members)
        && (!has_offsets(image, id) || have_offsets(image, id, members.len()))
}

/// A pointer is to any type.
#[tactic(auto, unfolding(crate::specs::Parts::pointer_fits))]
pub fn pointer_fits(image: &Declarations, instruction: &Instruction) -> bool
    ensures { result ≡ pointer_fits image.now instruction.now }
{
    is_type(image, operand_of(instruction, 2))
}

fn is_parameter_type(image: &Declarations, id: u32) -> bool
    ensures { result ≡ is_parameter_type image.now id }
{
    image.is_data(id) || is_pointer(image, id)
}

fn are_parameter_types(image: &Declarations, types: &[u32]) -> bool
    ensures { result ≡ list_all (λ t. is_parameter_type image.now t) types.now }
{
    for of in types {
        if !is_parameter_type(image, *of) {
            return false;
        }
    }
    true
}

/// A function has data or nothing as its result, and data and pointers as parameters.
#[tactic(auto, unfolding(crate::specs::Parts::function_type_fits))]
pub fn function_type_fits(image: &Declarations, instruction: &Instruction) -> bool
    ensures { result ≡ function_type_fits image.now instruction.now }
{
    let of = operand_of(instruction, 1);
    (is_void(image, of) || image.is_data(of)) && are_parameter_types(image, behind_two(instruction))
}

fn behind_two(instruction: &Instruction) -> &[u32]
    ensures { result.now ≡ drop 2 instruction.now.operands }
{
    match instruction.operands.as_slice() {
        [_, _, rest @ ..] => rest,
        _ => &[],
    }
}
