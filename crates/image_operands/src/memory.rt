// The types of variables, and of what leads into them.

ghost use Rattle.std.specs.Prelude.{◌≡◌, drop};
ghost use Rattle.image_operands.specs.Memory.{is_pointer, is_struct, is_runtime_array, has_mark, is_wrapping, global_fits, loads, stores, load_fits, store_fits, is_index, constant_number, member_at, part_at, chain_end, chain_fits};

use crate::operators::is_int;
use image_declarations::{Declarations, operand_of};
use image_lookup::Sort;
use spirv_words::Instruction;

pub fn is_pointer(image: &Declarations, type_id: u32) -> bool
    ensures { result ≡ is_pointer image.now type_id }
{
    match image.sort(type_id) {
        Sort::PointerType => true,
        _ => false,
    }
}

fn is_struct(image: &Declarations, type_id: u32) -> bool
    ensures { result ≡ is_struct image.now type_id }
{
    match image.sort(type_id) {
        Sort::StructType => true,
        _ => false,
    }
}

fn is_runtime_array(image: &Declarations, type_id: u32) -> bool
    ensures { result ≡ is_runtime_array image.now type_id }
{
    match image.sort(type_id) {
        Sort::RuntimeArrayType => true,
        _ => false,
    }
}

/// Whether an id has a decoration of a kind.
fn has_mark(image: &Declarations, id: u32, kind: u32) -> bool
    ensures { result ≡ has_mark image.now id kind }
{
    image.decorations().mark(id, kind).is_some()
}

/// A struct whose one member, at Offset 0, is an array without length.
#[tactic(auto, unfolding(crate::specs::Memory::is_wrapping))]
fn is_wrapping(image: &Declarations, type_id: u32) -> bool
    ensures { result ≡ is_wrapping image.now type_id }
{
    is_struct(image, type_id)
        && image.operands(type_id).len() == 2
        && is_runtime_array(image, image.operand(type_id, 1))
        && image.decorations().offset(type_id, 0) == 0
}

/// A variable outside of functions. A buffer has a set and a binding, and an Input its built-in value.
#[tactic(auto, unfolding(crate::specs::Memory::global_fits))]
pub fn global_fits(image: &Declarations, class: u32, of: u32, variable: u32) -> bool
    ensures { result ≡ global_fits image.now class of variable }
{
    match class {
        1 => has_mark(image, variable, 11),
        2 => {
            has_mark(image, variable, 34)
                && has_mark(image, variable, 33)
                && is_struct(image, of)
                && !image.is_unbounded(of)
        }
        7 => false,
        12 => {
            has_mark(image, variable, 34) && has_mark(image, variable, 33) && is_wrapping(image, of)
        }
        _ => true,
    }
}

/// What is loaded by a pointer of a class: words alone from buffers, else data.
fn loads(image: &Declarations, class: u32, of: u32) -> bool
    ensures { result ≡ loads image.now class of }
{
    match class {
        2 | 12 => is_int(image, of),
        _ => image.is_data(of),
    }
}

/// What is stored by a pointer of a class: data in variables of functions, and words in storage buffers.
fn stores(image: &Declarations, class: u32, of: u32) -> bool
    ensures { result ≡ stores image.now class of }
{
    match class {
        7 => image.is_data(of),
        12 => is_int(image, of),
        _ => false,
    }
}

#[tactic(auto, unfolding(crate::specs::Memory::load_fits))]
pub fn load_fits(image: &Declarations, instruction: &Instruction) -> bool
    ensures { result ≡ load_fits image.now instruction.now }
{
    let of = operand_of(instruction, 0);
    let pointer = operand_of(instruction, 2);
    let pointers = image.operand(pointer, 0);
    image.is_value(pointer)
        && is_pointer(image, pointers)
        && image.operand(pointers, 2) == of
        && loads(image, image.operand(pointers, 1), of)
}

#[tactic(auto, unfolding(crate::specs::Memory::store_fits))]
pub fn store_fits(image: &Declarations, instruction: &Instruction) -> bool
    ensures { result ≡ store_fits image.now instruction.now }
{
    let pointer = operand_of(instruction, 0);
    let pointers = image.operand(pointer, 0);
    let of = image.operand(pointers, 2);
    image.is_value(pointer)
        && is_pointer(image, pointers)
        && image.has_type(operand_of(instruction, 1), of)
        && stores(image, image.operand(pointers, 1), of)
}

/// Whether an id is an int or a uint.
fn is_index(image: &Declarations, id: u32) -> bool
    ensures { result ≡ is_index image.now id }
{
    image.is_value(id) && is_int(image, image.operand(id, 0))
}

/// The number of a constant; a null is 0.
fn constant_number(image: &Declarations, id: u32) -> Option<u32>
    ensures { result ≡ constant_number image.now id }
{
    match image.sort(id) {
        Sort::Number => Some(image.operand(id, 2)),
        Sort::Null => Some(0),
        _ => None,
    }
}

/// The type of a struct's member.
pub fn member_at(image: &Declarations, type_id: u32, number: u32) -> Option<u32>
    ensures { result ≡ member_at image.now type_id number }
{
    image.operands(type_id).get(number as usize + 1).copied()
}

/// The type to which an index leads from a type: that of a vector's components, of an array's elements, or of the member
/// of a struct that a constant numbers.
#[tactic(auto, unfolding(crate::specs::Memory::part_at))]
fn part_at(image: &Declarations, type_id: u32, index: u32) -> Option<u32>
    ensures { result ≡ part_at image.now type_id index }
{
    if !is_index(image, index) {
        return None;
    }
    match image.sort(type_id) {
        Sort::VectorType | Sort::ArrayType | Sort::RuntimeArrayType => {
            Some(image.operand(type_id, 1))
        }
        Sort::StructType => match constant_number(image, index) {
            Some(number) => member_at(image, type_id, number),
            None => None,
        },
        _ => None,
    }
}

/// The type to which a path of indices leads.
fn chain_end(image: &Declarations, type_id: u32, indices: &[u32]) -> Option<u32>
    ensures { result ≡ chain_end image.now type_id indices.now }
{
    let mut at = type_id;
    for index in indices {
        match part_at(image, at, *index) {
            Some(part) => at = part,
            None => return None,
        }
    }
    Some(at)
}

/// The operands behind the first three.
pub fn behind_three(instruction: &Instruction) -> &[u32]
    ensures { result.now ≡ drop 3 instruction.now.operands }
{
    match instruction.operands.as_slice() {
        [_, _, _, rest @ ..] => rest,
        _ => &[],
    }
}

#[tactic(auto, unfolding(crate::specs::Memory::chain_fits))]
pub fn chain_fits(image: &Declarations, instruction: &Instruction) -> bool
    ensures { result ≡ chain_fits image.now instruction.now }
{
    let to = operand_of(instruction, 0);
    let pointer = operand_of(instruction, 2);
    let pointers = image.operand(pointer, 0);
    if !is_pointer(image, to) || !image.is_value(pointer) || !is_pointer(image, pointers) {
        return false;
    }
    image.operand(to, 1) == image.operand(pointers, 1)
        && chain_end(image, image.operand(pointers, 2), behind_three(instruction))
            == Some(image.operand(to, 2))
}
