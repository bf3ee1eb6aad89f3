// The types of composites and their parts.

ghost use Rattle.std.specs.Prelude.{◌≡◌, drop};
ghost use Rattle.image_lookup.specs.Lookups.{operands};
ghost use Rattle.image_operands.specs.Composites.{are_members, are_elements, construct_fits, literal_part_at, extract_end, extract_fits};

use crate::memory::{behind_three, member_at};
use image_declarations::{Declarations, length_of, operand_of};
use image_lookup::Sort;
use spirv_words::Instruction;

/// Whether these are values of these types, one each.
fn are_members(image: &Declarations, types: &[u32], values: &[u32]) -> bool
    ensures { result ≡ are_members image.now types.now values.now }
{
    if types.len() != values.len() {
        return false;
    }
    for (at, of) in types.iter().enumerate() {
        if !image.has_type(values[at], *of) {
            return false;
        }
    }
    true
}

/// Whether these are values of one type, and so many.
#[tactic(auto, unfolding(crate::specs::Composites::are_elements))]
fn are_elements(image: &Declarations, of: u32, count: u32, values: &[u32]) -> bool
    ensures { result ≡ are_elements image.now of count values.now }
{
    if values.len() != count as usize {
        return false;
    }
    for value in values {
        if !image.has_type(*value, of) {
            return false;
        }
    }
    true
}

/// The operands behind the first two.
fn behind_two(instruction: &Instruction) -> &[u32]
    ensures { result.now ≡ drop 2 instruction.now.operands }
{
    match instruction.operands.as_slice() {
        [_, _, rest @ ..] => rest,
        _ => &[],
    }
}

fn members_of<'a>(image: &Declarations<'a>, type_id: u32) -> &'a [u32]
    ensures { result.now ≡ drop 1 (operands image.now type_id) }
{
    match image.operands(type_id) {
        [_, rest @ ..] => rest,
        _ => &[],
    }
}

/// The parts of a composite, in order and of their types; a vector is made of its scalars.
#[tactic(auto, unfolding(crate::specs::Composites::construct_fits))]
pub fn construct_fits(image: &Declarations, instruction: &Instruction) -> bool
    ensures { result ≡ construct_fits image.now instruction.now }
{
    let to = operand_of(instruction, 0);
    let parts = behind_two(instruction);
    if !image.is_data(to) {
        return false;
    }
    match image.sort(to) {
        Sort::VectorType => {
            are_elements(image, image.operand(to, 1), image.operand(to, 2), parts)
        }
        Sort::ArrayType => {
            let count = length_of(image.definitions(), image.operand(to, 2));
            are_elements(image, image.operand(to, 1), count, parts)
        }
        Sort::StructType => are_members(image, members_of(image, to), parts),
        _ => false,
    }
}

/// The type of the part of a composite with a number.
#[tactic(auto, unfolding(crate::specs::Composites::literal_part_at))]
fn literal_part_at(image: &Declarations, type_id: u32, number: u32) -> Option<u32>
    ensures { result ≡ literal_part_at image.now type_id number }
{
    match image.sort(type_id) {
        Sort::VectorType if number < image.operand(type_id, 2) => {
            Some(image.operand(type_id, 1))
        }
        Sort::ArrayType if number < length_of(image.definitions(), image.operand(type_id, 2)) => {
            Some(image.operand(type_id, 1))
        }
        Sort::StructType => member_at(image, type_id, number),
        _ => None,
    }
}

/// The type to which a path of numbers leads.
fn extract_end(image: &Declarations, type_id: u32, path: &[u32]) -> Option<u32>
    ensures { result ≡ extract_end image.now type_id path.now }
{
    let mut at = type_id;
    for number in path {
        match literal_part_at(image, at, *number) {
            Some(part) => at = part,
            None => return None,
        }
    }
    Some(at)
}

/// The result is the part of a composite to which a path of numbers leads.
#[tactic(auto, unfolding(crate::specs::Composites::extract_fits))]
pub fn extract_fits(image: &Declarations, instruction: &Instruction) -> bool
    ensures { result ≡ extract_fits image.now instruction.now }
{
    let value = operand_of(instruction, 2);
    let of = image.operand(value, 0);
    image.is_value(value)
        && image.is_data(of)
        && extract_end(image, of, behind_three(instruction)) == Some(operand_of(instruction, 0))
}
