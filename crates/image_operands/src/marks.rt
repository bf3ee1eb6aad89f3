// Decorations with a literal: each once, and with a literal that may stand there.

ghost use Rattle.std.specs.Prelude.{◌≡◌, ◌<◌, ◌^◌};
ghost use Rattle.image_operands.specs.Marks.{is_strided, has_offsets, is_variable, is_triple, is_buffer, is_input, is_first, stride_fits, built_in_fits, mark_fits, member_mark_fits, completed};

use crate::operators::is_uint;
use image_declarations::{Declarations, Mark, is_buffer_class, operand_of, pointed};
use image_lookup::Sort;
use spirv_words::{Instruction, Op};

/// Whether an id is an array that a buffer has.
pub fn is_strided(image: &Declarations, id: u32) -> bool
    ensures { result ≡ is_strided image.now id }
{
    match image.sort(id) {
        Sort::ArrayType | Sort::RuntimeArrayType => image.is_reached(id),
        _ => false,
    }
}

fn is_variable(image: &Declarations, id: u32) -> bool
    ensures { result ≡ is_variable image.now id }
{
    match image.sort(id) {
        Sort::Holder => true,
        _ => false,
    }
}

/// Whether an id is the variable of a buffer.
fn is_buffer(image: &Declarations, id: u32) -> bool
    ensures { result ≡ is_buffer image.now id }
{
    is_variable(image, id) && is_buffer_class(image.operand(id, 2))
}

fn is_input(image: &Declarations, id: u32) -> bool
    ensures { result ≡ is_input image.now id }
{
    is_variable(image, id) && image.operand(id, 2) == 1
}

/// Whether the first decoration stands at a place.
fn is_first(mark: Option<Mark>, place: usize) -> bool
    ensures { result ≡ is_first mark place }
{
    match mark {
        Some(mark) => mark.place == place,
        None => false,
    }
}

/// A stride is a multiple of 4 above 0, and not below the end of an element.
#[tactic(auto, unfolding(crate::specs::Marks::stride_fits))]
fn stride_fits(image: &Declarations, id: u32, stride: u32) -> bool
    ensures { result ≡ stride_fits image.now id stride }
{
    stride % 4 == 0 && stride != 0 && image.extent(image.operand(id, 1)) <= u64::from(stride)
}

/// Whether a type is a vector of three uints.
fn is_triple(image: &Declarations, type_id: u32) -> bool
    ensures { result ≡ is_triple image.now type_id }
{
    match image.sort(type_id) {
        Sort::VectorType => {
            image.operand(type_id, 2) == 3 && is_uint(image, image.operand(type_id, 1))
        }
        _ => false,
    }
}

/// LocalInvocationIndex is a uint, and the other built-in values are three.
#[tactic(auto, unfolding(crate::specs::Marks::built_in_fits))]
fn built_in_fits(image: &Declarations, variable: u32, built_in: u32) -> bool
    ensures { result ≡ built_in_fits image.now variable built_in }
{
    match pointed(image.definitions(), image.operand(variable, 0)) {
        Some(of) => {
            if built_in == 29 {
                is_uint(image, of)
            } else {
                is_triple(image, of)
            }
        }
        None => false,
    }
}

/// The stride of an array in a buffer, the set and binding of a buffer, or the built-in value of an Input stands once, and
/// fits. Other decorations are free.
#[tactic(auto, unfolding(crate::specs::Marks::mark_fits))]
pub fn mark_fits(image: &Declarations, place: usize, instruction: &Instruction) -> bool
    ensures { result ≡ mark_fits image.now place instruction.now }
{
    let target = operand_of(instruction, 0);
    let kind = operand_of(instruction, 1);
    let literal = operand_of(instruction, 2);
    let first = is_first(image.decorations().mark(target, kind), place);
    match kind {
        6 if is_strided(image, target) => first && stride_fits(image, target, literal),
        11 if is_input(image, target) => first && built_in_fits(image, target, literal),
        33 | 34 if is_buffer(image, target) => first,
        _ => true,
    }
}

/// The Offset of a member of a struct that a buffer has stands once, and is a multiple of 4.
#[tactic(auto, unfolding(crate::specs::Marks::member_mark_fits))]
pub fn member_mark_fits(image: &Declarations, place: usize, instruction: &Instruction) -> bool
    ensures { result ≡ member_mark_fits image.now place instruction.now }
{
    let target = operand_of(instruction, 0);
    let member = operand_of(instruction, 1) as usize;
    if !has_offsets(image, target) || image.operands(target).len() <= member + 1 {
        return true;
    }
    is_first(image.decorations().member_mark(target, member), place)
        && operand_of(instruction, 3) % 4 == 0
}

/// Whether an id is a struct that a buffer has.
pub fn has_offsets(image: &Declarations, id: u32) -> bool
    ensures { result ≡ has_offsets image.now id }
{
    match image.sort(id) {
        Sort::StructType => image.is_reached(id),
        _ => false,
    }
}

/// The set and the binding of a buffer, if the later of its two decorations stands at a place.
#[tactic(auto, unfolding(crate::specs::Marks::completed))]
pub fn completed(
    image: &Declarations,
    place: usize,
    instruction: &Instruction,
) -> Option<(u32, u32)>
    ensures { result ≡ completed image.now place instruction.now }
{
    let target = operand_of(instruction, 0);
    match instruction.op {
        Op::Decorate if is_buffer(image, target) => {
            let set = image.decorations().mark(target, 34)?;
            let binding = image.decorations().mark(target, 33)?;
            if set.place.max(binding.place) == place {
                Some((set.literal, binding.literal))
            } else {
                None
            }
        }
        _ => None,
    }
}
