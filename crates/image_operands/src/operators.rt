// The types of operators.

ghost use Rattle.std.specs.Prelude.{◌≡◌};
ghost use Rattle.image_operands.specs.Operators.{is_bool, is_int, is_uint, component, lanes, suits, is_number, unary_fits, binary_fits, shift_fits, comparison_fits, logical_fits, negation_fits, bits_fit, condition_fits};

use image_declarations::{Declarations, operand_of};
use image_lookup::Sort;
use spirv_words::Instruction;

/// Which numbers an operator takes.
#[derive(Clone, Copy)]
pub enum Numbers {
    Either,
    Ints,
    Uints,
}

/// Whether a type is bool.
pub fn is_bool(image: &Declarations, type_id: u32) -> bool
    ensures { result ≡ is_bool image.now type_id }
{
    match image.sort(type_id) {
        Sort::BoolType => true,
        _ => false,
    }
}

/// An int or a uint.
pub fn is_int(image: &Declarations, type_id: u32) -> bool
    ensures { result ≡ is_int image.now type_id }
{
    match image.sort(type_id) {
        Sort::IntType => true,
        _ => false,
    }
}

pub fn is_uint(image: &Declarations, type_id: u32) -> bool
    ensures { result ≡ is_uint image.now type_id }
{
    is_int(image, type_id) && image.operand(type_id, 2) == 0
}

/// The type of a vector's components, and of others the type itself.
fn component(image: &Declarations, type_id: u32) -> u32
    ensures { result ≡ component image.now type_id }
{
    match image.sort(type_id) {
        Sort::VectorType => image.operand(type_id, 1),
        _ => type_id,
    }
}

/// The number of a vector's components; 1 for others.
fn lanes(image: &Declarations, type_id: u32) -> u32
    ensures { result ≡ lanes image.now type_id }
{
    match image.sort(type_id) {
        Sort::VectorType => image.operand(type_id, 2),
        _ => 1,
    }
}

/// Whether an operator takes this type, which is an int or a uint.
fn suits(image: &Declarations, numbers: Numbers, type_id: u32) -> bool
    ensures { result ≡ suits image.now numbers type_id }
{
    match numbers {
        Numbers::Either => true,
        Numbers::Ints => image.operand(type_id, 2) == 1,
        Numbers::Uints => image.operand(type_id, 2) == 0,
    }
}

/// Whether a type is one of these numbers, or a vector of them.
#[tactic(auto, unfolding(crate::specs::Operators::is_number))]
fn is_number(image: &Declarations, numbers: Numbers, type_id: u32) -> bool
    ensures { result ≡ is_number image.now numbers type_id }
{
    let of = component(image, type_id);
    is_int(image, of) && suits(image, numbers, of)
}

/// One operand, of the type of the result.
#[tactic(auto, unfolding(crate::specs::Operators::unary_fits))]
pub fn unary_fits(image: &Declarations, instruction: &Instruction) -> bool
    ensures { result ≡ unary_fits image.now instruction.now }
{
    let of = operand_of(instruction, 0);
    is_number(image, Numbers::Either, of) && image.has_type(operand_of(instruction, 2), of)
}

/// Two operands, of the type of the result.
#[tactic(auto, unfolding(crate::specs::Operators::binary_fits))]
pub fn binary_fits(image: &Declarations, numbers: Numbers, instruction: &Instruction) -> bool
    ensures { result ≡ binary_fits image.now numbers instruction.now }
{
    let of = operand_of(instruction, 0);
    is_number(image, numbers, of)
        && image.has_type(operand_of(instruction, 2), of)
        && image.has_type(operand_of(instruction, 3), of)
}

/// An operand of the type of the result, and amounts of either kind, one for each of its components.
#[tactic(auto, unfolding(crate::specs::Operators::shift_fits))]
pub fn shift_fits(image: &Declarations, numbers: Numbers, instruction: &Instruction) -> bool
    ensures { result ≡ shift_fits image.now numbers instruction.now }
{
    let of = operand_of(instruction, 0);
    let amount = operand_of(instruction, 3);
    let amounts = image.operand(amount, 0);
    is_number(image, numbers, of)
        && image.has_type(operand_of(instruction, 2), of)
        && image.is_value(amount)
        && is_number(image, Numbers::Either, amounts)
        && lanes(image, amounts) == lanes(image, of)
}

/// Two numbers of one type, and a bool as result.
#[tactic(auto, unfolding(crate::specs::Operators::comparison_fits))]
pub fn comparison_fits(image: &Declarations, numbers: Numbers, instruction: &Instruction) -> bool
    ensures { result ≡ comparison_fits image.now numbers instruction.now }
{
    let first = operand_of(instruction, 2);
    let of = image.operand(first, 0);
    is_bool(image, operand_of(instruction, 0))
        && image.is_value(first)
        && image.has_type(operand_of(instruction, 3), of)
        && is_int(image, of)
        && suits(image, numbers, of)
}

/// Two truths, of the type of the result.
#[tactic(auto, unfolding(crate::specs::Operators::logical_fits))]
pub fn logical_fits(image: &Declarations, instruction: &Instruction) -> bool
    ensures { result ≡ logical_fits image.now instruction.now }
{
    negation_fits(image, instruction)
        && image.has_type(operand_of(instruction, 3), operand_of(instruction, 0))
}

/// One truth, of the type of the result.
#[tactic(auto, unfolding(crate::specs::Operators::negation_fits))]
pub fn negation_fits(image: &Declarations, instruction: &Instruction) -> bool
    ensures { result ≡ negation_fits image.now instruction.now }
{
    let of = operand_of(instruction, 0);
    is_bool(image, of) && image.has_type(operand_of(instruction, 2), of)
}

/// Numbers as others, with as many components.
#[tactic(auto, unfolding(crate::specs::Operators::bits_fit))]
pub fn bits_fit(image: &Declarations, instruction: &Instruction) -> bool
    ensures { result ≡ bits_fit image.now instruction.now }
{
    let to = operand_of(instruction, 0);
    let value = operand_of(instruction, 2);
    let from = image.operand(value, 0);
    is_number(image, Numbers::Either, to)
        && image.is_value(value)
        && is_number(image, Numbers::Either, from)
        && lanes(image, from) == lanes(image, to)
}

/// The condition of a branch is a truth.
#[tactic(auto, unfolding(crate::specs::Operators::condition_fits))]
pub fn condition_fits(image: &Declarations, instruction: &Instruction) -> bool
    ensures { result ≡ condition_fits image.now instruction.now }
{
    let condition = operand_of(instruction, 0);
    image.is_value(condition) && is_bool(image, image.operand(condition, 0))
}
