// The types of functions, of what they are called with and of what they give back.

ghost use Rattle.std.specs.Prelude.{◌≡◌, ◌<◌, ◌^◌, suc, drop};
ghost use Rattle.image_types.specs.Functions.{outside, after, is_void, is_function_type, is_function, leading_parameters, function_fits, parameter_fits, variable_fits, call_fits, return_fits, return_value_fits, parameters_of, entry_fits, mode_fits};

use image_declarations::{Declarations, operand_of};
use image_lookup::{Sort, entry_of};
use image_operands::{global_fits, is_pointer};
use spirv_words::{Instruction, Op};

/// Where an instruction stands: outside of functions, or in one with a type and a result, of which so many parameters have
/// come.
#[derive(Clone, Copy)]
pub struct Context {
    pub inside: bool,
    pub result_type: u32,
    pub type_id: u32,
    pub parameters: usize,
}

/// Before the first instruction.
pub fn outside() -> Context
    ensures { result ≡ outside }
{
    Context {
        inside: false,
        result_type: 0,
        type_id: 0,
        parameters: 0,
    }
}

impl Context {
    /// Behind an instruction.
    pub fn after(&self, instruction: &Instruction) -> Context
        requires { self.now.parameters < 2 ^ 63 }
        ensures { result ≡ after self.now instruction.now }
    {
        match instruction.op {
            Op::Function => Context {
                inside: true,
                result_type: operand_of(instruction, 0),
                type_id: operand_of(instruction, 3),
                parameters: 0,
            },
            Op::FunctionParameter => Context {
                inside: self.inside,
                result_type: self.result_type,
                type_id: self.type_id,
                parameters: self.parameters + 1,
            },
            Op::FunctionEnd => outside(),
            _ => *self,
        }
    }
}

pub fn is_void(image: &Declarations, type_id: u32) -> bool
    ensures { result ≡ is_void image.now type_id }
{
    match image.sort(type_id) {
        Sort::VoidType => true,
        _ => false,
    }
}

fn is_function_type(image: &Declarations, type_id: u32) -> bool
    ensures { result ≡ is_function_type image.now type_id }
{
    match image.sort(type_id) {
        Sort::FunctionType => true,
        _ => false,
    }
}

fn is_function(image: &Declarations, id: u32) -> bool
    ensures { result ≡ is_function image.now id }
{
    match image.sort(id) {
        Sort::Callee => true,
        _ => false,
    }
}

/// How many parameters stand first.
fn leading_parameters(code: &[Instruction]) -> usize
    ensures { result ≡ leading_parameters code.now }
{
    for (count, instruction) in code.iter().enumerate() {
        match instruction.op {
            Op::FunctionParameter => {}
            _ => return count,
        }
    }
    code.len()
}

/// A function's type is one of functions with its result, and each of its parameters follows.
#[tactic(auto, unfolding(crate::specs::Functions::function_fits))]
pub fn function_fits(
    image: &Declarations,
    instruction: &Instruction,
    behind: &[Instruction],
) -> bool
    ensures { result ≡ function_fits image.now instruction.now behind.now }
{
    let type_id = operand_of(instruction, 3);
    is_function_type(image, type_id)
        && image.operand(type_id, 1) == operand_of(instruction, 0)
        && behind_two(image.operands(type_id)).len() <= leading_parameters(behind)
}

fn behind_two(operands: &[u32]) -> &[u32]
    ensures { result.now ≡ drop 2 operands.now }
{
    match operands {
        [_, _, rest @ ..] => rest,
        _ => &[],
    }
}

/// A parameter has the type that its function's type has at its place.
#[tactic(auto, unfolding(crate::specs::Functions::parameter_fits))]
pub fn parameter_fits(image: &Declarations, context: &Context, instruction: &Instruction) -> bool
    ensures { result ≡ parameter_fits image.now context.now instruction.now }
{
    let types = image.operands(context.type_id);
    behind_two(types).get(context.parameters).copied() == Some(operand_of(instruction, 0))
}

/// A variable's type is one of pointers of its class. In a function it is a Function variable, and holds data.
#[tactic(auto, unfolding(crate::specs::Functions::variable_fits))]
pub fn variable_fits(image: &Declarations, context: &Context, instruction: &Instruction) -> bool
    ensures { result ≡ variable_fits image.now context.now instruction.now }
{
    let pointer = operand_of(instruction, 0);
    let class = operand_of(instruction, 2);
    let of = image.operand(pointer, 2);
    if !is_pointer(image, pointer) || image.operand(pointer, 1) != class {
        return false;
    }
    if context.inside {
        class == 7 && image.is_data(of)
    } else {
        global_fits(image, class, of, operand_of(instruction, 1))
    }
}

/// What is called is a function with this result. Its arguments are no matter of types here.
#[tactic(auto, unfolding(crate::specs::Functions::call_fits))]
pub fn call_fits(image: &Declarations, instruction: &Instruction) -> bool
    ensures { result ≡ call_fits image.now instruction.now }
{
    let function = operand_of(instruction, 2);
    is_function(image, function) && image.operand(function, 0) == operand_of(instruction, 0)
}

/// A function without result returns.
#[tactic(auto, unfolding(crate::specs::Functions::return_fits))]
pub fn return_fits(image: &Declarations, context: &Context) -> bool
    ensures { result ≡ return_fits image.now context.now }
{
    is_void(image, context.result_type)
}

/// A function gives back data of its result's type.
#[tactic(auto, unfolding(crate::specs::Functions::return_value_fits))]
pub fn return_value_fits(image: &Declarations, context: &Context, instruction: &Instruction) -> bool
    ensures { result ≡ return_value_fits image.now context.now instruction.now }
{
    let of = context.result_type;
    image.is_data(of) && image.has_type(operand_of(instruction, 0), of)
}

/// How many parameters a function has.
#[tactic(auto, unfolding(crate::specs::Functions::parameters_of))]
fn parameters_of(image: &Declarations, function: u32) -> usize
    ensures { result ≡ parameters_of image.now function }
{
    match image.definitions().place(function) {
        Some(place) => leading_parameters(behind(image.code(), place)),
        None => 0,
    }
}

/// The instructions behind a place.
pub fn behind(code: &[Instruction], place: usize) -> &[Instruction]
    ensures { result.now ≡ drop (suc place) code.now }
{
    if place < code.len() {
        &code[place + 1..]
    } else {
        &[]
    }
}

/// The entry point is a function without parameters and result.
#[tactic(auto, unfolding(crate::specs::Functions::entry_fits))]
pub fn entry_fits(image: &Declarations, instruction: &Instruction) -> bool
    ensures { result ≡ entry_fits image.now instruction.now }
{
    let function = operand_of(instruction, 1);
    is_function(image, function)
        && is_void(image, image.operand(function, 0))
        && parameters_of(image, function) == 0
}

/// The mode is that of the entry point's function.
#[tactic(auto, unfolding(crate::specs::Functions::mode_fits))]
pub fn mode_fits(image: &Declarations, instruction: &Instruction) -> bool
    ensures { result ≡ mode_fits image.now instruction.now }
{
    entry_of(image.code()) == Some(operand_of(instruction, 0))
}
