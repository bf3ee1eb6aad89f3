// The first instruction whose types do not fit.

ghost use Rattle.std.specs.Prelude.{◌≡◌, ◌<◌, ◌^◌, ℕ, ◌||◌, IfOk, OnOk, length, take};
ghost use Rattle.std.specs.HashSet.{contains};
ghost use Rattle.image_declarations.specs.Decorations.{same_pair};
ghost use Rattle.image_operands.specs.Marks.{is_pair, taken_in, is_taken, completed};
ghost use Rattle.image_types.specs.Checking.{fits, context_at, is_wrong, has_wrong_types, IsFirstWrong};

use crate::functions::{
    Context, behind, call_fits, entry_fits, function_fits, mode_fits, outside, parameter_fits,
    return_fits, return_value_fits, variable_fits,
};
use crate::parts::{
    array_fits, function_type_fits, pointer_fits, runtime_array_fits, struct_fits, vector_fits,
};
use crate::rules::{Rule, rule_of};
use image_declarations::{Declarations, operand_of};
use image_operands::{
    binary_fits, bits_fit, chain_fits, comparison_fits, completed, condition_fits, construct_fits,
    extract_fits, is_bool, is_int, load_fits, logical_fits, mark_fits, member_mark_fits,
    negation_fits, shift_fits, store_fits, unary_fits,
};
use spirv_words::Instruction;
use std::alloc::{AllocError, Global};
use std::collections::HashSet;

/// Whether the types of an instruction fit, which stands at a place, in a context, and before others.
#[tactic(auto, unfolding(crate::specs::Checking::fits))]
fn fits(
    image: &Declarations,
    context: &Context,
    place: usize,
    instruction: &Instruction,
    behind: &[Instruction],
) -> bool
    ensures { result ≡ fits image.now context.now place instruction.now behind.now }
{
    let of = operand_of(instruction, 0);
    match rule_of(instruction.op) {
        Rule::Free => true,
        Rule::Entry => entry_fits(image, instruction),
        Rule::Mode => mode_fits(image, instruction),
        Rule::Decoration => mark_fits(image, place, instruction),
        Rule::MemberDecoration => member_mark_fits(image, place, instruction),
        Rule::OfVector => vector_fits(image, instruction),
        Rule::OfArray => array_fits(image, instruction),
        Rule::OfRuntimeArray => runtime_array_fits(image, instruction),
        Rule::OfStruct => struct_fits(image, instruction),
        Rule::OfPointer => pointer_fits(image, instruction),
        Rule::OfFunctionType => function_type_fits(image, instruction),
        Rule::Truth => is_bool(image, of),
        Rule::OfNumber => is_int(image, of),
        Rule::OfNull => image.is_data(of),
        Rule::OfFunction => function_fits(image, instruction, behind),
        Rule::Parameter => parameter_fits(image, context, instruction),
        Rule::OfVariable => variable_fits(image, context, instruction),
        Rule::Loading => load_fits(image, instruction),
        Rule::Storing => store_fits(image, instruction),
        Rule::Chain => chain_fits(image, instruction),
        Rule::Constructing => construct_fits(image, instruction),
        Rule::Extracting => extract_fits(image, instruction),
        Rule::Bits => bits_fit(image, instruction),
        Rule::Unary => unary_fits(image, instruction),
        Rule::Binary(numbers) => binary_fits(image, numbers, instruction),
        Rule::Shift(numbers) => shift_fits(image, numbers, instruction),
        Rule::Comparison(numbers) => comparison_fits(image, numbers, instruction),
        Rule::Logical => logical_fits(image, instruction),
        Rule::Negation => negation_fits(image, instruction),
        Rule::Call => call_fits(image, instruction),
        Rule::Condition => condition_fits(image, instruction),
        Rule::Returning => return_fits(image, context),
        Rule::ReturningValue => return_value_fits(image, context, instruction),
    }
}

/// Notes a pair that is completed, and says whether it was there before.
fn note_pair(pairs: &mut HashSet<(u32, u32)>, pair: Option<(u32, u32)>) -> Result<bool, AllocError>
    ensures told { IfOk result (λ taken. taken ≡ taken_in (contains same_pair pairs.old) pair) }
    ensures after { OnOk result ((q : ℕ × ℕ) → contains same_pair pairs.new q ≡ (is_pair pair q || contains same_pair pairs.old q)) }
{
    match pair {
        Some(pair) => {
            let added = pairs.insert(pair)?;
            Ok(!added)
        }
        None => Ok(false),
    }
}

/// Whether an instruction does not fit, or completes the set and binding of another buffer.
fn is_wrong(
    image: &Declarations,
    pairs: &mut HashSet<(u32, u32)>,
    context: &Context,
    place: usize,
    instruction: &Instruction,
) -> Result<bool, AllocError>
    requires context { context.now ≡ context_at image.now place }
    requires pairs { (q : ℕ × ℕ) → contains same_pair pairs.old q ≡ is_taken image.now (take place image.now) 0 q }
    ensures told { IfOk result (λ wrong. wrong ≡ is_wrong image.now place instruction.now) }
    ensures after { OnOk result ((q : ℕ × ℕ) → contains same_pair pairs.new q
        ≡ (is_pair (completed image.now place instruction.now) q || is_taken image.now (take place image.now) 0 q)) }
{
    let taken = note_pair(pairs, completed(image, place, instruction))?;
    let behind = behind(image.code(), place);
    Ok(taken || !fits(image, context, place, instruction, behind))
}

/// The number of the first instruction whose types do not fit, counted from 0.
pub fn first_wrong(
    alloc: Global,
    image: &Declarations,
    code: &[Instruction],
) -> Result<Option<usize>, AllocError>
    requires { image.now ≡ code.now }
    ensures { IfOk result (IsFirstWrong (has_wrong_types code.now) (length code.now)) }
{
    let mut context = outside();
    let mut pairs = HashSet::new(alloc);
    for (place, instruction) in code.iter().enumerate() {
        if is_wrong(image, &mut pairs, &context, place, instruction)? {
            return Ok(Some(place));
        }
        context = context.after(instruction);
    }
    Ok(None)
}
