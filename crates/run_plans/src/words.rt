// The words with which a run begins.

ghost use Rattle.std.specs.Prelude.{◌≡◌, ◌&&◌, ℕ, nat_eq, ◌+◌, ◌≤◌, true, [], ◌∷◌, IfOk, OnOk, Some, length, replicate, slice_get};
ghost use Rattle.flat_values.specs.Ranges.{written};
ghost use Rattle.image_operands.specs.Marks.{is_buffer};
ghost use Rattle.run_plans.specs.Buffers.{AreBounds, Ascends};
ghost use Rattle.run_plans.specs.Ground.{rooms_of};
ghost use Rattle.run_plans.specs.Grounds.{IsGround};
ghost use Rattle.run_plans.specs.Values.{value_words, variable_words, number_of, AreTold, IsMade, IsWritten, IsWrittenIf};
ghost use Rattle.run_plans.specs.Plans.{IsSteady, set_of, binding_of};
ghost use Rattle.image_lookup.specs.Sorts.{sort_of, is_value_sort};

use crate::actions::function_behind;
use crate::base::{Bound, Ground};
use crate::buffers::literal_of;
use crate::calls::word_of;
use crate::parts::width_of;
use image_lookup::sort_of;
use image_places::result_of;
use spirv_words::{Instruction, Op};
use std::alloc::{AllocError, Global};

/// One word.
fn alone(alloc: Global, word: u32) -> Result<Vec<u32>, AllocError>
    ensures { IfOk result (λ words. words.items ≡ word ∷ []) }
{
    let mut words = Vec::new(alloc);
    words.push(word)?;
    Ok(words)
}

/// So many zeros.
fn zeros(alloc: Global, count: u32) -> Result<Vec<u32>, AllocError>
    ensures { IfOk result (λ words. words.items ≡ replicate count 0) }
{
    let mut words = Vec::new(alloc);
    words.resize(count as usize, 0)?;
    Ok(words)
}

/// The place of the buffer with a set and a binding among these, which ascend, where there is one.
fn place_among(bounds: &[Bound], set: u32, binding: u32) -> usize
    requires ascending { Ascends bounds.now }
    ensures { (n : ℕ) (b : Bound) → slice_get bounds.now n ≡ Some b → b.set ≡ set → b.binding ≡ binding → result ≡ n }
{
    let least = Bound {
        set,
        binding,
        words: 0,
    };
    match bounds.binary_search(&least) {
        Ok(place) => place,
        Err(place) => place,
    }
}

/// The number of a variable's buffer.
fn number_of(base: &Ground, id: u32) -> u32
    requires ground { IsGround base.now }
    requires bounds { AreBounds base.now.places.code base.now.buffers }
    requires buffer { is_buffer base.now.places.code id ≡ true }
    ensures { result ≡ number_of base.now.buffers (set_of base.now.places.code id) (binding_of base.now.places.code id) }
{
    let declarations = base.declarations();
    let set = literal_of(declarations, id, 34);
    let binding = literal_of(declarations, id, 33);
    word_of(place_among(base.buffers.as_slice(), set, binding))
}

/// The words of a variable outside of functions: a pointer to a built-in value, or into a buffer.
fn variable_words(alloc: Global, base: &Ground, id: u32, class: u32) -> Result<Vec<u32>, AllocError>
    requires ground { IsGround base.now }
    requires bounds { AreBounds base.now.places.code base.now.buffers }
    requires told { AreTold (variable_words base.now.places.code (rooms_of base.now) base.now.buffers id class) }
    ensures { IfOk result (λ words. variable_words base.now.places.code (rooms_of base.now) base.now.buffers id class ≡ Some words.items) }
{
    if class == 1 {
        return alone(alloc, base.input(literal_of(base.declarations(), id, 11)));
    }
    let mut words = alone(alloc, number_of(base, id))?;
    words.push(0)?;
    Ok(words)
}

/// The words of what an instruction outside of functions makes.
fn value_words(
    alloc: Global,
    base: &Ground,
    op: Op,
    operands: &[u32],
) -> Result<Vec<u32>, AllocError>
    requires ground { IsGround base.now }
    requires bounds { AreBounds base.now.places.code base.now.buffers }
    requires told { AreTold (value_words base.now.places.code (rooms_of base.now) base.now.buffers op operands.now) }
    ensures { IfOk result (λ words. value_words base.now.places.code (rooms_of base.now) base.now.buffers op operands.now ≡ Some words.items) }
{
    match (op, operands) {
        (Op::ConstantTrue, [_, _]) => alone(alloc, 1),
        (Op::ConstantFalse, [_, _]) => alone(alloc, 0),
        (Op::Constant, [_, _, word]) => alone(alloc, *word),
        (Op::ConstantNull, [of, _]) => zeros(alloc, width_of(base, *of)),
        (Op::Variable, [_, id, class]) => variable_words(alloc, base, *id, *class),
        _ => unreachable!(),
    }
}

/// Writes words at a place.
fn put_words(words: &mut [u32], place: u32, new: &[u32])
    requires inside { place + length new.now ≤ length words.old }
    ensures { words.new ≡ written words.old place new.now }
{
    let from = place as usize;
    words[from..from + new.len()].copy_from_slice(new);
}

/// Writes the words of the value that an instruction outside of functions makes.
fn write_value(
    alloc: Global,
    base: &Ground,
    words: &mut [u32],
    instruction: &Instruction,
) -> Result<(), AllocError>
    requires ground { IsGround base.now }
    requires bounds { AreBounds base.now.places.code base.now.buffers }
    requires all { length words.old ≡ (rooms_of base.now).total }
    requires made { IsMade base.now.places.code (rooms_of base.now) base.now.buffers instruction.now }
    ensures { OnOk result (IsWritten base.now.places.code (rooms_of base.now) base.now.buffers instruction.now words.old words.new) }
{
    let operands = instruction.operands.as_slice();
    let id = match result_of(instruction.op, operands) {
        Some(id) => id,
        None => unreachable!(),
    };
    let new = value_words(alloc, base, instruction.op, operands)?;
    put_words(words, base.slot(id), new.as_slice());
    Ok(())
}

/// The same, if the instruction makes a value and stands outside of functions.
fn write_outside(
    alloc: Global,
    base: &Ground,
    words: &mut [u32],
    function: usize,
    instruction: &Instruction,
) -> Result<(), AllocError>
    requires ground { IsGround base.now }
    requires bounds { AreBounds base.now.places.code base.now.buffers }
    requires all { length words.old ≡ (rooms_of base.now).total }
    requires made { function ≡ 0 → is_value_sort (sort_of instruction.now.op) ≡ true
        → IsMade base.now.places.code (rooms_of base.now) base.now.buffers instruction.now }
    ensures { OnOk result (IsWrittenIf (nat_eq function 0 && is_value_sort (sort_of instruction.now.op)) base.now.places.code (rooms_of base.now)
        base.now.buffers instruction.now words.old words.new) }
{
    if function == 0 && sort_of(instruction.op).is_value() {
        write_value(alloc, base, words, instruction)
    } else {
        Ok(())
    }
}

/// Writes the words of all values that are made outside of functions.
fn write_all(alloc: Global, base: &Ground, words: &mut [u32]) -> Result<(), AllocError>
    requires ground { IsGround base.now }
    requires bounds { AreBounds base.now.places.code base.now.buffers }
    requires empty { words.old ≡ replicate (rooms_of base.now).total 0 }
    ensures { OnOk result (IsSteady base.now.places.code (rooms_of base.now) words.new) }
{
    let mut function: usize = 0;
    for (number, instruction) in base.declarations().code().iter().enumerate() {
        write_outside(alloc, base, words, function, instruction)?;
        function = function_behind(instruction.op, number + 1, function);
    }
    Ok(())
}

/// The words with which a run begins: those of all that is outside of functions, and zeros.
pub fn first_words(alloc: Global, base: &Ground) -> Result<Vec<u32>, AllocError>
    requires ground { IsGround base.now }
    requires bounds { AreBounds base.now.places.code base.now.buffers }
    ensures { IfOk result (λ words. IsSteady base.now.places.code (rooms_of base.now) words.items) }
{
    let mut words = zeros(alloc, base.total())?;
    write_all(alloc, base, words.as_mut_slice())?;
    Ok(words)
}
