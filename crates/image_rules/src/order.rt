// The order of the instructions of an image.

ghost use Rattle.std.specs.Prelude.{◌≡◌, ◌<◌, ◌^◌, length, nat_eq, cond, Some};
ghost use Rattle.spirv_words.specs.Words.{image_words};
ghost use Rattle.image_places.specs.Places.{IsFirst};
ghost use Rattle.image_rules.specs.Order.{section, may_follow, may_stand, is_misplaced, OutOfOrder};

use image_places::{Cursor, places_grow, the_first_wrong_instruction_is_the_first_fault};
use spirv_words::{Image, Op};

/// The place, in words, of the first instruction that is out of order: one in an earlier section than its forerunner, not
/// one each of capability, memory model, entry point and mode, something in a function that stands outside of functions or
/// the other way round, a parameter behind a Label, or another instruction before the first. A missing FunctionEnd, or a
/// missing section of the first four, stands at the end of the image.
pub fn first_order_fault(image: &Image) -> Option<usize>
    requires { length (image_words image.now) < 2 ^ 64 }
    ensures { IsFirst (OutOfOrder image.now) result }
{
    places_grow();
    the_first_wrong_instruction_is_the_first_fault();
    let instructions = image.instructions.as_slice();
    let mut cursor = Cursor::start();
    let mut reached = 0;
    for instruction in instructions {
        let op = instruction.op;
        if is_misplaced(Some(op), cursor.function, cursor.block, reached) {
            return Some(cursor.place);
        }
        reached = reached_after(op, cursor.function, reached);
        cursor.pass(instruction);
    }
    if is_misplaced(None, cursor.function, cursor.block, reached) {
        return Some(cursor.place);
    }
    None
}

/// Whether an instruction, or the end of the image, is out of order where a walk through the image is.
fn is_misplaced(op: Option<Op>, function: usize, block: usize, reached: u8) -> bool
    ensures { result ≡ is_misplaced op function block reached }
{
    match op {
        None => function != 0 || reached < 4,
        Some(op) if function == 0 => !may_follow(reached, section(op)),
        Some(op) => !may_stand(op, block),
    }
}

/// The section that is reached after an instruction, in a function or outside of them.
fn reached_after(op: Op, function: usize, reached: u8) -> u8
    ensures { result ≡ cond (nat_eq function 0) (section op) reached }
{
    if function == 0 { section(op) } else { reached }
}

/// Whether an instruction of a section may stand outside of functions where the section before it was reached.
fn may_follow(reached: u8, next: u8) -> bool
    ensures { result ≡ may_follow reached next }
{
    if next <= 4 {
        next != 0 && next - 1 == reached
    } else {
        4 <= reached && reached <= next
    }
}

/// Whether an instruction may stand in a function, where a block is open or none was.
fn may_stand(op: Op, block: usize) -> bool
    ensures { result ≡ may_stand op block }
{
    match op {
        Op::Label => true,
        Op::FunctionParameter => block == 0,
        Op::Variable => block != 0,
        _ => section(op) == 0 && block != 0,
    }
}

/// The section in which an opcode stands outside of functions, counted from 1 on, or 0 if it stands in functions alone.
fn section(op: Op) -> u8
    ensures { result ≡ section op }
{
    match op {
        Op::Capability => 1,
        Op::MemoryModel => 2,
        Op::EntryPoint => 3,
        Op::ExecutionMode => 4,
        Op::Name => 5,
        Op::Decorate | Op::MemberDecorate => 6,
        Op::TypeVoid | Op::TypeBool | Op::TypeInt | Op::TypeVector => 7,
        Op::ConstantTrue | Op::ConstantFalse | Op::Constant => 8,
        Op::TypeArray | Op::TypeRuntimeArray | Op::TypeStruct => 9,
        Op::TypePointer => 10,
        Op::TypeFunction => 11,
        Op::ConstantNull => 12,
        Op::Variable => 13,
        Op::Function => 14,
        _ => 0,
    }
}
