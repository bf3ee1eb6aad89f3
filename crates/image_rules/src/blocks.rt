// The form of an image's blocks.

ghost use Rattle.std.specs.Prelude.{◌≡◌, ◌<◌, ◌+◌, ◌^◌, ◌||◌, not, ℕ, Some, None, cond, length, unwrap_or, IfOk, OnOk};
ghost use Rattle.std.specs.Ordering.{nat_cmp};
ghost use Rattle.std.specs.BTreeMap.{get};
ghost use Rattle.spirv_words.specs.Words.{image_words, body_words};
ghost use Rattle.spirv_words.specs.Machine.{is_some_number};
ghost use Rattle.image_places.specs.Places.{IsFirst, op_at};
ghost use Rattle.image_rules.specs.Blocks.{is_ending, stays_in_front, precedes, targets, labels, label_function, are_labels, is_broken, BadBlock};

use image_places::{Cursor, places_grow, the_first_wrong_instruction_is_the_first_fault};
use spirv_words::{Image, Instruction, Op};
use std::alloc::{AllocError, Global};
use std::collections::BTreeMap;

/// The place of the first instruction that a block may not have there: a Label or FunctionEnd where the block has not ended,
/// another one after its end; a variable of a function that is not among the first of its first block; a merge that does not
/// stand directly before its branch; a branch or a merge that names something else than a Label of its function.
pub fn first_block_fault(alloc: Global, image: &Image) -> Result<Option<usize>, AllocError>
    requires { length (image_words image.now) < 2 ^ 64 }
    ensures { IfOk result (λ place. IsFirst (BadBlock image.now) place) }
{
    places_grow();
    the_first_wrong_instruction_is_the_first_fault();
    let instructions = image.instructions.as_slice();
    let labels = label_functions(alloc, instructions)?;
    let mut cursor = Cursor::start();
    let mut ended = false;
    let mut front = false;
    for instruction in instructions {
        let next = op_at(instructions, cursor.number + 1);
        if breaks_block(instruction, &labels, ended, &cursor, front, next) {
            return Ok(Some(cursor.place));
        }
        ended = is_ending(instruction.op);
        front = stays_in_front(instruction.op, cursor.block, front);
        cursor.pass(instruction);
    }
    Ok(None)
}

/// The opcode of an instruction, if there are so many.
fn op_at(instructions: &[Instruction], number: usize) -> Option<Op>
    ensures { result ≡ op_at instructions.now number }
{
    match instructions.get(number) {
        Some(instruction) => Some(instruction.op),
        None => None,
    }
}

/// The function of each Label, by its id.
fn label_functions(
    alloc: Global,
    instructions: &[Instruction],
) -> Result<BTreeMap<u32, usize>, AllocError>
    requires { 5 + length (body_words instructions.now) < 2 ^ 64 }
    ensures { IfOk result (λ map. (id : ℕ) → unwrap_or (get nat_cmp map id) 0 ≡ label_function instructions.now (length instructions.now) id) }
{
    places_grow();
    let mut map = BTreeMap::new(alloc);
    let mut cursor = Cursor::start();
    for instruction in instructions {
        add_label(&mut map, instruction, cursor.function)?;
        cursor.pass(instruction);
    }
    Ok(map)
}

fn add_label(
    map: &mut BTreeMap<u32, usize>,
    instruction: &Instruction,
    function: usize,
) -> Result<(), AllocError>
    ensures { OnOk result ((q : ℕ) → unwrap_or (get nat_cmp map.new q) 0
        ≡ cond (labels (Some instruction.now) q) function (unwrap_or (get nat_cmp map.old q) 0)) }
{
    match (instruction.op, instruction.operands.as_slice().first()) {
        (Op::Label, Some(id)) => put_label(map, *id, function),
        _ => Ok(()),
    }
}

fn put_label(map: &mut BTreeMap<u32, usize>, id: u32, function: usize) -> Result<(), AllocError>
    ensures { OnOk result ((q : ℕ) → get nat_cmp map.new q ≡ cond (is_some_number (Some id) q) (Some function) (get nat_cmp map.old q)) }
{
    map.insert(id, function)?;
    Ok(())
}

/// Whether a block may not have an instruction where a walk through the image is, or not before another opcode.
fn breaks_block(
    instruction: &Instruction,
    labels: &BTreeMap<u32, usize>,
    ended: bool,
    cursor: &Cursor,
    front: bool,
    next: Option<Op>,
) -> bool
    ensures { result ≡ (is_broken instruction.now.op ended cursor.now.function cursor.now.block front next
        || not (are_labels (λ id. unwrap_or (get nat_cmp labels.now id) 0) cursor.now.function (targets instruction.now.op instruction.now.operands))) }
{
    is_broken(instruction.op, ended, cursor, front, next)
        || !leads_to_labels(labels, cursor.function, instruction)
}

/// Whether an instruction may not stand where a walk through the image is, before another opcode.
fn is_broken(op: Op, ended: bool, cursor: &Cursor, front: bool, next: Option<Op>) -> bool
    ensures { result ≡ is_broken op ended cursor.now.function cursor.now.block front next }
{
    match op {
        Op::Label => cursor.block != 0 && !ended,
        Op::FunctionEnd => !ended,
        Op::Variable => ended || (cursor.function != 0 && !front),
        _ => ended || !precedes(op, next),
    }
}

/// The opcodes that end a block.
fn is_ending(op: Op) -> bool
    ensures { result ≡ is_ending op }
{
    matches!(
        op,
        Op::Branch | Op::BranchConditional | Op::Return | Op::ReturnValue | Op::Unreachable
    )
}

/// Whether after this opcode nothing but variables stands behind the first Label of a function.
fn stays_in_front(op: Op, block: usize, before: bool) -> bool
    ensures { result ≡ stays_in_front (Some op) block before }
{
    match op {
        Op::Label => block == 0,
        Op::Variable => before,
        _ => false,
    }
}

/// Whether what follows a merge is its branch.
fn precedes(op: Op, next: Option<Op>) -> bool
    ensures { result ≡ precedes op next }
{
    match op {
        Op::SelectionMerge => matches!(next, Some(Op::BranchConditional)),
        Op::LoopMerge => matches!(next, Some(Op::Branch | Op::BranchConditional)),
        _ => true,
    }
}

/// Whether each label that an instruction names is one of its function.
fn leads_to_labels(
    labels: &BTreeMap<u32, usize>,
    function: usize,
    instruction: &Instruction,
) -> bool
    ensures { result ≡ are_labels (λ id. unwrap_or (get nat_cmp labels.now id) 0) function (targets instruction.now.op instruction.now.operands) }
{
    for id in targets(instruction.op, instruction.operands.as_slice()) {
        if function == 0 || labels.get(id).copied().unwrap_or(0) != function {
            return false;
        }
    }
    true
}

/// The labels that an instruction names.
fn targets(op: Op, operands: &[u32]) -> &[u32]
    ensures { result.now ≡ targets op operands.now }
{
    match (op, operands.len()) {
        (Op::Branch, 1) => operands,
        (Op::BranchConditional, 3) => &operands[1..],
        (Op::LoopMerge, 3) => &operands[..2],
        (Op::SelectionMerge, 2) => &operands[..1],
        _ => &operands[..0],
    }
}
