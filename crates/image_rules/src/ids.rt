// What the ids of an image stand for, and where.

ghost use Rattle.std.specs.Prelude.{◌≡◌, ◌<◌, ◌+◌, ◌^◌, length, IfOk};
ghost use Rattle.std.specs.Ordering.{nat_cmp};
ghost use Rattle.std.specs.BTreeMap.{get};
ghost use Rattle.spirv_words.specs.Words.{image_words};
ghost use Rattle.image_places.specs.Places.{IsFirst};
ghost use Rattle.image_rules.specs.Ids.{holds, suits, in_bound, is_wrong_id, is_wrong_operand, IsFirstBelow, WrongId};

use crate::table::{Definition, Scope, definitions};
use image_places::{Cursor, Role, places_grow, role_of, text_end};
use spirv_words::{Image, Instruction};
use std::alloc::{AllocError, Global};
use std::collections::BTreeMap;

/// The place of the first word that is a wrong id: 0, not below the bound, defined nowhere or a second time, or used where
/// its definition does not hold. Types and constants hold after their definition; parameters and variables of a function in
/// that function; labels, functions and other variables everywhere; other results after their instruction in its block.
/// Names, decorations, the entry point and its mode use nothing: their ids need only be defined.
pub fn first_id_fault(alloc: Global, image: &Image) -> Result<Option<usize>, AllocError>
    requires { length (image_words image.now) < 2 ^ 64 }
    ensures { IfOk result (λ place. IsFirst (WrongId image.now) place) }
{
    places_grow();
    let instructions = image.instructions.as_slice();
    let map = definitions(alloc, instructions)?;
    let mut cursor = Cursor::start();
    for instruction in instructions {
        let place = cursor.place;
        let number = cursor.number;
        cursor.pass(instruction);
        match wrong_operand(
            &map,
            image.bound,
            instruction,
            number,
            cursor.function,
            cursor.block,
        ) {
            Some(operand) => return Ok(Some(place + 1 + operand)),
            None => {}
        }
    }
    Ok(None)
}

/// The number of the first operand that is a wrong id.
fn wrong_operand(
    map: &BTreeMap<u32, Definition>,
    bound: u32,
    instruction: &Instruction,
    here: usize,
    function: usize,
    block: usize,
) -> Option<usize>
    ensures { IsFirstBelow (is_wrong_operand (get nat_cmp map.now) bound instruction.now here function block) (length instruction.now.operands) result }
{
    let operands = instruction.operands.as_slice();
    let end = text_end(instruction.op, operands);
    for (operand, id) in operands.iter().enumerate() {
        let role = role_of(instruction.op, end, operand);
        let definition = map.get(id).copied();
        if is_wrong_id(bound, definition, role, *id, here, function, block) {
            return Some(operand);
        }
    }
    None
}

fn is_wrong_id(
    bound: u32,
    definition: Option<Definition>,
    role: Role,
    id: u32,
    here: usize,
    function: usize,
    block: usize,
) -> bool
    ensures { result ≡ is_wrong_id bound definition role id here function block }
{
    !(in_bound(role, bound, id) && suits(role, definition, here, function, block))
}

fn in_bound(role: Role, bound: u32, id: u32) -> bool
    ensures { result ≡ in_bound role bound id }
{
    match role {
        Role::Literal => true,
        _ => 0 < id && id < bound,
    }
}

/// Whether a word may stand in this role at an instruction with this number, in this function and this block.
fn suits(
    role: Role,
    definition: Option<Definition>,
    here: usize,
    function: usize,
    block: usize,
) -> bool
    ensures { result ≡ suits role definition here function block }
{
    match (role, definition) {
        (Role::Literal, _) => true,
        (_, None) => false,
        (Role::Result, Some(definition)) => definition.number == here,
        (Role::Use, Some(definition)) => holds(definition.scope, here, function, block),
        (Role::Mention, Some(_)) => true,
    }
}

/// Whether a definition holds at the instruction with this number, in this function and this block.
fn holds(scope: Scope, here: usize, function: usize, block: usize) -> bool
    ensures { result ≡ holds scope here function block }
{
    match scope {
        Scope::Everywhere => true,
        Scope::After(place) => place < here,
        Scope::InFunction(own) => own == function,
        Scope::InBlock(own, place) => own == block && place < here,
    }
}
