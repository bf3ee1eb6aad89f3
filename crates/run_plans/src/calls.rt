// Calls, returns, and places that a run goes to.

ghost use Rattle.std.specs.Prelude.{◌≡◌, ◌+◌, ◌^◌, ◌<◌, ℕ, [], IfOk, length};
ghost use Rattle.spirv_words.specs.Machine.{second_of, place_of};
ghost use Rattle.run_plans.specs.Acted.{IsCalled};
ghost use Rattle.run_plans.specs.Ground.{rooms_of};
ghost use Rattle.run_plans.specs.Grounds.{IsGround};
ghost use Rattle.run_plans.specs.Actions.{passed, call_of, is_entry_number, return_of, give_back_of};
ghost use Rattle.run_plans.specs.Calls.{given_at};

use crate::base::Ground;
use crate::composites::move_of;
use crate::parts::slot_size;
use image_lookup::entry_of;
use run_actions::{Action, Move};
use sqlite_items::Items;
use std::alloc::{AllocError, Global};

/// A number, as a word.
pub fn word_of(number: usize) -> u32
    requires { number < 2 ^ 32 }
    ensures { result ≡ number }
{
    number as u32
}

/// The place of what an id stands for, as a word.
pub fn place_of(places: &Ground, id: u32) -> Option<u32>
    requires ground { IsGround places.now }
    ensures { result ≡ place_of places.now.places.code id 0 }
{
    match places.declarations().definitions().place(id) {
        Some(place) => Some(word_of(place)),
        None => None,
    }
}

/// The second of some operands.
fn second_of(operands: &[u32]) -> Option<u32>
    ensures { result ≡ second_of operands.now }
{
    match operands {
        [_, id, ..] => Some(*id),
        _ => None,
    }
}

/// The id that the instruction at a place has behind its type.
fn given_at(places: &Ground, place: usize) -> Option<u32>
    ensures { result ≡ given_at places.now.places.code place }
{
    match places.declarations().code().get(place) {
        Some(instruction) => second_of(instruction.operands.as_slice()),
        None => None,
    }
}

/// The words of arguments, copied to the parameters that stand from a place on.
fn passed(
    alloc: Global,
    places: &Ground,
    arguments: &[u32],
    place: usize,
) -> Result<Items<Move>, AllocError>
    requires ground { IsGround places.now }
    requires near { place + length arguments.now < 2 ^ 32 }
    ensures { IfOk result (λ parts. parts ≡ passed places.now.places.code (rooms_of places.now) arguments.now place) }
{
    let mut parts = Vec::new(alloc);
    let mut at = place;
    for argument in arguments {
        let parameter = match given_at(places, at) {
            Some(parameter) => parameter,
            None => return Ok(Items::from_vec(parts)),
        };
        parts.push(move_of(places, *argument, places.slot(parameter)))?;
        at += 1;
    }
    Ok(Items::from_vec(parts))
}

/// The action of a call, at an instruction with a number.
pub fn call_of(
    alloc: Global,
    places: &Ground,
    number: usize,
    to: u32,
    function: u32,
    arguments: &[u32],
) -> Result<Action, AllocError>
    requires ground { IsGround places.now }
    requires inside { number < length places.now.places.code }
    requires called { IsCalled places.now.places.code function arguments.now }
    ensures { IfOk result (λ action. action ≡ call_of places.now.places.code (rooms_of places.now) number to function arguments.now) }
{
    let first = match places.declarations().definitions().place(function) {
        Some(place) => place + 1,
        None => return Ok(Action::Never),
    };
    let parts = passed(alloc, places, arguments, first)?;
    Ok(Action::Call {
        place: word_of(first + arguments.len()),
        parts,
        first: places.rooms(first),
        count: places.rooms_count(first),
        frame: places.frame(first),
        back: word_of(number + 1),
        to: places.slot(to),
    })
}

/// Whether a function, counted from 1 on, is the entry.
fn is_entry(places: &Ground, function: usize) -> bool
    ensures { result ≡ is_entry_number places.now.places.code (rooms_of places.now) function }
{
    match entry_of(places.declarations().code()) {
        Some(entry) => match places.declarations().definitions().place(entry) {
            Some(place) => match place.checked_add(1) {
                Some(number) => function == number,
                None => false,
            },
            None => false,
        },
        None => false,
    }
}

/// The action of a return from a function.
pub fn return_of(places: &Ground, function: usize) -> Action
    ensures { result ≡ return_of places.now.places.code (rooms_of places.now) function }
{
    if is_entry(places, function) {
        Action::End
    } else {
        Action::Return {
            frame: places.frame(function),
        }
    }
}

/// The action of a return with a value from a function.
pub fn give_back_of(places: &Ground, function: usize, value: u32) -> Action
    ensures { result ≡ give_back_of places.now.places.code (rooms_of places.now) function value }
{
    Action::GiveBack {
        frame: places.frame(function),
        from: places.slot(value),
        count: slot_size(places, value),
    }
}
