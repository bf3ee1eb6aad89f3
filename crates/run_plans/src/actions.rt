// The action of each instruction.

ghost use Rattle.std.specs.Prelude.{◌≡◌, ℕ, ◌<◌, List, [], IfOk, Some, length};
ghost use Rattle.spirv_words.specs.declared.images.Instruction.{Instruction};
ghost use Rattle.image_places.specs.Places.{function_of, under_function};
ghost use Rattle.run_rooms.specs.Rooms.{Rooms};
ghost use Rattle.run_plans.specs.declared.kinds.Kind.TheVariants.{Variable as DoVariable, Load as DoLoad, Store as DoStore, Chain as DoChain, Construct as DoConstruct, Extract as DoExtract, Same as DoSame, One as DoOne, Two as DoTwo, Turned as DoTurned, Branch as DoBranch, Condition as DoCondition, Call as DoCall, Return as DoReturn, GiveBack as DoGiveBack, Unreachable as DoUnreachable};
ghost use Rattle.run_plans.specs.Ground.{rooms_of};
ghost use Rattle.run_plans.specs.Grounds.{IsGround};
ghost use Rattle.run_plans.specs.Acted.{IsActed};
ghost use Rattle.run_plans.specs.Actions.{is_in_buffer, load_of, store_of, same_of, one_of, two_of, jump_of, choice_of, act_by, action_of};
ghost use Rattle.run_plans.specs.Plans.{AreActions};

use crate::base::Ground;
use crate::calls::{call_of, give_back_of, place_of, return_of};
use crate::chains::chain_of;
use crate::composites::{extract_of, gathered};
use crate::kinds::{Kind, kind_of};
use crate::parts::{size_of, slot_size};
use flat_values::{Binary, Unary};
use image_declarations::is_buffer_class;
use run_actions::{Action, Move};
use spirv_words::Op;
use std::alloc::{AllocError, Global};

/// Whether a pointer leads into a buffer.
fn is_in_buffer(places: &Ground, pointer: u32) -> bool
    ensures { result ≡ is_in_buffer places.now.places.code pointer }
{
    let declarations = places.declarations();
    is_buffer_class(declarations.operand(declarations.operand(pointer, 0), 1))
}

fn load_of(places: &Ground, type_id: u32, to: u32, pointer: u32) -> Action
    ensures { result ≡ load_of places.now.places.code (rooms_of places.now) type_id to pointer }
{
    let count = size_of(places, type_id);
    let from = places.slot(pointer);
    let to = places.slot(to);
    if is_in_buffer(places, pointer) {
        Action::Read { pointer: from, to }
    } else {
        Action::Load {
            pointer: from,
            to,
            count,
        }
    }
}

fn store_of(places: &Ground, pointer: u32, value: u32) -> Action
    ensures { result ≡ store_of places.now.places.code (rooms_of places.now) pointer value }
{
    let count = slot_size(places, value);
    let to = places.slot(pointer);
    let from = places.slot(value);
    if is_in_buffer(places, pointer) {
        Action::Write { pointer: to, from }
    } else {
        Action::Store {
            pointer: to,
            from,
            count,
        }
    }
}

fn same_of(places: &Ground, type_id: u32, to: u32, from: u32) -> Action
    ensures { result ≡ same_of places.now.places.code (rooms_of places.now) type_id to from }
{
    Action::Copy {
        part: Move {
            from: places.slot(from),
            to: places.slot(to),
            count: size_of(places, type_id),
        },
    }
}

fn one_of(places: &Ground, op: Unary, type_id: u32, to: u32, from: u32) -> Action
    ensures { result ≡ one_of places.now.places.code (rooms_of places.now) op type_id to from }
{
    Action::One {
        op,
        from: places.slot(from),
        to: places.slot(to),
        count: size_of(places, type_id),
    }
}

fn two_of(places: &Ground, op: Binary, type_id: u32, to: u32, left: u32, right: u32) -> Action
    ensures { result ≡ two_of places.now.places.code (rooms_of places.now) op type_id to left right }
{
    Action::Two {
        op,
        left: places.slot(left),
        right: places.slot(right),
        to: places.slot(to),
        count: size_of(places, type_id),
    }
}

fn jump_of(places: &Ground, label: u32) -> Action
    requires ground { IsGround places.now }
    ensures { result ≡ jump_of places.now.places.code (rooms_of places.now) label }
{
    match place_of(places, label) {
        Some(place) => Action::Jump { place },
        None => Action::Never,
    }
}

fn choice_of(places: &Ground, condition: u32, one: u32, other: u32) -> Action
    requires ground { IsGround places.now }
    ensures { result ≡ choice_of places.now.places.code (rooms_of places.now) condition one other }
{
    match (place_of(places, one), place_of(places, other)) {
        (Some(one), Some(other)) => Action::Choose {
            condition: places.slot(condition),
            one,
            other,
        },
        _ => Action::Never,
    }
}

// ---- an instruction of each kind, by its operands

/// A variable's pointer is put where its words are looked for.
fn put(places: &Ground, operands: &[u32]) -> Action
    ensures { (number : ℕ) → result ≡ act_by places.now.places.code (rooms_of places.now) number DoVariable operands.now }
{
    match operands {
        [_, id, _] => Action::Put {
            to: places.slot(*id),
            word: places.room(*id),
        },
        _ => Action::Never,
    }
}

/// A load.
fn load(places: &Ground, operands: &[u32]) -> Action
    ensures { (number : ℕ) → result ≡ act_by places.now.places.code (rooms_of places.now) number DoLoad operands.now }
{
    match operands {
        [of, to, pointer] => load_of(places, *of, *to, *pointer),
        _ => Action::Never,
    }
}

/// A store.
fn store(places: &Ground, operands: &[u32]) -> Action
    ensures { (number : ℕ) → result ≡ act_by places.now.places.code (rooms_of places.now) number DoStore operands.now }
{
    match operands {
        [pointer, value] => store_of(places, *pointer, *value),
        _ => Action::Never,
    }
}

/// What is given as it is.
fn same(places: &Ground, operands: &[u32]) -> Action
    ensures { (number : ℕ) → result ≡ act_by places.now.places.code (rooms_of places.now) number DoSame operands.now }
{
    match operands {
        [of, to, from] => same_of(places, *of, *to, *from),
        _ => Action::Never,
    }
}

/// An operator of one operand.
fn one(places: &Ground, op: Unary, operands: &[u32]) -> Action
    ensures { (number : ℕ) → result ≡ act_by places.now.places.code (rooms_of places.now) number (DoOne op) operands.now }
{
    match operands {
        [of, to, from] => one_of(places, op, *of, *to, *from),
        _ => Action::Never,
    }
}

/// An operator of two operands.
fn two(places: &Ground, op: Binary, operands: &[u32]) -> Action
    ensures { (number : ℕ) → result ≡ act_by places.now.places.code (rooms_of places.now) number (DoTwo op) operands.now }
{
    match operands {
        [of, to, left, right] => two_of(places, op, *of, *to, *left, *right),
        _ => Action::Never,
    }
}

/// An operator of two operands in the other order.
fn turned(places: &Ground, op: Binary, operands: &[u32]) -> Action
    ensures { (number : ℕ) → result ≡ act_by places.now.places.code (rooms_of places.now) number (DoTurned op) operands.now }
{
    match operands {
        [of, to, left, right] => two_of(places, op, *of, *to, *right, *left),
        _ => Action::Never,
    }
}

/// A branch.
fn jump(places: &Ground, operands: &[u32]) -> Action
    requires ground { IsGround places.now }
    ensures { (number : ℕ) → result ≡ act_by places.now.places.code (rooms_of places.now) number DoBranch operands.now }
{
    match operands {
        [label] => jump_of(places, *label),
        _ => Action::Never,
    }
}

/// A branch by a condition.
fn condition(places: &Ground, operands: &[u32]) -> Action
    requires ground { IsGround places.now }
    ensures { (number : ℕ) → result ≡ act_by places.now.places.code (rooms_of places.now) number DoCondition operands.now }
{
    match operands {
        [condition, one, other] => choice_of(places, *condition, *one, *other),
        _ => Action::Never,
    }
}

/// An access chain.
fn chain(alloc: Global, places: &Ground, operands: &[u32]) -> Result<Action, AllocError>
    requires ground { IsGround places.now }
    requires acted { IsActed places.now.places.code (rooms_of places.now) DoChain operands.now }
    ensures { (number : ℕ) → IfOk result (λ action. action ≡ act_by places.now.places.code (rooms_of places.now) number DoChain operands.now) }
{
    match operands {
        [_, to, pointer, indices @ ..] => chain_of(alloc, places, *to, *pointer, indices),
        _ => Ok(Action::Never),
    }
}

/// A composite that is made of its parts.
fn construct(alloc: Global, places: &Ground, operands: &[u32]) -> Result<Action, AllocError>
    requires ground { IsGround places.now }
    requires acted { IsActed places.now.places.code (rooms_of places.now) DoConstruct operands.now }
    ensures { (number : ℕ) → IfOk result (λ action. action ≡ act_by places.now.places.code (rooms_of places.now) number DoConstruct operands.now) }
{
    match operands {
        [_, to, values @ ..] => Ok(Action::Gather {
            parts: gathered(alloc, places, values, places.slot(*to))?,
        }),
        _ => Ok(Action::Never),
    }
}

/// A part that is taken out of a composite.
fn extract(places: &Ground, operands: &[u32]) -> Action
    requires ground { IsGround places.now }
    requires acted { IsActed places.now.places.code (rooms_of places.now) DoExtract operands.now }
    ensures { (number : ℕ) → result ≡ act_by places.now.places.code (rooms_of places.now) number DoExtract operands.now }
{
    match operands {
        [of, to, composite, path @ ..] => extract_of(places, *of, *to, *composite, path),
        _ => Action::Never,
    }
}

/// A call, at an instruction with a number.
fn call(
    alloc: Global,
    places: &Ground,
    number: usize,
    operands: &[u32],
) -> Result<Action, AllocError>
    requires ground { IsGround places.now }
    requires inside { number < length places.now.places.code }
    requires acted { IsActed places.now.places.code (rooms_of places.now) DoCall operands.now }
    ensures { IfOk result (λ action. action ≡ act_by places.now.places.code (rooms_of places.now) number DoCall operands.now) }
{
    match operands {
        [_, to, callee, arguments @ ..] => call_of(alloc, places, number, *to, *callee, arguments),
        _ => Ok(Action::Never),
    }
}

/// A return from a function.
fn give_nothing(places: &Ground, function: usize, operands: &[u32]) -> Action
    ensures { (number : ℕ) → function ≡ function_of places.now.places.code number → result ≡ act_by places.now.places.code (rooms_of places.now) number DoReturn operands.now }
{
    match operands {
        [] => return_of(places, function),
        _ => Action::Never,
    }
}

/// A return with a value from a function.
fn give_back(places: &Ground, function: usize, operands: &[u32]) -> Action
    ensures { (number : ℕ) → function ≡ function_of places.now.places.code number → result ≡ act_by places.now.places.code (rooms_of places.now) number DoGiveBack operands.now }
{
    match operands {
        [value] => give_back_of(places, function, *value),
        _ => Action::Never,
    }
}

/// A place that no run reaches.
fn unreached(operands: &[u32]) -> Action
    ensures { (code : List Instruction) (L : Rooms) (number : ℕ) → result ≡ act_by code L number DoUnreachable operands.now }
{
    match operands {
        [] => Action::Unreachable,
        _ => Action::Never,
    }
}

/// The action of an instruction of a kind, with a number, in a function.
fn act_by(
    alloc: Global,
    places: &Ground,
    number: usize,
    function: usize,
    kind: Kind,
    operands: &[u32],
) -> Result<Action, AllocError>
    requires ground { IsGround places.now }
    requires inside { number < length places.now.places.code }
    requires open { function ≡ function_of places.now.places.code number }
    requires acted { IsActed places.now.places.code (rooms_of places.now) kind operands.now }
    ensures { IfOk result (λ action. action ≡ act_by places.now.places.code (rooms_of places.now) number kind operands.now) }
{
    match kind {
        Kind::Chain => chain(alloc, places, operands),
        Kind::Construct => construct(alloc, places, operands),
        Kind::Call => call(alloc, places, number, operands),
        Kind::Pass => Ok(Action::Pass),
        Kind::Never => Ok(Action::Never),
        Kind::Variable => Ok(put(places, operands)),
        Kind::Load => Ok(load(places, operands)),
        Kind::Store => Ok(store(places, operands)),
        Kind::Extract => Ok(extract(places, operands)),
        Kind::Same => Ok(same(places, operands)),
        Kind::One(op) => Ok(one(places, op, operands)),
        Kind::Two(op) => Ok(two(places, op, operands)),
        Kind::Turned(op) => Ok(turned(places, op, operands)),
        Kind::Branch => Ok(jump(places, operands)),
        Kind::Condition => Ok(condition(places, operands)),
        Kind::Return => Ok(give_nothing(places, function, operands)),
        Kind::GiveBack => Ok(give_back(places, function, operands)),
        Kind::Unreachable => Ok(unreached(operands)),
    }
}

/// The function that is open behind an instruction, by that before it; the instruction's number counts from 1 on.
pub fn function_behind(op: Op, number: usize, function: usize) -> usize
    ensures { result ≡ under_function (Some op) number function }
{
    match op {
        Op::Function => number,
        Op::FunctionEnd => 0,
        _ => function,
    }
}

/// The actions of all instructions.
pub fn actions_of(alloc: Global, places: &Ground) -> Result<Vec<Action>, AllocError>
    requires ground { IsGround places.now }
    ensures { IfOk result (λ actions. AreActions places.now.places.code (rooms_of places.now) actions.items) }
{
    let mut actions = Vec::new(alloc);
    let mut function: usize = 0;
    for (number, instruction) in places.declarations().code().iter().enumerate() {
        let kind = kind_of(instruction.op);
        let operands = instruction.operands.as_slice();
        actions.push(act_by(alloc, places, number, function, kind, operands)?)?;
        function = function_behind(instruction.op, number + 1, function);
    }
    Ok(actions)
}
