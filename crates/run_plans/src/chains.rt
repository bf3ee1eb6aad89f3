// Access chains, resolved to a fixed offset and steps.

ghost use Rattle.std.specs.Prelude.{◌≡◌, ◌++◌, true, IfOk, OnOk, is_some};
ghost use Rattle.image_lookup.specs.Lookups.{operand};
ghost use Rattle.image_operands.specs.Memory.{chain_end};
ghost use Rattle.run_plans.specs.Ground.{rooms_of};
ghost use Rattle.run_plans.specs.Grounds.{IsGround};
ghost use Rattle.run_plans.specs.Actions.{chain_of};
ghost use Rattle.run_plans.specs.Walks.{IsThere};
ghost use Rattle.run_plans.specs.Steps.{IsWalkIf, type_behind, offset_in, index_in};

use crate::base::Ground;
use crate::steps::{Step, step_from};
use image_declarations::is_buffer_class;
use run_actions::{Action, Index};
use sqlite_items::Items;
use std::alloc::{AllocError, Global};

/// A fixed offset in words, of which 2^32 - 1 stands for all that is more, and the steps by words.
#[derive(Drop)]
pub struct Walk {
    pub offset: u32,
    pub steps: Items<Index>,
}

/// The type to which a step leads.
fn type_behind(step: Step) -> u32
    ensures { result ≡ type_behind step }
{
    match step {
        Step::Member { type_id, .. } => type_id,
        Step::Element { type_id, .. } => type_id,
    }
}

/// How far a step leads by itself.
fn offset_of(step: Step) -> u32
    ensures { result ≡ offset_in step }
{
    match step {
        Step::Member { offset, .. } => offset,
        Step::Element { .. } => 0,
    }
}

/// Adds a step by a word to those of a chain.
fn add_step(steps: &mut Vec<Index>, step: Step) -> Result<(), AllocError>
    ensures { OnOk result (steps.new.items ≡ steps.old.items ++ index_in step) }
{
    match step {
        Step::Member { .. } => {}
        Step::Element { index, .. } => steps.push(index)?,
    }
    Ok(())
}

/// Where indices lead from a type on, if a run can go there.
fn walk_along(
    alloc: Global,
    places: &Ground,
    in_buffer: bool,
    type_id: u32,
    indices: &[u32],
) -> Result<Option<Walk>, AllocError>
    requires ground { IsGround places.now }
    requires leads { IsThere (chain_end places.now.places.code type_id indices.now) }
    ensures { IfOk result (IsWalkIf places.now.places.code (rooms_of places.now) in_buffer type_id indices.now) }
{
    let mut at = type_id;
    let mut offset: u32 = 0;
    let mut steps = Vec::new(alloc);
    for id in indices {
        let step = match step_from(places, in_buffer, at, *id) {
            Some(step) => step,
            None => return Ok(None),
        };
        add_step(&mut steps, step)?;
        offset = offset.saturating_add(offset_of(step));
        at = type_behind(step);
    }
    Ok(Some(Walk {
        offset,
        steps: Items::from_vec(steps),
    }))
}

/// The action of an access chain from a pointer, with these indices. Of an offset of more words than 32 bits tell the greatest
/// word is told: no place is behind it.
pub fn chain_of(
    alloc: Global,
    places: &Ground,
    to: u32,
    pointer: u32,
    indices: &[u32],
) -> Result<Action, AllocError>
    requires ground { IsGround places.now }
    requires leads { is_some (chain_end places.now.places.code (operand places.now.places.code (operand places.now.places.code pointer 0) 2) indices.now) ≡ true }
    ensures { IfOk result (λ action. action ≡ chain_of places.now.places.code (rooms_of places.now) to pointer indices.now) }
{
    let declarations = places.declarations();
    let pointers = declarations.operand(pointer, 0);
    let of = declarations.operand(pointers, 2);
    if !places.places.has_shape(of) {
        return Ok(Action::Never);
    }
    let in_buffer = is_buffer_class(declarations.operand(pointers, 1));
    let Walk { offset, steps } = match walk_along(alloc, places, in_buffer, of, indices)? {
        Some(walk) => walk,
        None => return Ok(Action::Never),
    };
    let pointer = places.slot(pointer);
    let to = places.slot(to);
    if in_buffer {
        Ok(Action::BufferChain {
            pointer,
            to,
            offset,
            steps,
        })
    } else {
        Ok(Action::Chain {
            pointer,
            to,
            offset,
            steps,
        })
    }
}
