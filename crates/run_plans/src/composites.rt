// Composites that are made of parts, and parts that are taken out of them.

ghost use Rattle.std.specs.Prelude.{◌≡◌, ◌+◌, ◌^◌, ◌<◌, ◌≤◌, true, Some, [], IfOk};
ghost use Rattle.image_lookup.specs.Lookups.{operand, is_value};
ghost use Rattle.image_declarations.specs.Holdings.{is_data};
ghost use Rattle.image_operands.specs.Composites.{extract_end};
ghost use Rattle.run_rooms.specs.Rooms.{slot_size};
ghost use Rattle.run_plans.specs.Ground.{rooms_of};
ghost use Rattle.run_plans.specs.Actions.{gathered, extract_of};
ghost use Rattle.run_plans.specs.Acted.{sizes};
ghost use Rattle.run_plans.specs.Grounds.{IsGround};
ghost use Rattle.run_plans.specs.Walks.{width_at, IsPath, IsThere};

use crate::base::Ground;
use crate::parts::{Part, part_with, size_of, slot_size};
use run_actions::{Action, Move};
use sqlite_items::Items;
use std::alloc::{AllocError, Global};

/// The words of an id, copied to a place.
pub fn move_of(places: &Ground, id: u32, to: u32) -> Move
    ensures { result ≡ record { from = (rooms_of places.now).slot id; to = to; count = slot_size places.now.places.code id } }
{
    Move {
        from: places.slot(id),
        to,
        count: slot_size(places, id),
    }
}

/// The words of values, one behind the other from a place on.
pub fn gathered(
    alloc: Global,
    places: &Ground,
    values: &[u32],
    to: u32,
) -> Result<Items<Move>, AllocError>
    requires inside { to + sizes places.now.places.code values.now < 2 ^ 32 }
    ensures { IfOk result (λ parts. parts ≡ gathered places.now.places.code (rooms_of places.now) values.now to) }
{
    let mut parts = Vec::new(alloc);
    let mut at = to;
    for value in values {
        let part = move_of(places, *value, at);
        at += part.count;
        parts.push(part)?;
    }
    Ok(Items::from_vec(parts))
}

/// The part of a type's values to which a path of numbers leads.
fn part_behind(places: &Ground, type_id: u32, path: &[u32]) -> Part
    requires ground { IsGround places.now }
    requires leads { IsThere (extract_end places.now.places.code type_id path.now) }
    ensures part { IsPath places.now.places.code type_id path.now result.type_id result.place }
    ensures inside { result.place + width_at places.now.places.code result.type_id ≤ width_at places.now.places.code type_id }
{
    let mut at = Part { type_id, place: 0 };
    for number in path {
        let part = part_with(places, at.type_id, *number);
        at = Part {
            type_id: part.type_id,
            place: at.place + part.place,
        };
    }
    at
}

/// The action that takes a part out of a composite.
pub fn extract_of(places: &Ground, type_id: u32, to: u32, composite: u32, path: &[u32]) -> Action
    requires ground { IsGround places.now }
    requires value { is_value places.now.places.code composite ≡ true }
    requires whole { is_data places.now.places.code (operand places.now.places.code composite 0) ≡ true }
    requires leads { extract_end places.now.places.code (operand places.now.places.code composite 0) path.now ≡ Some type_id }
    ensures { result ≡ extract_of places.now.places.code (rooms_of places.now) type_id to composite path.now }
{
    let part = part_behind(places, places.declarations().operand(composite, 0), path);
    Action::Copy {
        part: Move {
            from: places.slot(composite) + part.place,
            to: places.slot(to),
            count: size_of(places, type_id),
        },
    }
}
