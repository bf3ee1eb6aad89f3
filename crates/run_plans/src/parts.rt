// The parts of composites, and the places of their words.

ghost use Rattle.std.specs.Prelude.{◌≡◌, ◌+◌, ◌*◌, ◌^◌, ◌<◌, ◌≤◌, Some, drop, take, slice_get};
ghost use Rattle.image_lookup.specs.Lookups.{operand, operands, sort};
ghost use Rattle.image_operands.specs.Composites.{literal_part_by};
ghost use Rattle.run_rooms.specs.Rooms.{size_of, slot_size};
ghost use Rattle.run_plans.specs.Grounds.{IsGround};
ghost use Rattle.run_plans.specs.Walks.{total_width, width_at, IsThere, IsMember, IsPart};

use crate::base::Ground;
use crate::members::row_in;
use image_lookup::Sort;

/// A part: its type, and the place of its first word behind that of the whole.
#[derive(Clone, Copy)]
pub struct Part {
    pub type_id: u32,
    pub place: u32,
}

/// How many words the values of a type have.
pub fn width_of(places: &Ground, type_id: u32) -> u32
    ensures { result ≡ width_at places.now.places.code type_id }
{
    places.places.width_of(type_id)
}

/// How many words an operand of a type has.
pub fn size_of(places: &Ground, type_id: u32) -> u32
    ensures { result ≡ size_of places.now.places.code type_id }
{
    places.places.size_of(type_id)
}

/// How many words an id has.
pub fn slot_size(places: &Ground, id: u32) -> u32
    ensures { result ≡ slot_size places.now.places.code id }
{
    size_of(places, places.declarations().operand(id, 0))
}

/// The type of a struct's member.
pub fn member_type(places: &Ground, type_id: u32, number: u32) -> u32
    requires there { IsThere (slice_get (drop 1 (operands places.now.places.code type_id)) number) }
    ensures { slice_get (drop 1 (operands places.now.places.code type_id)) number ≡ Some result }
{
    match places.declarations().operands(type_id) {
        [_, members @ ..] => match members.get(number as usize) {
            Some(of) => *of,
            None => unreachable!(),
        },
        _ => unreachable!(),
    }
}

/// Where a struct's member stands behind its first word.
fn member_place(places: &Ground, type_id: u32, number: u32) -> u32
    requires ground { IsGround places.now }
    requires is_struct { sort places.now.places.code type_id ≡ Sort.StructType }
    requires there { IsThere (slice_get (drop 1 (operands places.now.places.code type_id)) number) }
    ensures { result ≡ total_width places.now.places.code (take number (drop 1 (operands places.now.places.code type_id))) }
{
    match row_in(&places.members, type_id).get(number as usize) {
        Some(place) => *place,
        None => unreachable!(),
    }
}

/// The member of a struct with a number.
pub fn member(places: &Ground, type_id: u32, number: u32) -> Part
    requires ground { IsGround places.now }
    requires is_struct { sort places.now.places.code type_id ≡ Sort.StructType }
    requires there { IsThere (slice_get (drop 1 (operands places.now.places.code type_id)) number) }
    ensures { IsMember places.now.places.code type_id number result.type_id result.place }
{
    Part {
        type_id: member_type(places, type_id, number),
        place: member_place(places, type_id, number),
    }
}

/// The element of a vector or an array with a number.
fn element(places: &Ground, type_id: u32, number: u32) -> Part
    requires ground { IsGround places.now }
    requires fits { number * width_at places.now.places.code (operand places.now.places.code type_id 1) < 2 ^ 32 }
    ensures of { result.type_id ≡ operand places.now.places.code type_id 1 }
    ensures behind { result.place ≡ number * width_at places.now.places.code (operand places.now.places.code type_id 1) }
{
    let of = places.declarations().operand(type_id, 1);
    Part {
        type_id: of,
        place: number * width_of(places, of),
    }
}

/// The part of a composite with a number.
pub fn part_with(places: &Ground, type_id: u32, number: u32) -> Part
    requires ground { IsGround places.now }
    requires there { IsThere (literal_part_by places.now.places.code (sort places.now.places.code type_id) type_id number) }
    ensures part { IsPart places.now.places.code type_id number result.type_id result.place }
    ensures of { literal_part_by places.now.places.code (sort places.now.places.code type_id) type_id number ≡ Some result.type_id }
    ensures inside { result.place + width_at places.now.places.code result.type_id ≤ width_at places.now.places.code type_id }
{
    let declarations = places.declarations();
    match declarations.sort(type_id) {
        Sort::VectorType => element(places, type_id, number),
        Sort::ArrayType => element(places, type_id, number),
        Sort::StructType => member(places, type_id, number),
        _ => unreachable!(),
    }
}
