// The steps of access chains.

ghost use Rattle.std.specs.Prelude.{◌≡◌, ℕ, ◌/◌, ◌%◌, true, false, [], IfSome, Some, drop, slice_get};
ghost use Rattle.spirv_words.specs.Machine.{or_zero};
ghost use Rattle.spirv_words.specs.Runs.{signed};
ghost use Rattle.image_lookup.specs.Lookups.{operands, sort};
ghost use Rattle.image_operands.specs.Memory.{constant_number, is_index, part_by};
ghost use Rattle.image_facts.specs.Operands.{globals_of};
ghost use Rattle.run_plans.specs.Ground.{rooms_of};
ghost use Rattle.run_plans.specs.Grounds.{IsGround};
ghost use Rattle.run_plans.specs.Walks.{IsThere};
ghost use Rattle.run_plans.specs.Steps.{type_behind, AreWords, IsStep, IsStepIf, IsStrideIf, IsElementStepIf};

use crate::base::Ground;
use crate::parts::{member, member_type, width_of};
use image_declarations::length_of;
use image_lookup::Sort;
use run_actions::{Extent, Index};

/// What an index of a chain does: it leads to a member at a known distance, or to an element that its word chooses.
#[derive(Clone, Copy)]
pub enum Step {
    Member { offset: u32, type_id: u32 },
    Element { index: Index, type_id: u32 },
}

/// Whether an index is an int.
fn is_signed(places: &Ground, id: u32) -> bool
    requires ground { IsGround places.now }
    requires index { is_index places.now.places.code id ≡ true }
    ensures { result ≡ signed places.now.places.code (globals_of places.now.places.code) id }
{
    let declarations = places.declarations();
    declarations.operand(declarations.operand(id, 0), 2) == 1
}

/// The number of a constant; 0 for a null, and for what is no constant.
fn number_of(places: &Ground, id: u32) -> u32
    ensures { result ≡ or_zero (constant_number places.now.places.code id) }
{
    let declarations = places.declarations();
    match declarations.sort(id) {
        Sort::Number => declarations.operand(id, 2),
        _ => 0,
    }
}

/// Bytes as words, if they are whole words. No buffer has a type with other distances.
fn in_words(bytes: u32) -> Option<u32>
    ensures { AreWords bytes result }
{
    if bytes % 4 == 0 {
        Some(bytes / 4)
    } else {
        None
    }
}

/// How far the elements of a type are apart: in a buffer by their stride in bytes, and else by their words.
fn stride_of(places: &Ground, in_buffer: bool, of: u32, bytes: u32) -> Option<u32>
    requires ground { IsGround places.now }
    ensures { IsStrideIf places.now.places.code in_buffer of bytes result }
{
    if in_buffer {
        in_words(bytes)
    } else {
        Some(width_of(places, of))
    }
}

/// The element of a type that the word of an id chooses.
fn element_step(
    places: &Ground,
    in_buffer: bool,
    of: u32,
    extent: Extent,
    bytes: u32,
    id: u32,
) -> Option<Step>
    requires ground { IsGround places.now }
    requires index { is_index places.now.places.code id ≡ true }
    ensures { IsElementStepIf places.now.places.code (rooms_of places.now) in_buffer of extent bytes id result }
{
    let stride = match stride_of(places, in_buffer, of, bytes) {
        Some(stride) => stride,
        None => return None,
    };
    let index = Index {
        slot: places.slot(id),
        extent,
        stride,
        signed: is_signed(places, id),
    };
    Some(Step::Element { index, type_id: of })
}

/// The member of a struct in a buffer.
fn buffer_member(places: &Ground, type_id: u32, number: u32) -> Option<Step>
    requires ground { IsGround places.now }
    requires is_struct { sort places.now.places.code type_id ≡ Sort.StructType }
    requires there { IsThere (slice_get (drop 1 (operands places.now.places.code type_id)) number) }
    ensures step { (id : ℕ) → number ≡ or_zero (constant_number places.now.places.code id)
        → IsStepIf places.now.places.code (rooms_of places.now) true type_id id result }
    ensures of { IfSome result (λ step. slice_get (drop 1 (operands places.now.places.code type_id)) number ≡ Some (type_behind step)) }
{
    let decorations = places.declarations().decorations();
    match in_words(decorations.offset(type_id, number as usize)) {
        Some(offset) => Some(Step::Member {
            offset,
            type_id: member_type(places, type_id, number),
        }),
        None => None,
    }
}

/// The member of a struct in a variable.
fn room_member(places: &Ground, type_id: u32, number: u32) -> Step
    requires ground { IsGround places.now }
    requires is_struct { sort places.now.places.code type_id ≡ Sort.StructType }
    requires there { IsThere (slice_get (drop 1 (operands places.now.places.code type_id)) number) }
    ensures step { (id : ℕ) → number ≡ or_zero (constant_number places.now.places.code id)
        → IsStep places.now.places.code (rooms_of places.now) false type_id id result }
    ensures of { slice_get (drop 1 (operands places.now.places.code type_id)) number ≡ Some (type_behind result) }
{
    let part = member(places, type_id, number);
    Step::Member {
        offset: part.place,
        type_id: part.type_id,
    }
}

/// The member of a struct that a constant numbers.
fn member_step(places: &Ground, in_buffer: bool, type_id: u32, id: u32) -> Option<Step>
    requires ground { IsGround places.now }
    requires is_struct { sort places.now.places.code type_id ≡ Sort.StructType }
    requires there { IsThere (slice_get (drop 1 (operands places.now.places.code type_id)) (or_zero (constant_number places.now.places.code id))) }
    ensures step { IsStepIf places.now.places.code (rooms_of places.now) in_buffer type_id id result }
    ensures of { IfSome result (λ step. slice_get (drop 1 (operands places.now.places.code type_id)) (or_zero (constant_number places.now.places.code id))
        ≡ Some (type_behind step)) }
{
    let number = number_of(places, id);
    if in_buffer {
        buffer_member(places, type_id, number)
    } else {
        Some(room_member(places, type_id, number))
    }
}

/// Where an index leads from a type, if a run can go there: it goes to no elements of an array without length but those of a
/// buffer, and to nothing in a buffer that stands at no whole word.
pub fn step_from(places: &Ground, in_buffer: bool, type_id: u32, id: u32) -> Option<Step>
    requires ground { IsGround places.now }
    requires index { is_index places.now.places.code id ≡ true }
    requires there { IsThere (part_by places.now.places.code (sort places.now.places.code type_id) type_id (constant_number places.now.places.code id)) }
    ensures step { IsStepIf places.now.places.code (rooms_of places.now) in_buffer type_id id result }
    ensures of { IfSome result (λ step. part_by places.now.places.code (sort places.now.places.code type_id) type_id
        (constant_number places.now.places.code id) ≡ Some (type_behind step)) }
{
    let declarations = places.declarations();
    let of = declarations.operand(type_id, 1);
    match declarations.sort(type_id) {
        Sort::VectorType => {
            let extent = Extent::Fixed(declarations.operand(type_id, 2));
            element_step(places, in_buffer, of, extent, 4, id)
        }
        Sort::ArrayType => {
            let count = length_of(declarations.definitions(), declarations.operand(type_id, 2));
            let bytes = declarations.decorations().stride(type_id);
            element_step(places, in_buffer, of, Extent::Fixed(count), bytes, id)
        }
        Sort::RuntimeArrayType if in_buffer => {
            let bytes = declarations.decorations().stride(type_id);
            element_step(places, in_buffer, of, Extent::Whole, bytes, id)
        }
        Sort::RuntimeArrayType => None,
        Sort::StructType => member_step(places, in_buffer, type_id, id),
        _ => unreachable!(),
    }
}
