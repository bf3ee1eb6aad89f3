// Where the members of structs stand: all members of a struct are added up once.

ghost use Rattle.std.specs.Prelude.{◌≡◌, ◌+◌, ℕ, nat_eq, cond, IfOk, OnOk, Some, slice_get};
ghost use Rattle.run_plans.specs.Members.{row_in, IsBehindIf, IsRow, IsRowOf, IsFull, IsFullOf, AreRows, AreRowsTo};

use run_rooms::Places;
use spirv_words::{Instruction, Op};
use std::alloc::{AllocError, Global};
use std::collections::HashMap;

/// The place behind a member of a type, if 32 bits tell it.
fn behind(places: &Places, place: u32, type_id: u32) -> Option<u32>
    ensures { IsBehindIf places.now.code place type_id result }
{
    place.checked_add(places.width_of(type_id))
}

/// The places of members of these types, as far as 32 bits tell them.
fn row_of(alloc: Global, places: &Places, types: &[u32]) -> Result<Vec<u32>, AllocError>
    ensures row { IfOk result (λ row. IsRow places.now.code types.now row.items) }
    ensures full { IfOk result (λ row. IsFull places.now.code types.now row.items) }
{
    let mut row = Vec::new(alloc);
    let mut place: u32 = 0;
    for type_id in types {
        row.push(place)?;
        place = match behind(places, place, *type_id) {
            Some(next) => next,
            None => return Ok(row),
        };
    }
    Ok(row)
}

/// The places of a struct's members, as far as 32 bits tell them.
fn row_of_type(alloc: Global, places: &Places, type_id: u32) -> Result<Vec<u32>, AllocError>
    ensures row { IfOk result (λ row. IsRowOf places.now.code type_id row.items) }
    ensures full { IfOk result (λ row. IsFullOf places.now.code type_id row.items) }
{
    match places.declarations().operands(type_id) {
        [_, members @ ..] => row_of(alloc, places, members),
        _ => Ok(Vec::new(alloc)),
    }
}

/// Adds the places of members, if an instruction makes a struct.
fn add_row(
    alloc: Global,
    places: &Places,
    known: &mut HashMap<u32, Vec<u32>>,
    instruction: &Instruction,
) -> Result<(), AllocError>
    ensures { (n : ℕ) → slice_get places.now.code n ≡ Some instruction.now → AreRowsTo places.now.code n known.old
        → OnOk result (AreRowsTo places.now.code (n + 1) known.new) }
{
    match (instruction.op, instruction.operands.as_slice()) {
        (Op::TypeStruct, [id, ..]) => {
            let row = row_of_type(alloc, places, *id)?;
            known.insert(*id, row)?;
        }
        _ => {}
    }
    Ok(())
}

/// The places of the members of each struct, by its id.
pub fn rows_of(alloc: Global, places: &Places) -> Result<HashMap<u32, Vec<u32>>, AllocError>
    ensures { IfOk result (λ known. AreRows places.now.code known) }
{
    let mut known = HashMap::new(alloc);
    for instruction in places.declarations().code() {
        add_row(alloc, places, &mut known, instruction)?;
    }
    Ok(known)
}

/// The places of a type's members; none for what is no struct.
pub fn row_in(known: &HashMap<u32, Vec<u32>>, type_id: u32) -> &[u32]
    ensures { result.now ≡ row_in known.now type_id }
{
    match known.get(&type_id) {
        Some(row) => row.as_slice(),
        None => &[],
    }
}
