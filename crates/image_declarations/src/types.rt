// What the types of an image hold.

ghost use Rattle.std.specs.Prelude.{◌≡◌, ◌^◌, IfOk, min};
ghost use Rattle.std.specs.List.{list_any, list_all};
ghost use Rattle.std.specs.Option.{option_map};
ghost use Rattle.image_declarations.specs.Types.{capped, end_of, fields_extent, span, facts_of, length_of, known_by, Tells};

use crate::Decorations;
use crate::reach::{behind_first, operand_of};
use image_lookup::{Definitions, Sort, sort_of};
use spirv_words::Instruction;
use std::alloc::{AllocError, Global};
use std::collections::HashMap;

/// What a type holds: whether it is data (bool, int, uint, or a vector, array or struct of these), whether it has an array
/// without length at any depth, and the end of its last scalar in a buffer, in bytes.
#[derive(Clone, Copy)]
pub struct TypeFacts {
    pub is_data: bool,
    pub unbounded: bool,
    pub extent: u64,
}

/// Ends behind this one are told as this one. No stride is as large.
const FAR: u64 = 0x1_0000_0000;

pub(crate) fn facts_at(known: &HashMap<u32, TypeFacts>, id: u32) -> TypeFacts
    ensures { result ≡ known_by known.now id }
{
    match known.get(&id) {
        Some(facts) => *facts,
        None => TypeFacts {
            is_data: false,
            unbounded: false,
            extent: 0,
        },
    }
}

/// The number of elements of an array, by the id of its length.
pub fn length_of(definitions: &Definitions, id: u32) -> u32
    ensures { result ≡ length_of definitions.now id }
{
    match definitions.sort(id) {
        Sort::Number => definitions.operand(id, 2),
        _ => 0,
    }
}

fn all_data(known: &HashMap<u32, TypeFacts>, members: &[u32]) -> bool
    ensures { result ≡ list_all (λ t. (known_by known.now t).is_data) members.now }
{
    for member in members {
        if !facts_at(known, *member).is_data {
            return false;
        }
    }
    true
}

fn any_unbounded(known: &HashMap<u32, TypeFacts>, members: &[u32]) -> bool
    ensures { result ≡ list_any (λ t. (known_by known.now t).unbounded) members.now }
{
    for member in members {
        if facts_at(known, *member).unbounded {
            return true;
        }
    }
    false
}

/// Where the last scalar of a part ends that begins there; 0 for a part without scalars.
fn end_of(start: u64, extent: u64) -> u64
    ensures { result ≡ min (end_of start extent) (2 ^ 32) }
{
    if extent == 0 {
        return 0;
    }
    start.min(FAR).saturating_add(extent).min(FAR)
}

/// The end of the last scalar of a struct; 0 where it has none.
fn fields_extent(
    known: &HashMap<u32, TypeFacts>,
    decorations: &Decorations,
    id: u32,
    members: &[u32],
) -> u64
    ensures { result ≡ min (fields_extent decorations.now (known_by known.now) id 0 members.now) (2 ^ 32) }
{
    let mut extent: u64 = 0;
    for (number, member) in members.iter().enumerate() {
        let start = u64::from(decorations.offset(id, number));
        let end = end_of(start, facts_at(known, *member).extent);
        extent = extent.max(end).min(FAR);
    }
    extent
}

/// The end of the last scalar of an array; 0 where it has none.
fn span(count: u32, stride: u32, end: u64) -> u64
    ensures { result ≡ min (span count stride end) (2 ^ 32) }
{
    if count == 0 {
        return 0;
    }
    let start = u64::from(count - 1) * u64::from(stride);
    end_of(start, end)
}

fn struct_facts(
    known: &HashMap<u32, TypeFacts>,
    decorations: &Decorations,
    id: u32,
    members: &[u32],
) -> TypeFacts
    ensures is_data { result.is_data ≡ list_all (λ t. (known_by known.now t).is_data) members.now }
    ensures unbounded { result.unbounded ≡ list_any (λ t. (known_by known.now t).unbounded) members.now }
    ensures extent { result.extent ≡ min (fields_extent decorations.now (known_by known.now) id 0 members.now) (2 ^ 32) }
{
    TypeFacts {
        is_data: all_data(known, members),
        unbounded: any_unbounded(known, members),
        extent: fields_extent(known, decorations, id, members),
    }
}

/// The facts of the type that an instruction declares.
fn facts_of(
    known: &HashMap<u32, TypeFacts>,
    definitions: &Definitions,
    decorations: &Decorations,
    instruction: &Instruction,
) -> Option<TypeFacts>
    requires { decorations.now ≡ definitions.now }
    ensures { result ≡ option_map capped (facts_of definitions.now (known_by known.now) instruction.now) }
{
    let id = operand_of(instruction, 0);
    let of = facts_at(known, operand_of(instruction, 1));
    match sort_of(instruction.op) {
        Sort::BoolType | Sort::IntType => Some(TypeFacts {
            is_data: true,
            unbounded: false,
            extent: 4,
        }),
        Sort::VectorType => Some(TypeFacts {
            is_data: of.is_data,
            unbounded: false,
            extent: (4 * u64::from(operand_of(instruction, 2))).min(FAR),
        }),
        Sort::ArrayType => {
            let count = length_of(definitions, operand_of(instruction, 2));
            Some(TypeFacts {
                is_data: of.is_data,
                unbounded: of.unbounded,
                extent: span(count, decorations.stride(id), of.extent),
            })
        }
        Sort::RuntimeArrayType => Some(TypeFacts {
            is_data: false,
            unbounded: true,
            extent: 0,
        }),
        Sort::StructType => {
            let members = behind_first(instruction.operands.as_slice());
            Some(struct_facts(known, decorations, id, members))
        }
        _ => None,
    }
}

/// The facts of the types of an image, found from the first instruction to the last.
pub fn type_facts(
    alloc: Global,
    definitions: &Definitions,
    decorations: &Decorations,
) -> Result<HashMap<u32, TypeFacts>, AllocError>
    requires { decorations.now ≡ definitions.now }
    ensures { IfOk result (λ known. Tells known definitions.now) }
{
    let mut known = HashMap::new(alloc);
    for instruction in definitions.code() {
        match facts_of(&known, definitions, decorations, instruction) {
            Some(facts) => {
                known.insert(operand_of(instruction, 0), facts)?;
            }
            None => {}
        }
    }
    Ok(known)
}
