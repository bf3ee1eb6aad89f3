// The instruction that defines an id.

ghost use Rattle.std.specs.Prelude.{◌≡◌, ◌≤◌, slice_get, IfOk, IfSome, OnOk};
ghost use Rattle.std.specs.Option.{option_copied};
ghost use Rattle.std.specs.HashMap.{get};
ghost use Rattle.spirv_words.specs.Machine.{definition_of, result_of, place_of};
ghost use Rattle.image_lookup.specs.Lookups.{sort, operands, operand, is_value};
ghost use Rattle.image_lookup.specs.Places.{Finds};

use crate::sorts::{Sort, sort_of};
use spirv_words::{Instruction, Op};
use std::alloc::{AllocError, Global};
use std::collections::HashMap;
use std::marker::Model;

/// The instructions of an image, with the place of the one that defines each id. Contracts see the list of instructions.
#[derive(Drop)]
pub struct Definitions<'a> {
    code: &'a [Instruction],
    places: HashMap<u32, usize>,
}

impl<'a> Model for Definitions<'a> {
    ghost use Rattle.std.specs.Prelude.{List};
    ghost use Rattle.spirv_words.specs.declared.images.Instruction.{Instruction};

    ghost Value = { List Instruction };

    ghost use Rattle.image_lookup.specs.Inside.{code_of, IsFound};

    ghost view = { code_of };

    ghost invariant = { IsFound };
}

/// The id that an instruction defines, if it defines one.
fn result_of(op: Op, operands: &[u32]) -> Option<u32>
    ensures { result ≡ result_of op operands.now }
{
    match sort_of(op) {
        Sort::Nothing => None,
        Sort::VoidType
        | Sort::BoolType
        | Sort::IntType
        | Sort::VectorType
        | Sort::ArrayType
        | Sort::RuntimeArrayType
        | Sort::StructType
        | Sort::PointerType
        | Sort::FunctionType
        | Sort::Block => operands.first().copied(),
        _ => operands.get(1).copied(),
    }
}

/// The place of the first instruction that defines each id.
fn places_of(alloc: Global, code: &[Instruction]) -> Result<HashMap<u32, usize>, AllocError>
    ensures { IfOk result (λ places. Finds places code.now 0) }
{
    let mut places = HashMap::new(alloc);
    let mut left = code;
    while let Some((last, before)) = left.split_last() {
        match result_of(last.op, last.operands.as_slice()) {
            Some(id) => {
                places.insert(id, before.len())?;
            }
            None => {}
        }
        left = before;
    }
    Ok(places)
}

fn instruction_at(code: &[Instruction], place: usize) -> Option<&Instruction>
    ensures { option_copied result ≡ slice_get code.now place }
{
    code.get(place)
}

impl<'a> Definitions<'a> {
    /// The definitions of these instructions.
    pub fn new(alloc: Global, code: &'a [Instruction]) -> Result<Definitions<'a>, AllocError>
        ensures { IfOk result (λ d. d ≡ code.now) }
    {
        let places = places_of(alloc, code)?;
        Ok(Definitions { code, places })
    }

    /// The instructions.
    pub fn code(&self) -> &'a [Instruction]
        ensures { result.now ≡ self.now }
    {
        self.code
    }

    /// The instruction that defines an id: the first, if there are several.
    pub fn get(&self, id: u32) -> Option<&'a Instruction>
        ensures { option_copied result ≡ definition_of self.now id }
    {
        match self.places.get(&id) {
            Some(place) => instruction_at(self.code, *place),
            None => None,
        }
    }

    /// The place of the instruction that defines an id, counted from 0.
    pub fn place(&self, id: u32) -> Option<usize>
        ensures { result ≡ place_of self.now id 0 }
    {
        self.places.get(&id).copied()
    }

    /// What an id stands for.
    pub fn sort(&self, id: u32) -> Sort
        ensures { result ≡ sort self.now id }
    {
        match self.get(id) {
            Some(definition) => sort_of(definition.op),
            None => Sort::Nothing,
        }
    }

    /// The operands of the instruction that defines an id; none where none does.
    pub fn operands(&self, id: u32) -> &'a [u32]
        ensures { result.now ≡ operands self.now id }
    {
        match self.get(id) {
            Some(definition) => definition.operands.as_slice(),
            None => &[],
        }
    }

    /// One of these operands, counted from 0; 0 where there is none.
    pub fn operand(&self, id: u32, number: usize) -> u32
        ensures { result ≡ operand self.now id number }
    {
        self.operands(id).get(number).copied().unwrap_or(0)
    }

    /// Whether an id is a value.
    pub fn is_value(&self, id: u32) -> bool
        ensures { result ≡ is_value self.now id }
    {
        self.sort(id).is_value()
    }
}
