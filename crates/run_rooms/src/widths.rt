// How many words values take, by their types, as the declarations of an image tell it.

ghost use Rattle.std.specs.Prelude.{◌≡◌, ℕ, ◌<◌, ◌≤◌, ◌^◌, IfOk, IfErr, OnOk, Some, true, false, is_some, min, List, nat_eq};
ghost use Rattle.std.specs.HashMap.{get};
ghost use Rattle.std.specs.Option.{option_map};
ghost use Rattle.spirv_words.specs.declared.images.Instruction.{Instruction};
ghost use Rattle.spirv_words.specs.declared.opcodes.Op.TheVariants.{TypeVoid, TypeBool, TypeInt, TypeVector, TypeArray, TypeRuntimeArray, TypeStruct, TypePointer, ConstantTrue, ConstantFalse, Constant, ConstantNull, Variable};
ghost use Rattle.spirv_words.specs.Machine.{Globals, Shape, Repeated, on_shape, null, global_variable, meaning_of, add, result_of, if_some, number_at, is_function};
ghost use Rattle.flat_values.specs.Flat.{width};
ghost use Rattle.image_facts.specs.Operands.{globals_of, shape};
ghost use Rattle.run_rooms.specs.declared.widths.Declared.TheVariants.{AType};
ghost use Rattle.run_rooms.specs.Widths.{measure, members_words, measured, AreNarrow, Measures, Tells, number_in};
ghost use Rattle.run_rooms.specs.Needs.{HasWideType, IsNarrow};
ghost use Rattle.call_layout.specs.declared.faults.Fault.TheVariants.{TooLarge};

use call_layout::Fault;
use image_places::result_of;
use spirv_words::{Instruction, Op};
use std::alloc::{AllocError, Global};
use std::collections::HashMap;

/// How many words the values of a type take, and the number that its null is, if it is one.
#[derive(Clone, Copy)]
pub struct TypeWords {
    pub words: u64,
    pub null: Option<u32>,
}

/// What a declaration makes of its result's id: a type, a value with its number if it is one, or nothing that a run knows.
#[derive(Clone, Copy)]
pub enum Declared {
    AType(TypeWords),
    AValue(Option<u32>),
    NoMeaning,
}

/// The types that are declared, and the values with their numbers.
#[derive(Drop)]
pub struct Widths {
    types: HashMap<u32, TypeWords>,
    numbers: HashMap<u32, Option<u32>>,
}

/// More words than this are told as so many. They are more than a run has.
const FAR: u64 = 0x1_0000_0000;

fn type_at(widths: &Widths, id: u32) -> Option<TypeWords>
    ensures { result ≡ get nat_eq widths.now.types id }
{
    widths.types.get(&id).copied()
}

fn number_at(widths: &Widths, id: u32) -> Option<u32>
    ensures { result ≡ number_in (get nat_eq widths.now.numbers id) }
{
    match widths.numbers.get(&id) {
        Some(number) => *number,
        None => None,
    }
}

/// A row of so many of a type.
fn row(widths: &Widths, of: u32, count: u32) -> Declared
    ensures { (g : Globals) (stride : ℕ) → Measures widths.now g
        → result ≡ measured (on_shape (g.shapes of) (λ s. Repeated count stride s)) }
{
    match type_at(widths, of) {
        Some(part) => Declared::AType(TypeWords {
            words: u64::from(count).saturating_mul(part.words).min(FAR),
            null: None,
        }),
        None => Declared::NoMeaning,
    }
}

/// The words of a struct, up to the first member whose type is not known.
fn members_words(widths: &Widths, members: &[u32]) -> u64
    ensures { result ≡ min (members_words (get nat_eq widths.now.types) members.now) (2 ^ 32) }
{
    let mut words: u64 = 0;
    for member in members {
        match type_at(widths, *member) {
            Some(part) => words = words.saturating_add(part.words).min(FAR),
            None => return words,
        }
    }
    words
}

/// A type with so many words, whose null is this number, or none.
fn plain(words: u64, null: Option<u32>) -> Declared
    ensures { result ≡ AType (record { words = words; null = null }) }
{
    Declared::AType(TypeWords { words, null })
}

fn void_type(operands: &[u32]) -> Declared
    ensures { (code : List Instruction) (g : Globals) → result ≡ measured (meaning_of code g TypeVoid operands.now) }
{
    match operands {
        [_] => plain(0, Some(0)),
        _ => Declared::NoMeaning,
    }
}

fn bool_type(operands: &[u32]) -> Declared
    ensures { (code : List Instruction) (g : Globals) → result ≡ measured (meaning_of code g TypeBool operands.now) }
{
    match operands {
        [_] => plain(1, None),
        _ => Declared::NoMeaning,
    }
}

fn int_type(operands: &[u32]) -> Declared
    ensures { (code : List Instruction) (g : Globals) → result ≡ measured (meaning_of code g TypeInt operands.now) }
{
    match operands {
        [_, _, _] => plain(1, Some(0)),
        _ => Declared::NoMeaning,
    }
}

fn vector_type(widths: &Widths, operands: &[u32]) -> Declared
    ensures { (code : List Instruction) (g : Globals) → Measures widths.now g
        → result ≡ measured (meaning_of code g TypeVector operands.now) }
{
    match operands {
        [_, of, count] => row(widths, *of, *count),
        _ => Declared::NoMeaning,
    }
}

fn array_type(widths: &Widths, operands: &[u32]) -> Declared
    ensures { (code : List Instruction) (g : Globals) → Measures widths.now g
        → result ≡ measured (meaning_of code g TypeArray operands.now) }
{
    match operands {
        [_, of, length] => match number_at(widths, *length) {
            Some(count) => row(widths, *of, count),
            None => Declared::NoMeaning,
        },
        _ => Declared::NoMeaning,
    }
}

fn runtime_array_type(widths: &Widths, operands: &[u32]) -> Declared
    ensures { (code : List Instruction) (g : Globals) → Measures widths.now g
        → result ≡ measured (meaning_of code g TypeRuntimeArray operands.now) }
{
    match operands {
        [_, of] => match type_at(widths, *of) {
            Some(_) => plain(0, Some(0)),
            None => Declared::NoMeaning,
        },
        _ => Declared::NoMeaning,
    }
}

fn struct_type(widths: &Widths, operands: &[u32]) -> Declared
    ensures { (code : List Instruction) (g : Globals) → Measures widths.now g
        → result ≡ measured (meaning_of code g TypeStruct operands.now) }
{
    match operands {
        [_, members @ ..] => plain(members_words(widths, members), None),
        _ => Declared::NoMeaning,
    }
}

fn pointer_type(widths: &Widths, operands: &[u32]) -> Declared
    ensures { (code : List Instruction) (g : Globals) → Measures widths.now g
        → result ≡ measured (meaning_of code g TypePointer operands.now) }
{
    match operands {
        [_, _, of] => match type_at(widths, *of) {
            Some(_) => plain(0, Some(0)),
            None => Declared::NoMeaning,
        },
        _ => Declared::NoMeaning,
    }
}

fn number(operands: &[u32]) -> Declared
    ensures { (code : List Instruction) (g : Globals) → result ≡ measured (meaning_of code g Constant operands.now) }
{
    match operands {
        [_, _, word] => Declared::AValue(Some(*word)),
        _ => Declared::NoMeaning,
    }
}

fn truth(operands: &[u32]) -> Declared
    ensures true_is { (code : List Instruction) (g : Globals) → result ≡ measured (meaning_of code g ConstantTrue operands.now) }
    ensures false_is { (code : List Instruction) (g : Globals) → result ≡ measured (meaning_of code g ConstantFalse operands.now) }
{
    match operands {
        [_, _] => Declared::AValue(None),
        _ => Declared::NoMeaning,
    }
}

fn null(widths: &Widths, operands: &[u32]) -> Declared
    ensures { (code : List Instruction) (g : Globals) → Measures widths.now g
        → result ≡ measured (meaning_of code g ConstantNull operands.now) }
{
    match operands {
        [of, _] => match type_at(widths, *of) {
            Some(part) => Declared::AValue(part.null),
            None => Declared::NoMeaning,
        },
        _ => Declared::NoMeaning,
    }
}

fn variable(widths: &Widths, operands: &[u32]) -> Declared
    ensures { (code : List Instruction) (g : Globals) → Measures widths.now g
        → result ≡ measured (meaning_of code g Variable operands.now) }
{
    match operands {
        [of, _, class] => {
            if *class == 1 || type_at(widths, *of).is_some() {
                Declared::AValue(None)
            } else {
                Declared::NoMeaning
            }
        }
        _ => Declared::NoMeaning,
    }
}

/// What a declaration makes of its result's id.
fn meaning_of(widths: &Widths, op: Op, operands: &[u32]) -> Declared
    ensures { (code : List Instruction) (g : Globals) → Measures widths.now g
        → result ≡ measured (meaning_of code g op operands.now) }
{
    match op {
        Op::TypeVoid => void_type(operands),
        Op::TypeBool => bool_type(operands),
        Op::TypeInt => int_type(operands),
        Op::TypeVector => vector_type(widths, operands),
        Op::TypeArray => array_type(widths, operands),
        Op::TypeRuntimeArray => runtime_array_type(widths, operands),
        Op::TypeStruct => struct_type(widths, operands),
        Op::TypePointer => pointer_type(widths, operands),
        Op::ConstantTrue | Op::ConstantFalse => truth(operands),
        Op::Constant => number(operands),
        Op::ConstantNull => null(widths, operands),
        Op::Variable => variable(widths, operands),
        _ => Declared::NoMeaning,
    }
}

/// What is known with one instruction more.
fn add(widths: &mut Widths, instruction: &Instruction) -> Result<(), AllocError>
    ensures { (code : List Instruction) (g : Globals) → Measures widths.old g
        → OnOk result (Measures widths.new (add (result_of instruction.now.op instruction.now.operands) (meaning_of code g instruction.now.op instruction.now.operands) g)) }
{
    let operands = instruction.operands.as_slice();
    match result_of(instruction.op, operands) {
        Some(id) => match meaning_of(widths, instruction.op, operands) {
            Declared::AType(words) => {
                widths.types.insert(id, words)?;
            }
            Declared::AValue(number) => {
                widths.numbers.insert(id, number)?;
            }
            Declared::NoMeaning => {}
        },
        None => {}
    }
    Ok(())
}

/// Whether an instruction declares a type whose words 32 bits do not tell.
fn is_wide(widths: &Widths, instruction: &Instruction) -> bool
    ensures wide { (code : List Instruction) → Measures widths.now (globals_of code) → result ≡ true → HasWideType code }
    ensures narrow { (g : Globals) → Measures widths.now g → result ≡ false → (t : ℕ) (s : Shape)
        → result_of instruction.now.op instruction.now.operands ≡ Some t → g.shapes t ≡ Some s → width s < 2 ^ 32 }
{
    match result_of(instruction.op, instruction.operands.as_slice()) {
        Some(id) => match type_at(widths, id) {
            Some(part) => part.words >= FAR,
            None => false,
        },
        None => false,
    }
}

/// Whether 32 bits tell the words of all types.
fn are_narrow(widths: &Widths, code: &[Instruction]) -> bool
    requires { Measures widths.now (globals_of code.now) }
    ensures narrow { result ≡ true → IsNarrow code.now }
    ensures wide { result ≡ false → HasWideType code.now }
{
    for instruction in code {
        if is_wide(widths, instruction) {
            return false;
        }
    }
    true
}

fn is_function(instruction: &Instruction) -> bool
    ensures { result ≡ is_function instruction.now.op }
{
    match instruction.op {
        Op::Function => true,
        _ => false,
    }
}

impl Widths {
    /// What the declarations of these instructions tell: those before the first function.
    pub fn new(alloc: Global, code: &[Instruction]) -> Result<Widths, AllocError>
        ensures { IfOk result (λ widths. Measures widths (globals_of code.now)) }
    {
        let mut widths = Widths {
            types: HashMap::new(alloc),
            numbers: HashMap::new(alloc),
        };
        for instruction in code {
            if is_function(instruction) {
                return Ok(widths);
            }
            add(&mut widths, instruction)?;
        }
        Ok(widths)
    }

    /// The same, if 32 bits tell the words of all types.
    pub fn narrow(alloc: Global, code: &[Instruction]) -> Result<Widths, Fault>
        ensures tells { IfOk result (λ widths. Tells widths (globals_of code.now)) }
        ensures narrow { IfOk result (λ widths. IsNarrow code.now) }
        ensures too_large { IfErr result (λ fault. fault ≡ TooLarge → HasWideType code.now) }
    {
        let widths = Widths::new(alloc, code)?;
        if are_narrow(&widths, code) {
            Ok(widths)
        } else {
            Err(Fault::TooLarge)
        }
    }

    /// Whether an id is a type with a shape.
    pub fn has(&self, id: u32) -> bool
        ensures { (g : Globals) → Measures self.now g → result ≡ is_some (g.shapes id) }
    {
        type_at(self, id).is_some()
    }

    /// How many words the values of a type have; 0 for what is no type.
    pub fn of(&self, id: u32) -> u32
        requires { AreNarrow self.now }
        ensures { (g : Globals) → Measures self.now g → result ≡ if_some (g.shapes id) 0 width }
    {
        match type_at(self, id) {
            Some(part) => part.words as u32,
            None => 0,
        }
    }
}
