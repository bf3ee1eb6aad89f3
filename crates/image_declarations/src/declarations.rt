// All that the declarations of an image say.

ghost use Rattle.std.specs.Prelude.{◌≡◌, ◌^◌, IfOk, min};
ghost use Rattle.image_lookup.specs.Lookups.{sort, operands, operand, is_value};
ghost use Rattle.image_declarations.specs.Holdings.{has_type, is_data, is_unbounded, extent, is_reached, is_wrapper};

use crate::Decorations;
use crate::reach::{reached, wrappers};
use crate::types::{TypeFacts, facts_at, type_facts};
use image_lookup::{Definitions, Sort};
use spirv_words::Instruction;
use std::alloc::{AllocError, Global};
use std::collections::{HashMap, HashSet};
use std::marker::Model;

/// The instructions of an image, with what its declarations say of types. Contracts see the list of instructions.
#[derive(Drop)]
pub struct Declarations<'a> {
    definitions: Definitions<'a>,
    decorations: Decorations<'a>,
    facts: HashMap<u32, TypeFacts>,
    reached: HashSet<u32>,
    wrappers: HashSet<u32>,
}

impl<'a> Model for Declarations<'a> {
    ghost use Rattle.std.specs.Prelude.{List};
    ghost use Rattle.spirv_words.specs.declared.images.Instruction.{Instruction};

    ghost Value = { List Instruction };

    ghost use Rattle.image_declarations.specs.InsideDeclarations.{declared_code, AreDeclared};

    ghost view = { declared_code };

    ghost invariant = { AreDeclared };
}

impl<'a> Declarations<'a> {
    /// The declarations of these instructions.
    pub fn new(alloc: Global, code: &'a [Instruction]) -> Result<Declarations<'a>, AllocError>
        ensures { IfOk result (λ d. d ≡ code.now) }
    {
        let definitions = Definitions::new(alloc, code)?;
        let decorations = Decorations::new(alloc, code)?;
        let facts = type_facts(alloc, &definitions, &decorations)?;
        let reached = reached(alloc, &definitions)?;
        let wrappers = wrappers(alloc, &definitions)?;
        Ok(Declarations {
            definitions,
            decorations,
            facts,
            reached,
            wrappers,
        })
    }

    /// The instructions.
    pub fn code(&self) -> &'a [Instruction]
        ensures { result.now ≡ self.now }
    {
        self.definitions.code()
    }

    /// What the ids stand for.
    pub fn definitions(&self) -> &Definitions<'a>
        ensures { result.now ≡ self.now }
    {
        &self.definitions
    }

    /// What an id stands for.
    pub fn sort(&self, id: u32) -> Sort
        ensures { result ≡ sort self.now id }
    {
        self.definitions().sort(id)
    }

    /// The operands of the instruction that defines an id; none where none does.
    pub fn operands(&self, id: u32) -> &'a [u32]
        ensures { result.now ≡ operands self.now id }
    {
        self.definitions().operands(id)
    }

    /// One of these operands, counted from 0; 0 where there is none.
    pub fn operand(&self, id: u32, number: usize) -> u32
        ensures { result ≡ operand self.now id number }
    {
        self.definitions().operand(id, number)
    }

    /// Whether an id is a value.
    pub fn is_value(&self, id: u32) -> bool
        ensures { result ≡ is_value self.now id }
    {
        self.definitions().is_value(id)
    }

    /// Whether an id is a value of a type.
    pub fn has_type(&self, id: u32, type_id: u32) -> bool
        ensures { result ≡ has_type self.now id type_id }
    {
        self.is_value(id) && self.operand(id, 0) == type_id
    }

    /// The decorations.
    pub fn decorations(&self) -> &Decorations<'a>
        ensures { result.now ≡ self.now }
    {
        &self.decorations
    }

    /// Whether a type is data: bool, int, uint, or a vector, array or struct of these.
    pub fn is_data(&self, id: u32) -> bool
        ensures { result ≡ is_data self.now id }
    {
        facts_at(&self.facts, id).is_data
    }

    /// Whether a type has an array without length at any depth.
    pub fn is_unbounded(&self, id: u32) -> bool
        ensures { result ≡ is_unbounded self.now id }
    {
        facts_at(&self.facts, id).unbounded
    }

    /// The end of the last scalar of a type in a buffer, in bytes; 2^32 stands for all that is more.
    pub fn extent(&self, id: u32) -> u64
        ensures { result ≡ min (extent self.now id) (2 ^ 32) }
    {
        facts_at(&self.facts, id).extent
    }

    /// Whether a buffer has this type, at any depth.
    pub fn is_reached(&self, id: u32) -> bool
        ensures { result ≡ is_reached self.now id }
    {
        self.reached.contains(&id)
    }

    /// Whether a variable of class StorageBuffer points to this type.
    pub fn is_wrapper(&self, id: u32) -> bool
        ensures { result ≡ is_wrapper self.now id }
    {
        self.wrappers.contains(&id)
    }
}
