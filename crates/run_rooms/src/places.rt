// The places of all values of a run.

ghost use Rattle.std.specs.Prelude.{◌≡◌, ◌^◌, ◌<◌, ℕ, [], List, length, Some, IfOk, IfErr, is_some};
ghost use Rattle.spirv_words.specs.Machine.{Shape, if_some};
ghost use Rattle.flat_values.specs.Flat.{width};
ghost use Rattle.image_facts.specs.Operands.{shape};
ghost use Rattle.call_layout.specs.declared.faults.Fault.TheVariants.{TooLarge};
ghost use Rattle.run_rooms.specs.Valid.{IsOfValid};
ghost use Rattle.run_rooms.specs.Rooms.{AreRooms, size_of};
ghost use Rattle.run_rooms.specs.Needs.{NeedsTooMuch};
ghost use Rattle.run_rooms.specs.Layout.{rooms_in, part_in};

use crate::laws::calls_of_valid_images;
use crate::parts::{Part, number_at, part_at};
use crate::tables::{Tables, tables_of};
use crate::widths::Widths;
use crate::words::size_of;
use call_layout::Fault;
use image_declarations::Declarations;
use spirv_words::Instruction;
use std::alloc::Global;
use std::marker::Model;

/// Where each value of an image stands among the words of a run. Contracts see the instructions and the places.
#[derive(Drop)]
pub struct Places<'a> {
    declarations: Declarations<'a>,
    widths: Widths,
    tables: Tables,
}

impl<'a> Model for Places<'a> {
    ghost use Rattle.run_rooms.specs.Layout.{Layout};

    ghost Value = { Layout };

    ghost use Rattle.run_rooms.specs.Inside.{layout_in, IsLaidOut};

    ghost view = { layout_in };

    ghost invariant = { IsLaidOut };
}

impl<'a> Places<'a> {
    /// A place for each value of these instructions. It errs for want of memory, and where a run needs more words than 32 bits
    /// tell.
    pub fn new(alloc: Global, code: &'a [Instruction]) -> Result<Places<'a>, Fault>
        requires valid { IsOfValid code.now }
        ensures code { IfOk result (λ p. p.code ≡ code.now) }
        ensures rooms { IfOk result (λ p. (pairs : List (ℕ × ℕ)) → AreRooms code.now (rooms_in p pairs)) }
        ensures few { IfOk result (λ p. length code.now < 2 ^ 32) }
        ensures narrow { IfOk result (λ p. (t : ℕ) (s : Shape) → shape code.now t ≡ Some s → width s < 2 ^ 32) }
        ensures enough { IfOk result (λ p. NeedsTooMuch code.now → ⊥) }
        ensures too_large { IfErr result (λ fault. fault ≡ TooLarge → NeedsTooMuch code.now) }
    {
        calls_of_valid_images();
        if code.len() >= 0x1_0000_0000 {
            return Err(Fault::TooLarge);
        }
        let declarations = Declarations::new(alloc, code)?;
        let widths = Widths::narrow(alloc, code)?;
        let tables = tables_of(alloc, declarations.definitions(), &widths)?;
        Ok(Places {
            declarations,
            widths,
            tables,
        })
    }

    /// What the declarations of the image say.
    pub fn declarations(&self) -> &Declarations<'a>
        ensures { result.now ≡ self.now.code }
    {
        &self.declarations
    }

    fn part(&self, function: usize) -> Part
        ensures { result ≡ part_in self.now.parts function }
    {
        part_at(self.tables.parts.as_slice(), function)
    }

    /// Where the words of an id stand; 0 for an id that nothing defines.
    pub fn slot(&self, id: u32) -> u32
        ensures { result ≡ (rooms_in self.now []).slot id }
    {
        match self.declarations.definitions().place(id) {
            Some(place) => number_at(self.tables.slots.as_slice(), place),
            None => 0,
        }
    }

    /// Where the words of a variable stand; 0 for an id that nothing defines.
    pub fn room(&self, id: u32) -> u32
        ensures { result ≡ (rooms_in self.now []).room id }
    {
        match self.declarations.definitions().place(id) {
            Some(place) => number_at(self.tables.rooms.as_slice(), place),
            None => 0,
        }
    }

    /// The two words of a function's call, by the number of its Function instruction, counted from 1 on.
    pub fn frame(&self, function: usize) -> u32
        ensures { result ≡ (rooms_in self.now []).frame function }
    {
        self.part(function).frame
    }

    /// Where the variables of a function stand, by its number.
    pub fn rooms(&self, function: usize) -> u32
        ensures { result ≡ (rooms_in self.now []).rooms function }
    {
        self.part(function).rooms
    }

    /// How many words the variables of a function have, by its number.
    pub fn rooms_count(&self, function: usize) -> u32
        ensures { result ≡ (rooms_in self.now []).rooms_count function }
    {
        self.part(function).rooms_count
    }

    /// The words of a built-in value, by its number.
    pub fn input(&self, built_in: u32) -> u32
        ensures { result ≡ (rooms_in self.now []).input built_in }
    {
        3 * built_in.min(29).saturating_sub(26)
    }

    /// How many words there are.
    pub fn total(&self) -> u32
        ensures { result ≡ (rooms_in self.now []).total }
    {
        self.tables.total
    }

    /// How many words an id of a type has.
    pub fn size_of(&self, id: u32) -> u32
        ensures { result ≡ size_of self.now.code id }
    {
        size_of(self.declarations.definitions(), &self.widths, id)
    }

    /// Whether an id is a type with a shape.
    pub fn has_shape(&self, id: u32) -> bool
        ensures { result ≡ is_some (shape self.now.code id) }
    {
        self.widths.has(id)
    }

    /// How many words the values of a type have; none for a pointer.
    pub fn width_of(&self, id: u32) -> u32
        ensures { result ≡ if_some (shape self.now.code id) 0 width }
    {
        self.widths.of(id)
    }
}
