// A walk through the instructions of an image.

ghost use Rattle.std.specs.Prelude.{◌≡◌, ◌+◌, ◌<◌, ◌^◌, ℕ, suc, List, Some, length, slice_get};
ghost use Rattle.spirv_words.specs.declared.images.Instruction.{Instruction};
ghost use Rattle.image_places.specs.Places.{under_function, under_label};

use spirv_words::{Instruction, Op};

/// Where a walk through an image stands: before the instruction with this number, counted from 0 on, or at the end.
#[derive(Clone, Copy)]
pub struct Cursor {
    /// How many instructions stand before it.
    pub number: usize,
    /// How many words stand before it, those of the header included.
    pub place: usize,
    /// The number of the Function under which it stands, counted from 1 on, or 0.
    pub function: usize,
    /// The number of the Label under which it stands, counted from 1 on, or 0.
    pub block: usize,
}

impl Cursor {
    ghost use Rattle.image_places.specs.Places.{cursor_at};

    /// Before the first instruction.
    pub fn start() -> Cursor
        ensures { (is : List Instruction) → result ≡ cursor_at is 0 }
    {
        Cursor {
            number: 0,
            place: 5,
            function: 0,
            block: 0,
        }
    }

    /// Goes past the instruction before which it stands.
    pub fn pass(&mut self, instruction: &Instruction)
        requires few { self.old.number + 1 < 2 ^ 64 }
        requires short { self.old.place + suc (length instruction.now.operands) < 2 ^ 64 }
        ensures { (is : List Instruction) (k : ℕ) → self.old ≡ cursor_at is k → slice_get is k ≡ Some instruction.now
            → self.new ≡ cursor_at is (suc k) }
    {
        self.number += 1;
        self.place += instruction.operands.len() + 1;
        self.function = under_function(instruction.op, self.number, self.function);
        self.block = under_label(instruction.op, self.number, self.block);
    }
}

fn under_function(op: Op, here: usize, before: usize) -> usize
    ensures { result ≡ under_function (Some op) here before }
{
    match op {
        Op::Function => here,
        Op::FunctionEnd => 0,
        _ => before,
    }
}

fn under_label(op: Op, here: usize, before: usize) -> usize
    ensures { result ≡ under_label (Some op) here before }
{
    match op {
        Op::Label => here,
        Op::FunctionEnd => 0,
        _ => before,
    }
}
