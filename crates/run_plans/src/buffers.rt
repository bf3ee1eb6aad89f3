// The buffers that an image names, in order.

ghost use Rattle.std.specs.Prelude.{◌≡◌, ◌++◌, true, IfOk, OnOk, Some};
ghost use Rattle.spirv_words.specs.Machine.{or_zero, decoration};
ghost use Rattle.image_declarations.specs.Decorations.{literal_of};
ghost use Rattle.image_operands.specs.Marks.{is_buffer};
ghost use Rattle.run_plans.specs.Plans.{needs};
ghost use Rattle.run_rooms.specs.Valid.{IsOfValid};
ghost use Rattle.run_plans.specs.Buffers.{bound_of, bound_if, bounds_at, bounds_in, AreBounds};
ghost use Rattle.run_plans.specs.Grounds.{AreNear};

use crate::base::Bound;
use image_declarations::{Declarations, is_buffer_class};
use image_lookup::Sort;
use spirv_words::{Instruction, Op};
use sqlite_items::Items;
use std::alloc::{AllocError, Global};

/// The literal of the first decoration of an id of a kind, or 0.
pub fn literal_of(declarations: &Declarations, id: u32, kind: u32) -> u32
    ensures { result ≡ or_zero (decoration declarations.now id kind) }
{
    match declarations.decorations().mark(id, kind) {
        Some(mark) => mark.literal,
        None => 0,
    }
}

/// Whether an id is the variable of a buffer.
pub fn is_buffer(declarations: &Declarations, id: u32) -> bool
    ensures { result ≡ is_buffer declarations.now id }
{
    match declarations.sort(id) {
        Sort::Holder => is_buffer_class(declarations.operand(id, 2)),
        _ => false,
    }
}

/// How many words the buffer of a variable needs.
fn needed(declarations: &Declarations, id: u32) -> u32
    requires valid { IsOfValid declarations.now }
    requires near { AreNear declarations.now }
    requires buffer { is_buffer declarations.now id ≡ true }
    ensures { result ≡ needs declarations.now id }
{
    let pointers = declarations.operand(id, 0);
    let end = declarations.extent(declarations.operand(pointers, 2));
    ((end + 3) / 4) as u32
}

/// The buffer of a variable, if it is one of a buffer.
fn bound_if(declarations: &Declarations, id: u32) -> Option<Bound>
    requires valid { IsOfValid declarations.now }
    requires near { AreNear declarations.now }
    ensures { result ≡ bound_if declarations.now id }
{
    if !is_buffer(declarations, id) {
        return None;
    }
    Some(Bound {
        set: literal_of(declarations, id, 34),
        binding: literal_of(declarations, id, 33),
        words: needed(declarations, id),
    })
}

/// Adds the buffer of an instruction, if it is the variable of one.
fn add_bound(
    buffers: &mut Vec<Bound>,
    declarations: &Declarations,
    instruction: &Instruction,
) -> Result<(), AllocError>
    requires valid { IsOfValid declarations.now }
    requires near { AreNear declarations.now }
    ensures { OnOk result (buffers.new.items ≡ buffers.old.items ++ bounds_at declarations.now instruction.now.op instruction.now.operands) }
{
    match (instruction.op, instruction.operands.as_slice()) {
        (Op::Variable, [_, id, ..]) => match bound_if(declarations, *id) {
            Some(bound) => buffers.push(bound)?,
            None => {}
        },
        _ => {}
    }
    Ok(())
}

/// The buffers in the order of the instructions.
fn bounds_of(alloc: Global, declarations: &Declarations) -> Result<Vec<Bound>, AllocError>
    requires valid { IsOfValid declarations.now }
    requires near { AreNear declarations.now }
    ensures { IfOk result (λ buffers. buffers.items ≡ bounds_in declarations.now declarations.now) }
{
    let mut buffers = Vec::new(alloc);
    for instruction in declarations.code() {
        add_bound(&mut buffers, declarations, instruction)?;
    }
    Ok(buffers)
}

/// The buffers of an image, ascending by set and binding; no two buffers of a valid image have one set and binding.
pub fn buffers_of(alloc: Global, declarations: &Declarations) -> Result<Items<Bound>, AllocError>
    requires valid { IsOfValid declarations.now }
    requires near { AreNear declarations.now }
    ensures { IfOk result (AreBounds declarations.now) }
{
    let mut buffers = bounds_of(alloc, declarations)?;
    buffers.sort_unstable();
    Ok(Items::from_vec(buffers))
}
