// Words of a buffer that an image names.

ghost use Rattle.std.specs.Prelude.{◌≡◌, ℕ, ◌<◌, Some, IsTrue, slice_get};
ghost use Rattle.run_buffers.specs.Texts.{IsAscending};
ghost use Rattle.run_buffers.specs.Memory.{words_of};
ghost use Rattle.spirv_run.specs.Shared.{lengths_in, put_word};
ghost use Rattle.spirv_run.specs.Parts.{StandsAt};

use run_buffers::Buffers;
use run_plans::Bound;

/// Whether a buffer stands at a position.
#[inline]
fn is_at(buffers: &Buffers, bound: &Bound, position: usize) -> bool
    ensures at { IsTrue result → StandsAt buffers.now bound.now position }
    ensures ascends { IsAscending buffers.now }
{
    match buffers.as_slice().get(position) {
        Some(buffer) => buffer.set == bound.set && buffer.binding == bound.binding,
        None => false,
    }
}

/// The position of a buffer, if there is one. One where it may stand is tried first.
#[inline]
fn position_of(buffers: &Buffers, bound: &Bound, maybe: usize) -> usize
    ensures at { (position : ℕ) → StandsAt buffers.now bound.now position → StandsAt buffers.now bound.now result }
    ensures ascends { IsAscending buffers.now }
{
    if is_at(buffers, bound, maybe) {
        return maybe;
    }
    buffers.find(bound.set, bound.binding).unwrap_or(0)
}

/// The word at an index of a buffer that is there.
#[inline]
pub fn read_word(buffers: &Buffers, bound: &Bound, maybe: usize, index: u32) -> u32
    ensures { (position : ℕ) → StandsAt buffers.now bound.now position → index < lengths_in buffers.now bound.now.set bound.now.binding
        → slice_get (words_of buffers.now bound.now.set bound.now.binding) index ≡ Some result }
{
    let position = position_of(buffers, bound, maybe);
    buffers.get(position, index as usize).unwrap_or(0)
}

/// Puts a word at an index of a buffer that is there.
#[inline]
pub fn write_word(buffers: &mut Buffers, bound: &Bound, maybe: usize, index: u32, word: u32)
    ensures { (position : ℕ) → StandsAt buffers.old bound.now position → buffers.new ≡ put_word buffers.old bound.now.set bound.now.binding index word }
{
    let position = position_of(buffers, bound, maybe);
    buffers.set(position, index as usize, word);
}
