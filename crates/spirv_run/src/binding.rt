// The buffers that an image asks for, looked up in a memory.

ghost use Rattle.std.specs.Prelude.{◌≡◌, ◌<◌, ◌^◌, None, length, IfSome};
ghost use Rattle.run_buffers.specs.Memory.{words_at};
ghost use Rattle.spirv_run.specs.Shared.{lengths_in};
ghost use Rattle.spirv_run.specs.Parts.{IsShort, AreBound, IsFirstShort};

use run_buffers::Buffers;
use run_plans::Bound;

/// How many words the buffer at a position has.
fn count_at(buffers: &Buffers, position: usize) -> u32
    ensures { result ≡ length (words_at buffers.now position) }
{
    if position >= buffers.as_slice().len() {
        return 0;
    }
    buffers.count(position) as u32
}

/// The position of a buffer and its number of words, if it is there with enough of them.
fn look_up(buffers: &Buffers, bound: &Bound) -> Option<(usize, u32)>
    ensures found { IfSome result (λ pair. (IsShort buffers.now bound.now → ⊥) × (pair.1 ≡ lengths_in buffers.now bound.now.set bound.now.binding) × (lengths_in buffers.now bound.now.set bound.now.binding < 2 ^ 32)) }
    ensures short { result ≡ None → IsShort buffers.now bound.now }
{
    let position = buffers.find(bound.set, bound.binding)?;
    let count = count_at(buffers, position);
    if count < bound.words {
        return None;
    }
    Some((position, count))
}

/// Keeps the positions of buffers and their numbers of words; or finds the first one that is not there, or that has too few
/// words. It takes no memory.
pub fn bind(
    bounds: &[Bound],
    buffers: &Buffers,
    positions: &mut [usize],
    counts: &mut [u32],
) -> Option<Bound>
    requires positions { length positions.old ≡ length bounds.now }
    requires counts { length counts.old ≡ length bounds.now }
    ensures all { result ≡ None → AreBound bounds.now buffers.now counts.new }
    ensures lacking { IfSome result (IsFirstShort bounds.now buffers.now) }
{
    for (n, bound) in bounds.iter().enumerate() {
        match look_up(buffers, bound) {
            Some((position, count)) => {
                positions[n] = position;
                counts[n] = count;
            }
            None => return Some(*bound),
        }
    }
    None
}
